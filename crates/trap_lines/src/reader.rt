//! A reader of lines. It takes large pieces, keeps one line, and takes no memory after it is made.

ghost use Rattle.std.specs.Prelude.{◌+◌, ◌-◌, ◌^◌, ◌<◌, ◌≤◌, vec_len};

mod finding;
mod pieces;

/// A reader of lines: what was taken from a source and isn't passed over yet, and the line found
/// last.
#[derive(Debug, Drop)]
pub struct LineReader {
    chunk: Vec<u8>,
    at: usize,
    end: usize,
    line: Vec<u8>,
    used: u64,
    ghost ordered: { at ≤ end },
    ghost within: { end ≤ vec_len chunk },
    ghost has_room: { 0 < vec_len chunk },
    ghost at_most: { used + (end - at) ≤ 2 ^ 40 },
}
