//! What a run says of itself.

ghost use Rattle.std.specs.Prelude.{◌≡◌, ◌+◌, ◌≤◌, ◌++◌, length, take, codes, decimal};
ghost use Rattle.trap_apply.specs.Summary.{summary_line};

use trap_script::text::{put, put_number};

/// The longest line: 40 bytes, and five numbers of at most 20 digits.
pub const SUMMARY_BYTES: usize = 140;

/// What became of the frames of a stream.
#[derive(Clone, Copy, Debug, PartialEq, Eq)]
pub struct Summary {
    /// The number of the last frame applied.
    pub applied: u64,
    /// How many frames the replica answered.
    pub frames: u64,
    /// How many frames wait at the end.
    pub held: u32,
    /// How many were applied or held before.
    pub repeats: u64,
    /// How many lay beyond the window.
    pub beyond: u64,
}

/// Writes a word and a number at a place, and answers the place after them.
pub fn put_word_number(out: &mut [u8], at: usize, word: &[u8], number: u64) -> usize
    requires { at + length word.now + 20 ≤ length out.old }
    ensures end { result ≤ at + length word.now + 20 }
    ensures so_far { take result out.new ≡ take at out.old ++ (word.now ++ decimal number) }
{
    let at = put(out, at, word);
    put_number(out, at, number)
}

/// Writes the line of a summary at the front of `out`, and answers its length.
pub fn write_summary(summary: &Summary, out: &mut [u8]) -> usize
    requires room { 140 ≤ length out.old }
    ensures end { result ≤ 140 }
    ensures line { take result out.new ≡ summary_line summary.now }
{
    let at = put_word_number(out, 0, b"applied ", summary.applied);
    let at = put_word_number(out, at, b" frames ", summary.frames);
    let at = put_word_number(out, at, b" held ", u64::from(summary.held));
    let at = put_word_number(out, at, b" repeats ", summary.repeats);
    let at = put_word_number(out, at, b" beyond ", summary.beyond);
    put(out, at, b"\n")
}
