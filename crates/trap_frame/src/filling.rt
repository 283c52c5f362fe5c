//! Takes the bytes of a frame, within what a reader takes in all.

ghost use Rattle.std.specs.Prelude.{◌≡◌, ◌+◌, ◌-◌, ◌^◌, ◌<◌, ◌≤◌, List, ℕ, length, take, drop};
ghost use Rattle.trap_frame.specs.Filling.{FillsBuffer};

use trap_bank::{Source, fill};

/// How many bytes a reader takes at most.
const MOST_BYTES: u64 = 1 << 40;

/// Why no more bytes were taken.
#[derive(Debug, Clone, Copy, PartialEq, Eq)]
pub enum Stop {
    /// The source failed: its count of faults rose.
    Source,
    /// 2^40 bytes were taken, and more input is needed.
    TooLong,
}

/// Fills the buffer between two places from the source, unless the input ends before, and answers
/// how many bytes that are. `used` counts the bytes that were taken, and no others are.
pub fn fill_between<S: Source>(
    source: &mut S,
    buf: &mut [u8],
    start: usize,
    end: usize,
    used: &mut u64,
) -> Result<usize, Stop>
    requires order { start ≤ end }
    requires inside { end ≤ length buf.old }
    requires used { used.old ≤ 2 ^ 40 }
    requires below { (S.stream source.old).given ≤ 2 ^ 62 + 2 ^ 41 }
    ensures taken { (front : List ℕ) × FillsBuffer front (end - start) result used.old used.new
        (S.stream source.old) (S.stream source.new)
        × (take (length front) (drop start buf.new) ≡ front) }
    ensures front { take start buf.new ≡ take start buf.old }
    ensures beyond { drop end buf.new ≡ drop end buf.old }
{
    let room = end - start;
    let most = (room as u64).min(MOST_BYTES - *used) as usize;
    let have = match fill(source, &mut buf[start..start + most], used) {
        Ok(have) => have,
        Err(_) => return Err(Stop::Source),
    };
    if have == most && most < room {
        return Err(Stop::TooLong);
    }
    Ok(have)
}
