//! A buffer filled from a source, however it cuts the bytes.

ghost use Rattle.std.specs.Prelude.{◌≡◌, ◌+◌, ◌^◌, ◌<◌, ◌≤◌, List, ℕ, length, take, drop, IfOk};
ghost use Rattle.std.specs.Prelude.{OnErr};
ghost use Rattle.trap_bank.specs.Faults.{Rose};
ghost use Rattle.trap_bank.specs.Stream.{Gave, GaveNothing};
ghost use Rattle.trap_bank.specs.Filling.{FillsFrom};

use crate::{Failed, Source};

/// Takes the next piece into the buffer from a place on.
fn take_piece<S: Source>(source: &mut S, buf: &mut [u8], at: usize) -> Result<usize, Failed>
    requires room { at < length buf.old }
    requires below { (S.stream source.old).given < 2 ^ 63 }
    ensures ok { IfOk result (λ count. Gave (take count (drop at buf.new)) count
        (S.stream source.old) (S.stream source.new)) }
    ensures bound { IfOk result (λ count. at + count ≤ length buf.old) }
    ensures front { take at buf.new ≡ take at buf.old }
    ensures faults { (S.stream source.old).faults ≤ (S.stream source.new).faults }
    ensures err { OnErr result (GaveNothing (S.stream source.old) (S.stream source.new)) }
    ensures cause { OnErr result
        (Rose (S.stream source.old).faults (S.stream source.new).faults) }
{
    source.take(&mut buf[at..])
}

/// Fills the buffer from the source, unless the input ends before, and answers how many bytes came.
/// `used` counts those that were taken, also before a failure, and no others are.
pub fn fill<S: Source>(source: &mut S, buf: &mut [u8], used: &mut u64) -> Result<usize, Failed>
    requires counted { used.old + length buf.old < 2 ^ 64 }
    requires below { (S.stream source.old).given + length buf.old ≤ 2 ^ 63 }
    ensures fills { (bytes : List ℕ) × FillsFrom bytes result buf.new used.old used.new
        (S.stream source.old) (S.stream source.new) }
{
    let mut at = 0;
    'pieces: while at < buf.len() {
        let count = take_piece(source, buf, at)?;
        if count == 0 {
            return Ok(at);
        }
        at += count;
        *used += count as u64;
    }
    Ok(at)
}
