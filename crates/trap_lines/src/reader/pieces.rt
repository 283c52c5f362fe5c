//! Pieces of input, and the places of lines in them.

ghost use Rattle.std.specs.Prelude.{◌≡◌, ◌+◌, ◌^◌, ◌<◌, ◌≤◌, ◌==◌, ◌++◌, length, take, position};
ghost use Rattle.std.specs.Prelude.{IfOk, IfErr};
ghost use Rattle.trap_bank.specs.Stream.{Gave};
ghost use Rattle.trap_lines.specs.Taking.{TakesNone};

use crate::ReadFault;
use memchr::memchr;
use trap_bank::Source;

// How many bytes a reader takes at most.
const MOST_BYTES: u64 = 1 << 40;

const LINE_FEED: u8 = b'\n';

// Where the first line feed is.
pub fn find_line_feed(bytes: &[u8]) -> Option<usize>
    ensures { result ≡ position (λ byte. byte == 10) bytes.now }
{
    memchr(LINE_FEED, bytes)
}

// Places the piece after the first `len` bytes of the line, if it fits.
pub fn keep(line: &mut [u8], len: usize, piece: &[u8])
    ensures { len + length piece.now ≤ length line.old
        → take (len + length piece.now) line.new ≡ take len line.old ++ piece.now }
{
    if len <= line.len() && piece.len() <= line.len() - len {
        line[len..len + piece.len()].copy_from_slice(piece);
    }
}

// Takes the next piece, of no more bytes than may still be taken.
pub fn take_some<S: Source>(source: &mut S, chunk: &mut [u8], used: u64) -> Result<usize, ReadFault>
    requires room { 0 < length chunk.old }
    requires used { used ≤ 2 ^ 40 }
    requires below { (S.stream source.old).given < 2 ^ 63 }
    ensures ok { IfOk result (λ count. Gave (take count chunk.new) count
        (S.stream source.old) (S.stream source.new)) }
    ensures bound { IfOk result (λ count. count ≤ length chunk.old) }
    ensures most { IfOk result (λ count. used + count ≤ 2 ^ 40) }
    ensures err { IfErr result (λ fault. TakesNone fault used (S.stream source.old)
        (S.stream source.new)) }
    ensures faults { (S.stream source.old).faults ≤ (S.stream source.new).faults }
{
    if used >= MOST_BYTES {
        return Err(ReadFault::TooLong);
    }
    let most = (chunk.len() as u64).min(MOST_BYTES - used) as usize;
    match source.take(&mut chunk[..most]) {
        Ok(count) => Ok(count),
        Err(_) => Err(ReadFault::Source),
    }
}
