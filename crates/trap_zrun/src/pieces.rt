//! Pieces of a spelling or a block, written one after the other.

ghost use Rattle.std.specs.Prelude.{◌≡◌, ◌+◌, ◌^◌, ◌<◌, ◌≤◌, ◌++◌, length, take, replicate};
ghost use Rattle.trap_model.specs.ZeroRun.{spelling, contents};

use trap_block::put;

// Writes zero bytes at a place, and answers the place after them.
fn put_zeros(out: &mut [u8], at: usize, count: usize) -> usize
    requires { at + count ≤ length out.old }
    ensures end { result ≡ at + count }
    ensures so_far { take result out.new ≡ take at out.old ++ replicate count 0 }
{
    out[at..at + count].fill(0);
    at + count
}

/// Writes a segment at a place, and answers the place after it.
pub fn put_segment(out: &mut [u8], at: usize, zeros: usize, literal: &[u8]) -> usize
    requires zeros { zeros < 2 ^ 16 }
    requires literal { length literal.now < 2 ^ 16 }
    requires room { at + 4 + length literal.now ≤ length out.old }
    ensures end { result ≡ at + 4 + length literal.now }
    ensures so_far { take result out.new
        ≡ take at out.old ++ spelling (record { zeros = zeros; literal = literal.now }) }
{
    let end = put(out, at, &(zeros as u16).to_be_bytes());
    let end = put(out, end, &(literal.len() as u16).to_be_bytes());
    put(out, end, literal)
}

/// Writes the contents of a segment at a place, and answers the place after them.
pub fn put_contents(out: &mut [u8], at: usize, zeros: usize, literal: &[u8]) -> usize
    requires { at + (zeros + length literal.now) ≤ length out.old }
    ensures end { result ≡ at + (zeros + length literal.now) }
    ensures so_far { take result out.new
        ≡ take at out.old ++ contents (record { zeros = zeros; literal = literal.now }) }
{
    let end = put_zeros(out, at, zeros);
    put(out, end, literal)
}
