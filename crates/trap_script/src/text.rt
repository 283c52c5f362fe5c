//! Texts that are written piece after piece.

ghost use Rattle.std.specs.Prelude.{◌≡◌, ◌+◌, ◌≤◌, ◌++◌, length, take, decimal};

use itoa::Buffer;
pub use trap_block::put;

/// Writes the number in decimal digits, at most twenty.
pub fn put_number(out: &mut [u8], at: usize, number: u64) -> usize
    requires { at + 20 ≤ length out.old }
    ensures end { result ≤ at + 20 }
    ensures so_far { take result out.new ≡ take at out.old ++ decimal number }
{
    let mut digits = Buffer::new();
    put(out, at, digits.format(number).as_bytes())
}
