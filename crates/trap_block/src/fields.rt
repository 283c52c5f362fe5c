//! Big-endian numbers at a place in a list of bytes.

ghost use Rattle.std.specs.Prelude.{◌≡◌, ◌+◌, ◌≤◌, length, slice_range};
ghost use Rattle.std.specs.Int.{w16, w32, w64, to_be_bytes};
ghost use Rattle.trap_block.specs.Fields.{put_over};

use byteorder::{BigEndian, ByteOrder};

/// The number of the two bytes from the offset `at` on.
pub fn get_u16(bytes: &[u8], at: usize) -> u16
    requires { at + 2 ≤ length bytes.now }
    ensures { to_be_bytes w16 result ≡ slice_range bytes.now at (at + 2) }
{
    BigEndian::read_u16(&bytes[at..at + 2])
}

/// The number of the four bytes from the offset `at` on.
pub fn get_u32(bytes: &[u8], at: usize) -> u32
    requires { at + 4 ≤ length bytes.now }
    ensures { to_be_bytes w32 result ≡ slice_range bytes.now at (at + 4) }
{
    BigEndian::read_u32(&bytes[at..at + 4])
}

/// The number of the eight bytes from the offset `at` on.
pub fn get_u64(bytes: &[u8], at: usize) -> u64
    requires { at + 8 ≤ length bytes.now }
    ensures { to_be_bytes w64 result ≡ slice_range bytes.now at (at + 8) }
{
    BigEndian::read_u64(&bytes[at..at + 8])
}

/// Writes the number over the two bytes from the offset `at` on.
pub fn put_u16(bytes: &mut [u8], at: usize, v: u16)
    requires { at + 2 ≤ length bytes.old }
    ensures { bytes.new ≡ put_over at (to_be_bytes w16 v) bytes.old }
{
    BigEndian::write_u16(&mut bytes[at..at + 2], v);
}

/// Writes the number over the four bytes from the offset `at` on.
pub fn put_u32(bytes: &mut [u8], at: usize, v: u32)
    requires { at + 4 ≤ length bytes.old }
    ensures { bytes.new ≡ put_over at (to_be_bytes w32 v) bytes.old }
{
    BigEndian::write_u32(&mut bytes[at..at + 4], v);
}

/// Writes the number over the eight bytes from the offset `at` on.
pub fn put_u64(bytes: &mut [u8], at: usize, v: u64)
    requires { at + 8 ≤ length bytes.old }
    ensures { bytes.new ≡ put_over at (to_be_bytes w64 v) bytes.old }
{
    BigEndian::write_u64(&mut bytes[at..at + 8], v);
}
