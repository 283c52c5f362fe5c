//! Pieces of a list of bytes, at its front, inside it and at its end.

ghost use Rattle.std.specs.Prelude.{◌≡◌, ◌↔◌, ◌+◌, ◌-◌, ◌<◌, ◌≤◌, [], ◌∷◌, length, take, drop};
ghost use Rattle.std.specs.Prelude.{replicate, IsTrue};
ghost use Rattle.trap_block.specs.Fields.{put_over};

use trap_block::is_zero;

/// Whether the bytes begin with these.
pub(crate) fn begins_with(bytes: &[u8], front: &[u8]) -> bool
    ensures { IsTrue result ↔ (take (length front.now) bytes.now ≡ front.now) }
{
    bytes.starts_with(front)
}

/// Whether all bytes from a place on are zero.
pub(crate) fn ends_in_zeros(bytes: &[u8], at: usize) -> bool
    requires { at ≤ length bytes.now }
    ensures { IsTrue result ↔ (drop at bytes.now ≡ replicate (length bytes.now - at) 0) }
{
    is_zero(&bytes[at..])
}

/// Writes a byte.
pub(crate) fn put_byte(out: &mut [u8], at: usize, byte: u8)
    requires { at < length out.old }
    ensures { out.new ≡ put_over at (byte ∷ []) out.old }
{
    out[at] = byte;
}

/// Writes bytes from a place on.
pub fn put_bytes(out: &mut [u8], at: usize, bytes: &[u8])
    requires { at + length bytes.now ≤ length out.old }
    ensures { out.new ≡ put_over at bytes.now out.old }
{
    out[at..at + bytes.len()].copy_from_slice(bytes);
}
