//! A member's disk: its size, and its header.

ghost use Rattle.std.specs.Prelude.{◌≡◌, ◌≢◌, ℕ, IfSome, IfNone};
ghost use Rattle.trap_format.specs.MemberDisk.{member_size, member_header};

use crate::layout::MEMBER_HEADER_BYTES;
use crate::pieces::{begins_with, ends_in_zeros, put_byte, put_bytes};
use trap_block::{get_u64, put_u64};
use trap_model::Geometry;

/// The magic bytes.
const MAGIC: [u8; 4] = [b'T', b'R', b'P', b'M'];

// Where the array's id, the member's number and the zeros begin in the header.
const ID_AT: usize = 4;

const MEMBER_AT: usize = 12;

const ZEROS_AT: usize = 13;

/// The size of a member's disk in bytes.
pub fn member_len(g: &Geometry) -> u64
    ensures { result ≡ member_size g.now }
{
    MEMBER_HEADER_BYTES + g.rows as u64 * g.block as u64
}

/// Writes the header of a member: the array's id, and which member it is.
pub fn spell_member(id: u64, member: u8, out: &mut [u8; 16])
    ensures { out.new ≡ member_header id member }
{
    put_bytes(out, 0, &MAGIC);
    put_u64(out, ID_AT, id);
    put_byte(out, MEMBER_AT, member);
    put_bytes(out, ZEROS_AT, &[0; 3]);
}

/// The id and the member of the header, where the bytes are one.
pub fn read_member(bytes: &[u8; 16]) -> Option<(u64, u8)>
    ensures some { IfSome result (λ read. bytes.now ≡ member_header read.0 read.1) }
    ensures none { IfNone result ((id member : ℕ) → bytes.now ≢ member_header id member) }
{
    if !begins_with(bytes, &MAGIC) || !ends_in_zeros(bytes, ZEROS_AT) {
        return None;
    }
    Some((get_u64(bytes, ID_AT), bytes[MEMBER_AT]))
}
