//! The slots in memory, one after the other as on disk 0: where each begins, and what it holds.

ghost use Rattle.std.specs.Prelude.{◌≡◌, ◌↔◌, ◌+◌, ◌*◌, ◌^◌, ◌<◌, ◌≤◌, length, Some, None};
ghost use Rattle.std.specs.Prelude.{IsTrue, IfSome, IfNone};
ghost use Rattle.trap_format.specs.LogDisk.{slot_len};
ghost use Rattle.trap_model.specs.Image.{volume};
ghost use Rattle.trap_stage.specs.Staged.{staged_at};
ghost use Rattle.trap_stage.specs.Slots.{slot_bytes};
ghost use Rattle.trap_stage.specs.Held.{slot_offset, slot_held, staged_from, SpellsNumber};

use trap_block::{get_u32, get_u64, put_u32, put_u64};
use trap_format::layout::SLOT_NUMBERS_BYTES;
use trap_format::put_bytes;
use trap_map::{Place, parity_of, place_of};
use trap_model::Geometry;

/// Where a slot's block number is, after the write's number.
const BLOCK_AT: usize = 8;

/// Where a slot's contents are: the block's bytes, and then the parity of its row.
const CONTENTS_AT: usize = SLOT_NUMBERS_BYTES as usize;

/// How many bytes a slot has.
pub(crate) fn slot_len(g: &Geometry) -> usize
    ensures len { result ≡ slot_len g.now }
    ensures most { result ≤ 8204 }
{
    CONTENTS_AT + 2 * g.block as usize
}

/// How many bytes all slots have.
pub(crate) fn slots_len(g: &Geometry) -> usize
    ensures { result ≡ g.now.slots * slot_len g.now }
{
    g.slots as usize * slot_len(g)
}

/// Where the slot of a number begins.
pub(crate) fn slot_offset(g: &Geometry, seq: u64) -> usize
    ensures at { result ≡ slot_offset g.now seq }
    ensures room { result + slot_len g.now ≤ g.now.slots * slot_len g.now }
    ensures most { result < 2 ^ 20 }
{
    (seq % g.slots as u64) as usize * slot_len(g)
}

/// The bytes of a number's slot.
pub(crate) fn held<'a>(g: &Geometry, slots: &'a [u8], seq: u64) -> &'a [u8]
    requires size { length slots.now ≡ g.now.slots * slot_len g.now }
    ensures is { result.now ≡ slot_held g.now slots.now seq }
    ensures len { length result.now ≡ slot_len g.now }
{
    let at = slot_offset(g, seq);
    &slots[at..at + slot_len(g)]
}

/// Spells a write with its number.
pub(crate) fn spell(seq: u64, block: u32, fresh: &[u8], parity: &[u8], slot: &mut [u8])
    requires contents { length parity.now ≡ length fresh.now }
    requires slot { length slot.old ≡ 12 + 2 * length fresh.now }
    ensures { slot.new
        ≡ slot_bytes seq (record { block = block; bytes = fresh.now; parity = parity.now }) }
{
    put_u64(slot, 0, seq);
    put_u32(slot, BLOCK_AT, block);
    put_bytes(slot, CONTENTS_AT, fresh);
    put_bytes(slot, CONTENTS_AT + fresh.len(), parity);
}

/// Whether the bytes spell a write of the array with this number.
pub(crate) fn is_spelled(g: &Geometry, seq: u64, slot: &[u8]) -> bool
    requires { length slot.now ≡ slot_len g.now }
    ensures spelled { IsTrue result ↔ SpellsNumber g.now seq slot.now }
    ensures block { IsTrue result → (staged_from g.now slot.now).block < volume g.now }
{
    get_u64(slot, 0) == seq && get_u32(slot, BLOCK_AT) < g.volume()
}

/// The block of the write in a slot, the block's bytes, and the parity of its row.
pub(crate) fn parts<'a>(g: &Geometry, slot: &'a [u8]) -> (u32, &'a [u8], &'a [u8])
    requires { length slot.now ≡ slot_len g.now }
    ensures is { (record { block = result.0; bytes = result.1.now; parity = result.2.now })
        ≡ staged_from g.now slot.now }
    ensures bytes { length result.1.now ≡ g.now.block }
    ensures parity { length result.2.now ≡ g.now.block }
{
    let end = CONTENTS_AT + g.block as usize;
    (
        get_u32(slot, BLOCK_AT),
        &slot[CONTENTS_AT..end],
        &slot[end..],
    )
}

/// What the write in a slot holds for a place.
pub(crate) fn held_at<'a>(g: &Geometry, slot: &'a [u8], place: Place) -> Option<&'a [u8]>
    requires size { length slot.now ≡ slot_len g.now }
    requires block { (staged_from g.now slot.now).block < volume g.now }
    ensures some { IfSome result (λ bytes.
        staged_at g.now (staged_from g.now slot.now) place.row place.member ≡ Some bytes.now) }
    ensures size { IfSome result (λ bytes. length bytes.now ≡ g.now.block) }
    ensures none { IfNone result
        (staged_at g.now (staged_from g.now slot.now) place.row place.member ≡ None) }
{
    let (block, bytes, parity) = parts(g, slot);
    let here = place_of(g, block);
    if place.row != here.row {
        None
    } else if place.member == here.member {
        Some(bytes)
    } else if place.member == parity_of(g, place.row) {
        Some(parity)
    } else {
        None
    }
}
