//! The slots of disk 0: read into memory, and filled.

ghost use Rattle.std.specs.Prelude.{◌≡◌, ◌+◌, ◌-◌, ◌*◌, ◌<◌, ◌≤◌, ℕ, length};
ghost use Rattle.std.specs.Prelude.{IsTrue, OnOk, OnErr, IsErrOf};
ghost use Rattle.trap_bank.specs.Faults.{Rose};
ghost use Rattle.trap_bank.specs.Called.{CalledTimes, TakesCalls};
ghost use Rattle.trap_bank.specs.Calls.{Fits};
ghost use Rattle.trap_bank.specs.Disks.{Differs, Torn, region};
ghost use Rattle.trap_bank.specs.Steps.{Moves, OnlyReads};
ghost use Rattle.trap_format.specs.LogDisk.{slot_len, ring_at};
ghost use Rattle.trap_model.specs.Image.{volume};
ghost use Rattle.trap_stage.specs.Slots.{slot_start, slot_area, slot_bytes, SlotHas};
ghost use Rattle.trap_stage.specs.Held.{slot_held, staged_held, SpellsNumber, AllSpell};
ghost use Rattle.trap_stage.specs.Mounting.{AreSlotsRead, OthersStay};
ghost use Rattle.trap_stage.specs.Found.{IsSlot, IsDamagedSlot};

use crate::StageFault;
use crate::slots::{held, is_spelled, slot_len, slot_offset, spell};
use trap_bank::{Bank, DiskFault};
use trap_format::layout::SLOTS_AT;
use trap_model::Geometry;

/// Reads the slot of one number.
fn read_slot<B: Bank>(
    bank: &mut B,
    g: &Geometry,
    seq: u64,
    slots: &mut [u8],
) -> Result<(), StageFault>
    requires size { length slots.old ≡ g.now.slots * slot_len g.now }
    requires there { Fits (B.view bank.old) 0 (ring_at g.now) }
    ensures read { IsTrue (B.view bank.old).tells → OnOk result
        (slot_held g.now slots.new seq
        ≡ region (B.view bank.old).now.disks 0 (slot_start g.now seq) (slot_len g.now)) }
    ensures spelled { OnOk result (SpellsNumber g.now seq (slot_held g.now slots.new seq)) }
    ensures block { OnOk result ((staged_held g.now slots.new seq).block < volume g.now) }
    ensures others { OthersStay g.now seq slots.old slots.new }
    ensures damaged { (offset : ℕ) → IsErrOf result (StageFault.Damaged offset)
        → IsTrue (B.view bank.old).tells
        → (IsSlot g.now seq (B.view bank.old).now.disks → ⊥)
        × (offset ≡ slot_start g.now seq) }
    ensures reads { OnlyReads (B.view bank.old) (B.view bank.new) }
    ensures cause { IsErrOf result StageFault.DiskFault
        → Rose ((B.view bank.old).faults 0) ((B.view bank.new).faults 0) }
    ensures calls { CalledTimes 1 (B.view bank.old) (B.view bank.new) }
{
    let at = slot_offset(g, seq);
    let offset = SLOTS_AT + at as u64;
    bank.read(0, offset, &mut slots[at..at + slot_len(g)])?;
    if !is_spelled(g, seq, held(g, slots, seq)) {
        return Err(StageFault::Damaged { offset });
    }
    Ok(())
}

/// Reads the slots of the numbers above `drained` and up to `last`, the oldest first.
pub(crate) fn read_slots<B: Bank>(
    bank: &mut B,
    g: &Geometry,
    drained: u64,
    last: u64,
    slots: &mut [u8],
) -> Result<(), StageFault>
    requires order { drained ≤ last }
    requires most { last ≤ drained + g.now.slots }
    requires size { length slots.old ≡ g.now.slots * slot_len g.now }
    requires there { Fits (B.view bank.old) 0 (ring_at g.now) }
    ensures read { IsTrue (B.view bank.old).tells
        → OnOk result (AreSlotsRead g.now slots.new drained last (B.view bank.old).now.disks) }
    ensures spelled { OnOk result (AllSpell g.now slots.new drained last) }
    ensures blocks { OnOk result ((q : ℕ) → drained < q → q ≤ last
        → (staged_held g.now slots.new q).block < volume g.now) }
    ensures damaged { (offset : ℕ) → IsErrOf result (StageFault.Damaged offset)
        → IsTrue (B.view bank.old).tells
        → IsDamagedSlot g.now drained last (B.view bank.old).now.disks offset }
    ensures reads { OnlyReads (B.view bank.old) (B.view bank.new) }
    ensures cause { IsErrOf result StageFault.DiskFault
        → Rose ((B.view bank.old).faults 0) ((B.view bank.new).faults 0) }
    ensures calls { TakesCalls (last - drained) result (B.view bank.old) (B.view bank.new) }
{
    for older in drained..last {
        read_slot(bank, g, older + 1, slots)?;
    }
    Ok(())
}

/// Spells a write into the slot of its number, in memory and on disk 0. It doesn't sync.
pub(crate) fn fill_slot<B: Bank>(
    bank: &mut B,
    g: &Geometry,
    slots: &mut [u8],
    seq: u64,
    block: u32,
    fresh: &[u8],
    parity: &[u8],
) -> Result<(), DiskFault>
    requires size { length slots.old ≡ g.now.slots * slot_len g.now }
    requires fresh { length fresh.now ≡ g.now.block }
    requires parity { length parity.now ≡ g.now.block }
    requires there { Fits (B.view bank.old) 0 (ring_at g.now) }
    ensures held { slot_held g.now slots.new seq
        ≡ slot_bytes seq (record { block = block; bytes = fresh.now; parity = parity.now }) }
    ensures others { OthersStay g.now seq slots.old slots.new }
    ensures written { IsTrue (B.view bank.old).tells → OnOk result (SlotHas g.now seq
        (record { block = block; bytes = fresh.now; parity = parity.now })
        (B.view bank.new).now.disks) }
    ensures contents { IsTrue (B.view bank.old).tells
        → Torn (slot_area g.now seq) (B.view bank.old).now (B.view bank.new).now }
    ensures sizes { (e : ℕ) → (B.view bank.new).sizes e ≡ (B.view bank.old).sizes e }
    ensures cause { OnErr result (Rose ((B.view bank.old).faults 0) ((B.view bank.new).faults 0)) }
    ensures calls { CalledTimes 1 (B.view bank.old) (B.view bank.new) }
    ensures any_moment { Moves (B.view bank.old) (B.view bank.new)
        (Differs (slot_area g.now seq)) (Differs (slot_area g.now seq)) }
{
    let at = slot_offset(g, seq);
    let slot = &mut slots[at..at + slot_len(g)];
    spell(seq, block, fresh, parity, slot);
    // No head names the write yet: it is put after the caller's sync.
    bank.write(0, SLOTS_AT + at as u64, slot)?;
    Ok(())
}
