//! The pending writes, in memory and in their slots on disk 0.

ghost use Rattle.std.specs.Prelude.{◌≡◌, ◌+◌, ◌-◌, ◌<◌, ◌≤◌, ℕ, ◌∷◌, length, take, max, Some, None};
ghost use Rattle.std.specs.Prelude.{IsTrue, OnOk, OnErr, IfOk, IsErrOf, IfSome, IfNone};
ghost use Rattle.trap_bank.specs.Faults.{Rose};
ghost use Rattle.trap_bank.specs.Called.{CalledTimes, TakesCalls};
ghost use Rattle.trap_bank.specs.Disks.{Differs, Torn};
ghost use Rattle.trap_bank.specs.Calls.{Fits};
ghost use Rattle.trap_bank.specs.Steps.{Moves, OnlyReads};
ghost use Rattle.trap_format.specs.LogDisk.{ring_at};
ghost use Rattle.trap_model.specs.Image.{volume};
ghost use Rattle.trap_stage.specs.Staged.{newest_at, IsStaged};
ghost use Rattle.trap_stage.specs.Slots.{slot_area, SlotHas, last_of};
ghost use Rattle.trap_stage.specs.Found.{IsFound, IsDamagedSlot, IsStage, staged_numbered};

use crate::StageFault;
use crate::disk::{fill_slot, read_slots};
use crate::slots::{held, held_at, parts, slots_len};
use std::alloc::Global;
use std::marker::Model;
use trap_bank::{Bank, DiskFault};
use trap_map::Place;
use trap_model::Geometry;

/// The writes above number `drained`, of which each has a slot of its own. A contract sees them as
/// a list, the newest first.
#[derive(Drop)]
pub struct Stage {
    g: Geometry,
    drained: u64,
    last: u64,
    /// All slots, one after the other as on disk 0.
    slots: Vec<u8>,
}

impl Model for Stage {
    ghost use Rattle.std.specs.Prelude.{◌-◌};
    ghost use Rattle.trap_stage.specs.Slots as seen;
    ghost use Rattle.trap_stage.specs.Held.{writes_held, HoldsWrites};

    ghost Value = { seen.Stage };

    ghost view = { λ t. record {
      g = t.g;
      drained = t.drained;
      pending = writes_held t.g t.slots.items t.drained (t.last - t.drained);
    } };

    ghost invariant = { λ t. HoldsWrites t.g t.drained t.last t.slots.items };
}

impl Stage {
    /// Reads the pending writes from the slots of disk 0, the oldest first. Their numbers are those
    /// above `drained` and up to `last`.
    pub fn mount<B: Bank>(
        alloc: Global,
        bank: &mut B,
        g: &Geometry,
        drained: u64,
        last: u64,
    ) -> Result<Stage, StageFault>
        requires order { drained ≤ last }
        requires most { last ≤ drained + g.now.slots }
        requires there { Fits (B.view bank.old) 0 (ring_at g.now) }
        ensures found { IfOk result (λ stage. IsTrue (B.view bank.old).tells
            → IsFound g.now drained last (B.view bank.old).now.disks stage) }
        ensures numbers { IfOk result (λ stage.
            (stage.g ≡ g.now) × (stage.drained ≡ drained) × (last_of stage ≡ last)) }
        ensures stage { IfOk result (λ stage. IsStage stage) }
        ensures reads { OnlyReads (B.view bank.old) (B.view bank.new) }

        // The first slot that holds no write of the array with its own number.
        ensures damaged { (offset : ℕ) → IsErrOf result (StageFault.Damaged offset)
            → IsTrue (B.view bank.old).tells
            → IsDamagedSlot g.now drained last (B.view bank.old).now.disks offset }
        ensures cause { IsErrOf result StageFault.DiskFault
            → Rose ((B.view bank.old).faults 0) ((B.view bank.new).faults 0) }

        // One read for each slot.
        ensures calls { TakesCalls (last - drained) result (B.view bank.old) (B.view bank.new) }
    {
        let mut slots = vec![in alloc; 0; slots_len(g)]?;
        read_slots(bank, g, drained, last, slots.as_mut_slice())?;
        Ok(Stage {
            g: *g,
            drained,
            last,
            slots,
        })
    }

    /// Writes a further pending write to its slot. It doesn't sync. After a fault any bytes may
    /// stand in the slot, and the write isn't pending.
    pub fn fill<B: Bank>(
        &mut self,
        bank: &mut B,
        seq: u64,
        block: u32,
        fresh: &[u8],
        parity: &[u8],
    ) -> Result<(), DiskFault>
        requires next { seq ≡ last_of self.old + 1 }
        requires free { length self.old.pending < self.old.g.slots }
        requires block { block < volume self.old.g }
        requires fresh { length fresh.now ≡ self.old.g.block }
        requires parity { length parity.now ≡ self.old.g.block }
        requires there { Fits (B.view bank.old) 0 (ring_at self.old.g) }
        ensures ok { OnOk result (self.new ≡ record self.old {
          pending =
              (record { block = block; bytes = fresh.now; parity = parity.now }) ∷ self.old.pending;
        }) }
        ensures written { IsTrue (B.view bank.old).tells → OnOk result (SlotHas self.old.g seq
            (record { block = block; bytes = fresh.now; parity = parity.now })
            (B.view bank.new).now.disks) }
        ensures contents { IsTrue (B.view bank.old).tells
            → Torn (slot_area self.old.g seq) (B.view bank.old).now (B.view bank.new).now }
        ensures sizes { (e : ℕ) → (B.view bank.new).sizes e ≡ (B.view bank.old).sizes e }
        ensures err { OnErr result (self.new ≡ self.old) }
        ensures cause { OnErr result
            (Rose ((B.view bank.old).faults 0) ((B.view bank.new).faults 0)) }

        // One write, and no sync.
        ensures calls { CalledTimes 1 (B.view bank.old) (B.view bank.new) }

        // Stopped at any moment, no byte but those of that one slot has changed.
        ensures any_moment { Moves (B.view bank.old) (B.view bank.new)
            (Differs (slot_area self.old.g seq)) (Differs (slot_area self.old.g seq)) }
    {
        let slots = self.slots.as_mut_slice();
        fill_slot(bank, &self.g, slots, seq, block, fresh, parity)?;
        self.last = seq;
        Ok(())
    }

    /// The newest pending bytes of a place.
    pub fn pending_at(&self, place: Place) -> Option<&[u8]>
        ensures some { IfSome result (λ bytes.
            newest_at self.now.g self.now.pending place.row place.member ≡ Some bytes.now) }
        ensures size { IfSome result (λ bytes. length bytes.now ≡ self.now.g.block) }
        ensures none { IfNone result
            (newest_at self.now.g self.now.pending place.row place.member ≡ None) }
    {
        let mut seq = self.last;
        while self.drained < seq {
            let slot = held(&self.g, self.slots.as_slice(), seq);
            if let Some(bytes) = held_at(&self.g, slot, place) {
                return Some(bytes);
            }
            seq -= 1;
        }
        None
    }

    /// The pending write with a number: its block, the block's bytes, and the parity of its row.
    pub fn slot(&self, seq: u64) -> (u32, &[u8], &[u8])
        requires low { self.now.drained < seq }
        requires high { seq ≤ last_of self.now }
        ensures is { (record { block = result.0; bytes = result.1.now; parity = result.2.now })
            ≡ staged_numbered self.now seq }
        ensures staged { IsStaged self.now.g (staged_numbered self.now seq) }
        ensures block { result.0 < volume self.now.g }
        ensures bytes { length result.1.now ≡ self.now.g.block }
        ensures parity { length result.2.now ≡ self.now.g.block }
    {
        parts(&self.g, held(&self.g, self.slots.as_slice(), seq))
    }

    /// Up to this number, no write is pending.
    pub fn drained(&self) -> u64
        ensures { result ≡ self.now.drained }
    {
        self.drained
    }

    /// The number of the newest write.
    pub fn last(&self) -> u64
        ensures is { result ≡ last_of self.now }
        ensures stage { IsStage self.now }
    {
        self.last
    }

    /// The writes up to this number are no longer pending. Where it is above the last number, it is
    /// the last from then on.
    pub fn forget_to(&mut self, seq: u64)
        ensures g { self.new.g ≡ self.old.g }
        ensures drained { self.new.drained ≡ max self.old.drained seq }
        ensures pending { self.new.pending ≡ take (last_of self.old - seq) self.old.pending }
    {
        self.drained = self.drained.max(seq);
        self.last = self.last.max(seq);
    }
}
