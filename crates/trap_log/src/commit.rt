//! The commit of a write: its record, its slot, and then the head that names both.

ghost use Rattle.std.specs.Prelude.{◌≡◌, ℕ, length, OnOk, OnErr};
ghost use Rattle.trap_bank.specs.Called.{TakesCalls};
ghost use Rattle.trap_bank.specs.Faults.{Rose};
ghost use Rattle.trap_bank.specs.Steps.{Moves};
ghost use Rattle.trap_model.specs.ArrayStep.{added};
ghost use Rattle.trap_log.specs.Areas.{Touches, InCommit};
ghost use Rattle.trap_log.specs.Calls.{SameArray, AtAnyMoment, running};
ghost use Rattle.trap_log.specs.Committing.{CommitsEntry, KeepsEntries, commit_calls};
ghost use Rattle.trap_log.specs.Log.{with_index};
ghost use Rattle.trap_log.specs.NextHead.{entry_for, next_rec};
ghost use Rattle.trap_log.specs.Ready.{CanCommit};

use crate::log::{Log, value_of};
use trap_bank::{Bank, DiskFault};
use trap_format::Head;
use trap_index::Index;
use trap_model::LogRec;
use trap_mount::ring_of;

impl Log {
    /// Commits the next entry, and adds its record to the index. The caller knows that there is
    /// room for it, and has its record, as header and as bytes, and the parity of its row.
    pub fn commit<B: Bank>(
        &mut self,
        index: &mut Index,
        bank: &mut B,
        rec: &LogRec,
        bytes: &[u8],
        parity: &[u8],
        spelled: &[u8],
    ) -> Result<(), DiskFault>
        requires can { CanCommit (with_index self.old index.old) (B.view bank.old)
            (entry_for rec.now.time rec.now.block bytes.now) parity.now spelled.now }
        requires rec { rec.now ≡ next_rec self.old.head rec.now.time rec.now.block
            (length spelled.now) }
        ensures committed { OnOk result (CommitsEntry (with_index self.old index.old)
            (with_index self.new index.new) rec.now bytes.now parity.now (length spelled.now)
            (B.view bank.old) (B.view bank.new)) }
        ensures stays { OnErr result (KeepsEntries (with_index self.old index.old)
            (with_index self.new index.new)) }
        ensures same_array { SameArray (running (with_index self.old index.old))
            (running (with_index self.new index.new)) }
        ensures sizes { (e : ℕ) → (B.view bank.new).sizes e ≡ (B.view bank.old).sizes e }
        ensures touches { Touches (InCommit (running (with_index self.old index.old)))
            (B.view bank.old) (B.view bank.new) }
        ensures cause { OnErr result (Rose ((B.view bank.old).faults 0)
            ((B.view bank.new).faults 0)) }
        ensures calls { TakesCalls (commit_calls self.old (length spelled.now)) result
            (B.view bank.old) (B.view bank.new) }

        // Stopped at any moment, the disks hold the state without the entry or the one with it.
        ensures any_moment { Moves (B.view bank.old) (B.view bank.new)
            (AtAnyMoment (running (with_index self.old index.old)) (B.view bank.old)
            (λ s. added s (entry_for rec.now.time rec.now.block bytes.now)))
            (AtAnyMoment (running (with_index self.old index.old)) (B.view bank.old)
            (λ s. added s (entry_for rec.now.time rec.now.block bytes.now))) }
    {
        let next = Head {
            last: self.head.last + 1,
            end_off: self.head.end_off + spelled.len() as u64,
            last_time: rec.time,
            ..self.head
        };
        let value = value_of(&next);
        let ring = ring_of(&self.g);
        // After the window, and in a slot that is free: nothing that the old head names.
        ring.append(bank, self.head.first_off, self.head.end_off, spelled)?;
        self.stage.fill(bank, next.last, rec.block, bytes, parity)?;
        // Record and slot are stable before the head names them.
        bank.sync(0)?;
        // The entry is committed with this put.
        self.cell.put(bank, &value)?;
        self.head = next;
        index.add(rec);
        Ok(())
    }
}
