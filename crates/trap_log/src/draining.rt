//! The drain: pending writes onto the members.

ghost use Rattle.std.specs.Prelude.{◌≡◌, ◌≤◌, ◌-◌, ℕ, [], take, OnOk, OnErr, IfErr};
ghost use Rattle.trap_bank.specs.Called.{TakesCalls};
ghost use Rattle.trap_bank.specs.Steps.{Moves};
ghost use Rattle.trap_index.specs.Indexed.{Indexed};
ghost use Rattle.trap_log.specs.Areas.{Touches, InDrain};
ghost use Rattle.trap_log.specs.Calls.{SameLog, AtAnyMoment, running};
ghost use Rattle.trap_log.specs.Draining.{DrainsLog, MakesRoom, IsDrainFault, calls_for_room};
ghost use Rattle.trap_log.specs.Draining.{calls_to_drain};
ghost use Rattle.trap_log.specs.Log.{with_index};
ghost use Rattle.trap_log.specs.Ready.{CanDrain};

use crate::DrainFault;
use crate::log::{Log, value_of};
use trap_bank::Bank;
use trap_format::Head;
use trap_raid::Raid;

impl Log {
    /// Puts the pending writes up to a number onto the members, and then the head that says so.
    pub fn drain<B: Bank>(&mut self, bank: &mut B, upto: u64) -> Result<(), DrainFault>
        requires can { CanDrain self.old (B.view bank.old) }
        requires low { self.old.head.drained ≤ upto }
        requires high { upto ≤ self.old.head.last }
        ensures drained { OnOk result (DrainsLog self.old self.new upto
            (take (self.old.head.last - upto) self.old.stage.pending)
            (B.view bank.old) (B.view bank.new)) }
        ensures head_stays { OnErr result (self.new.head ≡ self.old.head) }
        ensures same_log { SameLog self.old self.new }
        ensures sizes { (e : ℕ) → (B.view bank.new).sizes e ≡ (B.view bank.old).sizes e }
        ensures touches { (i : Indexed) → Touches (InDrain (running (with_index self.old i)))
            (B.view bank.old) (B.view bank.new) }
        ensures cause { (i : Indexed) → IfErr result
            (IsDrainFault (running (with_index self.old i)) (B.view bank.old) (B.view bank.new)) }
        ensures calls { TakesCalls (calls_to_drain self.old upto) result
            (B.view bank.old) (B.view bank.new) }

        // Stopped at any moment, the disks hold the same state. The index is the caller's: this
        // holds with whichever.
        ensures any_moment { (i : Indexed) → Moves (B.view bank.old) (B.view bank.new)
            (AtAnyMoment (running (with_index self.old i)) (B.view bank.old) (λ s. s))
            (AtAnyMoment (running (with_index self.old i)) (B.view bank.old) (λ s. s)) }
    {
        let next = Head {
            drained: upto,
            ..self.head
        };
        let value = value_of(&next);
        let raid = Raid::new(self.g, self.head.lost, self.head.rebuilt);
        // The writes are on the members before the head has them drained, and their slots may be
        // filled again.
        raid.drain(bank, &self.stage, upto)?;
        self.cell.put(bank, &value)?;
        self.stage.forget_to(upto);
        self.head = next;
        Ok(())
    }

    /// Puts all pending writes onto the members, likewise.
    pub fn drain_all<B: Bank>(&mut self, bank: &mut B) -> Result<(), DrainFault>
        requires can { CanDrain self.old (B.view bank.old) }
        ensures drained { OnOk result (DrainsLog self.old self.new self.old.head.last []
            (B.view bank.old) (B.view bank.new)) }
        ensures head_stays { OnErr result (self.new.head ≡ self.old.head) }
        ensures same_log { SameLog self.old self.new }
        ensures sizes { (e : ℕ) → (B.view bank.new).sizes e ≡ (B.view bank.old).sizes e }
        ensures touches { (i : Indexed) → Touches (InDrain (running (with_index self.old i)))
            (B.view bank.old) (B.view bank.new) }
        ensures cause { (i : Indexed) → IfErr result
            (IsDrainFault (running (with_index self.old i)) (B.view bank.old) (B.view bank.new)) }
        ensures calls { TakesCalls (calls_to_drain self.old self.old.head.last) result
            (B.view bank.old) (B.view bank.new) }
        ensures any_moment { (i : Indexed) → Moves (B.view bank.old) (B.view bank.new)
            (AtAnyMoment (running (with_index self.old i)) (B.view bank.old) (λ s. s))
            (AtAnyMoment (running (with_index self.old i)) (B.view bank.old) (λ s. s)) }
    {
        let last = self.last_number();
        self.drain(bank, last)
    }

    /// Drains, where no slot is free.
    pub fn drain_for_room<B: Bank>(&mut self, bank: &mut B) -> Result<(), DrainFault>
        requires can { CanDrain self.old (B.view bank.old) }
        ensures room { OnOk result (MakesRoom self.old self.new
            (B.view bank.old) (B.view bank.new)) }
        ensures head_stays { OnErr result (self.new.head ≡ self.old.head) }
        ensures same_log { SameLog self.old self.new }
        ensures sizes { (e : ℕ) → (B.view bank.new).sizes e ≡ (B.view bank.old).sizes e }
        ensures touches { (i : Indexed) → Touches (InDrain (running (with_index self.old i)))
            (B.view bank.old) (B.view bank.new) }
        ensures cause { (i : Indexed) → IfErr result
            (IsDrainFault (running (with_index self.old i)) (B.view bank.old) (B.view bank.new)) }
        ensures calls { TakesCalls (calls_for_room self.old) result
            (B.view bank.old) (B.view bank.new) }
        ensures any_moment { (i : Indexed) → Moves (B.view bank.old) (B.view bank.new)
            (AtAnyMoment (running (with_index self.old i)) (B.view bank.old) (λ s. s))
            (AtAnyMoment (running (with_index self.old i)) (B.view bank.old) (λ s. s)) }
    {
        if self.head.last - self.head.drained < u64::from(self.g.slots) {
            return Ok(());
        }
        self.drain_all(bank)
    }

    /// The number of the last entry.
    fn last_number(&self) -> u64
        ensures last { result ≡ self.now.head.last }

        // What the type says of the head.
        ensures order { self.now.head.drained ≤ self.now.head.last }
    {
        self.head.last
    }
}
