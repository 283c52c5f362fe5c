//! What a state is after a further entry, and after entries are dropped.

ghost use Rattle.std.specs.Prelude.{◌≡◌, ℕ, ◌+◌, ◌^◌, ◌<◌, ◌≤◌, length};

use crate::history::State;

impl State {
    ghost use Rattle.trap_model.specs.State.{last, IsSound};
    ghost use Rattle.trap_model.specs.ArrayStep.{kept_from};

    /// Drops the oldest entry. The image after it is the base.
    fn drop_oldest(&mut self)
        requires sound { IsSound self.old }
        requires some { 0 < length self.old.entries }
        ensures { self.new ≡ kept_from self.old (self.old.first + 1) }
    {
        let oldest = self.entries.pop_front();
        self.first += 1;
        self.base_time = oldest.time;
        self.base.put(oldest.block as usize, oldest.bytes);
    }

    /// Drops the entries up to a number. The image after them is the base.
    pub(crate) fn keep_from(&mut self, seq: u64)
        requires sound { IsSound self.old }
        requires low { self.old.first ≤ seq }
        requires high { seq ≤ last self.old }
        ensures { self.new ≡ kept_from self.old seq }
    {
        while self.first < seq {
            self.drop_oldest();
        }
    }
}
