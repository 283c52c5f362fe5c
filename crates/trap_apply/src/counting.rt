//! The frames that were answered, counted.

ghost use Rattle.std.specs.Prelude.{◌≡◌, ◌+◌, ◌^◌, ◌<◌, ◌≤◌, [], ◌∷◌, count_by};
ghost use Rattle.trap_apply.specs.Summary.{is_repeat, is_beyond_window};

use trap_model::Taken;

/// How many frames were answered, and how many of them were left out.
#[derive(Clone, Copy)]
pub(crate) struct Counts {
    pub frames: u64,
    pub repeats: u64,
    pub beyond: u64,
    ghost fewer_repeats: { repeats ≤ frames },
    ghost fewer_beyond: { beyond ≤ frames },
}

impl Counts {
    pub fn none() -> Counts
        ensures frames { result.frames ≡ 0 }
        ensures repeats { result.repeats ≡ 0 }
        ensures beyond { result.beyond ≡ 0 }
    {
        Counts {
            frames: 0,
            repeats: 0,
            beyond: 0,
        }
    }

    /// One frame more.
    pub fn add(&mut self, taken: Taken)
        requires { self.old.frames < 2 ^ 63 }
        ensures frames { self.new.frames ≡ self.old.frames + 1 }
        ensures repeats { self.new.repeats
            ≡ self.old.repeats + count_by is_repeat (taken ∷ []) }
        ensures beyond { self.new.beyond
            ≡ self.old.beyond + count_by is_beyond_window (taken ∷ []) }
    {
        let (repeat, beyond) = match taken {
            Taken::Repeat => (1, 0),
            Taken::Beyond => (0, 1),
            Taken::Applied { .. } | Taken::Held => (0, 0),
        };
        *self = Counts {
            frames: self.frames + 1,
            repeats: self.repeats + repeat,
            beyond: self.beyond + beyond,
        };
    }
}
