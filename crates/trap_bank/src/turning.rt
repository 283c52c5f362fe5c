//! Turns for background work.

ghost use Rattle.std.specs.Prelude.{◌<◌, ◌^◌};
ghost use Rattle.trap_bank.specs.Schedule.{Schedule, AnswersTurn};

/// What the background is asked to do.
#[derive(Debug, Clone, Copy, PartialEq, Eq)]
pub enum Turn {
    /// Nothing.
    Rest,
    /// Drain what is pending.
    Drain,
    /// One step of a rebuild.
    Rebuild,
}

/// An answer for each time that it is asked.
pub trait Turns {
    ghost schedule: { Self → Schedule };

    /// The next answer.
    fn turn(&mut self) -> Turn
        requires { (schedule self.old).asked < 2 ^ 63 }
        ensures { AnswersTurn result (schedule self.old) (schedule self.new) };
}
