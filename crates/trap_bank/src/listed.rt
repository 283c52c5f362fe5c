//! Turns from a list, and turns that go round.

ghost use Rattle.std.specs.Prelude.{◌≡◌, IfOk};
ghost use Rattle.trap_bank.specs.Listed.{listed, steady};

use crate::{Turn, Turns};
use std::alloc::{AllocError as OutOfMemory, Global};

/// The answers of a list, and then `Rest`.
#[derive(Debug, Drop)]
pub struct ListTurns {
    list: Vec<Turn>,
    asked: u64,
}

impl ListTurns {
    /// Answers these in their order, and then `Rest`. The only error is want of memory.
    pub fn new(alloc: Global, list: &[Turn]) -> Result<ListTurns, OutOfMemory>
        ensures { IfOk result (λ turns. ⟦<ListTurns as Turns>⟧.schedule turns ≡ listed list.now 0) }
    {
        Ok(ListTurns {
            list: Vec::from_slice(alloc, list)?,
            asked: 0,
        })
    }
}

impl Turns for ListTurns {
    ghost schedule = { λ turns. listed turns.list.items turns.asked };

    fn turn(&mut self) -> Turn {
        let at = self.asked as usize;
        self.asked += 1;
        match self.list.get(at) {
            Some(turn) => *turn,
            None => Turn::Rest,
        }
    }
}

/// Rest, Drain, Rest, Rebuild, over and over.
#[derive(Debug, Drop)]
pub struct Steady {
    asked: u64,
}

impl Steady {
    /// Begins with the first Rest.
    pub fn new() -> Steady
        ensures { ⟦<Steady as Turns>⟧.schedule result ≡ steady 0 }
    {
        Steady { asked: 0 }
    }
}

impl Turns for Steady {
    ghost schedule = { λ turns. steady turns.asked };

    fn turn(&mut self) -> Turn {
        let round = self.asked % 4;
        self.asked += 1;
        match round {
            1 => Turn::Drain,
            3 => Turn::Rebuild,
            _ => Turn::Rest,
        }
    }
}
