//! The gates and turns of a cell's slots, as a mount reads them.

ghost use Rattle.std.specs.Prelude.{◌≡◌, ◌+◌, ◌*◌, ◌<◌, ◌≤◌, ◌^◌, ◌==◌, ℕ};
ghost use Rattle.std.specs.Prelude.{Some, if◌then◌else◌, IfOk, OnErr, IsTrue};
ghost use Rattle.trap_bank.specs.Faults.{Rose};
ghost use Rattle.trap_bank.specs.Called.{TakesCalls};
ghost use Rattle.trap_bank.specs.Calls.{Fits};
ghost use Rattle.trap_bank.specs.Steps.{Moves, Same};
ghost use Rattle.trap_model.specs.Limits.{open_gate};
ghost use Rattle.trap_cell.specs.Slots.{is_on, current, slot_at, place_of, cell_len};
ghost use Rattle.trap_cell.specs.Heads.{AreAt};

use trap_bank::{Bank, Failed};
use trap_model::OPEN_GATE;

/// The bytes of a gate and a turn.
pub const HEAD_BYTES: u64 = 2;

/// Where a slot begins, in bytes from the disk's first.
pub fn slot_start(at: u64, size: u64, second: bool) -> u64
    requires ends { at + (2 + size) < 2 ^ 64 }
    ensures { result ≡ slot_at (place_of 0 at size) second }
{
    if second { at + (HEAD_BYTES + size) } else { at }
}

/// A slot's gate byte and turn byte.
#[derive(Clone, Copy)]
pub struct Head {
    gate: u8,
    turn: u8,
}

impl Head {
    fn is_on(self) -> bool
        ensures { result ≡ is_on self.gate self.turn }
    {
        self.gate == OPEN_GATE && self.turn < 3
    }
}

/// The gate and the turn of both slots.
#[derive(Drop)]
pub struct Heads {
    first: Head,
    second: Head,
}

impl Heads {
    /// Reads them, where values have `size` bytes.
    pub fn read<B: Bank>(bank: &mut B, disk: u8, at: u64, size: u64) -> Result<Heads, Failed>
        requires disk { disk ≤ 20 }
        requires ends { at + 2 * (2 + size) < 2 ^ 64 }
        requires room { Fits (B.view bank.old) disk (at + 2 * (2 + size)) }
        ensures heads { IfOk result (λ heads. IsTrue (B.view bank.old).tells
            → AreAt heads (place_of disk at size) (B.view bank.old).now.disks) }
        ensures same { IsTrue (B.view bank.old).tells
            → (B.view bank.new).now ≡ (B.view bank.old).now }
        ensures sizes { (e : ℕ) → (B.view bank.new).sizes e ≡ (B.view bank.old).sizes e }
        ensures cause { OnErr result (Rose ((B.view bank.old).faults disk)
            ((B.view bank.new).faults disk)) }
        ensures calls { TakesCalls 2 result (B.view bank.old) (B.view bank.new) }
        ensures any_moment { Moves (B.view bank.old) (B.view bank.new) Same Same }
    {
        let mut first = [0; 2];
        let mut second = [0; 2];
        bank.read(disk, at, &mut first)?;
        bank.read(disk, at + (HEAD_BYTES + size), &mut second)?;
        Ok(Heads {
            first: Head {
                gate: first[0],
                turn: first[1],
            },
            second: Head {
                gate: second[0],
                turn: second[1],
            },
        })
    }

    /// Whether the second slot is the current one, or None where neither is on.
    pub fn current(&self) -> Option<bool>
        ensures { result ≡ current self.now.first.gate self.now.first.turn self.now.second.gate
            self.now.second.turn }
    {
        match (self.first.is_on(), self.second.is_on()) {
            (true, true) => Some(self.second.turn == (self.first.turn + 1) % 3),
            (true, false) => Some(false),
            (false, true) => Some(true),
            (false, false) => None,
        }
    }

    /// The turn of the slot that is current.
    pub fn turn(&self, second: bool) -> u8
        requires current { current self.now.first.gate self.now.first.turn
            self.now.second.gate self.now.second.turn ≡ Some second }
        ensures turn { result ≡ (if second then self.now.second.turn else self.now.first.turn) }
        ensures few { result < 3 }
    {
        if second {
            self.second.turn
        } else {
            self.first.turn
        }
    }

    /// Whether the other slot's gate byte is that of a slot that may be on.
    pub fn is_other_open(&self, second: bool) -> bool
        ensures { result
            ≡ ((if second then self.now.first.gate else self.now.second.gate) == open_gate) }
    {
        if second {
            self.first.gate == OPEN_GATE
        } else {
            self.second.gate == OPEN_GATE
        }
    }
}
