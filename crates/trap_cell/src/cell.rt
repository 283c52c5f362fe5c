//! A cell: its first value, its mount and its puts.

ghost use Rattle.std.specs.Prelude.{◌≡◌, ◌+◌, ◌*◌, ◌<◌, ◌≤◌, ◌^◌, ◌↔◌, ℕ, None, length, not};
ghost use Rattle.std.specs.Prelude.{OnErr, OnOk, IfOk, IsErrOf, IsTrue, if◌then◌else◌};
ghost use Rattle.trap_bank.specs.Faults.{Rose};
ghost use Rattle.trap_bank.specs.Disks.{Differs, Torn, Quiet, region};
ghost use Rattle.trap_bank.specs.Called.{TakesCalls};
ghost use Rattle.trap_bank.specs.Calls.{Fits};
ghost use Rattle.trap_bank.specs.Steps.{Moves, Same, Always};
ghost use Rattle.trap_cell.specs.Slots.{Slots, Stands, place_of, slot_at, next_turn, cell_len};
ghost use Rattle.trap_cell.specs.Slots.{cell_area, cell_value, shut_of, turned, other_gate, begun};
ghost use Rattle.trap_cell.specs.Steps.{PutsIn, IsPut, IsFirst, IsMounted, Keeps, Shuts, StaysShut};
ghost use Rattle.trap_cell.specs.Steps.{FillsSlot, IsSlotReady};
ghost use Rattle.trap_cell.specs.Steps.{PutStage, AfterPut, MountCalls};

use crate::fault::CellFault;
use crate::heads::{HEAD_BYTES, Heads, slot_start};
use std::marker::Model;
use trap_bank::{Bank, DiskFault, write_through};
use trap_model::OPEN_GATE;

/// The gate byte of a slot that is off.
const OFF: u8 = 0;

/// A gated cell of a disk, as far as a put has to know it. After a put that failed it is of no
/// further use: mount the cell again.
#[derive(Drop)]
pub struct Cell {
    disk: u8,
    at: u64,
    size: u64,
    second: bool,
    turn: u8,
    other_open: bool,
}

impl Model for Cell {
    ghost use Rattle.std.specs.Prelude.{◌+◌, ◌*◌, ◌<◌, ◌≤◌, ◌^◌};
    ghost use Rattle.trap_cell.specs.Slots.{Slots, place_of};

    ghost Value = { Slots };

    ghost view = { λ c. record {
      place = place_of c.disk c.at c.size;
      second = c.second;
      turn = c.turn;
      other_open = c.other_open;
    } };

    ghost invariant = { λ c. (c.disk ≤ 20) × (c.turn < 3) × (c.at + 2 * (2 + c.size) < 2 ^ 64) };
}

impl Cell {
    /// Begins a cell with its first value, over whatever stands there. A crash before it returns
    /// leaves any bytes in the cell, so the caller has a gate of its own off until then.
    pub fn first<B: Bank>(bank: &mut B, disk: u8, at: u64, value: &[u8]) -> Result<Cell, DiskFault>
        requires disk { disk ≤ 20 }
        requires ends { at + 2 * (2 + length value.now) < 2 ^ 64 }
        requires room { Fits (B.view bank.old) disk (at + 2 * (2 + length value.now)) }
        ensures place { IfOk result (λ cell. cell.place ≡ place_of disk at (length value.now)) }
        ensures ok { IfOk result (λ cell. Moves (B.view bank.old) (B.view bank.new)
            (Differs (cell_area (place_of disk at (length value.now))))
            (IsFirst (B.view bank.new) cell value.now)) }
        ensures contents { IsTrue (B.view bank.old).tells
            → Torn (cell_area (place_of disk at (length value.now))) (B.view bank.old).now
            (B.view bank.new).now }
        ensures cell { IfOk result (λ cell. cell ≡ begun (place_of disk at (length value.now))) }
        ensures sizes { (e : ℕ) → (B.view bank.new).sizes e ≡ (B.view bank.old).sizes e }
        ensures cause { OnErr result (Rose ((B.view bank.old).faults disk)
            ((B.view bank.new).faults disk)) }
        ensures calls { TakesCalls 4 result (B.view bank.old) (B.view bank.new) }

        // Stopped at any moment, nothing outside the cell has changed.
        ensures any_moment { Moves (B.view bank.old) (B.view bank.new)
            (Differs (cell_area (place_of disk at (length value.now))))
            (Differs (cell_area (place_of disk at (length value.now)))) }
    {
        let size = value.len() as u64;
        bank.write(disk, at, &[OPEN_GATE, 0])?;
        bank.write(disk, at + HEAD_BYTES, value)?;
        bank.write(disk, at + (HEAD_BYTES + size), &[OFF])?;
        // The value is stable before the caller's own gate says that the cell is there.
        bank.sync(disk)?;
        Ok(Cell {
            disk,
            at,
            size,
            second: false,
            turn: 0,
            other_open: false,
        })
    }

    /// Finds the current slot, and fills `value` with the cell's value, whose length the caller
    /// knows. After a fault `value` holds any bytes.
    pub fn mount<B: Bank>(
        bank: &mut B,
        disk: u8,
        at: u64,
        value: &mut [u8],
    ) -> Result<Cell, CellFault>
        requires disk { disk ≤ 20 }
        requires ends { at + 2 * (2 + length value.old) < 2 ^ 64 }
        requires room { Fits (B.view bank.old) disk (at + 2 * (2 + length value.old)) }

        // No position of the cell is unsynced.
        requires stable { Always (B.view bank.old)
            (λ disks. region disks disk at (2 * (2 + length value.old))
            ≡ region (B.view bank.old).now.disks disk at (2 * (2 + length value.old))) }
        ensures mounted { IfOk result
            (IsMounted (B.view bank.old) (B.view bank.new) (place_of disk at (length value.old))
            value.new) }
        ensures no_value { IsTrue (B.view bank.old).tells → ¬ IsErrOf result CellFault.DiskFault
            → (IsErrOf result CellFault.NoValue
            ↔ (cell_value (place_of disk at (length value.old)) (B.view bank.old).now.disks
            ≡ None)) }
        ensures same { IsTrue (B.view bank.old).tells
            → (B.view bank.new).now ≡ (B.view bank.old).now }
        ensures sizes { (e : ℕ) → (B.view bank.new).sizes e ≡ (B.view bank.old).sizes e }
        ensures cause { IsErrOf result CellFault.DiskFault
            → Rose ((B.view bank.old).faults disk) ((B.view bank.new).faults disk) }
        ensures calls { MountCalls result (B.view bank.old) (B.view bank.new) }
        ensures any_moment { Moves (B.view bank.old) (B.view bank.new) Same Same }
    {
        let size = value.len() as u64;
        let heads = Heads::read(bank, disk, at, size)?;
        let Some(second) = heads.current() else {
            return Err(CellFault::NoValue);
        };
        let turn = heads.turn(second);
        let other_open = heads.is_other_open(second);
        let start = slot_start(at, size, second);
        bank.read(disk, start + HEAD_BYTES, value)?;
        Ok(Cell {
            disk,
            at,
            size,
            second,
            turn,
            other_open,
        })
    }

    fn disk(&self) -> u8
        ensures is { result ≡ self.now.place.disk }
        ensures bound { result ≤ 20 }
    {
        self.disk
    }

    /// Where the slot begins that isn't current.
    fn other_start(&self) -> u64
        ensures is { result ≡ slot_at self.now.place (not self.now.second) }
        ensures within { self.now.place.at ≤ result }
        ensures ends { result + (2 + self.now.place.size) ≤ self.now.place.at + 2 *
            (2 + self.now.place.size) }
        ensures bound { self.now.place.at + 2 * (2 + self.now.place.size) < 2 ^ 64 }
    {
        slot_start(self.at, self.size, !self.second)
    }

    fn next_turn(&self) -> u8
        ensures { result ≡ next_turn self.now.turn }
    {
        (self.turn + 1) % 3
    }

    fn is_other_open(&self) -> bool
        ensures { result ≡ self.now.other_open }
    {
        self.other_open
    }

    /// The other slot is current from now on.
    fn turn_over(&mut self)
        ensures { self.new ≡ turned self.old }
    {
        self.turn = (self.turn + 1) % 3;
        self.second = !self.second;
        self.other_open = true;
    }

    /// Shuts the gate of the slot that isn't current, where it is open.
    fn shut<B: Bank>(&self, bank: &mut B) -> Result<(), DiskFault>
        requires room { Fits (B.view bank.old) self.now.place.disk
            (self.now.place.at + cell_len self.now.place) }
        requires stands { Always (B.view bank.old) (Stands self.now) }
        ensures ok { OnOk result
            (Moves (B.view bank.old) (B.view bank.new) (Keeps self.now) (Shuts self.now)) }
        ensures contents { IsTrue (B.view bank.old).tells
            → Quiet (Keeps self.now) (B.view bank.old).now (B.view bank.new).now }
        ensures sizes { (e : ℕ) → (B.view bank.new).sizes e ≡ (B.view bank.old).sizes e }
        ensures gate { Moves (B.view bank.old) (B.view bank.new)
            (Differs (other_gate self.now)) (Differs (other_gate self.now)) }
        ensures cause { OnErr result
            (Rose ((B.view bank.old).faults self.now.place.disk)
            ((B.view bank.new).faults self.now.place.disk)) }
        ensures calls { TakesCalls (if self.now.other_open then 2 else 0) result
            (B.view bank.old) (B.view bank.new) }
        ensures any_moment { Moves (B.view bank.old) (B.view bank.new) (Keeps self.now)
            (Keeps self.now) }
    {
        let is_open = self.is_other_open();
        let disk = self.disk();
        let start = self.other_start();
        if is_open {
            // The slot is off before its value is written over. A gate byte that a crash tears
            // brings back the old slot at most, whose turn isn't the next.
            write_through(bank, disk, start, &[OFF])?;
        }
        Ok(())
    }

    /// Writes the next turn and the value after the gate that is shut.
    fn fill<B: Bank>(&self, bank: &mut B, fresh: &[u8]) -> Result<(), DiskFault>
        requires len { length fresh.now ≡ self.now.place.size }
        requires room { Fits (B.view bank.old) self.now.place.disk
            (self.now.place.at + cell_len self.now.place) }
        requires stands { Always (B.view bank.old) (Stands (shut_of self.now)) }
        ensures ok { OnOk result
            (Moves (B.view bank.old) (B.view bank.new) (StaysShut self.now)
            (FillsSlot self.now fresh.now)) }
        ensures stable { OnOk result (Always (B.view bank.new) (λ disks. disks self.now.place.disk
            ≡ (B.view bank.new).now.disks self.now.place.disk)) }
        ensures contents { IsTrue (B.view bank.old).tells
            → Quiet (StaysShut self.now) (B.view bank.old).now (B.view bank.new).now }
        ensures sizes { (e : ℕ) → (B.view bank.new).sizes e ≡ (B.view bank.old).sizes e }
        ensures cause { OnErr result
            (Rose ((B.view bank.old).faults self.now.place.disk)
            ((B.view bank.new).faults self.now.place.disk)) }
        ensures calls { TakesCalls 3 result (B.view bank.old) (B.view bank.new) }
        ensures any_moment { Moves (B.view bank.old) (B.view bank.new) (StaysShut self.now)
            (StaysShut self.now) }
    {
        let disk = self.disk();
        let start = self.other_start();
        let turn = self.next_turn();
        bank.write(disk, start + 1, &[turn])?;
        // Turn and value are stable before the gate opens.
        write_through(bank, disk, start + HEAD_BYTES, fresh)?;
        Ok(())
    }

    /// Opens the gate of a slot that is ready: the commit.
    fn open<B: Bank>(&self, bank: &mut B, fresh: &[u8]) -> Result<(), DiskFault>
        requires len { length fresh.now ≡ self.now.place.size }
        requires room { Fits (B.view bank.old) self.now.place.disk
            (self.now.place.at + cell_len self.now.place) }
        requires ready { Always (B.view bank.old) (IsSlotReady self.now fresh.now) }
        ensures ok { OnOk result (Moves (B.view bank.old) (B.view bank.new)
            (PutsIn self.now fresh.now) (IsPut (B.view bank.new) self.now (turned self.now)
            fresh.now)) }
        ensures contents { IsTrue (B.view bank.old).tells
            → Quiet (PutsIn self.now fresh.now) (B.view bank.old).now (B.view bank.new).now }
        ensures sizes { (e : ℕ) → (B.view bank.new).sizes e ≡ (B.view bank.old).sizes e }
        ensures gate { Moves (B.view bank.old) (B.view bank.new)
            (Differs (other_gate self.now)) (Differs (other_gate self.now)) }
        ensures cause { OnErr result
            (Rose ((B.view bank.old).faults self.now.place.disk)
            ((B.view bank.new).faults self.now.place.disk)) }
        ensures calls { TakesCalls 2 result (B.view bank.old) (B.view bank.new) }
        ensures any_moment { Moves (B.view bank.old) (B.view bank.new)
            (PutsIn self.now fresh.now) (PutsIn self.now fresh.now) }
    {
        let disk = self.disk();
        let start = self.other_start();
        // The one byte that makes the slot current is stable before the put returns.
        write_through(bank, disk, start, &[OPEN_GATE])?;
        Ok(())
    }

    /// Replaces the value, by writing the slot that isn't current. The value has the length with
    /// which the cell was begun or mounted. After a fault the old value stands or the new one:
    /// mount the cell again to learn which.
    pub fn put<B: Bank>(&mut self, bank: &mut B, value: &[u8]) -> Result<(), DiskFault>
        requires len { length value.now ≡ self.old.place.size }
        requires room { Fits (B.view bank.old) self.old.place.disk
            (self.old.place.at + cell_len self.old.place) }
        requires stands { Always (B.view bank.old) (Stands self.old) }
        ensures ok { OnOk result (Moves (B.view bank.old) (B.view bank.new)
            (PutsIn self.old value.now) (IsPut (B.view bank.new) self.old self.new value.now)) }
        ensures contents { IsTrue (B.view bank.old).tells
            → Quiet (PutsIn self.old value.now) (B.view bank.old).now (B.view bank.new).now }
        ensures cell { AfterPut result self.old self.new (B.view bank.old) (B.view bank.new) }
        ensures place { self.new.place ≡ self.old.place }
        ensures sizes { (e : ℕ) → (B.view bank.new).sizes e ≡ (B.view bank.old).sizes e }
        ensures cause { OnErr result
            (Rose ((B.view bank.old).faults self.old.place.disk)
            ((B.view bank.new).faults self.old.place.disk)) }

        // Stopped at any moment, the cell has its old value or this one, and nothing outside the
        // slot that wasn't current has changed.
        ensures any_moment { Moves (B.view bank.old) (B.view bank.new)
            (PutsIn self.old value.now) (PutsIn self.old value.now) }

        // The gate is off before the value is written over, and all of the disk is stable before it
        // opens.
        ensures stages { Moves (B.view bank.old) (B.view bank.new)
            (PutStage (B.view bank.old).now.disks self.old value.now)
            (PutStage (B.view bank.old).now.disks self.old value.now) }
    {
        self.shut(bank)?;
        self.fill(bank, value)?;
        self.open(bank, value)?;
        self.turn_over();
        Ok(())
    }
}
