//! The steps of which the calls of a bank in memory are made.

ghost use Rattle.std.specs.Prelude.{◌≡◌, ◌↔◌, ◌+◌, ◌<◌, ◌≤◌, ◌++◌, ◌∷◌, [], IsTrue, MatchOption};
ghost use Rattle.std.specs.Prelude.{OnErr, OnOk, drop, length, take, vec_capacity, vec_len};
ghost use Rattle.trap_bank.specs.declared.record.Entry.{Entry};
ghost use Rattle.trap_bank.specs.Calls.{Fits};
ghost use Rattle.trap_bank.specs.Disks.{region};
ghost use Rattle.trap_bank.specs.Memory.{view_of, IsMemoryBank};
ghost use Rattle.trap_bank.specs.MemorySteps.{IsWorn, IsStruck, IsStruckOn, IsBurnt, one_less};
ghost use Rattle.trap_bank.specs.MemorySteps.{counted_on, passed, found_no_memory, blamed};
ghost use Rattle.trap_bank.specs.MemorySteps.{port_blamed, overwritten, synced, made, spoken};

use crate::disk::Disk;
use crate::record::{Change, Entry};
use crate::{Failed, MemoryBank};
use std::alloc::AllocError as OutOfMemory;
use std::mem;

impl MemoryBank {
    /// No further call has a number.
    pub(crate) fn is_worn(&self) -> bool
        ensures worn { IsTrue result ↔ IsWorn self.now }
        ensures sound { IsMemoryBank self.now }
    {
        self.moment == u64::MAX
    }

    /// The next call is to fail.
    pub(crate) fn is_struck(&self) -> bool
        ensures struck { IsTrue result ↔ IsStruck self.now }
        ensures sound { IsMemoryBank self.now }
    {
        let calls = self.moment;
        if calls == u64::MAX {
            return true;
        }
        if self.chosen.has(calls + 1) {
            return true;
        }
        is_burnt(self.fuse, calls)
    }

    /// The next call on the disk is to fail.
    pub(crate) fn is_struck_on(&self, d: u8) -> bool
        requires { d ≤ 20 }
        ensures struck { IsTrue result ↔ IsStruckOn self.now d }
        ensures sound { IsMemoryBank self.now }
    {
        let spent = is_spent(self.spared[d as usize]);
        let struck = self.is_struck();
        spent || struck
    }

    /// A call on the disk counts.
    pub(crate) fn count_on(&mut self, d: u8)
        requires { d ≤ 20 }
        ensures { self.new ≡ counted_on self.old d }
    {
        self.spared[d as usize] = one_less(self.spared[d as usize]);
    }

    /// A call goes by.
    pub(crate) fn pass(&mut self)
        ensures { self.new ≡ passed self.old }
    {
        self.moment = self.moment.saturating_add(1);
    }

    /// A call found no memory.
    pub(crate) fn starve(&mut self)
        requires { IsWorn self.old → ⊥ }
        ensures { self.new ≡ found_no_memory self.old }
    {
        self.moment += 1;
        self.starved += 1;
    }

    /// The disk fails.
    pub(crate) fn blame(&mut self, d: u8) -> Failed
        requires { d ≤ 20 }
        ensures { self.new ≡ blamed self.old d }
    {
        let count = self.faults[d as usize];
        self.faults[d as usize] = count.saturating_add(1);
        Failed
    }

    /// The port fails.
    pub(crate) fn blame_port(&mut self) -> Failed
        ensures { self.new ≡ port_blamed self.old }
    {
        self.port_faults = self.port_faults.saturating_add(1);
        Failed
    }

    /// Fills `buf` from the disk.
    pub(crate) fn copy_out(&self, d: u8, at: u64, buf: &mut [u8])
        requires disk { d ≤ 20 }
        requires room { Fits (view_of self.now) d (at + length buf.old) }
        ensures { buf.new ≡ region (view_of self.now).now.disks d at (length buf.old) }
    {
        let Some(disk) = &self.disks[d as usize] else {
            unreachable!()
        };
        copy_part(disk.bytes(), at as usize, buf);
    }

    /// Lays the bytes down. Without memory nothing changes.
    pub(crate) fn lay(&mut self, d: u8, at: u64, bytes: &[u8]) -> Result<(), OutOfMemory>
        requires disk { d ≤ 20 }
        requires room { Fits (view_of self.old) d (at + length bytes.now) }
        requires fresh { IsWorn self.old → ⊥ }
        ensures ok { OnOk result (self.new ≡ overwritten self.old d at bytes.now) }
        ensures err { OnErr result (self.new ≡ self.old) }
    {
        self.past.reserve(1)?;
        let Some(disk) = &mut self.disks[d as usize] else {
            unreachable!()
        };
        let at = at as usize;
        let replaced = disk.write(self.alloc, at, bytes)?;
        let change = Change::Written { d, at, replaced };
        note(&mut self.past, self.moment, change);
        self.moment += 1;
        Ok(())
    }

    /// Makes the disk stable. Without memory nothing changes.
    pub(crate) fn settle(&mut self, d: u8) -> Result<(), OutOfMemory>
        requires disk { d ≤ 20 }
        requires there { Fits (view_of self.old) d 0 }
        requires fresh { IsWorn self.old → ⊥ }
        ensures ok { OnOk result (self.new ≡ synced self.old d) }
        ensures err { OnErr result (self.new ≡ self.old) }
    {
        self.past.reserve(1)?;
        let Some(disk) = &mut self.disks[d as usize] else {
            unreachable!()
        };
        let ranges = disk.settle(self.alloc);
        note(&mut self.past, self.moment, Change::Synced { d, ranges });
        self.moment += 1;
        Ok(())
    }

    /// Puts a disk of zero bytes in the place of the disk. Without memory nothing changes.
    pub(crate) fn place(&mut self, d: u8, len: u64) -> Result<(), OutOfMemory>
        requires disk { d ≤ 20 }
        requires fresh { IsWorn self.old → ⊥ }
        ensures ok { OnOk result (self.new ≡ made self.old d len) }
        ensures err { OnErr result (self.new ≡ self.old) }
    {
        self.past.reserve(1)?;
        let disk = Disk::zeros(self.alloc, len as usize)?;
        let before = mem::replace(&mut self.disks[d as usize], Some(disk));
        note(&mut self.past, self.moment, Change::Made { d, len, before });
        self.moment += 1;
        Ok(())
    }

    /// Appends the bytes to what was said. Without memory nothing changes.
    pub(crate) fn speak(&mut self, bytes: &[u8]) -> Result<(), OutOfMemory>
        requires fresh { IsWorn self.old → ⊥ }
        ensures ok { OnOk result (self.new ≡ spoken self.old bytes.now) }
        ensures err { OnErr result (self.new ≡ self.old) }
    {
        self.past.reserve(1)?;
        self.said.extend_from_slice(bytes)?;
        note(
            &mut self.past,
            self.moment,
            Change::Said { len: bytes.len() },
        );
        self.moment += 1;
        Ok(())
    }
}

/// Fills `buf` from the offset `at` on.
fn copy_part(bytes: &[u8], at: usize, buf: &mut [u8])
    requires { at + length buf.old ≤ length bytes.now }
    ensures { buf.new ≡ take (length buf.old) (drop at bytes.now) }
{
    buf.copy_from_slice(&bytes[at..at + buf.len()]);
}

/// Puts a call after the others, where there is room for it.
fn note(past: &mut Vec<Entry>, moment: u64, change: Change)
    requires { vec_len past.old < vec_capacity past.old }
    ensures { past.new.items ≡ past.old.items ++ record { moment = moment; change = change } ∷ [] }
{
    match past.push(Entry { moment, change }) {
        Ok(()) => {}
        Err(_) => unreachable!(),
    }
}

/// So many calls were made as the fuse allows.
fn is_burnt(fuse: Option<u64>, moment: u64) -> bool
    ensures { IsTrue result ↔ MatchOption fuse ⊥ (λ calls. calls ≤ moment) }
{
    match fuse {
        Some(calls) => calls <= moment,
        None => false,
    }
}

/// No further call is spared.
fn is_spent(spared: Option<u64>) -> bool
    ensures { IsTrue result ↔ spared ≡ Some 0 }
{
    match spared {
        Some(calls) => calls == 0,
        None => false,
    }
}

/// One call less is spared.
fn one_less(spared: Option<u64>) -> Option<u64>
    ensures { result ≡ one_less spared }
{
    match spared {
        Some(calls) => Some(calls.saturating_sub(1)),
        None => None,
    }
}
