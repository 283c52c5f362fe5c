//! A bank in memory, with a record of its calls.

ghost use Rattle.std.specs.Prelude.{◌≡◌, ◌↔◌, ◌+◌, ◌-◌, ◌<◌, ◌≤◌, ◌^◌, ◌∷◌, IfOk, IsTrue};
ghost use Rattle.std.specs.Prelude.{MatchOption, OnErr, OnOk, length, slice_set, take};
ghost use Rattle.trap_bank.specs.Calls.{Fits};
ghost use Rattle.trap_bank.specs.Memory.{view_of, disk_at, no_disks};
ghost use Rattle.trap_bank.specs.MemorySteps.{IsWorn, IsStruck, passed, found_no_memory, blamed};
ghost use Rattle.trap_bank.specs.MemorySteps.{port_blamed, overwritten, synced, made, spoken};
ghost use Rattle.trap_bank.specs.Record.{bytes_kept};

use crate::Failed;
use crate::chosen::Chosen;
use crate::disk::Disk;
use crate::record::{Change, Entry};
use std::alloc::{AllocError as OutOfMemory, Global};
use std::marker::Model;

/// How many disks a bank has.
const DISKS: usize = 21;

/// A bank that tells everything. It keeps a record of its calls, so that what a crash may have left
/// at an earlier moment stays known.
#[derive(Drop)]
pub struct MemoryBank {
    pub(crate) alloc: Global,
    pub(crate) disks: Vec<Option<Disk>>,
    pub(crate) said: Vec<u8>,
    pub(crate) past: Vec<Entry>,
    pub(crate) since: u64,
    pub(crate) moment: u64,
    pub(crate) faults: [u64; 21],
    pub(crate) port_faults: u64,
    pub(crate) starved: u64,
    pub(crate) chosen: Chosen,
    pub(crate) fuse: Option<u64>,
    pub(crate) spared: [Option<u64>; 21],
}

impl Model for MemoryBank {
    ghost use Rattle.trap_bank.specs.Memory.{Memory, IsMemory};

    ghost Value = { Memory };

    ghost use Rattle.trap_bank.specs.MemoryFields.{memory_of};

    ghost view = { memory_of };

    ghost invariant = { λ bank. IsMemory (memory_of bank) };
}

impl MemoryBank {
    /// A bank with no disks. The only error is want of memory.
    pub fn new(alloc: Global) -> Result<MemoryBank, OutOfMemory>
        ensures { IfOk result (λ bank. bank ≡ no_disks) }
    {
        let mut disks = Vec::with_capacity(alloc, DISKS)?;
        for d in 0..DISKS {
            disks.push(None)?;
        }
        Ok(MemoryBank {
            alloc,
            disks,
            said: Vec::new(alloc),
            past: Vec::new(alloc),
            since: 0,
            moment: 0,
            faults: [0; 21],
            port_faults: 0,
            starved: 0,
            chosen: Chosen::new(),
            fuse: None,
            spared: [None; 21],
        })
    }

    /// Makes the call with that number fail, counted from 1 over all calls of `make`, `read`,
    /// `write`, `sync` and `say`. The last eight such numbers are kept.
    pub fn fail_at(&mut self, call: u64)
        ensures { self.new ≡ record self.old { chosen = call ∷ take 7 self.old.chosen } }
    {
        self.chosen.add(call);
    }

    /// Makes each call on the disk fail after that many more on it. A later number for the same
    /// disk takes the place of the earlier one.
    pub fn fail_on(&mut self, d: u8, after: u64)
        requires { d ≤ 20 }
        ensures { self.new ≡ record self.old {
          spared = slice_set self.old.spared d (Some after);
        } }
    {
        self.spared[d as usize] = Some(after);
    }

    /// All bytes on the port.
    pub fn said(&self) -> &[u8]
        ensures { result.now ≡ (view_of self.now).now.said }
    {
        &self.said
    }

    /// The bytes of a disk as a read gives them, or None where it is absent.
    pub fn disk(&self, d: u8) -> Option<&[u8]>
        requires { d ≤ 20 }
        ensures { MatchOption result ((view_of self.now).now.disks d ≡ None)
            (λ bytes. (view_of self.now).now.disks d ≡ Some bytes.now) }
    {
        match &self.disks[d as usize] {
            Some(disk) => Some(disk.bytes()),
            None => None,
        }
    }

    /// How many calls were refused because a growth of the bank's own found no memory.
    pub fn starved(&self) -> u64
        ensures { result ≡ self.now.starved }
    {
        self.starved
    }
}
