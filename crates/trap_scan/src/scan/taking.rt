//! How a scan takes records.

ghost use Rattle.std.specs.Prelude.{◌≡◌, ℕ, ◌+◌, ◌-◌, ◌<◌, ◌≤◌, ◌↔◌, List, IfOk, IsErrOf, IsTrue};
ghost use Rattle.std.specs.Prelude.{OnErr};
ghost use Rattle.trap_bank.specs.Faults.{Rose};
ghost use Rattle.trap_bank.specs.Calls.{Fits};
ghost use Rattle.trap_bank.specs.Steps.{OnlyReads};
ghost use Rattle.trap_model.specs.Limits.{greatest_record};
ghost use Rattle.trap_scan.specs.Window.{IsLoaded, IsWholeRecord};
ghost use Rattle.trap_scan.specs.Scan.{IsAtFirst, IsLast, MayFollow, TakesRecord, TakesNext};
ghost use Rattle.trap_scan.specs.Scan.{TakesNoRecord, GivesNext, IsDamagedRecord};

use super::Scan;
use crate::window::{Front, Window};
use crate::{Expected, LogRec, ScanFault};
use std::alloc::{AllocError as OutOfMemory, Global};
use trap_bank::Bank;
use trap_ring::Ring;

// How many bytes are read at a time: a record has at most 8232.
const BUFFER_BYTES: usize = 65_536;

impl Scan {
    /// Takes a buffer of 64 KiB, or of less where the records are shorter together.
    pub fn new(alloc: Global, expected: &Expected) -> Result<Scan, OutOfMemory>
        requires size { expected.now.size ≤ 4096 }
        requires order { expected.now.first ≤ expected.now.last }
        requires offsets { expected.now.first_off ≤ expected.now.end_off }
        ensures { IfOk result (IsAtFirst expected.now) }
    {
        Scan::with_buffer(alloc, expected, BUFFER_BYTES)
    }

    // The same with a buffer of at most `most` bytes.
    pub(crate) fn with_buffer(
        alloc: Global,
        expected: &Expected,
        most: usize,
    ) -> Result<Scan, OutOfMemory>
        requires size { expected.now.size ≤ 4096 }
        requires order { expected.now.first ≤ expected.now.last }
        requires offsets { expected.now.first_off ≤ expected.now.end_off }
        requires most { greatest_record expected.now.size ≤ most }
        ensures { IfOk result (IsAtFirst expected.now) }
    {
        let len = (expected.end_off - expected.first_off).min(most as u64) as usize;
        let window = Window::new(alloc, expected.first_off, expected.end_off, len)?;
        Ok(Scan {
            expected: *expected,
            seq: expected.first,
            time: expected.base_time,
            window,
        })
    }

    /// The offset in the ring where the next record begins.
    pub fn at(&self) -> u64
        ensures { result ≡ self.now.window.at }
    {
        self.window.at()
    }

    /// Whether a further record is to follow.
    pub fn is_more(&self) -> bool
        ensures { IsTrue result ↔ (self.now.seq < self.now.expected.last) }
    {
        self.seq < self.expected.last
    }

    // Whether nothing stands after the record, and its time is the last one.
    fn is_last(&self, front: &Front) -> bool
        requires { self.now.window.at + front.now.len ≤ self.now.window.end }
        ensures { IsTrue result ↔ IsLast self.now front.now }
    {
        if self.window.ends_after(front.len) {
            front.rec.time == self.expected.last_time
        } else {
            false
        }
    }

    // Whether the record may follow the one that was taken last.
    fn may_follow(&self, front: &Front) -> bool
        requires more { self.now.seq < self.now.expected.last }
        requires within { self.now.window.at + front.now.len ≤ self.now.window.end }
        ensures { IsTrue result ↔ MayFollow self.now front.now }
    {
        let last = self.expected.last;
        if front.rec.seq != self.seq + 1 {
            return false;
        }
        if front.rec.block >= self.expected.volume {
            return false;
        }
        if front.rec.time < self.time {
            return false;
        }
        if front.rec.seq < last {
            return true;
        }
        self.is_last(front)
    }

    // Takes the record that stands at the front.
    fn take(&mut self, front: &Front)
        requires more { self.old.seq < self.old.expected.last }
        requires number { front.now.rec.seq ≡ self.old.seq + 1 }
        requires within { front.now.len ≤ self.old.window.to - self.old.window.from }
        ensures { TakesRecord front.now self.old self.new }
    {
        self.window.pass(front.len);
        self.seq = front.rec.seq;
        self.time = front.rec.time;
    }

    /// Takes the next record, where one that may come next stands there. No byte is read for one
    /// that stands in the buffer already. After a fault or a refusal it may be asked for again.
    pub fn next<B: Bank>(&mut self, bank: &mut B, ring: &Ring) -> Result<LogRec, ScanFault>
        requires more { self.old.seq < self.old.expected.last }
        requires room { self.old.window.end ≤ self.old.window.at + ring.now.len }
        requires there { Fits (B.view bank.old) ring.now.disk (ring.now.at + ring.now.len) }
        requires loaded { IsTrue (B.view bank.old).tells
            → IsLoaded ring.now self.old.window (B.view bank.old).now.disks }
        ensures next { IfOk result (TakesNext self.old self.new) }
        ensures right { IsTrue (B.view bank.old).tells
            → IfOk result (GivesNext ring.now self.old self.new (B.view bank.old).now.disks) }
        ensures err { OnErr result (TakesNoRecord self.old self.new) }
        ensures damaged { IsTrue (B.view bank.old).tells → (at : ℕ)
            → IsErrOf result (ScanFault.Damaged at)
            → IsDamagedRecord ring.now self.old (B.view bank.old).now.disks at }

        // No call of the bank for a record that stands in the buffer.
        ensures untouched { IsWholeRecord self.old.expected.size self.old.window
            → bank.new ≡ bank.old }
        ensures loaded { IsTrue (B.view bank.old).tells
            → IsLoaded ring.now self.new.window (B.view bank.old).now.disks }
        ensures looks { OnlyReads (B.view bank.old) (B.view bank.new) }
        ensures cause { IsErrOf result ScanFault.DiskFault
            → Rose ((B.view bank.old).faults ring.now.disk)
            ((B.view bank.new).faults ring.now.disk) }
    {
        let at = self.window.at();
        let size = self.expected.size;
        let Some(front) = self.window.front(bank, ring, size)? else {
            return Err(ScanFault::Damaged { at });
        };
        if !self.may_follow(&front) {
            return Err(ScanFault::Damaged { at });
        }
        self.take(&front);
        Ok(front.rec)
    }
}
