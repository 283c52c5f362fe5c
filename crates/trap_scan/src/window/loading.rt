//! How a window of a ring is loaded, and what stands at its front.

ghost use Rattle.std.specs.Prelude.{◌≡◌, ℕ, ◌+◌, ◌-◌, ◌≤◌, ◌↔◌, List, min, length, take, vec_len};
ghost use Rattle.std.specs.Prelude.{OnErr, OnOk, IfOk, IsTrue};
ghost use Rattle.trap_bank.specs.Faults.{Rose};
ghost use Rattle.trap_bank.specs.Calls.{Fits};
ghost use Rattle.trap_bank.specs.Steps.{OnlyReads};
ghost use Rattle.trap_record.specs.Reading.{ReadsAs};
ghost use Rattle.trap_ring.specs.Ring.{RingHas};
ghost use Rattle.trap_scan.specs.Window.{in_buffer, IsBegun, SamePlace, PassesOver, IsLoaded};
ghost use Rattle.trap_scan.specs.Window.{HasBuffer, IsAhead, IsFront, IsInBuffer, HasRanges};
ghost use Rattle.trap_scan.specs.Window.{IsWholeRecord};

use super::{Front, Window};
use std::alloc::{AllocError as OutOfMemory, Global};
use trap_bank::{Bank, DiskFault};
use trap_record::{ReadRec, read};
use trap_ring::Ring;

// Reads that many of the ring's bytes into the front of the buffer.
fn read_front<B: Bank>(
    bank: &mut B,
    ring: &Ring,
    at: u64,
    buf: &mut [u8],
    len: usize,
) -> Result<(), DiskFault>
    requires within { len ≤ length buf.old }
    requires room { len ≤ ring.now.len }
    requires there { Fits (B.view bank.old) ring.now.disk (ring.now.at + ring.now.len) }
    ensures front { IsTrue (B.view bank.old).tells
        → OnOk result (RingHas ring.now at (take len buf.new) (B.view bank.old).now.disks) }
    ensures looks { OnlyReads (B.view bank.old) (B.view bank.new) }
    ensures cause { OnErr result (Rose ((B.view bank.old).faults ring.now.disk)
        ((B.view bank.new).faults ring.now.disk)) }
{
    ring.read(bank, at, &mut buf[..len])
}

impl Window {
    /// The bytes from `at` up to `end`, none of which is loaded, and a buffer of that many bytes.
    pub fn new(alloc: Global, at: u64, end: u64, room: usize) -> Result<Window, OutOfMemory>
        requires { at ≤ end }
        ensures { IfOk result (IsBegun at end room) }
    {
        let buf = vec![in alloc; 0u8; room]?;
        Ok(Window {
            at,
            end,
            buf,
            from: 0,
            to: 0,
        })
    }

    /// The offset of the first byte.
    pub fn at(&self) -> u64
        ensures { result ≡ self.now.at }
    {
        self.at
    }

    /// Whether that many bytes are all there are.
    pub fn ends_after(&self, len: usize) -> bool
        requires { self.now.at + len ≤ self.now.end }
        ensures { IsTrue result ↔ (self.now.at + len ≡ self.now.end) }
    {
        self.end - self.at == len as u64
    }

    /// Whether all bytes stand in the buffer.
    fn is_whole(&self) -> bool
        ensures { IsTrue result ↔ (self.now.at + (self.now.to - self.now.from) ≡ self.now.end) }
    {
        self.ends_after(self.to - self.from)
    }

    /// What stands at the front of the bytes in the buffer.
    fn front_read(&self, size: u16) -> ReadRec
        requires { size ≤ 4096 }
        ensures { ReadsAs size (in_buffer self.now) result }
    {
        read(&self.buf[self.from..self.to], usize::from(size))
    }

    /// Passes over the first bytes, which stand in the buffer.
    pub fn pass(&mut self, len: usize)
        requires { len ≤ self.old.to - self.old.from }
        ensures { PassesOver len self.old self.new }
    {
        self.at += len as u64;
        self.from += len;
    }

    /// Reads as many bytes into the buffer as it has room for.
    fn load<B: Bank>(&mut self, bank: &mut B, ring: &Ring) -> Result<(), DiskFault>
        requires room { self.old.end ≤ self.old.at + ring.now.len }
        requires there { Fits (B.view bank.old) ring.now.disk (ring.now.at + ring.now.len) }
        ensures place { SamePlace self.old self.new }
        ensures filled { OnOk result
            (self.new.to - self.new.from
            ≡ min (self.new.end - self.new.at) (vec_len self.new.buf)) }
        ensures loaded { IsTrue (B.view bank.old).tells
            → IsLoaded ring.now self.new (B.view bank.old).now.disks }
        ensures looks { OnlyReads (B.view bank.old) (B.view bank.new) }
        ensures cause { OnErr result (Rose ((B.view bank.old).faults ring.now.disk)
            ((B.view bank.new).faults ring.now.disk)) }
    {
        // After a fault the buffer holds any bytes, so none of them counts until they are read.
        self.from = 0;
        self.to = 0;
        let len = (self.end - self.at).min(self.buf.len() as u64) as usize;
        read_front(bank, ring, self.at, self.buf.as_mut_slice(), len)?;
        self.to = len;
        Ok(())
    }

    /// The record at the front of the bytes, over blocks of that size, and all its bytes stand in
    /// the buffer then. They are loaded from its first one on, where they aren't there yet.
    pub fn front<B: Bank>(
        &mut self,
        bank: &mut B,
        ring: &Ring,
        size: u16,
    ) -> Result<Option<Front>, DiskFault>
        requires size { size ≤ 4096 }
        requires buffer { HasBuffer size self.old }
        requires room { self.old.end ≤ self.old.at + ring.now.len }
        requires there { Fits (B.view bank.old) ring.now.disk (ring.now.at + ring.now.len) }
        requires loaded { IsTrue (B.view bank.old).tells
            → IsLoaded ring.now self.old (B.view bank.old).now.disks }
        ensures place { SamePlace self.old self.new }
        ensures found { IsTrue (B.view bank.old).tells → IfOk result (λ found. (bytes : List ℕ)
            → IsAhead ring.now self.old bytes (B.view bank.old).now.disks
            → IsFront size bytes found) }
        ensures in_buffer { IfOk result (IsInBuffer self.new) }
        ensures ranges { IfOk result (HasRanges size) }

        // No call of the bank for a record that stands in the buffer.
        ensures untouched { IsWholeRecord size self.old → bank.new ≡ bank.old }
        ensures loaded { IsTrue (B.view bank.old).tells
            → IsLoaded ring.now self.new (B.view bank.old).now.disks }
        ensures looks { OnlyReads (B.view bank.old) (B.view bank.new) }
        ensures cause { OnErr result (Rose ((B.view bank.old).faults ring.now.disk)
            ((B.view bank.new).faults ring.now.disk)) }
    {
        match self.front_read(size) {
            ReadRec::Whole { rec, used } => Ok(Some(Front { rec, len: used })),
            ReadRec::Bad { .. } => Ok(None),
            ReadRec::Short => {
                if self.is_whole() {
                    return Ok(None);
                }
                // No byte of the record is passed over, so it stands whole at the front afterwards.
                self.load(bank, ring)?;
                match self.front_read(size) {
                    ReadRec::Whole { rec, used } => Ok(Some(Front { rec, len: used })),
                    ReadRec::Bad { .. } => Ok(None),
                    ReadRec::Short => Ok(None),
                }
            }
        }
    }
}
