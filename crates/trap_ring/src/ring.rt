//! The ring: append after a kept window, and read.

ghost use Rattle.std.specs.Prelude.{◌≡◌, ℕ, ◌+◌, ◌-◌, ◌<◌, ◌≤◌, ◌^◌, length, OnErr, OnOk, IsTrue};
ghost use Rattle.trap_bank.specs.Faults.{Rose};
ghost use Rattle.trap_bank.specs.Disks.{Differs, Torn};
ghost use Rattle.trap_bank.specs.Called.{TakesCalls};
ghost use Rattle.trap_bank.specs.Calls.{Fits};
ghost use Rattle.trap_bank.specs.Steps.{Moves, Same};
ghost use Rattle.trap_ring.specs.Ring.{InRing, RingHas, KeepsWindow, Appends, GoesRoundEnd};
ghost use Rattle.trap_ring.specs.Ring.{ring_calls};

use std::marker::Model;
use trap_bank::{Bank, DiskFault};

/// A ring of `len` bytes on a disk, from the byte offset `at` on. Its bytes have absolute offsets
/// that only grow: the one with offset `x` stands at byte `x mod len` of the ring.
#[derive(Drop)]
pub struct Ring {
    disk: u8,
    at: u64,
    len: u64,
}

impl Model for Ring {
    ghost use Rattle.std.specs.Prelude.{◌+◌, ◌<◌, ◌≤◌, ◌^◌};
    ghost use Rattle.trap_ring.specs.Ring.{RingPlace};

    ghost Value = { RingPlace };

    ghost view = { λ r. record { disk = r.disk; at = r.at; len = r.len } };

    ghost invariant = { λ r. (r.disk ≤ 20) × (1 ≤ r.len) × (r.at + r.len < 2 ^ 64) };
}

impl Ring {
    /// The ring of `len` bytes, at least 1, of a disk from the byte offset `at` on. It ends below
    /// 2^64.
    pub fn new(disk: u8, at: u64, len: u64) -> Ring
        requires disk { disk ≤ 20 }
        requires some { 1 ≤ len }
        requires ends { at + len < 2 ^ 64 }
        ensures { result ≡ record { disk = disk; at = at; len = len } }
    {
        Ring { disk, at, len }
    }

    /// Writes the bytes at the absolute offset `to`, after the window from `from` to `to`. It
    /// doesn't sync. After a fault any bytes may stand in the new ones' places.
    pub fn append<B: Bank>(
        &self,
        bank: &mut B,
        from: u64,
        to: u64,
        bytes: &[u8],
    ) -> Result<(), DiskFault>
        requires order { from ≤ to }
        requires room { to - from + length bytes.now ≤ self.now.len }
        requires there { Fits (B.view bank.old) self.now.disk (self.now.at + self.now.len) }
        ensures written { IsTrue (B.view bank.old).tells → OnOk result
            (Appends self.now from to bytes.now
            (B.view bank.old).now.disks (B.view bank.new).now.disks) }
        ensures contents { IsTrue (B.view bank.old).tells
            → Torn (InRing self.now to (length bytes.now))
            (B.view bank.old).now (B.view bank.new).now }
        ensures sizes { (e : ℕ) → (B.view bank.new).sizes e ≡ (B.view bank.old).sizes e }
        ensures cause { OnErr result (Rose ((B.view bank.old).faults self.now.disk)
            ((B.view bank.new).faults self.now.disk)) }

        // One write, or two where the bytes go over the ring's end, and no other call.
        ensures calls { TakesCalls (ring_calls self.now to (length bytes.now)) result
            (B.view bank.old) (B.view bank.new) }

        // Stopped at any moment, no byte but those of the new bytes' places has changed.
        ensures any_moment { Moves (B.view bank.old) (B.view bank.new)
            (Differs (InRing self.now to (length bytes.now)))
            (Differs (InRing self.now to (length bytes.now))) }

        // So the window stands as it was, and so does all outside the ring.
        ensures window { Moves (B.view bank.old) (B.view bank.new)
            (KeepsWindow self.now from to) (KeepsWindow self.now from to) }
    {
        let (start, count) = self.cut(to, bytes.len());
        let (first, rest) = bytes.split_at(count);
        // After the window and before the ring's end, where no kept byte stands.
        bank.write(self.disk(), start, first)?;
        if rest.is_empty() {
            return Ok(());
        }
        // The rest goes round to the ring's beginning, and ends before the window begins.
        bank.write(self.disk(), self.begin(), rest)?;
        Ok(())
    }

    /// Fills `buf` with the bytes from the absolute offset `at` on. After a fault `buf` holds any
    /// bytes.
    pub fn read<B: Bank>(&self, bank: &mut B, at: u64, buf: &mut [u8]) -> Result<(), DiskFault>
        requires room { length buf.old ≤ self.now.len }
        requires there { Fits (B.view bank.old) self.now.disk (self.now.at + self.now.len) }
        ensures bytes { IsTrue (B.view bank.old).tells
            → OnOk result (RingHas self.now at buf.new (B.view bank.old).now.disks) }
        ensures contents { IsTrue (B.view bank.old).tells
            → (B.view bank.new).now ≡ (B.view bank.old).now }
        ensures sizes { (e : ℕ) → (B.view bank.new).sizes e ≡ (B.view bank.old).sizes e }
        ensures cause { OnErr result (Rose ((B.view bank.old).faults self.now.disk)
            ((B.view bank.new).faults self.now.disk)) }

        // One read, or two where the bytes go over the ring's end, and no other call.
        ensures calls { TakesCalls (ring_calls self.now at (length buf.old)) result
            (B.view bank.old) (B.view bank.new) }

        ensures any_moment { Moves (B.view bank.old) (B.view bank.new) Same Same }
    {
        let (start, count) = self.cut(at, buf.len());
        let (first, rest) = buf.split_at_mut(count);
        bank.read(self.disk(), start, first)?;
        if rest.is_empty() {
            return Ok(());
        }
        bank.read(self.disk(), self.begin(), rest)?;
        Ok(())
    }

    fn disk(&self) -> u8
        ensures is { result ≡ self.now.disk }
        ensures bound { result ≤ 20 }
    {
        self.disk
    }

    fn begin(&self) -> u64
        ensures { result ≡ self.now.at }
    {
        self.at
    }

    /// Where on the disk `len` bytes from an absolute offset on begin, and how many of them stand
    /// before the ring's end.
    fn cut(&self, offset: u64, len: usize) -> (u64, usize)
        ensures { GoesRoundEnd self.now offset len result.0 result.1 }
    {
        let start = offset % self.len;
        let before_end = self.len - start;
        if len as u64 <= before_end {
            (self.at + start, len)
        } else {
            (self.at + start, before_end as usize)
        }
    }
}
