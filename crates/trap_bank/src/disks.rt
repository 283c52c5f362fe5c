//! Disks by number, with the reply port.

ghost use Rattle.std.specs.Prelude.{◌≡◌, ◌+◌, ◌≤◌, length};
ghost use Rattle.trap_bank.specs.Disks.{View};
ghost use Rattle.trap_bank.specs.Calls.{Fits, Makes, Reads, Writes, Syncs, Says, IsLawful};

/// A call of the outside failed. Why isn't known; a count of faults rose.
#[derive(Debug, Clone, Copy, PartialEq, Eq)]
pub struct Failed;

/// A disk failed in the call: its count of faults rose.
#[derive(Debug, Clone, Copy, PartialEq, Eq)]
pub struct DiskFault;

impl From<Failed> for DiskFault {
    fn from(_failed: Failed) -> DiskFault {
        DiskFault
    }
}

/// Disks by number, 0 to 20, and a port on which replies are said. One bank holds them all, so that
/// a crash strikes them at one moment. Offsets and lengths are in bytes.
pub trait Bank {
    ghost view: { Self → View };

    /// The size of a disk in bytes, or None where it is absent.
    fn size(&self, d: u8) -> Option<u64>
        requires { d ≤ 20 }
        ensures { result ≡ (view self.now).sizes d };

    /// Gives the disk exactly `len` zero bytes, whatever it was, and makes them stable. After a
    /// failure the disk is as before, or absent, or has at most `len` bytes, all zero.
    fn make(&mut self, d: u8, len: u64) -> Result<(), Failed>
        requires { d ≤ 20 }
        ensures call { Makes d len result (view self.old) (view self.new) };

    /// Fills `buf` from the disk. After a failure `buf` holds any bytes.
    fn read(&mut self, d: u8, at: u64, buf: &mut [u8]) -> Result<(), Failed>
        requires disk { d ≤ 20 }
        requires room { Fits (view self.old) d (at + length buf.old) }
        ensures call { Reads d at buf.old buf.new result (view self.old) (view self.new) };

    /// Writes the bytes over the disk's. Until a sync, and after a failure, a crash may leave any
    /// bytes in their range.
    fn write(&mut self, d: u8, at: u64, bytes: &[u8]) -> Result<(), Failed>
        requires disk { d ≤ 20 }
        requires room { Fits (view self.old) d (at + length bytes.now) }
        ensures call { Writes d at bytes.now result (view self.old) (view self.new) };

    /// Makes what was written to the disk stable.
    fn sync(&mut self, d: u8) -> Result<(), Failed>
        requires disk { d ≤ 20 }
        requires there { Fits (view self.old) d 0 }
        ensures call { Syncs d result (view self.old) (view self.new) };

    /// Says the bytes on the port. After a failure some first part of them was said.
    fn say(&mut self, bytes: &[u8]) -> Result<(), Failed>
        ensures call { Says bytes.now result (view self.old) (view self.new) };

    ghost lawful: { (bank : Self) → IsLawful (view bank) };
}
