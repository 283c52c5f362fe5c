//! One disk in memory: its bytes, what is stable of it, and what was written since.

ghost use Rattle.std.specs.Prelude.{◌≡◌, ℕ, ◌+◌, ◌≤◌, [], ◌++◌, ◌∷◌, All, IfOk, OnErr, OnOk};
ghost use Rattle.std.specs.Prelude.{length, slice_index, slice_range};
ghost use Rattle.trap_bank.specs.Kept.{zero_disk, overlaid, written_disk, settled_disk};
ghost use Rattle.trap_bank.specs.Kept.{AgreeOutside};

use std::alloc::{AllocError, Global};
use std::marker::Model;
use std::mem;

/// `len` positions from the byte offset `at` on.
#[derive(Debug, Clone, Copy)]
pub(crate) struct Range {
    pub at: usize,
    pub len: usize,
}

/// Ranges in the order in which they were written.
#[derive(Debug, Drop)]
pub(crate) struct Ranges {
    items: Vec<Range>,
}

impl Model for Ranges {
    ghost use Rattle.std.specs.Prelude.{List};
    ghost use Rattle.trap_bank.specs.declared.disk.Range.{Range};

    ghost Value = { List Range };

    ghost view = { λ ranges. ranges.items.items };
}

/// Bytes that are kept.
#[derive(Debug, Drop)]
pub(crate) struct Bytes {
    items: Vec<u8>,
}

impl Model for Bytes {
    ghost use Rattle.std.specs.Prelude.{List, ℕ};

    ghost Value = { List ℕ };

    ghost view = { λ bytes. bytes.items.items };
}

/// The bytes as a read gives them, as the last sync left them, and the ranges written since.
#[derive(Debug, Drop)]
pub(crate) struct Disk {
    pub(crate) bytes: Vec<u8>,
    pub(crate) stable: Vec<u8>,
    pub(crate) ranges: Ranges,
}

impl Model for Disk {
    ghost use Rattle.trap_bank.specs.Kept.{Kept, IsStableBut};

    ghost Value = { Kept };

    ghost view = { λ disk. record {
      bytes = disk.bytes.items;
      stable = disk.stable.items;
      ranges = disk.ranges;
    } };

    ghost invariant = { λ disk. IsStableBut disk.bytes.items disk.stable.items disk.ranges };
}

impl Disk {
    /// A disk of that many zero bytes, all stable.
    pub(crate) fn zeros(alloc: Global, len: usize) -> Result<Disk, AllocError>
        ensures { IfOk result (λ disk. disk ≡ zero_disk len) }
    {
        let bytes = vec![in alloc; 0u8; len]?;
        let stable = vec![in alloc; 0u8; len]?;
        Ok(Disk {
            bytes,
            stable,
            ranges: Ranges {
                items: Vec::new(alloc),
            },
        })
    }

    pub(crate) fn bytes(&self) -> &[u8]
        ensures { result.now ≡ self.now.bytes }
    {
        &self.bytes
    }

    /// Lays bytes over the disk's from the offset `at` on, and answers what stood there. Without
    /// memory nothing changes.
    pub(crate) fn write(
        &mut self,
        alloc: Global,
        at: usize,
        bytes: &[u8],
    ) -> Result<Bytes, AllocError>
        requires { at + length bytes.now ≤ length self.old.bytes }
        ensures ok { IfOk result (λ replaced. self.new ≡ written_disk self.old at bytes.now) }
        ensures replaced { IfOk result
            (λ replaced. replaced ≡ slice_range self.old.bytes at (at + length bytes.now)) }
        ensures err { OnErr result (self.new ≡ self.old) }
    {
        let replaced = Vec::from_slice(alloc, part(&self.bytes, at, bytes.len()))?;
        let range = Range {
            at,
            len: bytes.len(),
        };
        self.ranges.push(range)?;
        overwrite(self.bytes.as_mut_slice(), at, bytes);
        Ok(Bytes { items: replaced })
    }

    /// Makes all that was written stable, and answers where it was written since the last time.
    pub(crate) fn settle(&mut self, alloc: Global) -> Ranges
        ensures settled { self.new ≡ settled_disk self.old }
        ensures ranges { result ≡ self.old.ranges }
    {
        copy_ranges(
            self.stable.as_mut_slice(),
            &self.bytes,
            self.ranges.as_slice(),
        );
        mem::replace(
            &mut self.ranges,
            Ranges {
                items: Vec::new(alloc),
            },
        )
    }
}

impl Ranges {
    pub(crate) fn as_slice(&self) -> &[Range]
        ensures { result.now ≡ self.now }
    {
        &self.items
    }

    pub(crate) fn clear(&mut self)
        ensures { self.new ≡ [] }
    {
        self.items.clear();
    }

    fn push(&mut self, range: Range) -> Result<(), AllocError>
        ensures ok { OnOk result (self.new ≡ self.old ++ range ∷ []) }
        ensures err { OnErr result (self.new ≡ self.old) }
    {
        self.items.push(range)?;
        Ok(())
    }
}

/// `len` bytes from the offset `at` on.
fn part(bytes: &[u8], at: usize, len: usize) -> &[u8]
    requires { at + len ≤ length bytes.now }
    ensures { result.now ≡ slice_range bytes.now at (at + len) }
{
    &bytes[at..at + len]
}

/// Lays the new bytes over the old ones, from the offset `at` on.
fn overwrite(bytes: &mut [u8], at: usize, fresh: &[u8])
    requires { at + length fresh.now ≤ length bytes.old }
    ensures { bytes.new ≡ overlaid bytes.old at fresh.now }
{
    bytes[at..at + fresh.len()].copy_from_slice(fresh);
}

/// Copies these ranges, outside of which both have the same bytes.
pub(crate) fn copy_ranges(to: &mut [u8], from: &[u8], ranges: &[Range])
    requires same { length to.old ≡ length from.now }
    requires inside { All (λ range. range.at + range.len ≤ length from.now) ranges.now }
    requires agree { AgreeOutside ranges.now to.old from.now }
    ensures { to.new ≡ from.now }
{
    for range in ranges {
        copy_range(to, from, *range);
    }
}

/// Copies one range.
fn copy_range(to: &mut [u8], from: &[u8], range: Range)
    requires same { length to.old ≡ length from.now }
    requires inside { range.at + range.len ≤ length from.now }
    ensures { to.new
        ≡ overlaid to.old range.at (slice_range from.now range.at (range.at + range.len)) }
{
    let end = range.at + range.len;
    to[range.at..end].copy_from_slice(&from[range.at..end]);
}
