//! Two parts of one list of bytes.

ghost use Rattle.std.specs.Prelude.{◌≡◌, ◌+◌, ◌≤◌, ◌⊎◌, length, slice_range};
ghost use Rattle.trap_block.specs.Fields.{put_over};
ghost use Rattle.trap_block.specs.Xor.{xor};

use trap_block::xor_into;

/// The part from `to` on becomes its exclusive-or with the part from `from` on.
pub fn xor_within(bytes: &mut [u8], to: usize, from: usize, size: usize)
    requires to { to + size ≤ length bytes.old }
    requires from { from + size ≤ length bytes.old }
    requires apart { (to + size ≤ from) ⊎ (from + size ≤ to) }
    ensures { bytes.new ≡ put_over to (xor (slice_range bytes.old to (to + size))
        (slice_range bytes.old from (from + size))) bytes.old }
{
    if to < from {
        let (low, high) = bytes.split_at_mut(from);
        xor_into(&mut low[to..to + size], &high[..size]);
    } else {
        let (low, high) = bytes.split_at_mut(to);
        xor_into(&mut high[..size], &low[from..from + size]);
    }
}

/// The part from `to` on becomes the part from `from` on.
pub fn copy_within(bytes: &mut [u8], to: usize, from: usize, size: usize)
    requires to { to + size ≤ length bytes.old }
    requires from { from + size ≤ length bytes.old }
    requires apart { (to + size ≤ from) ⊎ (from + size ≤ to) }
    ensures { bytes.new ≡ put_over to (slice_range bytes.old from (from + size)) bytes.old }
{
    if to < from {
        let (low, high) = bytes.split_at_mut(from);
        low[to..to + size].copy_from_slice(&high[..size]);
    } else {
        let (low, high) = bytes.split_at_mut(to);
        high[..size].copy_from_slice(&low[from..from + size]);
    }
}
