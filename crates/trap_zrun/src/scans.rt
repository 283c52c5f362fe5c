//! Where a literal ends.

ghost use Rattle.std.specs.Prelude.{ℕ, ◌+◌, ◌-◌, ◌<◌, ◌≤◌, length, slice_index, slice_range};
ghost use Rattle.trap_model.specs.ZeroRun.{AreZeros, IsLiteral};
ghost use Rattle.trap_zrun.specs.Scans.{ZerosFollow};

use trap_block::four_zeros;

// The place after the last nonzero byte before `stop`.
fn without_zeros(bytes: &[u8], at: usize, stop: usize) -> usize
    requires place { at < stop }
    requires inside { stop ≤ length bytes.now }
    requires some { 0 < slice_index bytes.now at }
    ensures from { at < result }
    ensures within { result ≤ stop }
    ensures last { 0 < slice_index bytes.now (result - 1) }
    ensures zeros { AreZeros bytes.now result (stop - result) }
{
    let mut end = stop;
    while bytes[end - 1] == 0 {
        end -= 1;
    }
    end
}

/// The end of the literal that begins at a place, which has no zero byte or is the block's end.
pub fn literal_end(block: &[u8], at: usize) -> usize
    requires inside { at ≤ length block.now }
    requires some { at < length block.now → 0 < slice_index block.now at }
    ensures from { at ≤ result }
    ensures within { result ≤ length block.now }
    ensures literal { at < length block.now → IsLiteral (slice_range block.now at result) }
    ensures zeros { ZerosFollow block.now result }
{
    if at == block.len() {
        return at;
    }
    let stop = four_zeros(block, at);
    without_zeros(block, at, stop)
}
