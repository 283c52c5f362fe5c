//! Writes the code of a block.

ghost use Rattle.std.specs.Prelude.{◌+◌, ◌^◌, ◌<◌, ◌≤◌, length, take};
ghost use Rattle.trap_model.specs.ZeroRun.{ZeroRun};

use crate::pieces::put_segment;
use crate::scans::literal_end;
use trap_block::zeros_from;

/// Writes the one spelling of the block at the front of `out`, which has room for seven bytes more
/// than the block, and answers the spelling's length. It goes over the block once, and copies each
/// literal as it is found.
pub fn code(block: &[u8], out: &mut [u8]) -> usize
    requires size { length block.now < 2 ^ 16 }
    requires room { length block.now + 7 ≤ length out.old }
    ensures end { result ≤ length out.new }
    ensures spelled { ZeroRun block.now (take result out.new) }
{
    let mut at = 0;
    let mut end = 0;
    while at < block.len() {
        let start = at + zeros_from(block, at);
        let stop = literal_end(block, start);
        end = put_segment(out, end, start - at, &block[start..stop]);
        at = stop;
    }
    end
}
