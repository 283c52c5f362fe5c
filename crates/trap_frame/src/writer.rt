//! Writes a frame.

ghost use Rattle.std.specs.Prelude.{◌≡◌, ℕ, ◌+◌, ◌^◌, ◌≤◌, List, ◌++◌, length, take};
ghost use Rattle.trap_model.specs.ZeroRun.{ZeroRun};
ghost use Rattle.trap_model.specs.Frame.{frame_header, SpellsFrame};

use crate::header::{HEADER, put_header};
use trap_model::Frame;

/// Writes a frame at the front of `out`, and answers its length: 34 bytes and the code.
pub fn spell(frame: &Frame, coded: &[u8], out: &mut [u8]) -> usize
    requires coded { frame.now.length ≡ length coded.now }
    requires room { 34 + length coded.now ≤ length out.old }
    ensures end { result ≡ 34 + frame.now.length }
    ensures spelled { take result out.new ≡ frame_header frame.now ++ coded.now }

    // With a number in range and the code of a block this is the frame of that block.
    ensures whole { (size : ℕ) (parity : List ℕ) → 1 ≤ size → length parity ≡ size
        → 1 ≤ frame.now.seq
        → frame.now.seq ≤ 2 ^ 40 → ZeroRun parity coded.now
        → SpellsFrame size frame.now parity (take result out.new) }
{
    put_header(frame, out);
    let end = HEADER + coded.len();
    out[HEADER..end].copy_from_slice(coded);
    end
}
