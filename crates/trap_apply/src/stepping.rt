//! The next frame of a stream, given to the replica.

ghost use Rattle.std.specs.Prelude.{◌≡◌, ◌+◌, ◌^◌, ◌≤◌, length, false, None, OnOk};
ghost use Rattle.trap_replica.specs.Mounted.{IsUsable, StaysBeside};
ghost use Rattle.trap_apply.specs.Stepping.{TakesNextFrame};

use crate::ApplyFault;
use trap_bank::{Bank, Source};
use trap_frame::{Frames, Next};
use trap_model::Taken;
use trap_replica::Replica;

/// Takes the next frame of the stream, and gives it to the replica. At the end of the stream there
/// is none.
pub(crate) fn take_next<B: Bank, S: Source>(
    replica: &mut Replica,
    frames: &mut Frames,
    parity: &mut [u8],
    bank: &mut B,
    source: &mut S,
) -> Result<Option<Taken>, ApplyFault>
    requires size { frames.old.size ≡ replica.old.store.shape.block }
    requires sized { length parity.old ≡ frames.old.size }
    requires going { frames.old.fault ≡ None }
    requires running { replica.old.is_stopped ≡ false }
    requires ready { IsUsable replica.old (B.view bank.old) }
    requires below { (S.stream source.old).given ≤ 2 ^ 62 + 2 ^ 40 }
    ensures next { TakesNextFrame B.view result replica.old replica.new bank.old bank.new
        frames.old.used frames.new.used (S.stream source.old) (S.stream source.new) }
    ensures stays { StaysBeside replica.old replica.new (B.view bank.old) (B.view bank.new) }
    ensures size { frames.new.size ≡ frames.old.size }
    ensures goes_on { OnOk result (frames.new.fault ≡ None) }
{
    match frames.next(source, parity) {
        Ok(Next::End) => Ok(None),
        Ok(Next::Frame(frame)) => match replica.take(bank, &frame, parity) {
            Ok(taken) => Ok(Some(taken)),
            Err(why) => Err(ApplyFault::Replica(why)),
        },
        Err(fault) => Err(ApplyFault::Stream(fault)),
    }
}
