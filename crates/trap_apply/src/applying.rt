//! The loop over the frames of a stream.

ghost use Rattle.std.specs.Prelude.{◌≡◌, ◌^◌, ◌≤◌, length, false, None};
ghost use Rattle.trap_replica.specs.Mounted.{IsUsable, StaysBeside};
ghost use Rattle.trap_apply.specs.Applies.{Applies};

use crate::counting::Counts;
use crate::stepping::take_next;
use crate::{ApplyFault, Feed, Outcome, Summary};
use trap_bank::{Bank, Source};
use trap_frame::Frames;
use trap_replica::Replica;

// How a run ends after these frames.
fn ending(replica: &Replica, counts: &Counts, fault: Option<ApplyFault>) -> Outcome
    ensures applied { result.summary.applied ≡ replica.now.store.number }
    ensures held { result.summary.held ≡ length replica.now.held.frames }
    ensures frames { result.summary.frames ≡ counts.now.frames }
    ensures repeats { result.summary.repeats ≡ counts.now.repeats }
    ensures beyond { result.summary.beyond ≡ counts.now.beyond }
    ensures fault { result.fault ≡ fault }
{
    Outcome {
        summary: Summary {
            applied: replica.applied(),
            frames: counts.frames,
            held: replica.held(),
            repeats: counts.repeats,
            beyond: counts.beyond,
        },
        fault,
    }
}

// Takes frame after frame, up to the end of the stream or a fault.
fn apply_all<B: Bank, S: Source>(
    replica: &mut Replica,
    frames: &mut Frames,
    parity: &mut [u8],
    bank: &mut B,
    source: &mut S,
) -> Outcome
    requires size { frames.old.size ≡ replica.old.store.shape.block }
    requires sized { length parity.old ≡ frames.old.size }
    requires untaken { frames.old.used ≡ 0 }
    requires going { frames.old.fault ≡ None }
    requires running { replica.old.is_stopped ≡ false }
    requires ready { IsUsable replica.old (B.view bank.old) }
    requires below { (S.stream source.old).given ≤ 2 ^ 62 }
    ensures applies { Applies replica.old replica.new result (B.view bank.old) (B.view bank.new)
        (S.stream source.old) (S.stream source.new) }
    ensures stays { StaysBeside replica.old replica.new (B.view bank.old) (B.view bank.new) }
{
    let mut counts = Counts::none();
    'frames: loop {
        match take_next(replica, frames, parity, bank, source) {
            Ok(Some(taken)) => counts.add(taken),
            Ok(None) => return ending(replica, &counts, None),
            Err(fault) => return ending(replica, &counts, Some(fault)),
        }
    }
}

/// Takes frame after frame of the source, up to its end or a fault, and gives each to the replica.
/// After a fault nothing more is taken. It takes no memory.
pub fn apply<B: Bank, S: Source>(
    replica: &mut Replica,
    feed: Feed,
    bank: &mut B,
    source: &mut S,
) -> Outcome
    requires size { feed ≡ replica.old.store.shape.block }
    requires running { replica.old.is_stopped ≡ false }
    requires ready { IsUsable replica.old (B.view bank.old) }
    requires below { (S.stream source.old).given ≤ 2 ^ 62 }
    ensures applies { Applies replica.old replica.new result (B.view bank.old) (B.view bank.new)
        (S.stream source.old) (S.stream source.new) }

    // The replica may be used again unless its disk failed, and no other disk changes.
    ensures stays { StaysBeside replica.old replica.new (B.view bank.old) (B.view bank.new) }
{
    let mut frames = feed.frames;
    let mut parity = feed.parity;
    apply_all(replica, &mut frames, parity.as_mut_slice(), bank, source)
}
