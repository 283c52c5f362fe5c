//! The command `apply`.

ghost use Rattle.std.specs.Prelude.{◌≡◌, ◌≢◌, ◌^◌, ◌≤◌, false};
ghost use Rattle.trap_bank.specs.Calls.{Says};
ghost use Rattle.trap_apply.specs.Summary.{summary_line};
ghost use Rattle.trap_replica.specs.Mounted.{IsUsable};
ghost use Rattle.trap_remote.specs.Applying.{ApplyOutcome};
ghost use Rattle.trap_remote.specs.Found.{LacksHeader};
ghost use Rattle.trap_remote.specs.Running.{GoesByFrames, SaysOutcome, TakesOver};
ghost use Rattle.trap_remote.specs.Running.{end_of, is_unsaid};
ghost use Rattle.trap_remote.specs.declared.outcome.ReplicaEnd.TheVariants as ending;

use crate::ReplicaEnd;
use std::alloc::Global;
use trap_apply::{ApplyFault, Feed, Outcome, SUMMARY_BYTES, Summary, apply, write_summary};
use trap_bank::{Bank, Failed, Source};
use trap_replica::{Replica, ReplicaFault};

/// Mounts the replica, takes the frames of the source, and says the summary.
pub fn apply_frames<B: Bank, S: Source>(alloc: Global, bank: &mut B, source: &mut S) -> ReplicaEnd
    requires below { (S.stream source.old).given ≤ 2 ^ 62 }
    ensures outcome { ApplyOutcome result (B.view bank.old) (B.view bank.new)
        (S.stream source.old) (S.stream source.new) }
    ensures goes { GoesByFrames B.view result bank.old bank.new
        (S.stream source.old) (S.stream source.new) }

    // Where disk 17 has no header, the bank isn't called.
    ensures untouched { LacksHeader (B.view bank.old) → bank.new ≡ bank.old }
{
    match Replica::mount(alloc, bank) {
        Ok(replica) => take_frames(alloc, replica, bank, source),
        Err(why) => ReplicaEnd::NoReplica(why),
    }
}

// Takes the memory before the first byte is read, and the frames, and says the summary.
fn take_frames<B: Bank, S: Source>(
    alloc: Global,
    mut replica: Replica,
    bank: &mut B,
    source: &mut S,
) -> ReplicaEnd
    requires running { replica.is_stopped ≡ false }
    requires ready { IsUsable replica (B.view bank.old) }
    requires below { (S.stream source.old).given ≤ 2 ^ 62 }
    ensures idle { result ≡ ending.Memory
        → (bank.new ≡ bank.old) × (S.stream source.new ≡ S.stream source.old) }
    ensures takes { result ≢ ending.Memory → TakesOver B.view replica result bank.old bank.new
        (S.stream source.old) (S.stream source.new) }
{
    let Ok(feed) = Feed::new(alloc, usize::from(replica.shape().block)) else {
        return ReplicaEnd::Memory;
    };
    let outcome = apply(&mut replica, feed, bank, source);
    say_outcome(bank, &outcome)
}

// How the command ends without a fault of the port.
fn end_of(fault: Option<ApplyFault>) -> ReplicaEnd
    ensures { result ≡ end_of fault }
{
    match fault {
        None => ReplicaEnd::Done,
        Some(why) => ReplicaEnd::NotApplied(why),
    }
}

// Whether the replica's disk failed.
fn is_unsaid(fault: Option<ApplyFault>) -> bool
    ensures { result ≡ is_unsaid fault }
{
    matches!(fault, Some(ApplyFault::Replica(ReplicaFault::DiskFault)))
}

// Says the summary, unless the replica's disk failed.
fn say_outcome<B: Bank>(bank: &mut B, outcome: &Outcome) -> ReplicaEnd
    ensures { SaysOutcome B.view outcome.now result bank.old bank.new }
{
    if is_unsaid(outcome.fault) {
        return end_of(outcome.fault);
    }
    match say_summary(bank, &outcome.summary) {
        Ok(()) => end_of(outcome.fault),
        Err(_) => ReplicaEnd::Port,
    }
}

// Says the summary in one call.
fn say_summary<B: Bank>(bank: &mut B, summary: &Summary) -> Result<(), Failed>
    ensures { Says (summary_line summary.now) result (B.view bank.old) (B.view bank.new) }
{
    let mut line = [0u8; SUMMARY_BYTES];
    let len = write_summary(summary, &mut line);
    bank.say(&line[..len])
}
