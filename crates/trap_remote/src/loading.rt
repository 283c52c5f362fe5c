//! The command `replica-load`.

ghost use Rattle.std.specs.Prelude.{◌≡◌, ◌^◌, ◌≤◌, None, true};
ghost use Rattle.trap_remote.specs.Making.{first_broken_in, HasAskedNumbers};
ghost use Rattle.trap_remote.specs.Ended.{changes_no_disk};
ghost use Rattle.trap_remote.specs.Loading.{LoadOutcome};
ghost use Rattle.trap_remote.specs.declared.outcome.AskedReplica.{AskedReplica};

use crate::lines::say_loaded;
use crate::{AskedReplica, ReplicaEnd, Start};
use std::alloc::Global;
use trap_bank::{Bank, Source};
use trap_format::{Shape, check_shape};
use trap_replica::load;

/// Makes a replica that holds the source's image, at this number and its time, and says that it is
/// loaded.
pub fn load_replica<B: Bank, S: Source>(
    alloc: Global,
    bank: &mut B,
    source: &mut S,
    asked: &AskedReplica,
    start: &Start,
) -> ReplicaEnd
    requires below { (S.stream source.old).given ≤ 2 ^ 62 }
    ensures outcome { LoadOutcome asked.now start.now result (B.view bank.old) (B.view bank.new)
        (S.stream source.old) (S.stream source.new) }

    // What is refused calls bank and source for nothing.
    ensures untouched { changes_no_disk result ≡ true
        → (bank.new ≡ bank.old) × (source.new ≡ source.old) }
{
    match check_shape(asked.id, asked.block, asked.volume, start.seq) {
        Ok(shape) => load_shape(alloc, bank, source, &shape, start),
        Err(bad) => ReplicaEnd::BadGeometry(bad.field),
    }
}

// Makes the replica of this shape, and says that it is loaded.
fn load_shape<B: Bank, S: Source>(
    alloc: Global,
    bank: &mut B,
    source: &mut S,
    shape: &Shape,
    start: &Start,
) -> ReplicaEnd
    requires most { start.now.seq ≤ 2 ^ 40 }
    requires below { (S.stream source.old).given ≤ 2 ^ 62 }
    ensures outcome { (asked : AskedReplica) → first_broken_in asked start.now.seq ≡ None
        → HasAskedNumbers asked shape.now
        → LoadOutcome asked start.now result (B.view bank.old) (B.view bank.new)
        (S.stream source.old) (S.stream source.new) }
    ensures untouched { changes_no_disk result ≡ true
        → (bank.new ≡ bank.old) × (source.new ≡ source.old) }
{
    if let Err(why) = load(alloc, bank, shape, start.seq, start.time, source) {
        return ReplicaEnd::NotMade(why);
    }
    // The image is whole, and stays so over a crash, before its line is said.
    match say_loaded(bank, start.seq) {
        Ok(()) => ReplicaEnd::Done,
        Err(_) => ReplicaEnd::Port,
    }
}
