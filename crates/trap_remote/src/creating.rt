//! The command `replica-create`.

ghost use Rattle.std.specs.Prelude.{◌≡◌, None, true};
ghost use Rattle.trap_remote.specs.Making.{first_broken_in, HasAskedNumbers};
ghost use Rattle.trap_remote.specs.Creating.{CreateOutcome};
ghost use Rattle.trap_remote.specs.Ended.{changes_no_disk};
ghost use Rattle.trap_remote.specs.declared.outcome.AskedReplica.{AskedReplica};

use crate::lines::say_created;
use crate::{AskedReplica, ReplicaEnd};
use trap_bank::Bank;
use trap_format::{Shape, check_shape};
use trap_replica::create;

/// Makes a replica that holds zeros at number 0, and says that it is made.
pub fn create_replica<B: Bank>(bank: &mut B, asked: &AskedReplica) -> ReplicaEnd
    ensures outcome { CreateOutcome asked.now result (B.view bank.old) (B.view bank.new) }

    // What is refused calls the bank for nothing.
    ensures untouched { changes_no_disk result ≡ true → bank.new ≡ bank.old }
{
    match check_shape(asked.id, asked.block, asked.volume, 0) {
        Ok(shape) => make_replica(bank, &shape),
        Err(bad) => ReplicaEnd::BadGeometry(bad.field),
    }
}

// Makes the replica of this shape, and says so.
fn make_replica<B: Bank>(bank: &mut B, shape: &Shape) -> ReplicaEnd
    ensures outcome { (asked : AskedReplica) → first_broken_in asked 0 ≡ None
        → HasAskedNumbers asked shape.now
        → CreateOutcome asked result (B.view bank.old) (B.view bank.new) }
    ensures untouched { changes_no_disk result ≡ true → bank.new ≡ bank.old }
{
    if let Err(why) = create(bank, shape) {
        return ReplicaEnd::NotMade(why);
    }
    // The replica is whole, and stays so over a crash, before its line is said.
    match say_created(bank, shape.id) {
        Ok(()) => ReplicaEnd::Done,
        Err(_) => ReplicaEnd::Port,
    }
}
