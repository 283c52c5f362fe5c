//! The leases of one call.

ghost use Rattle.std.specs.Prelude.{◌<◌, ◌≤◌};
ghost use Rattle.trap_array.specs.Held.{TakesFour, GivesFour, leases_of};
ghost use Rattle.trap_pool.specs.Frames.{AreLeases};
ghost use Rattle.trap_pool.specs.Pooled.{Leased, free_of};

use std::marker::Model;
use trap_pool::{Lease, Pool};

/// The blocks that a call of an array uses. They are taken and given at one place, so that all
/// blocks are free again, whatever the call answers.
pub(crate) struct Held {
    /// What is read, or what is to be written.
    pub(crate) contents: Lease,
    /// What a write changes: the old bytes xor the fresh ones.
    pub(crate) delta: Lease,
    /// The parity of its row after it.
    pub(crate) parity: Lease,
    /// Any bytes.
    pub(crate) scratch: Lease,
}

impl Model for Held {
    ghost use Rattle.trap_array.specs.Held as held;

    ghost Value = { held.Held };

    ghost view = { λ h. record {
      contents = h.contents;
      delta = h.delta;
      parity = h.parity;
      scratch = h.scratch;
    } };
}

impl Held {
    /// Takes them.
    pub(crate) fn take(pool: &mut Pool) -> Held
        requires { 4 ≤ free_of pool.old }
        ensures { TakesFour (leases_of result) pool.old pool.new }
    {
        let scratch = lease(pool);
        let parity = lease(pool);
        let delta = lease(pool);
        let contents = lease(pool);
        Held {
            contents,
            delta,
            parity,
            scratch,
        }
    }

    /// Gives them back.
    pub(crate) fn give(self, pool: &mut Pool)
        requires { AreLeases pool.old (leases_of self) }
        ensures { GivesFour pool.old pool.new }
    {
        let Held {
            contents,
            delta,
            parity,
            scratch,
        } = self;
        pool.give(contents);
        pool.give(delta);
        pool.give(parity);
        pool.give(scratch);
    }
}

/// A lease of a block, where one is free.
fn lease(pool: &mut Pool) -> Lease
    requires { 0 < free_of pool.old }
    ensures { Leased result pool.old pool.new }
{
    match pool.take() {
        Some(lease) => lease,
        None => unreachable!(),
    }
}
