//! The leased blocks that tests read and plan in.

ghost use Rattle.std.specs.Prelude.{◌≡◌, ◌≤◌, [], ◌∷◌};
ghost use Rattle.trap_pool.specs.Frames.{AreLeases};
ghost use Rattle.trap_pool.specs.Pooled.{free_of};

use trap_pool::{Lease, Pool};

/// The blocks of a plan. A read uses the last two.
pub(crate) struct Blocks {
    pub(crate) fresh: Lease,
    pub(crate) delta: Lease,
    pub(crate) parity: Lease,
    pub(crate) scratch: Lease,
}

impl Blocks {
    pub(crate) fn take(pool: &mut Pool) -> Blocks
        requires { 4 ≤ free_of pool.old }
        ensures size { pool.new.size ≡ pool.old.size }
        ensures leases { AreLeases pool.new
            (result.fresh ∷ result.delta ∷ result.parity ∷ result.scratch ∷ []) }
    {
        let Some(fresh) = pool.take() else {
            unreachable!();
        };
        let Some(delta) = pool.take() else {
            unreachable!();
        };
        let Some(parity) = pool.take() else {
            unreachable!();
        };
        let Some(scratch) = pool.take() else {
            unreachable!();
        };
        Blocks {
            fresh,
            delta,
            parity,
            scratch,
        }
    }

    pub(crate) fn give(self, pool: &mut Pool)
        requires { AreLeases pool.old
            (self.fresh ∷ self.delta ∷ self.parity ∷ self.scratch ∷ []) }
    {
        let Blocks {
            fresh,
            delta,
            parity,
            scratch,
        } = self;
        pool.give(fresh);
        pool.give(delta);
        pool.give(parity);
        pool.give(scratch);
    }
}
