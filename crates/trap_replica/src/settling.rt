//! The held frames that follow are applied.

ghost use Rattle.std.specs.Prelude.{◌≡◌, ◌+◌, ◌<◌, length, OnOk, OnErr, true};
ghost use Rattle.trap_bank.specs.Faults.{Rose};
ghost use Rattle.trap_replica.specs.Holding.{SuitAll, has_next};
ghost use Rattle.trap_replica.specs.Standing.{IsStoreReady, HasAppliedHeld, AppliesHeld};

use crate::held::Held;
use crate::store::Store;
use trap_bank::{Bank, DiskFault};

/// Whether the first held frame is the next.
fn has_next(store: &Store, held: &Held) -> bool
    ensures { result ≡ has_next store.now.number held.now.frames }
{
    match held.first() {
        Some(frame) => frame.seq == store.number + 1,
        None => false,
    }
}

/// Applies the first held frame, which is the next.
fn apply_first<B: Bank>(bank: &mut B, store: &mut Store, held: &mut Held) -> Result<(), DiskFault>
    requires ready { IsStoreReady store.old (B.view bank.old) }
    requires suit { SuitAll store.old.shape store.old.number store.old.number held.old }
    requires next { has_next store.old.number held.old.frames ≡ true }
    ensures ok { OnOk result (HasAppliedHeld store.old store.new held.old held.new (B.view bank.old)
        (B.view bank.new)) }
    ensures fewer { OnOk result (length held.new.frames < length held.old.frames) }
    ensures passes { AppliesHeld store.old store.new held.old (B.view bank.old) (B.view bank.new) }
    ensures cause { OnErr result (Rose ((B.view bank.old).faults 17)
        ((B.view bank.new).faults 17)) }
{
    let Some(frame) = held.first() else {
        return Ok(());
    };
    store.apply_next(bank, frame)?;
    held.drop_first();
    Ok(())
}

/// Applies held frames in order, as long as the first is the next.
pub(crate) fn settle<B: Bank>(
    bank: &mut B,
    store: &mut Store,
    held: &mut Held,
) -> Result<(), DiskFault>
    requires ready { IsStoreReady store.old (B.view bank.old) }
    requires suit { SuitAll store.old.shape store.old.number store.old.number held.old }
    ensures ok { OnOk result (HasAppliedHeld store.old store.new held.old held.new (B.view bank.old)
        (B.view bank.new)) }
    ensures done { OnOk result (SuitAll store.new.shape (store.new.number + 1) store.new.number
        held.new) }
    ensures passes { AppliesHeld store.old store.new held.old (B.view bank.old) (B.view bank.new) }
    ensures cause { OnErr result (Rose ((B.view bank.old).faults 17)
        ((B.view bank.new).faults 17)) }
{
    'frames: while has_next(store, held) {
        apply_first(bank, store, held)?;
    }
    Ok(())
}
