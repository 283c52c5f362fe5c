//! The log with its bank as a source of the past.

ghost use Rattle.std.specs.Prelude.{◌≡◌, length};
ghost use Rattle.std.proofs.Common.{◌∙◌};
ghost use Rattle.trap_model.specs.Limits.{greatest_record};
ghost use Rattle.trap_array.specs.Log.{with_index};
ghost use Rattle.trap_array.specs.Sources.{IsFor, past_of_log, OnlyLooked, LookFailed};
ghost use Rattle.trap_array.specs.Sources.{LooksDamaged};
ghost use Rattle.trap_array.specs.SourceLaws.{looks_then, failed_since, failed_still};

use crate::Denied;
use crate::fetch::fetch;
use crate::source::part;
use trap_bank::Bank;
use trap_index::Index;
use trap_log::Log;
use trap_past::{Parities, Present};
use trap_pool::{Lease, Pool};
use trap_record::Part;

/// A log, its index, its bank, and room for a record. The source counts its calls and its faults
/// from 0, and keeps which block's present contents and which entry's record were asked for last.
#[derive(Drop)]
pub(crate) struct LogPast<'l, 'i, 'b, 's, B: Bank> {
    pub(crate) log: &'l Log,
    pub(crate) index: &'i Index,
    pub(crate) bank: &'b mut B,
    pub(crate) spelled: &'s mut [u8],
    pub(crate) presents: u64,
    pub(crate) parities: u64,
    pub(crate) snapshots: u64,
    pub(crate) faults: u64,
    pub(crate) asked: u32,
    pub(crate) looked: u64,
    ghost for_log: { IsFor (with_index log.now index.now) (B.view bank.now) },
    ghost room: { length spelled.now ≡ greatest_record log.now.g.block },
}

impl<B: Bank> Present for LogPast<'_, '_, '_, '_, B> {
    type Fault = Denied;

    ghost view = { λ p. past_of_log (with_index p.log.now p.index.now) (B.view p.bank.now)
        (record {
          presents = p.presents;
          parities = p.parities;
          snapshots = p.snapshots;
          faults = p.faults;
          asked = p.asked;
          looked = p.looked;
        }) };

    // The source keeps its log and its bank.
    ghost acts = { λ p q. (p.bank.ghost_name ≡ q.bank.ghost_name)
        × ((with_index p.log.now p.index.now ≡ with_index q.log.now q.index.now)
        × OnlyLooked (with_index p.log.now p.index.now)
        (record {
          presents = p.presents;
          parities = p.parities;
          snapshots = p.snapshots;
          faults = p.faults;
          asked = p.asked;
          looked = p.looked;
        })
        (record {
          presents = q.presents;
          parities = q.parities;
          snapshots = q.snapshots;
          faults = q.faults;
          asked = q.asked;
          looked = q.looked;
        })
        (B.view p.bank.now) (B.view q.bank.now)) };

    ghost reasons = { λ p q fault. (with_index p.log.now p.index.now
        ≡ with_index q.log.now q.index.now)
        × LookFailed (with_index p.log.now p.index.now)
        (record {
          presents = p.presents;
          parities = p.parities;
          snapshots = p.snapshots;
          faults = p.faults;
          asked = p.asked;
          looked = p.looked;
        })
        (record {
          presents = q.presents;
          parities = q.parities;
          snapshots = q.snapshots;
          faults = q.faults;
          asked = q.asked;
          looked = q.looked;
        })
        (B.view p.bank.now) (B.view q.bank.now) fault };

    ghost after_fault = { λ p fault. LooksDamaged (with_index p.log.now p.index.now) p.looked
        (B.view p.bank.now) fault };

    fn present(
        &mut self,
        pool: &mut Pool,
        block: u32,
        into: &Lease,
        scratch: &Lease,
    ) -> Result<(), Denied> {
        self.presents += 1;
        self.asked = block;
        match fetch(self.log, self.bank, pool, block, into, scratch) {
            Ok(()) => Ok(()),
            Err(failed) => {
                self.faults = self.faults.saturating_add(1);
                Err(Denied::from(failed))
            }
        }
    }

    ghost acts_then = { λ a b c ab bc.
        (ab.0 ∙ bc.0, (ab.1.0 ∙ bc.1.0, looks_then _ _ _ _ _ _ _ _ ab.1.0 ab.1.1 bc.1.1)) };

    ghost reasons_since = { λ a b c fault ab bc.
        (ab.1.0 ∙ bc.0, failed_since _ _ _ _ _ _ _ _ fault ab.1.0 ab.1.1 bc.1) };

    ghost reasons_still = { λ a b c fault ab bc.
        (ab.0 ∙ bc.1.0, failed_still _ _ _ _ _ _ _ _ fault ab.0 ab.1 bc.1.1) };
}

impl<B: Bank> Parities for LogPast<'_, '_, '_, '_, B> {
    fn parity(&mut self, pool: &mut Pool, seq: u64, into: &Lease) -> Result<(), Denied> {
        self.parities += 1;
        self.looked = seq;
        match part(
            self.log,
            self.index,
            self.bank,
            pool,
            seq,
            Part::Parity,
            self.spelled,
            into,
        ) {
            Ok(()) => Ok(()),
            Err(denied) => {
                self.faults = self.faults.saturating_add(1);
                Err(denied)
            }
        }
    }

    fn snapshot(&mut self, pool: &mut Pool, seq: u64, into: &Lease) -> Result<(), Denied> {
        self.snapshots += 1;
        self.looked = seq;
        match part(
            self.log,
            self.index,
            self.bank,
            pool,
            seq,
            Part::Snapshot,
            self.spelled,
            into,
        ) {
            Ok(()) => Ok(()),
            Err(denied) => {
                self.faults = self.faults.saturating_add(1);
                Err(denied)
            }
        }
    }
}
