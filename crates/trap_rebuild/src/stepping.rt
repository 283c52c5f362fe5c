//! One step of a rebuild.

ghost use Rattle.std.specs.Prelude.{◌≡◌, ◌≤◌, ℕ, Some, IsTrue, OnOk, IfOk, IfErr, IsSome};
ghost use Rattle.trap_bank.specs.Called.{TakesCalls};
ghost use Rattle.trap_bank.specs.Disks.{Differs, Torn};
ghost use Rattle.trap_bank.specs.Steps.{Moves};
ghost use Rattle.trap_pool.specs.Frames.{KeepsLeases};
ghost use Rattle.trap_pool.specs.Pooled.{free_of};
ghost use Rattle.trap_rebuild.specs.Rebuilding.{AllFit, next_mark, InNextRows, RebuildsRows};
ghost use Rattle.trap_rebuild.specs.Rebuilding.{progress_of, step_calls, StepFails};

use crate::RebuildFault;
use crate::rows::rebuild_rows;
use trap_bank::Bank;
use trap_pool::Pool;
use trap_raid::Raid;
use trap_stage::Stage;

/// How far a rebuild has come.
#[derive(Debug, Clone, Copy, PartialEq, Eq)]
pub enum Progress {
    /// This many rows are rebuilt, and some are left.
    More { rebuilt: u32 },
    /// All rows are rebuilt.
    Whole,
}

/// The mark after so many further rows, or at the last one.
fn mark_after(raid: &Raid, rows: u32) -> u32
    ensures mark { result ≡ next_mark raid.now rows }
    ensures grows { raid.now.rebuilt ≤ result }
{
    let mark = raid.rebuilt();
    mark + rows.min(raid.geometry().rows - mark)
}

/// Writes the lost member's next rows as they stand at their places, and syncs its disk. The caller
/// puts the mark.
pub fn step<B: Bank>(
    bank: &mut B,
    raid: &Raid,
    stage: &Stage,
    pool: &mut Pool,
    rows: u32,
) -> Result<Progress, RebuildFault>
    requires lost { IsSome raid.now.lost }
    requires disks { AllFit raid.now.g (B.view bank.old) }
    requires stage { stage.now.g ≡ raid.now.g }
    requires size { pool.old.size ≡ raid.now.g.block }
    requires free { 2 ≤ free_of pool.old }
    ensures rebuilt { OnOk result (RebuildsRows raid.now stage.now.pending (next_mark raid.now rows)
        (B.view bank.old) (B.view bank.new)) }
    ensures progress { IfOk result (λ progress. progress ≡ progress_of raid.now rows) }
    ensures pool { KeepsLeases pool.old pool.new }
    ensures contents { IsTrue (B.view bank.old).tells
        → Torn (InNextRows raid.now (next_mark raid.now rows))
        (B.view bank.old).now (B.view bank.new).now }
    ensures sizes { (e : ℕ) → (B.view bank.new).sizes e ≡ (B.view bank.old).sizes e }
    ensures cause { IfErr result (StepFails raid.now.g (B.view bank.old) (B.view bank.new)) }
    ensures calls { (member : ℕ) → raid.now.lost ≡ Some member
        → TakesCalls (step_calls raid.now stage.now.pending member rows)
        result (B.view bank.old) (B.view bank.new) }

    // Stopped at any moment, nothing but those rows has changed, none of which counts.
    ensures any_moment { Moves (B.view bank.old) (B.view bank.new)
        (Differs (InNextRows raid.now (next_mark raid.now rows)))
        (Differs (InNextRows raid.now (next_mark raid.now rows))) }
{
    let Some(member) = raid.lost() else {
        unreachable!();
    };
    let Some(into) = pool.take() else {
        unreachable!();
    };
    let Some(scratch) = pool.take() else {
        unreachable!();
    };
    let upto = mark_after(raid, rows);
    let done = rebuild_rows(bank, raid, stage, pool, member, upto, &into, &scratch);
    pool.give(scratch);
    pool.give(into);
    done?;
    if upto < raid.geometry().rows {
        Ok(Progress::More { rebuilt: upto })
    } else {
        Ok(Progress::Whole)
    }
}
