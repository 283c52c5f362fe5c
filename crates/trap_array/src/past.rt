//! Reads of earlier instants.

ghost use Rattle.std.specs.Prelude.{◌≡◌, ◌↔◌, ◌≤◌, ◌<◌, ℕ, length, IsTrue, IsErrOf, IfErr, ◌||◌};
ghost use Rattle.std.specs.Prelude.{None};
ghost use Rattle.trap_bank.specs.Steps.{Always, OnlyReads};
ghost use Rattle.trap_model.specs.ArrayStep.{step};
ghost use Rattle.trap_model.specs.Image.{volume};
ghost use Rattle.trap_model.specs.declared.history.State.{State};
ghost use Rattle.trap_model.specs.declared.request.Refusal.{Refusal};
ghost use Rattle.trap_model.specs.declared.request.Request.TheVariants as request;
ghost use Rattle.trap_index.specs.Indexed.{IsLastBy};
ghost use Rattle.trap_array.specs.Asked.{HasBadRecordAfter, IsAfter, IsDamagedSince, request_at};
ghost use Rattle.trap_array.specs.Asked.{instant_refused, of_instant};
ghost use Rattle.trap_array.specs.Calls.{AnswersRead, IsReady, StandsFor, AtReplies, is_fault};
ghost use Rattle.trap_array.specs.Calls.{running};
ghost use Rattle.trap_array.specs.Causes.{DeniedBy, of_number, of_time};
ghost use Rattle.trap_array.specs.Instants.{CanLookBack, DeniesInstant, HasBadRecord};
ghost use Rattle.trap_array.specs.Instants.{HasBadRecordBy, HasInstant};
ghost use Rattle.trap_array.specs.Log.{HaveBlocksOf, with_index};
ghost use Rattle.trap_array.specs.Sources.{CallsAtMost, reads_back};
ghost use Rattle.trap_array.specs.Untouched.{Untouched};
ghost use Rattle.trap_array.specs.declared.fault.Denied.TheVariants as Denied;

use crate::denied::has_failed;
use crate::instant::Instant;
use crate::refusals::{admit, refusal};
use crate::source::look_back;
use crate::{Array, Denied};
use trap_bank::Bank;
use trap_index::Index;
use trap_log::Log;
use trap_mount::Buffers;

impl Array {
    /// Reads the contents of a block after the entry with number `seq` into `into`, which has as
    /// many bytes as a block. After a refusal or a fault `into` holds any bytes.
    pub fn at_seq<B: Bank>(
        &mut self,
        bank: &mut B,
        block: u64,
        seq: u64,
        into: &mut [u8],
    ) -> Result<(), Denied>
        requires size { length into.old ≡ self.old.g.block }
        requires ready { IsReady self.old (B.view bank.old) }
        ensures answers { AnswersRead self.old self.new (request.At seq block)
            (AtReplies result into.new) result (B.view bank.old) (B.view bank.new) }
        ensures ready { IsReady self.new (B.view bank.new) }
        ensures same { self.new
            ≡ record self.old { is_stopped = self.old.is_stopped || is_fault result } }

        // A record is damaged only where it is that of a later write of the block, and none with
        // the header that the array knows is there: so never where the array stands for a state.
        ensures bad { (offset : ℕ) → IsErrOf result (Denied.Damaged offset)
            → IsTrue (B.view bank.old).tells
            → HasBadRecord self.old.g self.old.index block seq (B.view bank.old).now.disks offset }
        ensures damaged { (offset : ℕ) → IsErrOf result (Denied.Damaged offset)
            → IsTrue (B.view bank.old).tells
            → (s : State) → Always (B.view bank.old) (StandsFor self.old s) → ⊥ }

        ensures causes { DeniedBy self.old block (of_number self.old seq) result (B.view bank.old)
            (B.view bank.new) }

        // At most the reads of its present contents, none of them a lost member's, and two for each
        // later write of the block, whose record may go round the ring's end.
        ensures calls { CallsAtMost (reads_back self.old block seq) (B.view bank.old)
            (B.view bank.new) }

        // Stopped at any moment, the disks are as they were.
        ensures any_moment { OnlyReads (B.view bank.old) (B.view bank.new) }
    {
        self.at_instant(bank, block, Instant::Number(seq), into)
    }

    /// Reads the contents of a block after all entries with a time of at most `time`, likewise.
    pub fn at_time<B: Bank>(
        &mut self,
        bank: &mut B,
        block: u64,
        time: u64,
        into: &mut [u8],
    ) -> Result<(), Denied>
        requires size { length into.old ≡ self.old.g.block }
        requires ready { IsReady self.old (B.view bank.old) }
        ensures answers { AnswersRead self.old self.new (request.By time block)
            (AtReplies result into.new) result (B.view bank.old) (B.view bank.new) }
        ensures ready { IsReady self.new (B.view bank.new) }
        ensures same { self.new
            ≡ record self.old { is_stopped = self.old.is_stopped || is_fault result } }
        ensures bad { (offset : ℕ) → IsErrOf result (Denied.Damaged offset)
            → IsTrue (B.view bank.old).tells → HasBadRecordBy self.old.g self.old.index block time
            (B.view bank.old).now.disks offset }
        ensures damaged { (offset : ℕ) → IsErrOf result (Denied.Damaged offset)
            → IsTrue (B.view bank.old).tells
            → (s : State) → Always (B.view bank.old) (StandsFor self.old s) → ⊥ }
        ensures causes { DeniedBy self.old block (of_time self.old time) result (B.view bank.old)
            (B.view bank.new) }
        ensures calls { (seq : ℕ) → IsLastBy self.old.index time seq
            → CallsAtMost (reads_back self.old block seq) (B.view bank.old) (B.view bank.new) }
        ensures any_moment { OnlyReads (B.view bank.old) (B.view bank.new) }
    {
        self.at_instant(bank, block, Instant::Time(time), into)
    }

    /// Reads the contents of a block as they were at an instant, likewise.
    fn at_instant<B: Bank>(
        &mut self,
        bank: &mut B,
        block: u64,
        instant: Instant,
        into: &mut [u8],
    ) -> Result<(), Denied>
        requires size { length into.old ≡ self.old.g.block }
        requires ready { IsReady self.old (B.view bank.old) }
        ensures answers { AnswersRead self.old self.new (request_at instant block)
            (AtReplies result into.new) result (B.view bank.old) (B.view bank.new) }
        ensures ready { IsReady self.new (B.view bank.new) }
        ensures same { self.new
            ≡ record self.old { is_stopped = self.old.is_stopped || is_fault result } }
        ensures bad { (offset : ℕ) → IsErrOf result (Denied.Damaged offset)
            → IsTrue (B.view bank.old).tells → HasBadRecordAfter self.old.g self.old.index block
            instant (B.view bank.old).now.disks offset }
        ensures damaged { (offset : ℕ) → IsErrOf result (Denied.Damaged offset)
            → IsTrue (B.view bank.old).tells
            → (s : State) → Always (B.view bank.old) (StandsFor self.old s) → ⊥ }
        ensures causes { DeniedBy self.old block (of_instant self.old instant) result
            (B.view bank.old) (B.view bank.new) }
        ensures calls { (seq : ℕ) → IsAfter self.old.index instant seq
            → CallsAtMost (reads_back self.old block seq) (B.view bank.old) (B.view bank.new) }
        ensures any_moment { OnlyReads (B.view bank.old) (B.view bank.new) }
    {
        admit(&self.log, self.is_stopped, block)?;
        let answer = look_back_to(
            &self.log,
            &self.index,
            bank,
            &mut self.buffers,
            block as u32,
            instant,
            into,
        );
        // A fault stops the array, and a damaged record doesn't.
        self.is_stopped = has_failed(&answer);
        answer
    }
}

/// Fills `into` with a block of the array as it was at an instant, where that is retained.
fn look_back_to<B: Bank>(
    log: &Log,
    index: &Index,
    bank: &mut B,
    room: &mut Buffers,
    block: u32,
    instant: Instant,
    into: &mut [u8],
) -> Result<(), Denied>
    requires room { HaveBlocksOf log.now.g.block room.old }
    requires can { CanLookBack (with_index log.now index.now) (B.view bank.old) }
    requires block { block < volume log.now.g }
    requires into { length into.old ≡ log.now.g.block }
    ensures reply { IsTrue (B.view bank.old).tells → (s : State)
        → StandsFor (running (with_index log.now index.now)) s (B.view bank.old).now.disks
        → AtReplies result into.new ((step log.now.g).reply s (request_at instant block)) }
    ensures room { HaveBlocksOf log.now.g.block room.new }
    ensures refused { (why : Refusal) → (result ≡ Err (Denied.Refused why))
        ↔ (instant_refused index.now instant ≡ Some why) }
    ensures at_once { (why : Refusal) → instant_refused index.now instant ≡ Some why
        → Untouched (B.view bank.old) (B.view bank.new) }
    ensures damaged { (offset : ℕ) → IsErrOf result (Denied.Damaged offset)
        → IsTrue (B.view bank.old).tells
        → (s : State) → StandsFor (running (with_index log.now index.now)) s
        (B.view bank.old).now.disks → ⊥ }
    ensures cause { IfErr result (DeniesInstant (running (with_index log.now index.now))
        (IsDamagedSince (running (with_index log.now index.now)) block instant (B.view bank.old))
        (B.view bank.old) (B.view bank.new)) }
    ensures calls { (seq : ℕ) → IsAfter index.now instant seq → CallsAtMost
        (reads_back (running (with_index log.now index.now)) block seq) (B.view bank.old)
        (B.view bank.new) }
    ensures any_moment { OnlyReads (B.view bank.old) (B.view bank.new) }
{
    if let Some(why) = refusal(index, instant) {
        return Err(Denied::Refused(why));
    }
    let seq = last_entry(index, instant);
    look_back(log, index, bank, room, block, seq, into)
}

/// The number of the last entry that an instant comes after.
fn last_entry(index: &Index, instant: Instant) -> u64
    requires { instant_refused index.now instant ≡ None }
    ensures after { IsAfter index.now instant result }
    ensures retained { HasInstant index.now result }
{
    match instant {
        Instant::Number(seq) => seq,
        Instant::Time(time) => index.last_by_time(time),
    }
}
