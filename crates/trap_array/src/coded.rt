//! The code of what a retained entry changed, as its record has it.

ghost use Rattle.std.specs.Prelude.{◌≡◌, ◌+◌, ◌≤◌, ℕ, length, take, drop, IsTrue, IsErrOf, IfOk};
ghost use Rattle.std.specs.Prelude.{IfErr, OnErr, ◌||◌, slice_range};
ghost use Rattle.trap_bank.specs.Steps.{OnlyReads};
ghost use Rattle.trap_model.specs.Limits.{record_header_len};
ghost use Rattle.trap_model.specs.declared.history.State.{State};
ghost use Rattle.trap_array.specs.Calls.{IsReady, StandsFor, TakesTo, is_fault, running};
ghost use Rattle.trap_array.specs.Coded.{DeniesCode, WritesCode};
ghost use Rattle.trap_array.specs.Instants.{CanLookBack, FailsRecord, HasEntry};
ghost use Rattle.trap_array.specs.Log.{HaveBlocksOf, with_index};
ghost use Rattle.trap_array.specs.Sources.{CallsAtMost};
ghost use Rattle.trap_array.specs.declared.fault.Denied.TheVariants as Denied;

use crate::denied::has_failed;
use crate::held::Held;
use crate::planning::HEADER_BYTES;
use crate::source::{item_of, part};
use crate::{Array, Denied};
use trap_bank::Bank;
use trap_index::Index;
use trap_log::Log;
use trap_mount::Buffers;
use trap_record::Part;

impl Array {
    /// Writes the code of what the retained entry `seq` changed, its block's old contents xor the
    /// new ones, over the first bytes of `into`, and answers its length.
    pub fn coded<B: Bank>(
        &mut self,
        bank: &mut B,
        seq: u64,
        into: &mut [u8],
    ) -> Result<usize, Denied>
        requires entry { HasEntry self.old.index seq }
        requires room { self.old.g.block + 7 ≤ length into.old }
        requires ready { IsReady self.old (B.view bank.old) }
        ensures code { IfOk result (λ len.
            WritesCode self.old (B.view bank.old) seq len into.old into.new) }
        ensures state { TakesTo self.old self.new (λ s. s) result (B.view bank.old)
            (B.view bank.new) }
        ensures ready { IsReady self.new (B.view bank.new) }
        ensures same { self.new
            ≡ record self.old { is_stopped = self.old.is_stopped || is_fault result } }
        ensures kept { OnErr result (into.new ≡ into.old) }
        ensures denied { DeniesCode self.old seq result (B.view bank.old) (B.view bank.new) }

        // A record that goes round the ring's end takes two reads.
        ensures calls { CallsAtMost 2 (B.view bank.old) (B.view bank.new) }

        // Stopped at any moment, the disks are as they were.
        ensures any_moment { OnlyReads (B.view bank.old) (B.view bank.new) }
    {
        if self.is_stopped {
            return Err(Denied::Stopped);
        }
        let answer = read_code(&self.log, &self.index, bank, &mut self.buffers, seq, into);
        // A fault stops the array, and a damaged record doesn't.
        self.is_stopped = has_failed(&answer);
        answer
    }
}

/// Reads the entry's record again, by leases of `room`, and writes its first code over the first
/// bytes of `into`.
fn read_code<B: Bank>(
    log: &Log,
    index: &Index,
    bank: &mut B,
    room: &mut Buffers,
    seq: u64,
    into: &mut [u8],
) -> Result<usize, Denied>
    requires room { HaveBlocksOf log.now.g.block room.old }
    requires can { CanLookBack (with_index log.now index.now) (B.view bank.old) }
    requires entry { HasEntry index.now seq }
    requires into { log.now.g.block + 7 ≤ length into.old }
    ensures code { IfOk result (λ len. WritesCode (running (with_index log.now index.now))
        (B.view bank.old) seq len into.old into.new) }
    ensures room { HaveBlocksOf log.now.g.block room.new }
    ensures kept { OnErr result (into.new ≡ into.old) }
    ensures damaged { (offset : ℕ) → IsErrOf result (Denied.Damaged offset)
        → IsTrue (B.view bank.old).tells
        → (s : State) → StandsFor (running (with_index log.now index.now)) s
        (B.view bank.old).now.disks → ⊥ }
    ensures cause { IfErr result (FailsRecord (running (with_index log.now index.now)) seq
        (B.view bank.old) (B.view bank.new)) }
    ensures calls { CallsAtMost 2 (B.view bank.old) (B.view bank.new) }
    ensures any_moment { OnlyReads (B.view bank.old) (B.view bank.new) }
{
    let held = Held::take(&mut room.pool);
    let answer = part(
        log,
        index,
        bank,
        &mut room.pool,
        seq,
        Part::Parity,
        room.spelled.as_mut_slice(),
        &held.contents,
    );
    held.give(&mut room.pool);
    answer?;
    let len = usize::from(item_of(index, seq).plen);
    Ok(copy_code(room.spelled.as_slice(), len, into))
}

/// Copies the first code of a record's bytes, whose length is known, and answers that length.
fn copy_code(spelled: &[u8], len: usize, into: &mut [u8]) -> usize
    requires long { record_header_len + len ≤ length spelled.now }
    requires room { len ≤ length into.old }
    ensures len { result ≡ len }
    ensures code { take len into.new
        ≡ slice_range spelled.now record_header_len (record_header_len + len) }
    ensures rest { drop len into.new ≡ drop len into.old }
{
    into[..len].copy_from_slice(&spelled[HEADER_BYTES..HEADER_BYTES + len]);
    len
}
