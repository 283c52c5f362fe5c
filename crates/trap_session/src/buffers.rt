//! The buffers of a session, and the answer to one line.

ghost use Rattle.std.specs.Prelude.{◌≡◌, ◌+◌, ◌*◌, ◌≤◌, ◌↔◌, vec_len, false, IfOk, List, ℕ};
ghost use Rattle.trap_model.specs.declared.request.Request.TheVariants as request;
ghost use Rattle.trap_script.specs.Lines.{longest_line, request_of, request_with, goes_on};
ghost use Rattle.trap_lines.specs.Reader.{room, IsLine};
ghost use Rattle.trap_array.specs.Calls.{IsReady};
ghost use Rattle.trap_session.specs.Answers.{AnswersLine};
ghost use Rattle.trap_session.specs.Forms.{IsAsked};

use crate::reply::{refusal_of, say_answer};
use crate::{Next, SessionFault};
use std::alloc::{AllocError as OutOfMemory, Global};
use trap_array::Array;
use trap_bank::Bank;
use trap_lines::LineReader;
use trap_model::{Geometry, Refusal};
use trap_script::{Answer, Line, Span4, longest_line, read_line};

/// Room for a block and for a reply, over an array of these numbers.
#[derive(Drop)]
pub struct Buffers {
    pub g: Geometry,
    fresh: Vec<u8>,
    out: Vec<u8>,
    ghost block: { vec_len fresh ≡ g.block },
    ghost reply: { vec_len out ≡ 88 + 2 * g.block },
}

impl Buffers {
    pub fn new(alloc: Global, g: &Geometry) -> Result<Buffers, OutOfMemory>
        ensures { IfOk result (λ buffers. buffers.g ≡ g.now) }
    {
        let block = usize::from(g.block);
        let fresh = vec![in alloc; 0u8; block]?;
        let out = vec![in alloc; 0u8; 88 + 2 * block]?;
        Ok(Buffers { g: *g, fresh, out })
    }

    // Writes the block, whose new contents stand in `fresh`, and replies.
    fn write<B: Bank>(
        &mut self,
        array: &mut Array,
        bank: &mut B,
        time: u64,
        block: u64,
    ) -> Result<Next, SessionFault>
        requires geometry { array.old.g ≡ self.old.g }
        requires ready { IsReady array.old (B.view bank.old) }
        ensures answers { AnswersLine array.old array.new result
            (request.Write time block self.old.fresh.items) (B.view bank.old) (B.view bank.new) }
        ensures no_quit { result ≡ Ok Next.Quit → ⊥ }
        ensures same { self.new.g ≡ self.old.g }
    {
        // The write is committed before its reply is said.
        match array.write(bank, time, block, self.fresh.as_slice()) {
            Ok(seq) => say_answer(bank, &Answer::Kept { seq }, self.out.as_mut_slice()),
            Err(denied) => {
                let why = refusal_of(denied)?;
                say_answer(bank, &Answer::No(why), self.out.as_mut_slice())
            }
        }
    }

    // Reads the block into `fresh`, and replies.
    fn read<B: Bank>(
        &mut self,
        array: &mut Array,
        bank: &mut B,
        block: u64,
    ) -> Result<Next, SessionFault>
        requires geometry { array.old.g ≡ self.old.g }
        requires ready { IsReady array.old (B.view bank.old) }
        ensures answers { AnswersLine array.old array.new result (request.Read block)
            (B.view bank.old) (B.view bank.new) }
        ensures no_quit { result ≡ Ok Next.Quit → ⊥ }
        ensures same { self.new.g ≡ self.old.g }
    {
        match array.read(bank, block, self.fresh.as_mut_slice()) {
            Ok(()) => {
                let bytes = self.fresh.as_slice();
                say_answer(bank, &Answer::Is { bytes }, self.out.as_mut_slice())
            }
            Err(denied) => {
                let why = refusal_of(denied)?;
                say_answer(bank, &Answer::No(why), self.out.as_mut_slice())
            }
        }
    }

    // Reads the block as it was after the entry with this number into `fresh`, and replies.
    fn at<B: Bank>(
        &mut self,
        array: &mut Array,
        bank: &mut B,
        seq: u64,
        block: u64,
    ) -> Result<Next, SessionFault>
        requires geometry { array.old.g ≡ self.old.g }
        requires ready { IsReady array.old (B.view bank.old) }
        ensures answers { AnswersLine array.old array.new result (request.At seq block)
            (B.view bank.old) (B.view bank.new) }
        ensures no_quit { result ≡ Ok Next.Quit → ⊥ }
        ensures same { self.new.g ≡ self.old.g }
    {
        match array.at_seq(bank, block, seq, self.fresh.as_mut_slice()) {
            Ok(()) => {
                let bytes = self.fresh.as_slice();
                say_answer(bank, &Answer::At { bytes }, self.out.as_mut_slice())
            }
            Err(denied) => {
                let why = refusal_of(denied)?;
                say_answer(bank, &Answer::No(why), self.out.as_mut_slice())
            }
        }
    }

    // Reads the block as it was after all entries up to this time into `fresh`, and replies.
    fn by<B: Bank>(
        &mut self,
        array: &mut Array,
        bank: &mut B,
        time: u64,
        block: u64,
    ) -> Result<Next, SessionFault>
        requires geometry { array.old.g ≡ self.old.g }
        requires ready { IsReady array.old (B.view bank.old) }
        ensures answers { AnswersLine array.old array.new result (request.By time block)
            (B.view bank.old) (B.view bank.new) }
        ensures no_quit { result ≡ Ok Next.Quit → ⊥ }
        ensures same { self.new.g ≡ self.old.g }
    {
        match array.at_time(bank, block, time, self.fresh.as_mut_slice()) {
            Ok(()) => {
                let bytes = self.fresh.as_slice();
                say_answer(bank, &Answer::At { bytes }, self.out.as_mut_slice())
            }
            Err(denied) => {
                let why = refusal_of(denied)?;
                say_answer(bank, &Answer::No(why), self.out.as_mut_slice())
            }
        }
    }

    // Replies with the numbers of the history.
    fn info<B: Bank>(&mut self, array: &Array, bank: &mut B) -> Result<Next, SessionFault>
        requires geometry { array.now.g ≡ self.old.g }
        requires ready { IsReady array.now (B.view bank.old) }
        ensures answers { AnswersLine array.now array.now result request.Info
            (B.view bank.old) (B.view bank.new) }
        ensures no_quit { result ≡ Ok Next.Quit → ⊥ }
        ensures same { self.new.g ≡ self.old.g }
    {
        let retained = array.span();
        let span = Span4 {
            first: retained.first,
            last: retained.last,
            base_time: retained.base_time,
            last_time: retained.last_time,
        };
        say_answer(bank, &Answer::Span { span }, self.out.as_mut_slice())
    }

    // Answers a line that was read. What a write holds stands in `fresh`.
    fn answer<B: Bank>(
        &mut self,
        array: &mut Array,
        bank: &mut B,
        line: Line,
    ) -> Result<Next, SessionFault>
        requires form { IsAsked line }
        requires geometry { array.old.g ≡ self.old.g }
        requires ready { IsReady array.old (B.view bank.old) }
        ensures answers { AnswersLine array.old array.new result
            (request_with line self.old.fresh.items) (B.view bank.old) (B.view bank.new) }
        ensures quit { (result ≡ Ok Next.Quit)
            ↔ (goes_on (request_with line self.old.fresh.items) ≡ false) }
        ensures same { self.new.g ≡ self.old.g }
    {
        let no_line = Answer::No(Refusal::NoLine);
        match line {
            Line::Write { time, block } => self.write(array, bank, time, block),
            Line::Read { block } => self.read(array, bank, block),
            Line::Quit => Ok(Next::Quit),
            Line::At { seq, block } => self.at(array, bank, seq, block),
            Line::By { time, block } => self.by(array, bank, time, block),
            Line::Info => self.info(array, bank),
            Line::Keep { seq: _ } => say_answer(bank, &no_line, self.out.as_mut_slice()),
            Line::Bad => say_answer(bank, &no_line, self.out.as_mut_slice()),
        }
    }

    // One line and its reply.
    pub fn one<B: Bank>(
        &mut self,
        array: &mut Array,
        bank: &mut B,
        line: &[u8],
    ) -> Result<Next, SessionFault>
        requires geometry { array.old.g ≡ self.old.g }
        requires ready { IsReady array.old (B.view bank.old) }
        ensures answers { AnswersLine array.old array.new result
            (request_of array.old.g.block line.now) (B.view bank.old) (B.view bank.new) }
        ensures quit { (result ≡ Ok Next.Quit)
            ↔ (goes_on (request_of array.old.g.block line.now) ≡ false) }
        ensures same { self.new.g ≡ self.old.g }
    {
        let line = read_line(line, self.fresh.as_mut_slice());
        self.answer(array, bank, line)
    }

    // Answers the line found last, of `len` bytes.
    pub fn answer_found<B: Bank>(
        &mut self,
        array: &mut Array,
        bank: &mut B,
        reader: &LineReader,
        len: usize,
    ) -> Result<Next, SessionFault>
        requires room { room reader.now ≡ longest_line self.old.g.block + 1 }
        requires geometry { array.old.g ≡ self.old.g }
        requires ready { IsReady array.old (B.view bank.old) }
        ensures answers { (line : List ℕ) → IsLine line len reader.now
            → AnswersLine array.old array.new result (request_of array.old.g.block line)
            (B.view bank.old) (B.view bank.new) }
        ensures quit { (line : List ℕ) → IsLine line len reader.now
            → (result ≡ Ok Next.Quit) ↔ (goes_on (request_of array.old.g.block line) ≡ false) }
        ensures same { self.new.g ≡ self.old.g }
    {
        // What is kept of a line that is too long is too long as well.
        let kept = len.min(line_room(self.fresh.len()));
        self.one(array, bank, reader.line(kept))
    }
}

/// How many bytes of a line are kept: one more than the longest has.
pub fn line_room(block: usize) -> usize
    requires { block ≤ 4096 }
    ensures { result ≡ longest_line block + 1 }
{
    longest_line(block) + 1
}
