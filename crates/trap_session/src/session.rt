//! A session over a mounted array, and the loop over its lines.

ghost use Rattle.std.specs.Prelude.{◌≡◌, ◌+◌, ◌*◌, ◌^◌, ◌≤◌, ◌↔◌, [], IfOk, IfErr, false};
ghost use Rattle.trap_bank.specs.Steps.{Steps};
ghost use Rattle.trap_script.specs.Lines.{request_of, goes_on};
ghost use Rattle.trap_array.specs.Calls.{IsReady};
ghost use Rattle.trap_session.specs.Answers.{AnswersLine};
ghost use Rattle.trap_session.specs.Store.{NamesDamage};
ghost use Rattle.trap_session.specs.Leaving.{HasServed};
ghost use Rattle.trap_session.specs.Exchange.{IsSessionOver};
ghost use Rattle.trap_session.specs.Serving.{Serves, HasStopped, StopsBy};
ghost use Rattle.trap_session.specs.Serving.{HadNoQuit, StandsAtEnd, ended_by};

use crate::buffers::{Buffers, line_room};
use crate::{Ended, Next, SessionFault};
use std::alloc::{AllocError as OutOfMemory, Global};
use std::marker::Model;
use trap_array::Array;
use trap_bank::{Bank, Source};
use trap_lines::{Found, LineReader, ReadFault};
use trap_model::Geometry;

/// The buffers of a session: a contract sees the numbers of the array that it is for. It reads one
/// input, once.
#[derive(Drop)]
pub struct Session {
    buffers: Buffers,
    reader: LineReader,
}

impl Model for Session {
    ghost use Rattle.std.specs.Prelude.{◌≡◌, ◌+◌, []};
    ghost use Rattle.trap_model.specs.declared.numbers.Geometry.{Geometry};
    ghost use Rattle.trap_script.specs.Lines.{longest_line};
    ghost use Rattle.trap_lines.specs.Reader.{unread, taken, room};

    ghost Value = { Geometry };

    ghost view = { λ s. s.buffers.g };

    ghost invariant = { λ s. (unread s.reader ≡ []) × (taken s.reader ≡ 0)
        × (room s.reader ≡ longest_line s.buffers.g.block + 1) };
}

impl Session {
    /// Takes the memory of a session over an array of these numbers.
    pub fn new(alloc: Global, g: &Geometry) -> Result<Session, OutOfMemory>
        ensures { IfOk result (λ session. session ≡ g.now) }
    {
        let block = usize::from(g.block);
        let buffers = Buffers::new(alloc, g)?;
        let reader = LineReader::new(alloc, line_room(block))?;
        Ok(Session { buffers, reader })
    }

    /// Answers one line that is part of no input, with its reply in one call. Over a stopped array
    /// a request of one of its blocks ends in `Stopped`, and every other line is answered.
    pub fn one<B: Bank>(
        &mut self,
        array: &mut Array,
        bank: &mut B,
        line: &[u8],
    ) -> Result<Next, SessionFault>
        requires geometry { array.old.g ≡ self.old }
        requires ready { IsReady array.old (B.view bank.old) }
        ensures answers { AnswersLine array.old array.new result
            (request_of array.old.g.block line.now) (B.view bank.old) (B.view bank.new) }
        ensures quit { (result ≡ Ok Next.Quit)
            ↔ (goes_on (request_of array.old.g.block line.now) ≡ false) }
        ensures same { self.new ≡ self.old }
    {
        self.buffers.one(array, bank, line)
    }

    /// Answers line after line, up to a `Q` or the end of the input. No turn of the background is
    /// taken yet.
    pub fn serve<B: Bank, S: Source>(
        self,
        array: &mut Array,
        bank: &mut B,
        source: &mut S,
    ) -> Result<Ended, SessionFault>
        requires geometry { array.old.g ≡ self }
        requires running { array.old.is_stopped ≡ false }
        requires ready { IsReady array.old (B.view bank.old) }
        requires below { (S.stream source.old).given ≤ 2 ^ 62 }
        ensures stops { Steps (B.view bank.old) (B.view bank.new)
            (Serves array.old (B.view bank.old) (S.stream source.old))
            (HasStopped array.old (B.view bank.old) result
            (S.stream source.old) (S.stream source.new)) }
        ensures no_quit { result ≡ Ok Ended.Input
            → HadNoQuit array.old.g.block (S.stream source.old) }
        ensures exchange { IsSessionOver B.view array.old array.new result bank.old bank.new
            (S.stream source.old) (S.stream source.new) }
        ensures leaves { HasServed array.old array.new result (B.view bank.old) (B.view bank.new)
            (S.stream source.old) (S.stream source.new) }
        ensures held { StandsAtEnd array.old (B.view bank.old) (B.view bank.new) }
        ensures damaged { IfErr result (λ fault. NamesDamage array.new fault (B.view bank.new)) }
        ensures cause { StopsBy array.old result (B.view bank.old) (B.view bank.new)
            (S.stream source.old) (S.stream source.new) }
    {
        let mut buffers = self.buffers;
        let mut reader = self.reader;
        'lines: loop {
            match reader.next(source) {
                Err(ReadFault::Source) => return Err(SessionFault::ReadFault),
                Err(ReadFault::TooLong) => return Err(SessionFault::TooLong),
                Ok(Found::End) => return Ok(Ended::Input),
                Ok(Found::Last { len }) => {
                    // The end of the input ends this line, and the session after it.
                    let next = buffers.answer_found(array, bank, &reader, len)?;
                    return Ok(ended_by(next));
                }
                Ok(Found::Line { len }) => match buffers.answer_found(array, bank, &reader, len)? {
                    Next::More => {}
                    Next::Quit => return Ok(Ended::Quit),
                },
            }
        }
    }
}

// A last line without a line feed may be a `Q` too.
fn ended_by(next: Next) -> Ended
    ensures { result ≡ ended_by next }
{
    match next {
        Next::More => Ended::Input,
        Next::Quit => Ended::Quit,
    }
}
