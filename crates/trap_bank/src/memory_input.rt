//! A source of bytes in memory.

ghost use Rattle.std.specs.Prelude.{◌≡◌, ◌⊎◌, ◌∷◌, ◌+◌, ◌-◌, ◌<◌, ◌^◌, Contains, IfOk, IsErr};
ghost use Rattle.std.specs.Prelude.{MatchResult, drop, length, max, min, replicate, take};
ghost use Rattle.std.specs.Io.{ReadsAtMost};
ghost use Rattle.trap_bank.specs.Faults.{HasCause};
ghost use Rattle.trap_bank.specs.Stream.{Stream, Takes};
ghost use Rattle.trap_bank.specs.MemoryInput.{stream_of, GivesPieces, FailsAsChosen, IsFresh};

use crate::chosen::Chosen;
use crate::{Failed, Source};
use std::alloc::{AllocError as OutOfMemory, Global};

/// A source that tells its bytes. `fail_at` chooses calls that fail.
#[derive(Debug, Drop)]
pub struct MemorySource {
    bytes: Vec<u8>,
    given: u64,
    ended: bool,
    piece: usize,
    calls: u64,
    chosen: Chosen,
    faults: u64,
}

impl MemorySource {
    /// A source of these bytes. The only error is want of memory.
    pub fn new(alloc: Global, bytes: &[u8]) -> Result<MemorySource, OutOfMemory>
        ensures { IfOk result (IsFresh bytes.now) }
    {
        Ok(MemorySource {
            bytes: Vec::from_slice(alloc, bytes)?,
            given: 0,
            ended: false,
            piece: usize::MAX,
            calls: 0,
            chosen: Chosen::new(),
            faults: 0,
        })
    }

    /// Makes the call with that number fail, counted from 1. The last eight such numbers are kept.
    pub fn fail_at(&mut self, call: u64)
        ensures { self.new ≡ record self.old {
          chosen = record { numbers = call ∷ take 7 self.old.chosen.numbers };
        } }
    {
        self.chosen.add(call);
    }

    /// Bounds how many bytes one call gives. 0 counts as 1.
    pub fn pieces(&mut self, len: usize)
        ensures { self.new ≡ record self.old { piece = len } }
    {
        self.piece = len;
    }
}

impl Source for MemorySource {
    ghost stream = { stream_of };

    fn take(&mut self, buf: &mut [u8]) -> Result<usize, Failed>
        requires room { 0 < length buf.old }
        requires below { (stream_of self.old).given < 2 ^ 63 }
        ensures bound { ReadsAtMost result buf.new }
        ensures taken { Takes result buf.new (stream_of self.old) (stream_of self.new) }
        ensures piece { GivesPieces result (length buf.old) self.old self.new }
        ensures cause { HasCause (stream_of self.old).faults (stream_of self.new).faults result }

        // It fails, and then its count rises, exactly in a call that was chosen.
        ensures struck { FailsAsChosen result self.old self.new }
    {
        self.calls = self.calls.saturating_add(1);
        if self.chosen.has(self.calls) {
            self.faults = self.faults.saturating_add(1);
            return Err(Failed);
        }
        let len = give(&self.bytes, self.given, self.piece, buf);
        self.given += len as u64;
        self.ended = len == 0;
        Ok(len)
    }
}

/// Places the bytes after the first `given` at the front of `buf`: as many as there are, as `buf`
/// has room for and as one call gives.
fn give(bytes: &[u8], given: u64, piece: usize, buf: &mut [u8]) -> usize
    ensures len { result ≡ min (max piece 1) (min (length buf.old) (length bytes.now - given)) }
    ensures front { take result buf.new ≡ take result (drop given bytes.now) }
{
    let from = given as usize;
    let rest = bytes.len().saturating_sub(from);
    let len = piece.max(1).min(buf.len().min(rest));
    if len > 0 {
        buf[..len].copy_from_slice(&bytes[from..from + len]);
    }
    len
}
