//! Bytes that wait in a room of a fixed size until they are said.

ghost use Rattle.std.specs.Prelude.{◌≡◌, ◌≢◌, ◌+◌, ◌<◌, ◌≤◌, ◌++◌, [], length, take};
ghost use Rattle.std.specs.Prelude.{IsOk, IfOk, OnOk, OnErr};
ghost use Rattle.trap_bank.specs.Called.{CalledTimes};
ghost use Rattle.trap_port.specs.Outgoing.{SaysWaiting};

use std::alloc::{AllocError as OutOfMemory, Global};
use std::marker::Model;
use trap_bank::{Bank, Failed};

/// Bytes on their way to the port. They wait in a room that was taken at once, so that many pieces
/// are said in one call. No call but `new` takes memory.
#[derive(Drop)]
pub struct Outgoing {
    bytes: Vec<u8>,
    len: usize,
}

impl Model for Outgoing {
    ghost use Rattle.std.specs.Prelude.{◌≤◌, take, vec_len};
    ghost use Rattle.trap_port.specs.Outgoing.{Waiting};

    ghost Value = { Waiting };

    ghost view = { λ o. record { room = vec_len o.bytes; bytes = take o.len o.bytes.items } };

    ghost invariant = { λ o. o.len ≤ vec_len o.bytes };
}

/// Copies the piece over the bytes from a place on.
fn copy_to(bytes: &mut [u8], at: usize, piece: &[u8])
    requires { at + length piece.now ≤ length bytes.old }
    ensures { take (at + length piece.now) bytes.new ≡ take at bytes.old ++ piece.now }
{
    bytes[at..at + piece.len()].copy_from_slice(piece);
}

impl Outgoing {
    /// Takes room for so many bytes, of which none waits.
    pub fn new(alloc: Global, room: usize) -> Result<Outgoing, OutOfMemory>
        ensures { IfOk result (λ o. o ≡ record { room = room; bytes = [] }) }
    {
        Ok(Outgoing {
            bytes: vec![in alloc; 0u8; room]?,
            len: 0,
        })
    }

    /// Lets a piece wait after what waits.
    pub fn put(&mut self, piece: &[u8])
        requires { length self.old.bytes + length piece.now ≤ self.old.room }
        ensures { self.new
            ≡ record { room = self.old.room; bytes = self.old.bytes ++ piece.now } }
    {
        copy_to(self.bytes.as_mut_slice(), self.len, piece);
        self.len += piece.len();
    }

    /// Says what waits. Where nothing does, no call is made. After a fault all of it waits still.
    pub fn flush<B: Bank>(&mut self, bank: &mut B) -> Result<(), Failed>
        ensures empty { OnOk result (self.new.bytes ≡ []) }
        ensures room { self.new.room ≡ self.old.room }
        ensures err { OnErr result (self.new ≡ self.old) }
        ensures untouched { self.old.bytes ≡ []
            → IsOk result × (self.new ≡ self.old) × (bank.new ≡ bank.old) }
        ensures once { self.old.bytes ≢ [] → CalledTimes 1 (B.view bank.old) (B.view bank.new) }
        ensures says { SaysWaiting self.old.bytes self.new.bytes result
            (B.view bank.old) (B.view bank.new) }
    {
        if self.len == 0 {
            return Ok(());
        }
        bank.say(&self.bytes[..self.len])?;
        self.len = 0;
        Ok(())
    }

    /// Makes room for that many bytes after those that wait: where there is none, these are said
    /// first. After a fault all of them wait still.
    pub fn make_room<B: Bank>(&mut self, bank: &mut B, need: usize) -> Result<(), Failed>
        requires { need ≤ self.old.room }
        ensures there { OnOk result (length self.new.bytes + need ≤ self.old.room) }
        ensures room { self.new.room ≡ self.old.room }
        ensures err { OnErr result (self.new ≡ self.old) }
        ensures fits { length self.old.bytes + need ≤ self.old.room
            → IsOk result × (self.new ≡ self.old) × (bank.new ≡ bank.old) }
        ensures flushed { self.old.room < length self.old.bytes + need
            → OnOk result (self.new.bytes ≡ [])
            × CalledTimes 1 (B.view bank.old) (B.view bank.new) }
        ensures says { SaysWaiting self.old.bytes self.new.bytes result
            (B.view bank.old) (B.view bank.new) }
    {
        if need <= self.bytes.len() - self.len {
            return Ok(());
        }
        self.flush(bank)
    }
}
