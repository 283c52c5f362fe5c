//! The plain machine: the state in memory, and one request after the other.

ghost use Rattle.std.specs.Prelude.{◌≡◌, None, IfOk, OnOk, OnErr};

use crate::history::{Entries, Entry, State};
use crate::refusing::refuse;
use crate::{Block, Geometry, Image, Reply, Request};
use std::alloc::{AllocError as OutOfMemory, Global};
use std::marker::Model;

/// A slow plain machine over lists, for tests to compare with. A contract sees its geometry and its
/// state.
#[derive(Debug, Drop)]
pub struct Plain {
    geometry: Geometry,
    state: State,
}

impl Model for Plain {
    ghost use Rattle.trap_model.specs.PlainArray.{PlainArray};

    ghost Value = { PlainArray };

    ghost use Rattle.trap_model.specs.State.{IsValid};

    ghost view = { λ plain. record { geometry = plain.geometry; state = plain.state } };

    ghost invariant = { λ plain. IsValid plain.geometry plain.state };
}

impl Plain {
    ghost use Rattle.trap_model.specs.State.{fresh};
    ghost use Rattle.trap_model.specs.ArrayStep.{step, refusal, accepted, after, IsSized};

    /// The fresh state: nothing was written.
    pub fn new(alloc: Global, g: Geometry) -> Result<Plain, OutOfMemory>
        ensures { IfOk result (λ plain. plain ≡ record { geometry = g; state = fresh g }) }
    {
        let base = Image::zeros(alloc, g.volume() as usize, g.block as usize)?;
        let state = State {
            first: 0,
            base_time: 0,
            base,
            entries: Entries::new(alloc),
        };
        Ok(Plain { geometry: g, state })
    }

    /// One request, and its reply. The contents in a request, where it has any, are a block.
    pub fn step(&mut self, alloc: Global, request: &Request) -> Result<Reply, OutOfMemory>
        requires { IsSized self.old.geometry request.now }
        ensures reply { IfOk result (λ reply. reply
            ≡ (step self.old.geometry).reply self.old.state request.now) }
        ensures state { OnOk result (self.new.state
            ≡ (step self.old.geometry).next self.old.state request.now) }
        ensures geometry { self.new.geometry ≡ self.old.geometry }
        ensures err { OnErr result (self.new ≡ self.old) }
    {
        if let Some(why) = refuse(&self.geometry, &self.state, request) {
            return Ok(Reply::No(why));
        }
        let reply = self.accept(alloc, request)?;
        self.apply(alloc, request)?;
        Ok(reply)
    }

    /// The reply to a request that isn't refused.
    fn accept(&self, alloc: Global, request: &Request) -> Result<Reply, OutOfMemory>
        requires { refusal self.now.geometry self.now.state request.now ≡ None }
        ensures { IfOk result (λ reply. reply ≡ accepted self.now.state request.now) }
    {
        let state = &self.state;
        Ok(match request {
            Request::Write { .. } => Reply::Kept {
                seq: state.last() + 1,
            },
            Request::Read { block } => Reply::Is {
                bytes: copy_of(alloc, state.block_now(*block as usize))?,
            },
            Request::At { seq, block } => {
                let count = (*seq - state.first) as usize;
                Reply::At {
                    bytes: copy_of(alloc, state.block_after(count, *block as usize))?,
                }
            }
            Request::By { time, block } => {
                Reply::At {
                    bytes: copy_of(alloc, state.block_by(*time, *block as usize))?,
                }
            }
            Request::Info => Reply::Span {
                first: state.first,
                last: state.last(),
                base_time: state.base_time,
                last_time: state.last_time(),
            },
            Request::Keep { seq } => Reply::Kept { seq: *seq },
            Request::Quit | Request::Bad => Reply::Silent,
        })
    }

    /// The state after a request that isn't refused.
    fn apply(&mut self, alloc: Global, request: &Request) -> Result<(), OutOfMemory>
        requires sized { IsSized self.old.geometry request.now }
        requires accepted { refusal self.old.geometry self.old.state request.now ≡ None }
        ensures state { OnOk result (self.new.state
            ≡ after self.old.geometry self.old.state request.now) }
        ensures geometry { self.new.geometry ≡ self.old.geometry }
        ensures err { OnErr result (self.new ≡ self.old) }
    {
        match request {
            Request::Write { time, block, bytes } => {
                let bytes = copy_of(alloc, bytes)?;
                self.state.entries.push(Entry {
                    time: *time,
                    block: *block as u32,
                    bytes,
                    snap: false,
                })?;
            }
            Request::Keep { seq } => self.state.keep_from(*seq),
            _ => {}
        }
        Ok(())
    }
}

#[cfg(test)]
mod tests;

/// A copy of a block.
fn copy_of(alloc: Global, block: &Block) -> Result<Block, OutOfMemory>
    ensures { IfOk result (λ copy. copy ≡ block.now) }
{
    Block::new(alloc, block.as_slice())
}
