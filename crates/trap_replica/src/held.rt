//! The frames that are held until those before them have come.

ghost use Rattle.std.specs.Prelude.{◌≡◌, ◌↔◌, ◌+◌, ◌<◌, ◌≤◌, List, [], ◌∷◌, ◌++◌, ℕ, All, length};
ghost use Rattle.std.specs.Prelude.{take, drop, IfOk, IfSome, IfNone};
ghost use Rattle.std.specs.List.{slice_rotate_right};
ghost use Rattle.trap_model.specs.Receiver.{hold, is_held};
ghost use Rattle.trap_model.specs.declared.arrival.Arrival.{Arrival};

use std::alloc::{AllocError as OutOfMemory, Global};
use std::marker::Model;
use trap_model::{Arrival, Parity};

/// How many frames are held at most.
const ROOM: usize = 64;

/// The frames that are held, in the order of their numbers: the first `count` of the slots, all of
/// which are taken at once.
#[derive(Drop)]
pub(crate) struct Held {
    slots: Vec<Arrival>,
    count: usize,
    size: usize,
}

impl Model for Held {
    ghost use Rattle.std.specs.Prelude.{◌≡◌, ◌≤◌, All, length, take, vec_len};
    ghost use Rattle.trap_replica.specs.Holding.{HeldFrames};

    ghost Value = { HeldFrames };

    ghost view = { λ h. record { size = h.size; frames = take h.count h.slots.items } };

    ghost invariant = { λ h. (h.count ≤ 64) × (vec_len h.slots ≡ 64)
        × All (λ f. length f.parity ≡ h.size) h.slots.items };
}

/// Whether a frame of that number is among them.
fn is_among(frames: &[Arrival], seq: u64) -> bool
    ensures { result ≡ is_held seq frames.now }
{
    for frame in frames {
        if frame.seq == seq {
            return true;
        }
    }
    false
}

/// Where in the order of numbers a frame of that number belongs.
fn place_for(frames: &[Arrival], seq: u64) -> usize
    ensures within { result ≤ length frames.now }
    ensures place { (f : Arrival) → f.seq ≡ seq
        → hold f frames.now ≡ take result frames.now ++ f ∷ drop result frames.now }
{
    let mut at = 0;
    while at < frames.len() {
        if seq < frames[at].seq {
            return at;
        }
        at += 1;
    }
    at
}

/// Moves the last frame to a place before it.
fn move_last(slots: &mut [Arrival], at: usize)
    requires { at < length slots.old }
    ensures { slots.new ≡ take at slots.old ++ slice_rotate_right (drop at slots.old) 1 }
{
    slots[at..].rotate_right(1);
}

/// Moves the first frame after the others.
fn move_first(slots: &mut [Arrival])
    requires { 0 < length slots.old }
    ensures { slots.new ≡ drop 1 slots.old ++ take 1 slots.old }
{
    slots.rotate_left(1);
}

/// The first of some frames.
fn first_of(frames: &[Arrival]) -> Option<&Arrival>
    ensures some { IfSome result (λ f. frames.now ≡ f.now ∷ drop 1 frames.now) }
    ensures none { IfNone result (frames.now ≡ []) }
{
    if frames.is_empty() {
        return None;
    }
    Some(&frames[0])
}

/// Writes a frame over a slot.
fn fill_slot(slot: &mut Arrival, seq: u64, time: u64, block: u32, parity: &[u8])
    requires { length parity.now ≡ length slot.old.parity }
    ensures { slot.new ≡ record { seq = seq; time = time; block = block; parity = parity.now } }
{
    slot.seq = seq;
    slot.time = time;
    slot.block = block;
    slot.parity.fill(parity);
}

impl Held {
    /// Takes the slots, for parities of `size` bytes.
    pub fn new(alloc: Global, size: usize) -> Result<Held, OutOfMemory>
        ensures { IfOk result (λ held. held ≡ record { size = size; frames = [] }) }
    {
        let mut slots = Vec::with_capacity(alloc, ROOM)?;
        'slots: while slots.len() < ROOM {
            slots.push(Arrival {
                seq: 0,
                time: 0,
                block: 0,
                parity: Parity::zeros(alloc, size)?,
            })?;
        }
        Ok(Held {
            slots,
            count: 0,
            size,
        })
    }

    /// How many frames are held.
    pub fn len(&self) -> usize
        ensures is { result ≡ length self.now.frames }
        ensures most { result ≤ 64 }
    {
        self.count
    }

    /// Whether a frame of that number is held.
    pub fn has(&self, seq: u64) -> bool
        ensures { result ≡ is_held seq self.now.frames }
    {
        is_among(&self.slots[..self.count], seq)
    }

    /// The first frame, which has the least number.
    pub fn first(&self) -> Option<&Arrival>
        ensures some { IfSome result (λ f. self.now.frames ≡ f.now ∷ drop 1 self.now.frames) }
        ensures none { IfNone result (self.now.frames ≡ []) }
    {
        first_of(&self.slots[..self.count])
    }

    /// Holds one frame more.
    pub fn insert(&mut self, seq: u64, time: u64, block: u32, parity: &[u8])
        requires few { length self.old.frames < 64 }
        requires sized { length parity.now ≡ self.old.size }
        ensures size { self.new.size ≡ self.old.size }
        ensures frames { self.new.frames
            ≡ hold (record {
              seq = seq;
              time = time;
              block = block;
              parity = parity.now;
            }) self.old.frames }
    {
        let at = place_for(&self.slots[..self.count], seq);
        fill_slot(&mut self.slots[ROOM - 1], seq, time, block, parity);
        move_last(self.slots.as_mut_slice(), at);
        self.count += 1;
    }

    /// Gives up the first frame.
    pub fn drop_first(&mut self)
        requires { 0 < length self.old.frames }
        ensures size { self.new.size ≡ self.old.size }
        ensures frames { self.new.frames ≡ drop 1 self.old.frames }
    {
        move_first(self.slots.as_mut_slice());
        self.count -= 1;
    }
}
