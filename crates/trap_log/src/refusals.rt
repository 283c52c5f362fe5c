//! What a log refuses by its own numbers, before it makes a call of the bank, and when it is full.

ghost use Rattle.std.specs.Prelude.{◌≡◌, ◌↔◌, ◌^◌, ◌≤◌, IsTrue};
ghost use Rattle.trap_format.specs.HeadValue.{IsHead};
ghost use Rattle.trap_log.specs.Room.{IsFull, early_refusal};

use crate::log::{Log, ring_limit};
use trap_model::Refusal;

/// The greatest number of an entry.
const LAST_NUMBER: u64 = 1 << 40;

impl Log {
    /// Why no entry of this time is written, where that doesn't depend on its bytes.
    pub fn refusal(&self, time: u64) -> Option<Refusal>
        ensures refusal { result ≡ early_refusal self.now.head time }

        // What the type says of the head.
        ensures head { IsHead self.now.g self.now.head }
    {
        if time < self.head.last_time {
            Some(Refusal::TimeBack {
                last: self.head.last_time,
            })
        } else if self.head.last == LAST_NUMBER {
            Some(Refusal::Worn)
        } else {
            None
        }
    }

    /// Whether there is no room for a record of this many bytes.
    pub fn is_full(&self, size: u64) -> bool
        requires { size ≤ 2 ^ 16 }
        ensures full { IsTrue result ↔ IsFull self.now.g self.now.head size }

        // What the type says of the head.
        ensures head { IsHead self.now.g self.now.head }
    {
        self.head.last - self.head.first == u64::from(self.g.entries)
            || self.head.end_off - self.head.first_off + size > ring_limit(&self.g)
    }
}
