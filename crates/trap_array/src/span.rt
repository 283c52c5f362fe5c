//! What an array retains.

ghost use Rattle.std.specs.Prelude.{◌≡◌, ◌↔◌, ◌<◌, ◌≤◌, IfSome, IsSome};
ghost use Rattle.trap_bank.specs.Disks.{Disks};
ghost use Rattle.trap_index.specs.Indexed.{last_seq, item_at};
ghost use Rattle.trap_model.specs.ArrayStep.{step};
ghost use Rattle.trap_model.specs.declared.history.State.{State};
ghost use Rattle.trap_model.specs.declared.request.Reply.TheVariants as reply;
ghost use Rattle.trap_model.specs.declared.request.Request.TheVariants as request;
ghost use Rattle.trap_array.specs.Calls.{StandsFor};

use crate::Array;
use trap_index::Item;

/// The numbers and times of what an array retains.
#[derive(Debug, Clone, Copy, PartialEq, Eq)]
pub struct Span {
    /// How many entries were dropped.
    pub first: u64,
    /// The number of the last entry.
    pub last: u64,
    /// The time of the last dropped entry.
    pub base_time: u64,
    /// The time of the last entry.
    pub last_time: u64,
}

impl Array {
    /// The numbers and times of what is retained.
    pub fn span(&self) -> Span
        ensures head { result ≡ record {
          first = self.now.head.first;
          last = self.now.head.last;
          base_time = self.now.head.base_time;
          last_time = self.now.head.last_time;
        } }
        ensures reply { (s : State) (disks : Disks) → StandsFor self.now s disks
            → (step self.now.g).reply s request.Info
            ≡ reply.Span result.first result.last result.base_time result.last_time }
    {
        let head = self.log.head();
        Span {
            first: head.first,
            last: head.last,
            base_time: head.base_time,
            last_time: head.last_time,
        }
    }

    /// What is known of the retained entry with this number.
    pub fn entry(&self, seq: u64) -> Option<Item>
        ensures some { IfSome result (λ item. item ≡ item_at self.now.index seq) }
        ensures retained { IsSome result ↔ ((self.now.index.first < seq)
            × (seq ≤ last_seq self.now.index)) }
    {
        self.index.item(seq)
    }
}
