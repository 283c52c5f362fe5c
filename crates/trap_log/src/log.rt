//! The log's disk, as a mounted array knows it.

ghost use Rattle.std.specs.Prelude.{◌≡◌, ◌<◌};
ghost use Rattle.std.specs.Option.{ForSome};
ghost use Rattle.trap_format.specs.HeadValue.{IsHead, head_value};
ghost use Rattle.trap_mount.specs.Holding.{head_place, log_ring};
ghost use Rattle.trap_ring.specs.Ring.{ring_pos};
ghost use Rattle.trap_log.specs.Room as room;

use std::marker::Model;
use trap_cell::Cell;
use trap_format::layout::HEAD_VALUE_BYTES;
use trap_format::{Head, ring_len, ring_start, spell_head};
use trap_model::Geometry;
use trap_mount::ring_of;
use trap_raid::Raid;
use trap_ring::Ring;
use trap_stage::Stage;

/// The numbers of the array, the head that was put last, the head's cell, and the pending writes.
/// The index of the retained records is the array's.
#[derive(Drop)]
pub struct Log {
    pub(crate) g: Geometry,
    pub(crate) head: Head,
    pub(crate) cell: Cell,
    pub(crate) stage: Stage,
}

impl Model for Log {
    ghost use Rattle.trap_log.specs.Log as log;

    ghost Value = { log.Log };

    ghost view = { λ l. record {
      g = l.g;
      head = l.head;
      cell = l.cell;
      stage = l.stage;
    } };

    ghost invariant = { λ l. log.IsLog l.g l.head l.cell l.stage };
}

impl Log {
    /// A log from its parts, as mounting finds them.
    pub fn new(g: Geometry, head: Head, cell: Cell, stage: Stage) -> Log
        requires head { IsHead g head }
        requires one_slot { g.slots ≡ 1 }
        requires place { cell.place ≡ head_place }
        requires same { stage.g ≡ g }
        ensures { result ≡ record { g = g; head = head; cell = cell; stage = stage } }
    {
        Log {
            g,
            head,
            cell,
            stage,
        }
    }

    /// The numbers of the array.
    pub fn geometry(&self) -> Geometry
        ensures { result ≡ self.now.g }
    {
        self.g
    }

    /// The head that was put last.
    pub fn head(&self) -> Head
        ensures head { result ≡ self.now.head }

        // What the type says of it.
        ensures is { IsHead self.now.g self.now.head }
    {
        self.head
    }

    /// The pending writes.
    pub fn stage(&self) -> &Stage
        ensures stage { result.now ≡ self.now.stage }

        // What the type says of them.
        ensures same { self.now.stage.g ≡ self.now.g }
    {
        &self.stage
    }

    /// The members, of which the head's lost one may be rebuilt in part.
    pub fn raid(&self) -> Raid
        ensures { result ≡ record {
          g = self.now.g;
          lost = self.now.head.lost;
          rebuilt = self.now.head.rebuilt;
        } }
    {
        Raid::new(self.g, self.head.lost, self.head.rebuilt)
    }

    /// The ring of records.
    pub fn ring(&self) -> Ring
        ensures { result ≡ log_ring self.now.g }
    {
        ring_of(&self.g)
    }

    /// The byte offset on disk 0 of a byte of the ring.
    pub fn on_disk(&self, off: u64) -> u64
        ensures { result ≡ ring_pos (log_ring self.now.g) off }
    {
        ring_start(&self.g) + off % ring_len(&self.g)
    }
}

/// How many bytes of records are retained at most.
pub(crate) fn ring_limit(g: &Geometry) -> u64
    ensures { result ≡ room.ring_limit g.now }
{
    ring_len(g)
}

/// The value of a head.
pub(crate) fn value_of(h: &Head) -> [u8; HEAD_VALUE_BYTES]
    requires { ForSome h.now.lost (λ member. member < 16) }
    ensures { result ≡ head_value h.now }
{
    let mut value = [0; HEAD_VALUE_BYTES];
    spell_head(h, &mut value);
    value
}
