//! A mounted array.

ghost use Rattle.std.specs.Prelude.{◌≡◌, false};
ghost use Rattle.trap_format.specs.HeadValue.{IsHead};
ghost use Rattle.trap_index.specs.Indexed.{last_seq, last_record_time};
ghost use Rattle.trap_stage.specs.Slots.{last_of};
ghost use Rattle.trap_array.specs.Holding.{head_place};
ghost use Rattle.trap_array.specs.Log.{HaveBlocksOf};

use std::marker::Model;
use trap_cell::Cell;
use trap_format::Head;
use trap_index::Index;
use trap_log::Log;
use trap_model::Geometry;
use trap_mount::Buffers;
use trap_stage::Stage;

/// An array that is mounted: what its log's head says, its pending writes, and the index of its
/// records. After a fault it is stopped, and is of no further use: mount it again. Its memory was
/// taken at mounting: no call takes more.
#[derive(Drop)]
pub struct Array {
    pub(crate) log: Log,
    pub(crate) index: Index,
    pub(crate) buffers: Buffers,
    pub(crate) is_stopped: bool,
}

impl Model for Array {
    ghost use Rattle.std.specs.Prelude.{length};
    ghost use Rattle.trap_pool.specs.Pooled.{free_of};
    ghost use Rattle.trap_array.specs.Calls.{Mounted};
    ghost use Rattle.trap_array.specs.Log.{IsArray};

    ghost Value = { Mounted };

    ghost view = { λ a. record {
      g = a.log.g;
      head = a.log.head;
      cell = a.log.cell;
      pending = a.log.stage.pending;
      index = a.index;
      blocks = length a.buffers.pool.blocks;
      free = free_of a.buffers.pool;
      is_stopped = a.is_stopped;
    } };

    ghost invariant = { λ a. IsArray a.log a.index a.buffers a.is_stopped };
}

impl Array {
    /// An array from its parts, which is not stopped.
    pub(crate) fn assemble(
        g: Geometry,
        head: Head,
        cell: Cell,
        stage: Stage,
        index: Index,
        buffers: Buffers,
    ) -> Array
        requires head { IsHead g head }
        requires one_slot { g.slots ≡ 1 }
        requires place { cell.place ≡ head_place }
        requires same { stage.g ≡ g }
        requires drained { stage.drained ≡ head.drained }
        requires last { last_of stage ≡ head.last }
        requires indexed { index.g ≡ g }
        requires first { index.first ≡ head.first }
        requires offset { index.first_off ≡ head.first_off }
        requires end { last_seq index ≡ head.last }
        requires time { last_record_time index ≡ head.last_time }
        requires buffers { HaveBlocksOf g.block buffers }
        ensures { result ≡ record {
          g = g;
          head = head;
          cell = cell;
          pending = stage.pending;
          index = index;
          blocks = 6;
          free = 6;
          is_stopped = false;
        } }
    {
        Array {
            log: Log::new(g, head, cell, stage),
            index,
            buffers,
            is_stopped: false,
        }
    }

    /// The numbers of the array, as the log's header has them.
    pub fn geometry(&self) -> Geometry
        ensures { result ≡ self.now.g }
    {
        self.log.geometry()
    }
}
