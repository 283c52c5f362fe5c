//! The memory that the calls of a mounted array need, taken once.

ghost use Rattle.std.specs.Prelude.{IfOk};
ghost use Rattle.trap_mount.specs.Memory.{HaveBlocksOf};

use std::alloc::{AllocError as OutOfMemory, Global};
use std::marker::Model;
use trap_model::{Geometry, RECORD_HEADER_BYTES};
use trap_pool::Pool;

/// The most leases that a call takes at once.
const LEASES: usize = 6;

/// A region of blocks to lease, and room for a code and for a record.
#[derive(Drop)]
pub struct Buffers {
    pub pool: Pool,
    pub code: Vec<u8>,
    pub spelled: Vec<u8>,
}

impl Model for Buffers {
    ghost use Rattle.trap_mount.specs.Memory as memory;

    ghost Value = { memory.Buffers };

    ghost view = { λ b. record {
      pool = b.pool;
      code = b.code.items;
      spelled = b.spelled.items;
    } };
}

impl Buffers {
    /// The memory for arrays with blocks of that size.
    pub fn new(alloc: Global, g: &Geometry) -> Result<Buffers, OutOfMemory>
        ensures { IfOk result (λ buffers. HaveBlocksOf g.now.block buffers) }
    {
        let block = usize::from(g.block);
        let code = block + 7;
        let record = RECORD_HEADER_BYTES as usize + 2 * code;
        Ok(Buffers {
            pool: Pool::new(alloc, LEASES, block)?,
            code: vec![in alloc; 0u8; code]?,
            spelled: vec![in alloc; 0u8; record]?,
        })
    }
}
