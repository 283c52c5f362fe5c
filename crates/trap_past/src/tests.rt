ghost use Rattle.std.specs.Prelude.{◌≡◌, length, OnOk};
ghost use Rattle.trap_model.specs.Image.{volume};
ghost use Rattle.trap_past.specs.Memory.{index_of, past_of};
ghost use Rattle.trap_past.specs.Past.{IsIndexOf, IsInstant, HasFewCalls};
ghost use Rattle.trap_pool.specs.Pooled.{free_of};

use crate::{MemoryPast, block_at};
use std::alloc::Global;
use std::process::Abort;
use std::test::Fail;
use trap_index::Index;
use trap_model::{Geometry, LogRec};
use trap_pool::Pool;

// Eight blocks of 16 bytes, and room for eight entries.
fn eight_blocks() -> Geometry
    ensures entries { result.entries ≡ 8 }
    ensures block { result.block ≡ 16 }
    ensures volume { volume result ≡ 8 }
{
    Geometry {
        id: 7,
        members: 3,
        chunk: 1,
        block: 16,
        rows: 4,
        slots: 2,
        gap: 4,
        entries: 8,
        ring: 2048,
    }
}

// Writes a block, and adds its record to the index.
fn enter(
    rt: &impl Abort,
    index: &mut Index,
    past: &mut MemoryPast,
    block: u32,
    byte: u8,
) -> Result<(), Fail>
    requires entries { index.old.g.entries ≡ 8 }
    requires size { index.old.g.block ≡ 16 }
    requires volume { volume index.old.g ≡ 8 }
    requires same { index.old ≡ index_of past.old }
    ensures geometry { OnOk result (index.new.g ≡ index.old.g) }
    ensures same { OnOk result (index.new ≡ index_of past.new) }
    ensures presents { OnOk result (past.new.presents ≡ past.old.presents) }
    ensures parities { OnOk result (past.new.parities ≡ past.old.parities) }
    ensures snapshots { OnOk result (past.new.snapshots ≡ past.old.snapshots) }
{
    let (first, last, time) = (index.first(), index.last(), index.last_time());
    assert!(rt; last < first + 8);
    assert!(rt; last < 100);
    assert!(rt; block < 8);
    let rec = LogRec {
        snap: false,
        seq: last + 1,
        time,
        block,
        plen: 20,
        slen: 0,
    };
    past.write(&rec, &[byte; 16])?;
    index.add(&rec);
    Ok(())
}

// The byte that each of a block's is.
fn byte_of(rt: &impl Abort, bytes: &[u8]) -> u8
    requires { length bytes.now ≡ 16 }
{
    let byte = bytes[0];
    assert_eq!(rt; bytes, [byte; 16].as_slice());
    byte
}

// The byte that the block is made of after an entry, or 0xff where a call of the source fails.
fn byte_from(
    rt: &impl Abort,
    past: &mut MemoryPast,
    index: &Index,
    pool: &mut Pool,
    block: u32,
    seq: u64,
) -> u8
    requires index { IsIndexOf index.now (past_of past.old).has }
    requires instant { IsInstant (past_of past.old).has block seq }
    requires few { HasFewCalls (past_of past.old) }
    requires same_size { pool.old.size ≡ (past_of past.old).has.size }
    requires size { pool.old.size ≡ 16 }
    requires free { free_of pool.old ≡ 2 }
{
    let Some(into) = pool.take() else {
        unreachable!();
    };
    let Some(scratch) = pool.take() else {
        unreachable!();
    };
    pool.bytes_mut(&into).fill(0xee);
    let answer = block_at(past, index, pool, block, seq, &into, &scratch);
    let byte = byte_of(rt, pool.bytes(&into));
    pool.give(into);
    pool.give(scratch);
    match answer {
        Ok(()) => byte,
        Err(_) => 0xff,
    }
}

// Ten entries were dropped. Numbers 11, 13 and 14 write block 3, and number 12 writes block 5. The
// byte that each of the block's has after an entry, or 0xff where the source's call with a number
// fails.
fn byte_at(rt: &impl Abort, alloc: Global, block: u32, seq: u64, failing: u64) -> Result<u8, Fail> {
    let g = eight_blocks();
    let mut index = Index::new(alloc, &g, 10, 99, 1000)?;
    let mut past = MemoryPast::new(alloc, &g, 10, 99, 1000)?;
    enter(rt, &mut index, &mut past, 3, 0x11)?;
    enter(rt, &mut index, &mut past, 5, 0x22)?;
    enter(rt, &mut index, &mut past, 3, 0x33)?;
    enter(rt, &mut index, &mut past, 3, 0x44)?;
    past.fail_at(failing);
    let (first, last) = (index.first(), index.last());
    assert!(rt; block < 8 && first <= seq && seq <= last);
    let mut pool = Pool::new(alloc, 2, 16)?;
    Ok(byte_from(rt, &mut past, &index, &mut pool, block, seq))
}

#[test]
fn a_block_is_as_its_last_entry_left_it(rt: HostRuntime) -> Result<(), Fail> {
    for (block, seq, want) in [
        (3, 10, 0),
        (3, 11, 0x11),
        (3, 12, 0x11),
        (3, 13, 0x33),
        (3, 14, 0x44),
        (5, 11, 0),
        (5, 12, 0x22),
        (5, 14, 0x22),
        (0, 10, 0),
    ] {
        assert_eq!(rt;
            byte_at(&rt, rt.alloc(), block, seq, 0)?,
            want,
            "{block} at {seq}"
        );
    }
    Ok(())
}

#[test]
fn a_fault_ends_it_and_a_call_that_is_not_made_fails_nothing(rt: HostRuntime) -> Result<(), Fail> {
    // Back to number 11 there are the present and two parities to ask for.
    for (failing, want) in [(1, 0xff), (2, 0xff), (3, 0xff), (4, 0x11)] {
        assert_eq!(rt;
            byte_at(&rt, rt.alloc(), 3, 11, failing)?,
            want,
            "call {failing}"
        );
    }
    Ok(())
}
