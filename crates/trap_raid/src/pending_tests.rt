//! A pending write, read and then drained.

ghost use Rattle.std.specs.Prelude.{◌≡◌, ◌<◌, [], ◌∷◌};
ghost use Rattle.std.specs.Option.{ForSome};
ghost use Rattle.trap_pool.specs.Frames.{AreLeases, Only};

use crate::test_blocks::Blocks;
use crate::tests::{
    P, THREE, contents, is_block, is_long, make_disks, members_fit, mount_empty, parity_of_row,
    three_members,
};
use crate::{MemberFailed, Raid};
use std::process::Abort;
use std::test::Fail;
use trap_bank::{Bank, MemoryBank};
use trap_format::ring_start;
use trap_map::Place;
use trap_model::Geometry;
use trap_pool::Pool;
use trap_stage::Stage;

/// Reads the places of a row, and compares them.
fn read_row<B: Bank>(
    rt: &impl Abort,
    bank: &mut B,
    stage: &Stage,
    pool: &mut Pool,
    blocks: &Blocks,
    g: &Geometry,
    lost: Option<u8>,
    row: u32,
    wanted: &[[u8; 16]],
) -> Result<(), MemberFailed>
    requires stage { stage.now.g ≡ g.now }
    requires lost { ForSome lost (λ member. member < g.now.members) }
    requires block { g.now.block ≡ 16 }
    requires row { row < g.now.rows }
    requires size { pool.old.size ≡ 16 }
    requires leases { AreLeases pool.old (blocks.now.parity ∷ blocks.now.scratch ∷ []) }
    ensures { Only (blocks.now.parity ∷ blocks.now.scratch ∷ []) pool.old pool.new }
{
    let raid = Raid::new(*g, lost, 0);
    for member in 0..g.members {
        assert!(rt; members_fit(g, lost, bank));
        let place = Place { member, row };
        raid.read_place(bank, stage, pool, place, &blocks.parity, &blocks.scratch)?;
        assert!(rt; usize::from(member) < wanted.len());
        assert_eq!(rt;
            pool.bytes(&blocks.parity),
            wanted[usize::from(member)].as_slice(),
            "member {member}, lost {:?}",
            lost
        );
    }
    Ok(())
}

/// Reads a row with no member lost, and with each of three lost.
fn read_each<B: Bank>(
    rt: &impl Abort,
    bank: &mut B,
    stage: &Stage,
    pool: &mut Pool,
    blocks: &Blocks,
    g: &Geometry,
    row: u32,
    wanted: &[[u8; 16]],
) -> Result<(), MemberFailed>
    requires stage { stage.now.g ≡ g.now }
    requires members { g.now.members ≡ 3 }
    requires block { g.now.block ≡ 16 }
    requires row { row < g.now.rows }
    requires size { pool.old.size ≡ 16 }
    requires leases { AreLeases pool.old (blocks.now.parity ∷ blocks.now.scratch ∷ []) }
    ensures { Only (blocks.now.parity ∷ blocks.now.scratch ∷ []) pool.old pool.new }
{
    read_row(rt, bank, stage, pool, blocks, g, None, row, wanted)?;
    read_row(rt, bank, stage, pool, blocks, g, Some(0), row, wanted)?;
    read_row(rt, bank, stage, pool, blocks, g, Some(1), row, wanted)?;
    read_row(rt, bank, stage, pool, blocks, g, Some(2), row, wanted)
}

/// Drains the pending writes up to a number.
fn drain_to<B: Bank>(
    rt: &impl Abort,
    bank: &mut B,
    stage: &Stage,
    g: &Geometry,
    upto: u64,
) -> Result<(), MemberFailed>
    requires { stage.now.g ≡ g.now }
{
    assert!(rt; members_fit(g, None, bank));
    Raid::new(*g, None, 0).drain(bank, stage, upto)
}

#[test]
fn a_pending_write_is_read_and_then_drained(rt: HostRuntime) -> Result<(), Fail> {
    let g = three_members();
    let mut bank = MemoryBank::new(rt.alloc())?;
    make_disks(&rt, &mut bank, &g, None, &THREE)?;
    let mut stage = mount_empty(&rt, rt.alloc(), &mut bank, &g)?;
    // Row 1 has block 3, parity, and block 2, which is written.
    let fresh = contents(102);
    let parity = parity_of_row(&rt, &[3, P, 2], 2, fresh);
    let wanted = [contents(3), parity, fresh];
    assert!(rt; is_long(&bank, 0, ring_start(&g)));
    assert!(rt; is_block(&g, 2));
    stage.fill(&mut bank, 1, 2, &fresh, &parity)?;
    let mut pool = Pool::new(rt.alloc(), 4, 16)?;
    let blocks = Blocks::take(&mut pool);
    let before = read_each(&rt, &mut bank, &stage, &mut pool, &blocks, &g, 1, &wanted);
    // A number above the last one stands for the last one.
    let drained = drain_to(&rt, &mut bank, &stage, &g, 9);
    stage.forget_to(1);
    assert_eq!(rt; stage.last(), stage.drained());
    let after = read_each(&rt, &mut bank, &stage, &mut pool, &blocks, &g, 1, &wanted);
    blocks.give(&mut pool);
    before?;
    drained?;
    after?;
    Ok(())
}
