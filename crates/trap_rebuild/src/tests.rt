//! Rebuilding over a bank in memory: each member lost, in steps of each size, and stopped anywhere.

ghost use Rattle.std.specs.Prelude.{◌≡◌, ◌<◌, ◌≤◌};

use crate::test_arrays::{
    FOUR, NOTHING, THREE, Written, all_fit, check_member, four_members, make_disks, mount_pending,
    three_members,
};
use crate::{Progress, RebuildFault, replace, step};
use std::alloc::Global;
use std::process::Abort;
use std::test::Fail;
use trap_bank::{Bank, MemoryBank};
use trap_model::Geometry;
use trap_pool::Pool;
use trap_raid::Raid;
use trap_stage::Stage;

/// One step from a mark on. Both blocks are given back.
fn one_step<B: Bank>(
    rt: &impl Abort,
    alloc: Global,
    bank: &mut B,
    g: &Geometry,
    stage: &Stage,
    lost: u8,
    mark: u32,
    rows: u32,
) -> Result<Result<Progress, RebuildFault>, Fail>
    requires stage { stage.now.g ≡ g.now }
    requires block { g.now.block ≡ 16 }
{
    let mut pool = Pool::new(alloc, 2, 16)?;
    assert!(rt; pool.free() >= 2);
    assert!(rt; lost < g.members);
    assert!(rt; mark < g.rows);
    assert!(rt; all_fit(g, bank));
    let raid = Raid::new(*g, Some(lost), mark);
    let done = step(bank, &raid, stage, &mut pool, rows);
    assert_eq!(rt; pool.free(), 2);
    Ok(done)
}

/// Steps of so many rows, until all are rebuilt or a member fails.
fn rebuild_all<B: Bank>(
    rt: &impl Abort,
    alloc: Global,
    bank: &mut B,
    g: &Geometry,
    stage: &Stage,
    lost: u8,
    rows: u32,
) -> Result<Result<(), RebuildFault>, Fail>
    requires stage { stage.now.g ≡ g.now }
    requires block { g.now.block ≡ 16 }
{
    let mut mark = 0;
    for _ in 0..g.rows {
        match one_step(rt, alloc, bank, g, stage, lost, mark, rows)? {
            Ok(Progress::More { rebuilt }) => {
                assert_eq!(rt; Some(rebuilt), mark.checked_add(rows));
                mark = rebuilt;
            }
            Ok(Progress::Whole) => {
                return Ok(Ok(()));
            }
            Err(why) => {
                return Ok(Err(why));
            }
        }
    }
    panic!(rt; "rows are left after {mark}")
}

/// A bank with the disks of an array, of which one is new.
fn with_new_disk(
    rt: &impl Abort,
    alloc: Global,
    g: &Geometry,
    table: &[u32],
    lost: u8,
) -> Result<MemoryBank, Fail>
    requires { lost < g.now.members }
{
    let mut bank = MemoryBank::new(alloc)?;
    make_disks(rt, &mut bank, g, table, lost)?;
    let mut raid = Raid::new(*g, Some(lost), g.rows - 1);
    assert_eq!(rt;
        replace(&mut bank, &mut raid, g.id, u64::from(lost)),
        Ok(())
    );
    assert_eq!(rt; (raid.lost(), raid.rebuilt()), (Some(lost), 0));
    Ok(bank)
}

/// Rebuilds each member in turn.
fn try_each(
    rt: &impl Abort,
    alloc: Global,
    g: &Geometry,
    table: &[u32],
    rows: u32,
    written: Written,
) -> Result<(), Fail>
    requires slots { g.now.slots ≡ 1 }
    requires block { g.now.block ≡ 16 }
{
    for lost in 0..g.members {
        let mut bank = with_new_disk(rt, alloc, g, table, lost)?;
        let stage = mount_pending(rt, alloc, &mut bank, g, table, written)?;
        let done = rebuild_all(rt, alloc, &mut bank, g, &stage, lost, rows)?;
        assert_eq!(rt; done, Ok(()));
        check_member(rt, &bank, g, table, lost, written);
    }
    Ok(())
}

/// In row 1 of three members, block 2 on member 2 is written.
const ON_THREE: Written = Written {
    row: 1,
    block: 2,
    like: 102,
};

#[test]
fn each_of_three_members_is_rebuilt(rt: HostRuntime) -> Result<(), Fail> {
    let g = three_members();
    for rows in 1..6 {
        try_each(&rt, rt.alloc(), &g, &THREE, rows, NOTHING)?;
        try_each(&rt, rt.alloc(), &g, &THREE, rows, ON_THREE)?;
    }
    Ok(())
}

#[test]
fn each_of_four_members_is_rebuilt(rt: HostRuntime) -> Result<(), Fail> {
    let g = four_members();
    let written = Written {
        row: 4,
        block: 12,
        like: 112,
    };
    for rows in [1, 2, 6] {
        try_each(&rt, rt.alloc(), &g, &FOUR, rows, NOTHING)?;
        try_each(&rt, rt.alloc(), &g, &FOUR, rows, written)?;
    }
    Ok(())
}

/// A rebuild of member 1 that stops after so many calls, and a crash: the other members' disks are
/// untouched, and it can be begun again.
fn stop_after(rt: &impl Abort, alloc: Global, calls: u64, seed: u64) -> Result<bool, Fail> {
    let g = three_members();
    let mut bank = with_new_disk(rt, alloc, &g, &THREE, 1)?;
    let stage = mount_pending(rt, alloc, &mut bank, &g, &THREE, ON_THREE)?;
    bank.fuse(calls);
    let is_done = rebuild_all(rt, alloc, &mut bank, &g, &stage, 1, 2)?.is_ok();
    bank.crash(seed);
    check_member(rt, &bank, &g, &THREE, 0, NOTHING);
    check_member(rt, &bank, &g, &THREE, 2, NOTHING);
    if is_done {
        check_member(rt, &bank, &g, &THREE, 1, ON_THREE);
    }
    assert_eq!(rt;
        rebuild_all(rt, alloc, &mut bank, &g, &stage, 1, 4)?,
        Ok(())
    );
    check_member(rt, &bank, &g, &THREE, 1, ON_THREE);
    Ok(is_done)
}

#[test]
fn a_stop_at_any_call_leaves_the_other_members(rt: HostRuntime) -> Result<(), Fail> {
    // In row 1 the parity of member 1 is pending. So there are two reads for each of three rows, a
    // write for each of four, and two syncs.
    for seed in 0..3 {
        for calls in 0..14 {
            let is_done = stop_after(&rt, rt.alloc(), calls, seed)?;
            assert_eq!(rt; is_done, calls >= 12, "after {calls} with seed {seed}");
        }
    }
    Ok(())
}

#[test]
fn a_disk_is_kept_where_it_is_its_own(rt: HostRuntime) -> Result<(), Fail> {
    let g = three_members();
    let mut bank = MemoryBank::new(rt.alloc())?;
    make_disks(&rt, &mut bank, &g, &THREE, 3)?;
    let mut raid = Raid::new(g, Some(1), 3);
    assert_eq!(rt; replace(&mut bank, &mut raid, 7, 1), Ok(()));
    assert_eq!(rt; raid.rebuilt(), 3);
    check_member(&rt, &bank, &g, &THREE, 1, NOTHING);
    let other = RebuildFault::NotLost { member: 2 };
    assert_eq!(rt; replace(&mut bank, &mut raid, 7, 2), Err(other));
    let none = RebuildFault::NotLost { member: 257 };
    assert_eq!(rt; replace(&mut bank, &mut raid, 7, 257), Err(none));
    // The disk of another array is made anew.
    assert_eq!(rt; replace(&mut bank, &mut raid, 8, 1), Ok(()));
    assert_eq!(rt; raid.rebuilt(), 0);
    raid.whole();
    let whole = RebuildFault::NotLost { member: 1 };
    assert_eq!(rt; replace(&mut bank, &mut raid, 7, 1), Err(whole));
    Ok(())
}

/// What a step answers where a disk fails after so many calls on it.
fn fail_after(rt: &impl Abort, alloc: Global, d: u8, calls: u64) -> Result<(), Fail>
    requires { d ≤ 20 }
{
    let g = three_members();
    let mut bank = with_new_disk(rt, alloc, &g, &THREE, 1)?;
    let stage = mount_pending(rt, alloc, &mut bank, &g, &THREE, NOTHING)?;
    bank.fail_on(d, calls);
    let done = one_step(rt, alloc, &mut bank, &g, &stage, 1, 0, 4)?;
    assert!(rt; d > 0);
    assert_eq!(rt; done, Err(RebuildFault::MemberFailed { member: d - 1 }));
    Ok(())
}

#[test]
fn a_member_that_fails_is_named(rt: HostRuntime) -> Result<(), Fail> {
    // Four reads of each other member, and four writes and a sync of the one that is rebuilt.
    for calls in 0..4 {
        fail_after(&rt, rt.alloc(), 1, calls)?;
        fail_after(&rt, rt.alloc(), 2, calls)?;
        fail_after(&rt, rt.alloc(), 3, calls)?;
    }
    fail_after(&rt, rt.alloc(), 2, 4)
}
