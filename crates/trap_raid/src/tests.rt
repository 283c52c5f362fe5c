//! Reads, plans and drains over a bank in memory, each member lost in turn.

ghost use Rattle.std.specs.Prelude.{◌≡◌, ◌≢◌, ◌+◌, ◌*◌, ◌<◌, ◌≤◌, [], ◌∷◌, Some, length, IsTrue};
ghost use Rattle.std.specs.Prelude.{IfOk};
ghost use Rattle.std.specs.Option.{ForSome};
ghost use Rattle.trap_bank.specs.Calls.{Fits};
ghost use Rattle.trap_model.specs.Image.{volume};
ghost use Rattle.trap_pool.specs.Frames.{AreLeases, Only};
ghost use Rattle.trap_raid.specs.Members.{MembersFit};

use crate::test_blocks::Blocks;
use crate::{MemberFailed, Raid};
use std::alloc::Global;
use std::process::Abort;
use std::test::Fail;
use trap_bank::{Bank, Failed, MemoryBank};
use trap_format::ring_start;
use trap_map::Place;
use trap_model::Geometry;
use trap_pool::Pool;
use trap_stage::{Stage, StageFault};

/// Stands for parity in the tables below, which have the rows one after the other.
pub(crate) const P: u32 = u32::MAX;

/// A block's contents.
pub(crate) fn contents(block: u32) -> [u8; 16]
    requires { block < 256 }
{
    let mut bytes = [0; 16];
    for i in 0..16 {
        bytes[i] = ((block * 37 + i as u32 * 5 + 11) % 256) as u8;
    }
    bytes
}

/// Each byte becomes its exclusive-or with the one of `more`.
fn add(bytes: &mut [u8; 16], more: &[u8; 16]) {
    for i in 0..16 {
        bytes[i] ^= more[i];
    }
}

/// The exclusive-or of a row's blocks, one of which may have other contents.
pub(crate) fn parity_of_row(
    rt: &impl Abort,
    row: &[u32],
    written: u32,
    fresh: [u8; 16],
) -> [u8; 16] {
    let mut bytes = [0; 16];
    for block in row {
        if *block == written {
            add(&mut bytes, &fresh);
        } else if *block != P {
            assert!(rt; *block < 256);
            add(&mut bytes, &contents(*block));
        }
    }
    bytes
}

/// The bytes at a place.
fn place_bytes(rt: &impl Abort, row: &[u32], member: usize) -> [u8; 16]
    requires { member < length row.now }
{
    let block = row[member];
    if block == P {
        return parity_of_row(rt, row, P, [0; 16]);
    }
    assert!(rt; block < 256);
    contents(block)
}

/// Whether the disk is there and has that many bytes.
pub(crate) fn is_long<B: Bank>(bank: &B, d: u8, end: u64) -> bool
    requires { d ≤ 20 }
    ensures { IsTrue result → Fits (B.view bank.now) d end }
{
    match bank.size(d) {
        Some(len) => end <= len,
        None => false,
    }
}

/// Whether a member is the lost one, or its disk has that many bytes.
fn is_member_long<B: Bank>(bank: &B, lost: Option<u8>, member: u8, end: u64) -> bool
    requires { member < 20 }
    ensures { IsTrue result → lost ≢ Some member → Fits (B.view bank.now) (member + 1) end }
{
    lost == Some(member) || is_long(bank, member + 1, end)
}

/// Whether the disk of each member but the lost one has all rows.
pub(crate) fn members_fit<B: Bank>(g: &Geometry, lost: Option<u8>, bank: &B) -> bool
    ensures { IsTrue result → MembersFit g.now lost 0 (B.view bank.now) }
{
    let end = 16 + u64::from(g.rows) * u64::from(g.block);
    for member in 0..g.members {
        if !is_member_long(bank, lost, member, end) {
            return false;
        }
    }
    true
}

/// Whether there is such a block.
pub(crate) fn is_block(g: &Geometry, block: u32) -> bool
    ensures { IsTrue result → block < volume g.now }
{
    block < g.rows * (u32::from(g.members) - 1)
}

/// Writes the places of one member as the table has them.
fn make_member<B: Bank>(
    rt: &impl Abort,
    bank: &mut B,
    g: &Geometry,
    member: u8,
    table: &[u32],
) -> Result<(), Failed>
    requires { member < g.now.members }
{
    let members = usize::from(g.members);
    bank.make(member + 1, 16 + u64::from(g.rows) * 16)?;
    for row in 0..g.rows {
        let at = 16 + u64::from(row) * 16;
        let from = row as usize * members;
        assert!(rt; from + members <= table.len());
        let bytes = place_bytes(rt, &table[from..from + members], usize::from(member));
        assert!(rt; is_long(bank, member + 1, at + 16));
        bank.write(member + 1, at, &bytes)?;
    }
    Ok(())
}

/// Mounts the slots of numbers that are all drained: nothing is pending.
pub(crate) fn mount_empty<B: Bank>(
    rt: &impl Abort,
    alloc: Global,
    bank: &mut B,
    g: &Geometry,
) -> Result<Stage, StageFault>
    ensures { IfOk result (λ stage. (stage.g ≡ g.now) × (stage.drained ≡ 0)
        × (stage.pending ≡ [])) }
{
    assert!(rt; is_long(bank, 0, ring_start(g)));
    Stage::mount(alloc, bank, g, 0, 0)
}

/// Makes a log's disk, whose slots are all zero, and the disks of all members but the lost one.
pub(crate) fn make_disks<B: Bank>(
    rt: &impl Abort,
    bank: &mut B,
    g: &Geometry,
    lost: Option<u8>,
    table: &[u32],
) -> Result<(), Failed> {
    bank.make(0, ring_start(g))?;
    for member in 0..g.members {
        if lost != Some(member) {
            make_member(rt, bank, g, member, table)?;
        }
    }
    Ok(())
}

/// Reads each place, and compares it with the table's.
fn read_all<B: Bank>(
    rt: &impl Abort,
    bank: &mut B,
    stage: &Stage,
    pool: &mut Pool,
    blocks: &Blocks,
    g: &Geometry,
    lost: Option<u8>,
    table: &[u32],
) -> Result<(), MemberFailed>
    requires stage { stage.now.g ≡ g.now }
    requires lost { ForSome lost (λ member. member < g.now.members) }
    requires block { g.now.block ≡ 16 }
    requires size { pool.old.size ≡ 16 }
    requires leases { AreLeases pool.old (blocks.now.parity ∷ blocks.now.scratch ∷ []) }
    ensures { Only (blocks.now.parity ∷ blocks.now.scratch ∷ []) pool.old pool.new }
{
    let raid = Raid::new(*g, lost, 0);
    let members = usize::from(g.members);
    for row in 0..g.rows {
        let from = row as usize * members;
        assert!(rt; from + members <= table.len());
        for member in 0..g.members {
            assert!(rt; members_fit(g, lost, bank));
            let place = Place { member, row };
            raid.read_place(bank, stage, pool, place, &blocks.parity, &blocks.scratch)?;
            let wanted = place_bytes(rt, &table[from..from + members], usize::from(member));
            assert_eq!(rt;
                pool.bytes(&blocks.parity),
                wanted.as_slice(),
                "member {member}, row {row}, lost {:?}",
                lost
            );
        }
    }
    Ok(())
}

/// Plans a write to each block, and compares the plan with the table's rows.
fn plan_all<B: Bank>(
    rt: &impl Abort,
    bank: &mut B,
    stage: &Stage,
    pool: &mut Pool,
    blocks: &Blocks,
    g: &Geometry,
    lost: Option<u8>,
    table: &[u32],
) -> Result<(), MemberFailed>
    requires stage { stage.now.g ≡ g.now }
    requires lost { ForSome lost (λ member. member < g.now.members) }
    requires block { g.now.block ≡ 16 }
    requires size { pool.old.size ≡ 16 }
    requires leases { AreLeases pool.old (blocks.now.fresh ∷ blocks.now.delta
        ∷ blocks.now.parity ∷ blocks.now.scratch ∷ []) }
    ensures { Only (blocks.now.fresh ∷ blocks.now.delta ∷ blocks.now.parity
        ∷ blocks.now.scratch ∷ []) pool.old pool.new }
{
    let raid = Raid::new(*g, lost, 0);
    let members = usize::from(g.members);
    for (at, block) in table.iter().enumerate() {
        if *block != P {
            assert!(rt; *block < 100);
            assert!(rt; is_block(g, *block));
            let fresh = contents(*block + 100);
            let from = at - at % members;
            assert!(rt; from + members <= table.len());
            assert!(rt; members_fit(g, lost, bank));
            pool.bytes_mut(&blocks.fresh).copy_from_slice(&fresh);
            raid.write_plan(
                bank,
                stage,
                pool,
                *block,
                &blocks.fresh,
                &blocks.delta,
                &blocks.parity,
                &blocks.scratch,
            )?;
            let wanted = parity_of_row(rt, &table[from..from + members], *block, fresh);
            let mut changed = contents(*block);
            add(&mut changed, &fresh);
            assert_eq!(rt;
                pool.bytes(&blocks.delta),
                changed.as_slice(),
                "block {block}, lost {:?}",
                lost
            );
            assert_eq!(rt;
                pool.bytes(&blocks.parity),
                wanted.as_slice(),
                "block {block}, lost {:?}",
                lost
            );
        }
    }
    Ok(())
}

/// Makes the members, and reads and plans over them.
fn try_all(
    rt: &impl Abort,
    alloc: Global,
    g: &Geometry,
    lost: Option<u8>,
    table: &[u32],
) -> Result<(), Fail>
    requires lost { ForSome lost (λ member. member < g.now.members) }
    requires block { g.now.block ≡ 16 }
{
    let mut bank = MemoryBank::new(alloc)?;
    make_disks(rt, &mut bank, g, lost, table)?;
    let stage = mount_empty(rt, alloc, &mut bank, g)?;
    let mut pool = Pool::new(alloc, 4, 16)?;
    let blocks = Blocks::take(&mut pool);
    let read = read_all(rt, &mut bank, &stage, &mut pool, &blocks, g, lost, table);
    let planned = plan_all(rt, &mut bank, &stage, &mut pool, &blocks, g, lost, table);
    blocks.give(&mut pool);
    read?;
    planned?;
    Ok(())
}

/// Three members, chunks of one block, four rows.
pub(crate) fn three_members() -> Geometry
    ensures members { result.members ≡ 3 }
    ensures block { result.block ≡ 16 }
    ensures rows { result.rows ≡ 4 }
    ensures slots { result.slots ≡ 1 }
{
    Geometry {
        id: 7,
        members: 3,
        chunk: 1,
        block: 16,
        rows: 4,
        slots: 1,
        gap: 2,
        entries: 8,
        ring: 2048,
    }
}

/// The rows of three members.
pub(crate) const THREE: [u32; 12] = [0, 1, P, 3, P, 2, P, 4, 5, 6, 7, P];

#[test]
fn every_place_of_three_members_with_each_lost(rt: HostRuntime) -> Result<(), Fail> {
    let g = three_members();
    try_all(&rt, rt.alloc(), &g, None, &THREE)?;
    try_all(&rt, rt.alloc(), &g, Some(0), &THREE)?;
    try_all(&rt, rt.alloc(), &g, Some(1), &THREE)?;
    try_all(&rt, rt.alloc(), &g, Some(2), &THREE)?;
    Ok(())
}

/// Five members, chunks of three blocks, twelve rows.
fn five_members() -> Geometry
    ensures members { result.members ≡ 5 }
    ensures block { result.block ≡ 16 }
{
    Geometry {
        id: 7,
        members: 5,
        chunk: 3,
        block: 16,
        rows: 12,
        slots: 1,
        gap: 2,
        entries: 8,
        ring: 2048,
    }
}

/// The rows of five members.
const FIVE: [u32; 60] = [
    0, 3, 6, 9, P, 1, 4, 7, 10, P, 2, 5, 8, 11, P, 15, 18, 21, P, 12, 16, 19, 22, P, 13, 17, 20,
    23, P, 14, 30, 33, P, 24, 27, 31, 34, P, 25, 28, 32, 35, P, 26, 29, 45, P, 36, 39, 42, 46, P,
    37, 40, 43, 47, P, 38, 41, 44,
];

#[test]
fn every_place_of_five_members_with_one_lost(rt: HostRuntime) -> Result<(), Fail> {
    let g = five_members();
    try_all(&rt, rt.alloc(), &g, None, &FIVE)?;
    try_all(&rt, rt.alloc(), &g, Some(1), &FIVE)?;
    try_all(&rt, rt.alloc(), &g, Some(4), &FIVE)?;
    Ok(())
}

#[test]
fn a_member_that_fails_is_named(rt: HostRuntime) -> Result<(), Fail> {
    let g = three_members();
    let mut bank = MemoryBank::new(rt.alloc())?;
    // A call that makes each of three disks, and four that write each of two members' rows.
    make_disks(&rt, &mut bank, &g, Some(0), &THREE)?;
    let stage = mount_empty(&rt, rt.alloc(), &mut bank, &g)?;
    let mut pool = Pool::new(rt.alloc(), 4, 16)?;
    let blocks = Blocks::take(&mut pool);
    bank.fail_at(13);
    let answer = read_all(
        &rt,
        &mut bank,
        &stage,
        &mut pool,
        &blocks,
        &g,
        Some(0),
        &THREE,
    );
    blocks.give(&mut pool);
    assert_eq!(rt; answer, Err(MemberFailed { member: 2 }));
    Ok(())
}
