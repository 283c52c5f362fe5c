//! Arrays over a bank in memory, with what each of their places is to hold.

ghost use Rattle.std.specs.Prelude.{◌≡◌, ◌+◌, ◌*◌, ◌<◌, ◌≤◌, [], ◌∷◌, length, IsTrue, IfOk};
ghost use Rattle.trap_bank.specs.Calls.{Fits};
ghost use Rattle.trap_model.specs.Image.{volume};
ghost use Rattle.trap_rebuild.specs.Rebuilding.{AllFit};

use std::alloc::Global;
use std::process::Abort;
use std::test::Fail;
use trap_bank::{Bank, MemoryBank};
use trap_format::{member_len, ring_start, spell_member};
use trap_model::Geometry;
use trap_stage::Stage;

/// Stands for parity in the tables below, which have the rows one after the other.
pub(crate) const P: u32 = u32::MAX;

/// Three members, chunks of one block, four rows.
pub(crate) fn three_members() -> Geometry
    ensures members { result.members ≡ 3 }
    ensures block { result.block ≡ 16 }
    ensures rows { result.rows ≡ 4 }
    ensures slots { result.slots ≡ 1 }
{
    Geometry {
        id: 7,
        members: 3,
        chunk: 1,
        block: 16,
        rows: 4,
        slots: 1,
        gap: 2,
        entries: 8,
        ring: 2048,
    }
}

/// The rows of three members.
pub(crate) const THREE: [u32; 12] = [0, 1, P, 3, P, 2, P, 4, 5, 6, 7, P];

/// Four members, chunks of two blocks, six rows.
pub(crate) fn four_members() -> Geometry
    ensures members { result.members ≡ 4 }
    ensures block { result.block ≡ 16 }
    ensures rows { result.rows ≡ 6 }
    ensures slots { result.slots ≡ 1 }
{
    Geometry {
        id: 7,
        members: 4,
        chunk: 2,
        block: 16,
        rows: 6,
        slots: 1,
        gap: 2,
        entries: 8,
        ring: 2048,
    }
}

/// The rows of four members.
pub(crate) const FOUR: [u32; 24] = [
    0, 2, 4, P, 1, 3, 5, P, 8, 10, P, 6, 9, 11, P, 7, 16, P, 12, 14, 17, P, 13, 15,
];

/// A write to one block of a row: it gets the contents of another one.
#[derive(Debug, Clone, Copy)]
pub(crate) struct Written {
    pub(crate) row: u32,
    pub(crate) block: u32,
    pub(crate) like: u32,
}

/// No write.
pub(crate) const NOTHING: Written = Written {
    row: 0,
    block: P,
    like: 0,
};

/// A block's contents.
fn contents(block: u32) -> [u8; 16]
    requires { block < 256 }
{
    let mut bytes = [0; 16];
    for i in 0..16 {
        bytes[i] = ((block * 37 + i as u32 * 5 + 11) % 256) as u8;
    }
    bytes
}

/// A block's contents after a write.
fn after_write(rt: &impl Abort, block: u32, written: Written) -> [u8; 16] {
    let like = if block == written.block {
        written.like
    } else {
        block
    };
    assert!(rt; like < 256);
    contents(like)
}

/// The exclusive-or of a row's blocks after a write.
fn parity_after_write(rt: &impl Abort, row: &[u32], written: Written) -> [u8; 16] {
    let mut bytes = [0; 16];
    for block in row {
        if *block != P {
            let more = after_write(rt, *block, written);
            for i in 0..16 {
                bytes[i] ^= more[i];
            }
        }
    }
    bytes
}

/// The row of a table, for so many members.
fn row_of<'a>(rt: &impl Abort, table: &'a [u32], members: u8, row: u32) -> &'a [u32]
    ensures { length result.now ≡ members }
{
    let members = usize::from(members);
    assert!(rt; row < 100);
    let from = row as usize * members;
    assert!(rt; from + members <= table.len());
    &table[from..from + members]
}

/// What a place holds after a write.
pub(crate) fn place_bytes(
    rt: &impl Abort,
    g: &Geometry,
    table: &[u32],
    row: u32,
    member: u8,
    written: Written,
) -> [u8; 16]
    requires { member < g.now.members }
{
    let blocks = row_of(rt, table, g.members, row);
    let block = blocks[usize::from(member)];
    if block == P {
        parity_after_write(rt, blocks, written)
    } else {
        after_write(rt, block, written)
    }
}

/// Whether the disk is there and has that many bytes.
pub(crate) fn is_long<B: Bank>(bank: &B, d: u8, end: u64) -> bool
    requires { d ≤ 20 }
    ensures { IsTrue result → Fits (B.view bank.now) d end }
{
    match bank.size(d) {
        Some(len) => end <= len,
        None => false,
    }
}

/// Whether the disk of each member has all rows.
pub(crate) fn all_fit<B: Bank>(g: &Geometry, bank: &B) -> bool
    ensures { IsTrue result → AllFit g.now (B.view bank.now) }
{
    let end = member_len(g);
    for member in 0..g.members {
        if !is_long(bank, member + 1, end) {
            return false;
        }
    }
    true
}

/// Makes a member's disk with the table's places.
pub(crate) fn make_full<B: Bank>(
    rt: &impl Abort,
    bank: &mut B,
    g: &Geometry,
    table: &[u32],
    member: u8,
) -> Result<(), Fail>
    requires { member < g.now.members }
{
    let mut header = [0; 16];
    spell_member(g.id, member, &mut header);
    bank.make(member + 1, member_len(g))?;
    assert!(rt; is_long(bank, member + 1, 16));
    bank.write(member + 1, 0, &header)?;
    for row in 0..g.rows {
        let at = 16 + u64::from(row) * 16;
        let bytes = place_bytes(rt, g, table, row, member, NOTHING);
        assert!(rt; is_long(bank, member + 1, at + 16));
        bank.write(member + 1, at, &bytes)?;
    }
    assert!(rt; is_long(bank, member + 1, 0));
    bank.sync(member + 1)?;
    Ok(())
}

/// Makes a log's disk with empty slots, and the disks of all members but one.
pub(crate) fn make_disks<B: Bank>(
    rt: &impl Abort,
    bank: &mut B,
    g: &Geometry,
    table: &[u32],
    but: u8,
) -> Result<(), Fail> {
    bank.make(0, ring_start(g))?;
    for member in 0..g.members {
        if member != but {
            make_full(rt, bank, g, table, member)?;
        }
    }
    Ok(())
}

/// Whether there is such a block.
fn is_block(g: &Geometry, block: u32) -> bool
    ensures { IsTrue result → block < volume g.now }
{
    block < g.rows * (u32::from(g.members) - 1)
}

/// Mounts the slots, and fills one where something is written. It stays pending.
pub(crate) fn mount_pending<B: Bank>(
    rt: &impl Abort,
    alloc: Global,
    bank: &mut B,
    g: &Geometry,
    table: &[u32],
    written: Written,
) -> Result<Stage, Fail>
    requires slots { g.now.slots ≡ 1 }
    requires block { g.now.block ≡ 16 }
    ensures { IfOk result (λ stage. stage.g ≡ g.now) }
{
    assert!(rt; is_long(bank, 0, ring_start(g)));
    let mut stage = Stage::mount(alloc, bank, g, 0, 0)?;
    if written.block != P {
        let bytes = after_write(rt, written.block, written);
        let row = row_of(rt, table, g.members, written.row);
        let parity = parity_after_write(rt, row, written);
        assert!(rt; is_block(g, written.block));
        assert!(rt; is_long(bank, 0, ring_start(g)));
        stage.fill(bank, 1, written.block, &bytes, &parity)?;
    }
    Ok(stage)
}

/// Checks that a member's disk holds what it is to hold after a write.
pub(crate) fn check_member(
    rt: &impl Abort,
    bank: &MemoryBank,
    g: &Geometry,
    table: &[u32],
    member: u8,
    written: Written,
)
    requires { member < g.now.members }
{
    let bytes = bank.disk(member + 1).unwrap_or(&[]);
    let mut header = [0; 16];
    spell_member(g.id, member, &mut header);
    assert!(rt; bytes.starts_with(&header), "member {member}");
    assert_eq!(rt; bytes.len() as u64, member_len(g), "member {member}");
    for row in 0..g.rows {
        let at = 16 + row as usize * 16;
        assert!(rt; at + 16 <= bytes.len());
        let wanted = place_bytes(rt, g, table, row, member, written);
        assert_eq!(rt;
            &bytes[at..at + 16],
            wanted.as_slice(),
            "member {member}, row {row}"
        );
    }
}
