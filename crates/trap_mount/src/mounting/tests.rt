//! Mounting over a bank in memory, of an empty array with three members whose disks are written by
//! hand.

ghost use Rattle.std.specs.Prelude.{◌≡◌, ◌≤◌, ◌+◌, IsTrue};
ghost use Rattle.std.specs.Option.{ForSome};
ghost use Rattle.trap_bank.specs.Calls.{Fits};

use crate::{MountFault, mount};
use std::alloc::Global;
use std::process::Abort;
use std::test::Fail;
use trap_bank::{Bank, MemoryBank};
use trap_cell::Cell;
use trap_format::layout::{CELL_AT, HEAD_VALUE_BYTES, SLOTS_AT};
use trap_format::{Head, log_len, member_len, spell_head, spell_log, spell_member};
use trap_model::Geometry;

/// Three members of four rows, and a ring of two of the longest records.
fn three() -> Geometry
    ensures { result.members ≡ 3 }
{
    Geometry {
        id: 7,
        members: 3,
        chunk: 1,
        block: 16,
        rows: 4,
        slots: 1,
        gap: 4,
        entries: 8,
        ring: 144,
    }
}

/// The head of an array in which nothing was written.
fn empty_head(lost: Option<u8>, rebuilt: u32) -> Head
    ensures { result.lost ≡ lost }
{
    Head {
        version: 1,
        lost,
        rebuilt,
        first: 0,
        base_time: 0,
        first_off: 0,
        last: 0,
        end_off: 0,
        drained: 0,
        last_time: 0,
    }
}

fn is_long<B: Bank>(bank: &B, d: u8, bytes: u64) -> bool
    requires { d ≤ 20 }
    ensures { IsTrue result → Fits (B.view bank.now) d bytes }
{
    match bank.size(d) {
        Some(len) => bytes <= len,
        None => false,
    }
}

/// Makes disk 0 with the array's header, and the head in its cell.
fn make_log<B: Bank>(rt: &impl Abort, bank: &mut B, head: &Head) -> Result<(), Fail>
    requires { ForSome head.now.lost (λ member. member ≤ 2) }
{
    let g = three();
    let mut header = [0; 64];
    let mut value = [0; HEAD_VALUE_BYTES];
    spell_log(&g, &mut header);
    spell_head(head, &mut value);
    bank.make(0, log_len(&g))?;
    assert!(rt; is_long(bank, 0, SLOTS_AT));
    bank.write(0, 0, &header)?;
    assert!(rt; is_long(bank, 0, SLOTS_AT));
    Cell::first(bank, 0, CELL_AT, &value)?;
    Ok(())
}

/// Makes the disk of a member, with the header of this one.
fn make_member<B: Bank>(rt: &impl Abort, bank: &mut B, member: u8, named: u8) -> Result<(), Fail>
    requires { member ≤ 2 }
{
    let g = three();
    let mut header = [0; 16];
    spell_member(g.id, named, &mut header);
    bank.make(member + 1, member_len(&g))?;
    assert!(rt; is_long(bank, member + 1, 16));
    bank.write(member + 1, 0, &header)?;
    Ok(())
}

/// The lost member after a mount, and how many of its rows are rebuilt.
fn lost_after<B: Bank>(alloc: Global, bank: &mut B) -> Result<(Option<u8>, u32), MountFault> {
    let found = mount(alloc, bank)?;
    Ok((found.head.lost, found.head.rebuilt))
}

#[test]
fn an_absent_member_is_recorded_lost(rt: HostRuntime) -> Result<(), Fail> {
    let mut bank = MemoryBank::new(rt.alloc())?;
    make_log(&rt, &mut bank, &empty_head(None, 0))?;
    make_member(&rt, &mut bank, 0, 0)?;
    make_member(&rt, &mut bank, 2, 2)?;
    assert_eq!(rt; lost_after(rt.alloc(), &mut bank), Ok((Some(1), 0)));
    // It is lost from then on, though its disk is there again.
    make_member(&rt, &mut bank, 1, 1)?;
    assert_eq!(rt; lost_after(rt.alloc(), &mut bank), Ok((Some(1), 0)));
    Ok(())
}

#[test]
fn rebuilt_rows_count_on_the_members_own_disk_alone(rt: HostRuntime) -> Result<(), Fail> {
    let mut bank = MemoryBank::new(rt.alloc())?;
    make_log(&rt, &mut bank, &empty_head(Some(1), 3))?;
    make_member(&rt, &mut bank, 0, 0)?;
    make_member(&rt, &mut bank, 1, 1)?;
    make_member(&rt, &mut bank, 2, 2)?;
    assert_eq!(rt; lost_after(rt.alloc(), &mut bank), Ok((Some(1), 3)));
    make_member(&rt, &mut bank, 1, 0)?;
    assert_eq!(rt; lost_after(rt.alloc(), &mut bank), Ok((Some(1), 0)));
    // The head says so now.
    make_member(&rt, &mut bank, 1, 1)?;
    assert_eq!(rt; lost_after(rt.alloc(), &mut bank), Ok((Some(1), 0)));
    Ok(())
}

#[test]
fn rebuilt_rows_do_not_count_where_the_header_cannot_be_read(rt: HostRuntime) -> Result<(), Fail> {
    let mut bank = MemoryBank::new(rt.alloc())?;
    make_log(&rt, &mut bank, &empty_head(Some(1), 3))?;
    make_member(&rt, &mut bank, 0, 0)?;
    make_member(&rt, &mut bank, 1, 1)?;
    make_member(&rt, &mut bank, 2, 2)?;
    // The lost member's disk can be synced, and its header can't be read.
    bank.fail_on(2, 1);
    assert_eq!(rt; lost_after(rt.alloc(), &mut bank), Ok((Some(1), 0)));
    // The head says so, though the header can be read again.
    bank.crash(0);
    assert_eq!(rt; lost_after(rt.alloc(), &mut bank), Ok((Some(1), 0)));
    Ok(())
}

#[test]
fn the_first_refusal_is_the_answer(rt: HostRuntime) -> Result<(), Fail> {
    let mut bank = MemoryBank::new(rt.alloc())?;
    assert_eq!(rt;
        lost_after(rt.alloc(), &mut bank),
        Err(MountFault::NotAnArray)
    );
    make_log(
        &rt,
        &mut bank,
        &Head {
            version: 2,
            ..empty_head(None, 0)
        },
    )?;
    assert_eq!(rt;
        lost_after(rt.alloc(), &mut bank),
        Err(MountFault::BadVersion { version: 2 })
    );
    make_log(&rt, &mut bank, &empty_head(None, 1))?;
    assert_eq!(rt;
        lost_after(rt.alloc(), &mut bank),
        Err(MountFault::Damaged { offset: 64 })
    );
    make_log(&rt, &mut bank, &empty_head(None, 0))?;
    make_member(&rt, &mut bank, 1, 1)?;
    assert_eq!(rt;
        lost_after(rt.alloc(), &mut bank),
        Err(MountFault::TooManyLost {
            first: 0,
            second: 2
        })
    );
    make_member(&rt, &mut bank, 2, 1)?;
    assert_eq!(rt;
        lost_after(rt.alloc(), &mut bank),
        Err(MountFault::WrongMember { member: 2 })
    );
    Ok(())
}
