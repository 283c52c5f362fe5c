ghost use Rattle.std.specs.Prelude.{◌≡◌, ◌+◌, ◌≤◌, IsTrue, IfOk};
ghost use Rattle.trap_bank.specs.Calls.{Fits};
ghost use Rattle.trap_model.specs.Image.{volume};
ghost use Rattle.trap_stage.specs.Slots.{last_of};

use crate::{Stage, StageFault};
use std::alloc::Global;
use std::process::Abort;
use std::test::Fail;
use trap_bank::{Bank, MemoryBank};
use trap_map::Place;
use trap_model::Geometry;

// Three members of four rows, and two staging slots.
fn two_slots() -> Geometry
    ensures slots { result.slots ≡ 2 }
    ensures block { result.block ≡ 16 }
    ensures volume { volume result ≡ 8 }
{
    Geometry {
        id: 7,
        members: 3,
        chunk: 1,
        block: 16,
        rows: 4,
        slots: 2,
        gap: 4,
        entries: 8,
        ring: 2048,
    }
}

// The bytes of disk 0 up to the ring: 192, and two slots of 44.
const LOG_BYTES: u64 = 280;

// Whether disk 0 reaches to the ring.
fn is_long<B: Bank>(bank: &B) -> bool
    ensures { IsTrue result → Fits (B.view bank.now) 0 280 }
{
    match bank.size(0) {
        Some(len) => LOG_BYTES <= len,
        None => false,
    }
}

// Mounts the writes above a number, and up to one at most two above it.
fn mount<B: Bank>(
    rt: &impl Abort,
    alloc: Global,
    bank: &mut B,
    drained: u64,
    last: u64,
) -> Result<Stage, StageFault>
    requires order { drained ≤ last }
    requires few { last ≤ drained + 2 }
    ensures slots { IfOk result (λ stage. stage.g.slots ≡ 2) }
    ensures block { IfOk result (λ stage. stage.g.block ≡ 16) }
    ensures volume { IfOk result (λ stage. volume stage.g ≡ 8) }
    ensures drained { IfOk result (λ stage. stage.drained ≡ drained) }
    ensures last { IfOk result (λ stage. last_of stage ≡ last) }
{
    let g = two_slots();
    assert!(rt; is_long(bank));
    Stage::mount(alloc, bank, &g, drained, last)
}

// Fills the slots of two writes of block 3, numbers 1 and 2.
fn fill_two<B: Bank>(rt: &impl Abort, bank: &mut B, stage: &mut Stage) -> Result<(), Fail>
    requires slots { stage.old.g.slots ≡ 2 }
    requires block { stage.old.g.block ≡ 16 }
    requires volume { volume stage.old.g ≡ 8 }
    requires drained { stage.old.drained ≡ 0 }
    requires last { last_of stage.old ≡ 0 }
{
    assert!(rt; is_long(bank));
    stage.fill(bank, 1, 3, &[0xa1; 16], &[0xb1; 16])?;
    assert!(rt; is_long(bank));
    stage.fill(bank, 2, 3, &[0xa2; 16], &[0xb2; 16])?;
    Ok(())
}

// The first byte that is pending for a place of row 1, or 0.
fn pending(stage: &Stage, member: u8) -> u8 {
    match stage.pending_at(Place { member, row: 1 }) {
        Some(bytes) => if bytes.is_empty() { 0 } else { bytes[0] },
        None => 0,
    }
}

#[test]
fn the_newest_write_is_pending_for_its_two_places(rt: HostRuntime) -> Result<(), Fail> {
    let mut bank = MemoryBank::new(rt.alloc())?;
    bank.make(0, LOG_BYTES)?;
    let mut stage = mount(&rt, rt.alloc(), &mut bank, 0, 0)?;
    fill_two(&rt, &mut bank, &mut stage)?;
    // Block 3 is on member 0, and the parity of row 1 on member 1.
    assert_eq!(rt; pending(&stage, 0), 0xa2);
    assert_eq!(rt; pending(&stage, 1), 0xb2);
    assert_eq!(rt; pending(&stage, 2), 0);
    assert_eq!(rt; stage.pending_at(Place { member: 0, row: 2 }), None);
    Ok(())
}

#[test]
fn a_slot_is_its_number_its_block_and_their_bytes(rt: HostRuntime) -> Result<(), Fail> {
    let mut bank = MemoryBank::new(rt.alloc())?;
    bank.make(0, LOG_BYTES)?;
    let mut stage = mount(&rt, rt.alloc(), &mut bank, 0, 0)?;
    fill_two(&rt, &mut bank, &mut stage)?;
    let mut bytes = [0; 280];
    assert!(rt; is_long(&bank));
    bank.read(0, 0, &mut bytes)?;
    // Number 2 has the first slot, and number 1 the second.
    assert_eq!(rt;
        &bytes[192..204],
        [0, 0, 0, 0, 0, 0, 0, 2, 0, 0, 0, 3].as_slice()
    );
    assert_eq!(rt; &bytes[204..220], [0xa2; 16].as_slice());
    assert_eq!(rt; &bytes[220..236], [0xb2; 16].as_slice());
    assert_eq!(rt;
        &bytes[236..248],
        [0, 0, 0, 0, 0, 0, 0, 1, 0, 0, 0, 3].as_slice()
    );
    assert_eq!(rt; &bytes[248..264], [0xa1; 16].as_slice());
    assert_eq!(rt; &bytes[264..280], [0xb1; 16].as_slice());
    Ok(())
}

#[test]
fn pending_writes_are_found_again_and_forgotten(rt: HostRuntime) -> Result<(), Fail> {
    let mut bank = MemoryBank::new(rt.alloc())?;
    bank.make(0, LOG_BYTES)?;
    let mut first = mount(&rt, rt.alloc(), &mut bank, 0, 0)?;
    fill_two(&rt, &mut bank, &mut first)?;
    let mut stage = mount(&rt, rt.alloc(), &mut bank, 0, 2)?;
    let (block, fresh, parity) = stage.slot(1);
    assert_eq!(rt; block, 3);
    assert_eq!(rt; fresh, [0xa1; 16].as_slice());
    assert_eq!(rt; parity, [0xb1; 16].as_slice());
    assert_eq!(rt; pending(&stage, 0), 0xa2);
    stage.forget_to(1);
    assert_eq!(rt; stage.drained(), 1);
    assert_eq!(rt; stage.last(), 2);
    assert_eq!(rt; pending(&stage, 1), 0xb2);
    stage.forget_to(2);
    assert_eq!(rt; pending(&stage, 0), 0);
    Ok(())
}

// The offset at which a mount found a damaged slot, or 0.
fn damaged_at(answer: Result<Stage, StageFault>) -> u64 {
    match answer {
        Err(StageFault::Damaged { offset }) => offset,
        _ => 0,
    }
}

#[test]
fn the_first_damaged_slot_is_named(rt: HostRuntime) -> Result<(), Fail> {
    let mut bank = MemoryBank::new(rt.alloc())?;
    bank.make(0, LOG_BYTES)?;
    let mut stage = mount(&rt, rt.alloc(), &mut bank, 0, 0)?;
    fill_two(&rt, &mut bank, &mut stage)?;
    // Block 8 isn't one of the array's.
    assert!(rt; is_long(&bank));
    bank.write(0, 203, &[8])?;
    let answer = mount(&rt, rt.alloc(), &mut bank, 0, 2);
    assert_eq!(rt; damaged_at(answer), 192);
    // Nor is this the number of its slot, and it is the older one.
    assert!(rt; is_long(&bank));
    bank.write(0, 243, &[3])?;
    let answer = mount(&rt, rt.alloc(), &mut bank, 0, 2);
    assert_eq!(rt; damaged_at(answer), 236);
    Ok(())
}

#[test]
fn a_disk_that_fails_is_told(rt: HostRuntime) -> Result<(), Fail> {
    let mut bank = MemoryBank::new(rt.alloc())?;
    bank.make(0, LOG_BYTES)?;
    let mut stage = mount(&rt, rt.alloc(), &mut bank, 0, 0)?;
    fill_two(&rt, &mut bank, &mut stage)?;
    // The disk was made, two slots were written, and the first of two reads fails.
    bank.fail_at(4);
    match mount(&rt, rt.alloc(), &mut bank, 0, 2) {
        Err(StageFault::DiskFault) => {}
        _ => {
            assert!(rt; false, "no fault");
        }
    }
    Ok(())
}
