//! Blocks as they were, over a bank in memory.

ghost use Rattle.std.specs.Prelude.{◌≡◌};
ghost use Rattle.trap_array.specs.Calls.{IsReady};

use crate::small::eight_blocks;
use crate::{Array, Denied, create};
use std::process::Abort;
use std::test::Fail;
use trap_bank::{Bank, MemoryBank};
use trap_model::Refusal;

/// Writes a block with bytes that are the same.
fn write<B: Bank>(
    rt: &impl Abort,
    array: &mut Array,
    bank: &mut B,
    time: u64,
    block: u64,
    byte: u8,
) -> Result<u64, Denied>
    requires { IsReady array.old (B.view bank.old) }
    ensures { IsReady array.new (B.view bank.new) }
{
    assert!(rt; array.geometry().block == 16);
    array.write(bank, time, block, &[byte; 16])
}

/// The first byte of a block after an entry.
fn byte_at<B: Bank>(
    rt: &impl Abort,
    array: &mut Array,
    bank: &mut B,
    block: u64,
    seq: u64,
) -> Result<u8, Denied>
    requires { IsReady array.old (B.view bank.old) }
    ensures { IsReady array.new (B.view bank.new) }
{
    let mut into = [0xee; 16];
    assert!(rt; array.geometry().block == 16);
    array.at_seq(bank, block, seq, &mut into)?;
    Ok(into[0])
}

/// The first byte of a block after the entries up to a time.
fn byte_by<B: Bank>(
    rt: &impl Abort,
    array: &mut Array,
    bank: &mut B,
    block: u64,
    time: u64,
) -> Result<u8, Denied>
    requires { IsReady array.old (B.view bank.old) }
    ensures { IsReady array.new (B.view bank.new) }
{
    let mut into = [0xee; 16];
    assert!(rt; array.geometry().block == 16);
    array.at_time(bank, block, time, &mut into)?;
    Ok(into[0])
}

/// The code of what an entry changed, over bytes that are all the same, and how long it is.
fn code_of<B: Bank>(
    rt: &impl Abort,
    array: &mut Array,
    bank: &mut B,
    seq: u64,
) -> Result<(usize, [u8; 24]), Denied>
    requires { IsReady array.old (B.view bank.old) }
    ensures { IsReady array.new (B.view bank.new) }
{
    let mut into = [0xee; 24];
    assert!(rt; array.geometry().block == 16);
    assert!(rt; array.entry(seq).is_some());
    let len = array.coded(bank, seq, &mut into)?;
    Ok((len, into))
}

#[test]
fn the_code_of_what_a_write_changed_is_read_again(rt: HostRuntime) -> Result<(), Fail> {
    let mut bank = MemoryBank::new(rt.alloc())?;
    assert_eq!(rt; create(&mut bank, &eight_blocks()), Ok(()));
    let mut array = Array::mount(rt.alloc(), &mut bank)?;
    assert_eq!(rt; write(&rt, &mut array, &mut bank, 100, 3, 7), Ok(1));
    assert_eq!(rt; write(&rt, &mut array, &mut bank, 105, 3, 5), Ok(2));
    let seven_xor_five = [
        0, 0, 0, 16, 2, 2, 2, 2, 2, 2, 2, 2, 2, 2, 2, 2, 2, 2, 2, 2, 0xee, 0xee, 0xee, 0xee,
    ];
    assert_eq!(rt;
        code_of(&rt, &mut array, &mut bank, 2),
        Ok((20, seven_xor_five))
    );
    Ok(())
}

#[test]
fn a_block_is_as_it_was(rt: HostRuntime) -> Result<(), Fail> {
    let mut bank = MemoryBank::new(rt.alloc())?;
    assert_eq!(rt; create(&mut bank, &eight_blocks()), Ok(()));
    let mut array = Array::mount(rt.alloc(), &mut bank)?;
    assert_eq!(rt; write(&rt, &mut array, &mut bank, 100, 3, 7), Ok(1));
    assert_eq!(rt; write(&rt, &mut array, &mut bank, 105, 5, 9), Ok(2));
    assert_eq!(rt; write(&rt, &mut array, &mut bank, 105, 3, 8), Ok(3));
    let ahead = Err(Denied::Refused(Refusal::Ahead { last: 3 }));
    assert_eq!(rt; byte_at(&rt, &mut array, &mut bank, 3, 0), Ok(0));
    assert_eq!(rt; byte_at(&rt, &mut array, &mut bank, 3, 2), Ok(7));
    assert_eq!(rt; byte_at(&rt, &mut array, &mut bank, 3, 3), Ok(8));
    assert_eq!(rt; byte_at(&rt, &mut array, &mut bank, 3, 4), ahead);
    assert_eq!(rt; byte_by(&rt, &mut array, &mut bank, 3, 99), Ok(0));
    assert_eq!(rt; byte_by(&rt, &mut array, &mut bank, 3, 104), Ok(7));
    assert_eq!(rt; byte_by(&rt, &mut array, &mut bank, 5, 105), Ok(9));
    Ok(())
}
