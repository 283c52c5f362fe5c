//! What is said of a small array's entries, byte for byte, and in how many calls of a larger one's.

ghost use Rattle.std.specs.Prelude.{◌≡◌, ◌≤◌, length, false};
ghost use Rattle.trap_array.specs.Calls.{IsReady};
ghost use Rattle.trap_index.specs.Indexed.{last_seq};

use crate::{Parcel, SendFault, send};
use std::alloc::{AllocError, Global};
use std::process::Abort;
use std::test::Fail;
use trap_array::{Array, create};
use trap_bank::{Bank, MemoryBank};
use trap_model::Geometry;

/// The frames of two writes of the same bytes to block 0 of array 7, at time 100: 43 bytes and 38.
const STREAM: [u8; 81] =
    *b"TPF1\0\0\0\0\0\0\0\x07\0\0\0\0\0\0\0\x01\0\0\0\0\0\0\0\x64\0\0\0\0\0\x09\0\0\0\x01\x01\0\x0f\0\0TPF1\0\0\0\0\0\0\0\x07\0\0\0\0\0\0\0\x02\0\0\0\0\0\0\0\x64\0\0\0\0\0\x04\0\x10\0\0";

/// Three members of four rows.
fn eight_blocks() -> Geometry
    ensures { result.slots ≡ 1 }
{
    Geometry {
        id: 7,
        members: 3,
        chunk: 1,
        block: 16,
        rows: 4,
        slots: 1,
        gap: 2,
        entries: 8,
        ring: 2048,
    }
}

/// A bank with that array and two writes, of which the call with this number fails: None where it
/// failed already.
fn with_two_writes(alloc: Global, failing: u64) -> Result<Option<MemoryBank>, Fail> {
    let mut bank = MemoryBank::new(alloc)?;
    bank.fail_at(failing);
    if create(&mut bank, &eight_blocks()).is_err() {
        return Ok(None);
    }
    let Ok(mut array) = Array::mount(alloc, &mut bank) else {
        return Ok(None);
    };
    let mut block = [0; 16];
    block[0] = 1;
    if array.geometry().block != 16 || array.write(&mut bank, 100, 0, &block) != Ok(1) {
        return Ok(None);
    }
    if array.geometry().block != 16 || array.write(&mut bank, 100, 0, &block) != Ok(2) {
        return Ok(None);
    }
    Ok(Some(bank))
}

/// Sends what comes after number `from`, where that is retained.
fn sends<B: Bank>(
    rt: &impl Abort,
    alloc: Global,
    mut array: Array,
    bank: &mut B,
    from: u64,
) -> Result<Result<(), SendFault>, AllocError>
    requires running { array.is_stopped ≡ false }
    requires first { array.index.first ≡ array.head.first }
    requires last { last_seq array.index ≡ array.head.last }
    requires ready { IsReady array (B.view bank.old) }
{
    let span = array.span();
    assert!(rt; span.first <= from);
    assert!(rt; from <= span.last);
    let parcel = Parcel::new(alloc, usize::from(array.geometry().block))?;
    Ok(send(&mut array, parcel, bank, from))
}

#[test]
fn what_is_sent_is_a_stream_of_frames(rt: HostRuntime) -> Result<(), Fail> {
    for (from, len) in [(0, 81), (1, 38), (2, 0)] {
        let Some(mut bank) = with_two_writes(rt.alloc(), 0)? else {
            assert!(rt; false, "{from}");
            continue;
        };
        let array = Array::mount(rt.alloc(), &mut bank)?;
        let done = sends(&rt, rt.alloc(), array, &mut bank, from)?;
        assert_eq!(rt; done, Ok(()), "{from}");
        assert_eq!(rt; bank.said().len(), len, "{from}");
        assert!(rt; STREAM.ends_with(bank.said()), "{from}");
    }
    Ok(())
}

#[test]
fn each_call_that_fails_leaves_nothing_said(rt: HostRuntime) -> Result<(), Fail> {
    // Two reads, one for each record, and one call of the port.
    let mut failed = 0u32;
    let mut whole = 0u32;
    for failing in 1..300 {
        let Some(mut bank) = with_two_writes(rt.alloc(), failing)? else {
            continue;
        };
        let Ok(array) = Array::mount(rt.alloc(), &mut bank) else {
            continue;
        };
        match sends(&rt, rt.alloc(), array, &mut bank, 0)? {
            Ok(()) => {
                whole = whole.saturating_add(1);
                assert!(rt; bank.said() == STREAM.as_slice());
            }
            Err(_) => {
                failed = failed.saturating_add(1);
                assert!(rt; bank.said().is_empty());
            }
        }
    }
    assert_eq!(rt; failed, 3);
    assert!(rt; whole > 0);
    Ok(())
}
