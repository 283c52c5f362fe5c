//! What an array tells of its retained entries, before and after it is mounted again.

ghost use Rattle.std.specs.Prelude.{◌≡◌};

use crate::small::eight_blocks;
use crate::{Array, Span, create};
use std::test::Fail;
use trap_bank::MemoryBank;
use trap_index::Item;

fn item(time: u64, off: u64, prev: u64) -> Item {
    Item {
        time,
        block: 3,
        off,
        plen: 20,
        slen: 0,
        snap: false,
        prev,
    }
}

/// Whether the array tells of these two entries and no others.
fn has_two(array: &Array) -> bool {
    let span = Span {
        first: 0,
        last: 2,
        base_time: 0,
        last_time: 105,
    };
    array.span() == span
        && array.entry(0).is_none()
        && array.entry(1) == Some(item(100, 0, 0))
        && array.entry(2) == Some(item(105, 46, 1))
        && array.entry(3).is_none()
}

#[test]
fn an_array_tells_what_it_retains(rt: HostRuntime) -> Result<(), Fail> {
    let mut bank = MemoryBank::new(rt.alloc())?;
    assert_eq!(rt; create(&mut bank, &eight_blocks()), Ok(()));
    let mut array = Array::mount(rt.alloc(), &mut bank)?;
    assert!(rt; array.geometry().block == 16);
    assert_eq!(rt; array.write(&mut bank, 100, 3, &[7; 16]), Ok(1));
    assert!(rt; array.geometry().block == 16);
    assert_eq!(rt; array.write(&mut bank, 105, 3, &[8; 16]), Ok(2));
    assert!(rt; has_two(&array));
    let again = Array::mount(rt.alloc(), &mut bank)?;
    assert!(rt; has_two(&again));
    Ok(())
}
