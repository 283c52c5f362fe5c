ghost use Rattle.std.specs.Prelude.{◌≡◌};

use crate::Drill;
use std::test::Fail;
use trap_model::Geometry;

// Eight blocks of 16 bytes over three members.
fn eight_blocks() -> Geometry
    ensures { result.block ≡ 16 }
{
    Geometry {
        id: 7,
        members: 3,
        chunk: 1,
        block: 16,
        rows: 4,
        slots: 1,
        gap: 2,
        entries: 8,
        ring: 2048,
    }
}

#[test]
fn the_first_three_requests_of_seed_1(rt: HostRuntime) -> Result<(), Fail> {
    let g = eight_blocks();
    let mut drill = Drill::new(rt.alloc(), &g, 1, 3)?;
    assert_eq!(rt; drill.blocks(), 2);
    assert_eq!(rt; drill.block(0), Some(6));
    assert_eq!(rt; drill.block(1), Some(1));
    assert_eq!(rt; drill.block(2), None);
    let mut fresh = [0xff; 16];
    assert_eq!(rt; drill.next(&mut fresh), Some((6, 1)));
    assert_eq!(rt;
        fresh.as_slice(),
        [0, 0, 0, 0, 0, 0, 0, 0, 0, 0, 0, 0, 0, 0, 2, 0].as_slice()
    );
    assert_eq!(rt; drill.next(&mut fresh), Some((6, 2)));
    assert_eq!(rt;
        fresh.as_slice(),
        [3, 0, 0, 0, 0, 0, 0, 0, 0, 0, 0, 0, 0, 0, 0, 0].as_slice()
    );
    assert_eq!(rt; drill.next(&mut fresh), Some((1, 3)));
    assert_eq!(rt;
        fresh.as_slice(),
        [0, 0, 0, 0, 4, 0, 0, 0, 0, 0, 0, 0, 0, 0, 0, 0].as_slice()
    );
    assert_eq!(rt; drill.next(&mut fresh), None);
    assert_eq!(rt;
        fresh.as_slice(),
        [0, 0, 0, 0, 4, 0, 0, 0, 0, 0, 0, 0, 0, 0, 0, 0].as_slice()
    );
    Ok(())
}

#[test]
fn a_drill_of_no_requests_names_no_block(rt: HostRuntime) -> Result<(), Fail> {
    let mut drill = Drill::new(rt.alloc(), &eight_blocks(), 1, 0)?;
    assert_eq!(rt; drill.blocks(), 0);
    assert_eq!(rt; drill.block(0), None);
    assert_eq!(rt; drill.next(&mut [0; 16]), None);
    Ok(())
}

// The large drill: 5000 requests over 4096 blocks. Its number of blocks was computed apart.
#[test]
fn five_thousand_requests_name_2880_of_4096_blocks(rt: HostRuntime) -> Result<(), Fail> {
    let g = Geometry {
        id: 42,
        members: 5,
        chunk: 16,
        block: 4096,
        rows: 1024,
        slots: 8,
        gap: 16,
        entries: 10_000,
        ring: 33_554_432,
    };
    assert_eq!(rt; Drill::new(rt.alloc(), &g, 1, 5000)?.blocks(), 2880);
    Ok(())
}
