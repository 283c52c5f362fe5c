ghost use Rattle.std.specs.Prelude.{◌≡◌};
ghost use Rattle.trap_model.specs.Image.{volume};

use crate::{Owner, Place, parity_of, place_of, whose};
use trap_model::Geometry;

/// Three members, chunk 1, four rows.
fn three_members() -> Geometry
    ensures volume { volume result ≡ 8 }
    ensures rows { result.rows ≡ 4 }
{
    Geometry {
        id: 7,
        members: 3,
        chunk: 1,
        block: 16,
        rows: 4,
        slots: 1,
        gap: 2,
        entries: 8,
        ring: 2048,
    }
}

/// Five members, and as many rows in a chunk as are asked, twelve in all.
fn five_members(long_chunks: bool) -> Geometry
    ensures members { result.members ≡ 5 }
    ensures volume { volume result ≡ 48 }
    ensures rows { result.rows ≡ 12 }
{
    Geometry {
        id: 7,
        members: 5,
        chunk: if long_chunks { 3 } else { 1 },
        block: 16,
        rows: 12,
        slots: 1,
        gap: 2,
        entries: 8,
        ring: 2048,
    }
}

/// Stands for parity in the tables below.
const P: u32 = u32::MAX;

#[test]
fn the_map_of_three_members(rt: HostRuntime) {
    let g = three_members();
    let places = [
        (0, 0, 0, 2),
        (1, 1, 0, 2),
        (2, 2, 1, 1),
        (3, 0, 1, 1),
        (4, 1, 2, 0),
        (5, 2, 2, 0),
        (6, 0, 3, 2),
        (7, 1, 3, 2),
    ];
    for (block, member, row, parity) in places {
        assert!(rt; block < 8 && row < 4);
        assert_eq!(rt; place_of(&g, block), Place { member, row }, "block {block}");
        assert_eq!(rt; parity_of(&g, row), parity, "row {row}");
    }
}

#[test]
fn the_first_rows_of_five_members(rt: HostRuntime) {
    let g = five_members(false);
    let rows = [
        [0, 1, 2, 3, P],
        [5, 6, 7, P, 4],
        [10, 11, P, 8, 9],
        [15, P, 12, 13, 14],
        [P, 16, 17, 18, 19],
    ];
    for row in 0..5 {
        for member in 0..5 {
            let owner = whose(&g, member, row);
            let wanted = rows[row as usize][usize::from(member)];
            assert_eq!(rt;
                owner == Owner::Parity,
                wanted == P,
                "row {row}, member {member}"
            );
            assert_eq!(rt; parity_of(&g, row) == member, wanted == P, "row {row}");
            if wanted < 48 {
                assert_eq!(rt; owner, Owner::Block(wanted), "row {row}, member {member}");
                assert_eq!(rt;
                    place_of(&g, wanted),
                    Place { member, row },
                    "block {wanted}"
                );
            }
        }
    }
}

#[test]
fn chunks_of_three_blocks_go_down_their_member(rt: HostRuntime) {
    let g = five_members(true);
    let rows = [
        [0, 3, 6, 9, P],
        [1, 4, 7, 10, P],
        [2, 5, 8, 11, P],
        [15, 18, 21, P, 12],
        [16, 19, 22, P, 13],
        [17, 20, 23, P, 14],
        [30, 33, P, 24, 27],
        [31, 34, P, 25, 28],
        [32, 35, P, 26, 29],
        [45, P, 36, 39, 42],
        [46, P, 37, 40, 43],
        [47, P, 38, 41, 44],
    ];
    for row in 0..12 {
        for member in 0..5 {
            let owner = whose(&g, member, row);
            let wanted = rows[row as usize][usize::from(member)];
            assert_eq!(rt;
                owner == Owner::Parity,
                wanted == P,
                "row {row}, member {member}"
            );
            if wanted < 48 {
                assert_eq!(rt; owner, Owner::Block(wanted), "row {row}, member {member}");
                assert_eq!(rt;
                    place_of(&g, wanted),
                    Place { member, row },
                    "block {wanted}"
                );
            }
        }
    }
}
