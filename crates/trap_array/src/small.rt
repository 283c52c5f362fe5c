//! The small array of the tests.

ghost use Rattle.std.specs.Prelude.{◌≡◌};

use trap_model::Geometry;

/// Three members of four rows.
pub(crate) fn eight_blocks() -> Geometry
    ensures slots { result.slots ≡ 1 }
    ensures block { result.block ≡ 16 }
{
    Geometry {
        id: 7,
        members: 3,
        chunk: 1,
        block: 16,
        rows: 4,
        slots: 1,
        gap: 2,
        entries: 8,
        ring: 2048,
    }
}
