//! The ring of records on the log's disk.

ghost use Rattle.std.specs.Prelude.{◌≡◌};
ghost use Rattle.trap_mount.specs.Holding.{log_ring};

use trap_format::{ring_len, ring_start};
use trap_model::Geometry;
use trap_ring::Ring;

/// The ring of records, after the staging slots.
pub fn ring_of(g: &Geometry) -> Ring
    ensures { result ≡ log_ring g.now }
{
    Ring::new(0, ring_start(g), ring_len(g))
}
