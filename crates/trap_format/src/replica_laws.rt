//! Laws of the replica's header. Each is a function with no body, and its contract is the law.

ghost use Rattle.std.specs.Prelude.{◌≡◌, ◌^◌, ◌<◌};
ghost use Rattle.trap_format.specs.ReplicaDisk.{replica_header};

use crate::Shape;

/// No bytes are the header of two replicas. So what was written is what is read again.
pub fn one_shape()
    ensures { (s t : Shape) → s.id < 2 ^ 64 → t.id < 2 ^ 64 → replica_header s ≡ replica_header t
        → s ≡ t }
{}
