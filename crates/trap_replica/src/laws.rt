//! Laws of a replica. Each is a function with no body, and its contract is the law.

ghost use Rattle.std.specs.Prelude.{◌≡◌, ◌⊎◌, ℕ, ◌≤◌, List};
ghost use Rattle.trap_bank.specs.Disks.{Disks};
ghost use Rattle.trap_format.specs.declared.shape.Shape.{Shape};
ghost use Rattle.trap_replica.specs.Creating.{IsReplicaGateOff};
ghost use Rattle.trap_replica.specs.Mounting.{IsRefusedAs};
ghost use Rattle.trap_replica.specs.OnDisk.{ReplicaHolds};
ghost use Rattle.trap_replica.specs.declared.fault.ReplicaFault.{ReplicaFault};
ghost use Rattle.trap_replica.specs.declared.fault.ReplicaFault.TheVariants as fault;
ghost use Rattle.trap_replica.specs.World.{World, Event, FollowsPrimary, HappenAll};

/// After every list of commits, deliveries and stops the receiver's image is the primary's after as
/// many entries as the receiver's number says, which is at most the number of entries and never
/// falls.
pub fn world()
    ensures { (volume size : ℕ) (w v : World) (events : List Event) → FollowsPrimary volume size w
        → HappenAll volume size events w v → FollowsPrimary volume size v × (w.number ≤ v.number) }
{}

/// A disk that holds a replica is never refused for what it holds: no mount fails over it but by
/// the disk, or for want of memory.
pub fn unrefused()
    ensures { (s : Shape) (number time : ℕ) (image : List (List ℕ)) (disks : Disks)
        (why : ReplicaFault) → ReplicaHolds s number time image disks → IsRefusedAs disks why
        → (why ≡ fault.DiskFault) ⊎ (why ≡ fault.OutOfMemory) }
{}

/// A disk 17 whose gate is off, or that is absent, is refused as no replica.
pub fn shut()
    ensures { (disks : Disks) → IsReplicaGateOff disks → IsRefusedAs disks fault.NotAReplica }
{}
