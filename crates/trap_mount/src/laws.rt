//! Laws of mounting. Each is a function with no body, and its contract is the law.

ghost use Rattle.std.specs.Prelude.{◌≡◌, ℕ, ◌<◌, true, false};
ghost use Rattle.trap_bank.specs.Disks.{Disks};
ghost use Rattle.trap_format.specs.declared.head.Head.{Head};
ghost use Rattle.trap_model.specs.declared.numbers.Geometry.{Geometry};
ghost use Rattle.trap_raid.specs.Members.{IsMember, IsOut};
ghost use Rattle.trap_mount.specs.Creating.{IsLogGateOff};
ghost use Rattle.trap_mount.specs.Mounting.{HasMembers, RefusesAs, is_refusal};
ghost use Rattle.trap_mount.specs.declared.fault.MountFault.{MountFault};

/// Disks are refused for one thing at most, and for nothing where each step of mounting finds what
/// it is to find. So a mount that answers a refusal does so exactly where the disks are as that
/// refusal says.
pub fn one_refusal()
    ensures one { (disks : Disks) (a b : MountFault) → RefusesAs disks a → RefusesAs disks b
        → is_refusal a ≡ true → is_refusal b ≡ true → a ≡ b }
    ensures none { (disks : Disks) (g : Geometry) (h : Head) → HasMembers g h disks
        → ((m : ℕ) → m < g.members → (IsOut h.lost disks m → ⊥) → IsMember g disks m)
        → (why : MountFault) → RefusesAs disks why → is_refusal why ≡ false }
{}

/// Disks on which the log's gate is off are refused as no array.
pub fn gate_off()
    ensures { (disks : Disks) → IsLogGateOff disks → RefusesAs disks MountFault.NotAnArray }
{}
