//! Laws over the definitions of the stage.

ghost use Rattle.std.specs.Prelude.{◌≡◌, ℕ, All};
ghost use Rattle.trap_bank.specs.Disks.{Disks};
ghost use Rattle.trap_model.specs.declared.numbers.Geometry.{Geometry};
ghost use Rattle.trap_stage.specs.Staged.{IsStaged};
ghost use Rattle.trap_stage.specs.Slots as slots;
ghost use Rattle.trap_stage.specs.Found.{IsFound, IsDamagedSlot};

/// A mount has one answer: where a stage is found no slot is damaged and no other stage is found,
/// and at most one offset is that of the first damaged slot.
pub fn one_answer()
    ensures found { (g : Geometry) (drained last : ℕ) (disks : Disks)
        (stage : slots.Stage) (offset : ℕ)
        → All (IsStaged g) stage.pending → IsFound g drained last disks stage
        → IsDamagedSlot g drained last disks offset → ⊥ }
    ensures stage { (g : Geometry) (drained last : ℕ) (disks : Disks) (a b : slots.Stage)
        → All (IsStaged g) a.pending → All (IsStaged g) b.pending
        → IsFound g drained last disks a → IsFound g drained last disks b → a ≡ b }
    ensures first { (g : Geometry) (drained last : ℕ) (disks : Disks) (a b : ℕ)
        → IsDamagedSlot g drained last disks a → IsDamagedSlot g drained last disks b → a ≡ b }
{}
