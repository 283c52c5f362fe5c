//! Laws of the array. Each is a function with no body, and its contract is the law.

ghost use Rattle.std.specs.Prelude.{ℕ};
ghost use Rattle.trap_bank.specs.Disks.{Disks};
ghost use Rattle.trap_model.specs.declared.history.State.{State};
ghost use Rattle.trap_model.specs.declared.numbers.Geometry.{Geometry};
ghost use Rattle.trap_array.specs.Gone.{HoldsBut, IsRemoved};
ghost use Rattle.trap_array.specs.Holding.{Holds};

/// Where no other member is out, the disk of any one may be removed: the disks hold the same state,
/// and still no other is out.
pub fn one_gone()
    ensures holds { (g : Geometry) (s : State) (m : ℕ) (x y : Disks) → HoldsBut g s m x
        → IsRemoved m x y → Holds g s y }
    ensures others { (g : Geometry) (s : State) (m : ℕ) (x y : Disks) → HoldsBut g s m x
        → IsRemoved m x y
        → HoldsBut g s m y }
{}
