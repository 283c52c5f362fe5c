//! Laws of reading records in order. Each is a function with no body, and its contract is the law.

ghost use Rattle.std.specs.Prelude.{◌≡◌, ℕ, ◌+◌, ◌^◌, ◌<◌, List, length};
ghost use Rattle.trap_bank.specs.Disks.{Disks};
ghost use Rattle.trap_ring.specs.Ring.{RingPlace};
ghost use Rattle.trap_model.specs.State.{last_time, IsValid};
ghost use Rattle.trap_model.specs.Image.{volume};
ghost use Rattle.trap_model.specs.Records.{records};
ghost use Rattle.trap_scan.specs.Chain.{History, AreRecords, IsBroken};
ghost use Rattle.trap_scan.specs.Window.{IsWindow};

use trap_model::{Geometry, State};

/// The first record that isn't right stands in one place, and there is none where all are right.
pub fn one_broken()
    ensures one { (h : History) (seq time count : ℕ) (bytes : List ℕ) (a b : ℕ) → h.size < 2 ^ 15
        → IsBroken h seq time count bytes a → IsBroken h seq time count bytes b → a ≡ b }
    ensures none { (h : History) (seq time count : ℕ) (bytes : List ℕ) (at : ℕ) → h.size < 2 ^ 15
        → AreRecords h seq time count bytes → IsBroken h seq time count bytes at → ⊥ }
{}

/// A ring has exactly one list of bytes from one offset up to another.
pub fn one_window()
    ensures some { (r : RingPlace) (from n : ℕ) (disks : Disks)
        → (bytes : List ℕ) × IsWindow r from (from + n) bytes disks }
    ensures one { (r : RingPlace) (from to : ℕ) (a b : List ℕ) (disks : Disks)
        → IsWindow r from to a disks → IsWindow r from to b disks → a ≡ b }
{}

/// The records of a valid state are right.
pub fn records_stand()
    ensures { (g : Geometry) (s : State) → IsValid g s → last_time s < 2 ^ 64
        → AreRecords (record { size = g.block; volume = volume g; last_time = last_time s })
        s.first s.base_time (length s.entries) (records s) }
{}
