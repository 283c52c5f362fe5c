//! Laws of leases and of what a call leaves.

ghost use Rattle.std.specs.Prelude.{◌≡◌, ◌≢◌, ℕ, List, ◌∷◌, []};
ghost use Rattle.trap_pool.specs.Pooled.{Pooled, pool_block, with_pool_block, IsLive, Leased};
ghost use Rattle.trap_pool.specs.Pooled.{Gives};
ghost use Rattle.trap_pool.specs.Frames.{AreLeases, Only, KeepsLeases};

/// A change through one lease leaves all others as they were.
pub fn changes()
    ensures same { (p : Pooled) (k : ℕ) (bytes : List ℕ) → IsLive p k →
        pool_block (with_pool_block p k bytes) k ≡ bytes }
    ensures others { (p : Pooled) (k j : ℕ) (bytes : List ℕ) → j ≢ k →
        pool_block (with_pool_block p k bytes) j ≡ pool_block p j }
    ensures only { (p : Pooled) (k : ℕ) (bytes : List ℕ) →
        Only (k ∷ []) p (with_pool_block p k bytes) }
{}

/// Leases that are out name blocks that differ, and stay leases while others are taken, given and
/// changed.
pub fn leases()
    ensures take { (k : ℕ) (ks : List ℕ) (old new : Pooled) → Leased k old new →
        AreLeases old ks → AreLeases new (k ∷ ks) }
    ensures give { (k : ℕ) (ks : List ℕ) (old new : Pooled) → Gives k old new →
        AreLeases old (k ∷ ks) → AreLeases new ks }
    ensures change { (js ks : List ℕ) (old new : Pooled) → Only js old new →
        AreLeases old ks → AreLeases new ks }
{}

/// What takes a lease, changes its block and gives it back keeps each lease that was out, and so
/// does one such call after another.
pub fn keeps()
    ensures none { (p : Pooled) → KeepsLeases p p }
    ensures then { (a b c : Pooled) → KeepsLeases a b → KeepsLeases b c → KeepsLeases a c }
    ensures lent { (k : ℕ) (old taken changed new : Pooled) → Leased k old taken →
        Only (k ∷ []) taken changed → Gives k changed new → KeepsLeases old new }
    ensures leases { (ks : List ℕ) (old new : Pooled) → KeepsLeases old new →
        AreLeases old ks → AreLeases new ks }
{}
