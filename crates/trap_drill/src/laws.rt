//! Laws of the requests and of the blocks that they name.

ghost use Rattle.std.specs.Prelude.{◌≡◌, ℕ, ◌≤◌, ◌<◌, Contains, Some, length, nat_eq, slice_get};
ghost use Rattle.std.specs.List.{IsDistinct};
ghost use Rattle.trap_model.specs.Image.{volume};
ghost use Rattle.trap_model.specs.declared.numbers.Geometry.{Geometry};
ghost use Rattle.trap_drill.specs.Drilled.{drilled_block, drilled_contents, blocks_of};

/// Each block that a request names is among them, each of them is named by a request, none is there
/// twice, and they stand in the order in which they are first named: before a request that names
/// one, each block in front of it was named.
pub fn blocks()
    ensures named { (g : Geometry) (seed n k : ℕ) → 1 ≤ k → k ≤ n →
        Contains (blocks_of g seed n) (drilled_block g seed k) }
    ensures only { (g : Geometry) (seed n block : ℕ) → Contains (blocks_of g seed n) block →
        (k : ℕ) × (1 ≤ k) × (k ≤ n) × (drilled_block g seed k ≡ block) }
    ensures once { (g : Geometry) (seed n : ℕ) → IsDistinct nat_eq (blocks_of g seed n) }
    ensures order { (g : Geometry) (seed n i j a b k : ℕ) → i < j →
        slice_get (blocks_of g seed n) i ≡ Some a → slice_get (blocks_of g seed n) j ≡ Some b →
        1 ≤ k → k ≤ n → drilled_block g seed k ≡ b →
        (l : ℕ) × (1 ≤ l) × (l < k) × (drilled_block g seed l ≡ a) }
{}

/// Each request writes a block of the array, with contents of a block's size.
pub fn requests()
    ensures block { (g : Geometry) (seed k : ℕ) → drilled_block g seed k < volume g }
    ensures size { (g : Geometry) (seed k : ℕ) → length (drilled_contents g seed k) ≡ g.block }
{}
