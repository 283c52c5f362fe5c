//! Laws of the layout and of the table.

ghost use Rattle.std.specs.Prelude.{◌≡◌, ◌↔◌, ℕ, ◌<◌, List, [], slice_index_or};
ghost use Rattle.trap_model.specs.Image.{volume, IsImage};
ghost use Rattle.trap_block.specs.Xor.{zeros, xor_over, xor_but};
ghost use Rattle.trap_model.specs.declared.numbers.Geometry.{Geometry};
ghost use Rattle.trap_map.specs.declared.places.Owner.TheVariants.{Block, Parity};
ghost use Rattle.trap_map.specs.Layout.{parity_member, block_place, owner_of};
ghost use Rattle.trap_map.specs.Table.{table};

/// Each block has a place that is its own, and each place is one block's or parity.
pub fn places()
    ensures within { (g : Geometry) (block : ℕ) → block < volume g →
        ((block_place g block).member < g.members) × ((block_place g block).row < g.rows) }
    ensures block { (g : Geometry) (block : ℕ) →
        owner_of g (block_place g block).member (block_place g block).row ≡ Block block }
    ensures place { (g : Geometry) (member row block : ℕ) → member < g.members → row < g.rows →
        owner_of g member row ≡ Block block →
        (block < volume g) × (block_place g block ≡ record { member = member; row = row }) }
    ensures parity { (g : Geometry) (member row : ℕ) →
        (owner_of g member row ≡ Parity) ↔ (member ≡ parity_member g row) }
{}

/// The table holds each block at its place. The exclusive-or over a row is zero, so each place is
/// the exclusive-or of the row's others.
pub fn rows()
    ensures block { (g : Geometry) (image : List (List ℕ)) (block : ℕ) →
        table g image (block_place g block).row (block_place g block).member
        ≡ slice_index_or image block [] }
    ensures zero { (g : Geometry) (image : List (List ℕ)) (row : ℕ) → IsImage g image →
        row < g.rows → xor_over g.block (table g image row) g.members ≡ zeros g.block }
    ensures one { (g : Geometry) (image : List (List ℕ)) (row member : ℕ) → IsImage g image →
        row < g.rows → member < g.members →
        table g image row member ≡ xor_but g.block member (table g image row) g.members }
{}
