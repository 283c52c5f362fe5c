//! Laws of the past. Each is a function with no body, and its contract is the law.

ghost use Rattle.std.specs.Prelude.{◌≡◌, ℕ, suc, ◌<◌, ◌≤◌, length};
ghost use Rattle.trap_index.specs.Describes.{Describes};
ghost use Rattle.trap_index.specs.Indexed.{Indexed, path_to};
ghost use Rattle.trap_index.specs.Keeping.{IsIndexed};
ghost use Rattle.trap_model.specs.Image.{volume, block_of};
ghost use Rattle.trap_model.specs.Path.{path};
ghost use Rattle.trap_model.specs.State.{image, image_at, IsValid};
ghost use Rattle.trap_past.specs.Asking.{IsLater, nth_newest};
ghost use Rattle.trap_past.specs.Past.{Retained, IsOf, IsIndexOf};
ghost use Rattle.trap_past.specs.Undo.{parities_above, contents_before};

use trap_model::{Geometry, State};

/// A block after an entry is its present contents, with the parities of its later entries taken
/// back, the newest first; and they are as many as the path has turns.
pub fn undoing()
    ensures undone { (g : Geometry) (s : State) (block q : ℕ) → IsValid g s → block < volume g
        → block_of (image_at s q) block
        ≡ contents_before (block_of (image s) block) (parities_above s block q) }
    ensures turns { (s : State) (block q : ℕ)
        → length (parities_above s block q) ≡ (path s block q).turns }
{}

/// A state that an index describes is one that a source with the index's blocks and entries may
/// stand for; and where a source may stand for a state, the path by an index of its entries is the
/// state's.
pub fn telling()
    ensures described { (i : Indexed) (s : State) (v : Retained)
        → Describes i s → IsValid i.g s → IsIndexOf i v
        → v.volume ≡ volume i.g → v.size ≡ i.g.block → IsOf v s }
    ensures path { (i : Indexed) (s : State) (v : Retained) (block q : ℕ) → IsOf v s → IsIndexOf i v
        → path_to i block q ≡ path s block q }
{}

/// A block's newest entries, as many as the path back to an instant has turns, are its later ones,
/// each older than the one before.
pub fn looking_back()
    ensures later { (i : Indexed) (block seq k : ℕ) → IsIndexed i → i.first ≤ seq
        → k < (path_to i block seq).turns → IsLater i block seq (nth_newest i block k) }
    ensures older { (i : Indexed) (block seq k : ℕ) → IsIndexed i → i.first ≤ seq
        → suc k < (path_to i block seq).turns
        → nth_newest i block (suc k) < nth_newest i block k }
{}
