//! Undoing a block's writes, the newest first.

ghost use Rattle.std.specs.Prelude.{◌≡◌, ℕ, ◌<◌, ◌≤◌, ◌∷◌, [], OnOk};
ghost use Rattle.trap_index.specs.Indexed.{last_seq, item_at, path_to};
ghost use Rattle.trap_model.specs.Image.{block_of};
ghost use Rattle.trap_model.specs.State.{image_at};
ghost use Rattle.trap_model.specs.declared.history.State.{State};
ghost use Rattle.trap_past.specs.Asking.{IsLater, nth_newest, Undoes, UndoesAtMost};
ghost use Rattle.trap_past.specs.Past.{IsIndexOf, IsInstant, HasFewCalls, HasBlame};
ghost use Rattle.trap_pool.specs.Frames.{AreLeases, Only};
ghost use Rattle.trap_pool.specs.Pooled.{pool_block};

use crate::{Parities, Present};
use trap_index::Index;
use trap_pool::{Lease, Pool};

/// Fills the block of `into` with a block's contents after the entry with this number: the present
/// ones, with the parities of the block's later entries taken back. It uses `scratch`, and after a
/// fault both hold any bytes.
pub fn block_at<P: Parities>(
    source: &mut P,
    index: &Index,
    pool: &mut Pool,
    block: u32,
    seq: u64,
    into: &Lease,
    scratch: &Lease,
) -> Result<(), P::Fault>
    requires index { IsIndexOf index.now (P.view source.old).has }
    requires instant { IsInstant (P.view source.old).has block seq }
    requires size { pool.old.size ≡ (P.view source.old).has.size }
    requires leases { AreLeases pool.old (into.now ∷ scratch.now ∷ []) }
    requires few { HasFewCalls (P.view source.old) }
    ensures contents { (s : State) → (P.view source.old).stands s
        → OnOk result (pool_block pool.new into.now ≡ block_of (image_at s seq) block) }
    ensures rest { Only (into.now ∷ scratch.now ∷ []) pool.old pool.new }

    // It asks for the present and the path's parities, the newest first, and for no more, whatever
    // it answers.
    ensures turns { OnOk result
        (Undoes index.now (path_to index.now block seq).turns block (P.view source.old)
        (P.view source.new)) }
    ensures at_most { UndoesAtMost index.now (path_to index.now block seq).turns block
        (P.view source.old) (P.view source.new) }

    // The entries that it asks for are the block's later ones.
    ensures later { (k : ℕ) → k < (path_to index.now block seq).turns
        → IsLater index.now block seq (nth_newest index.now block k) }
    ensures acts { P.acts source.old source.new }
    ensures blame { HasBlame P.view P.reasons P.after_fault result source.old source.new }
{
    let mut number = index.newest(block);
    source.present(pool, block, into, scratch)?;
    while seq < number {
        source.parity(pool, number, scratch)?;
        pool.xor(into, scratch);
        number = previous(index, number);
    }
    Ok(())
}

/// The number of the previous entry of the block that this entry writes, or 0 where none is
/// retained.
fn previous(index: &Index, seq: u64) -> u64
    requires low { index.now.first < seq }
    requires high { seq ≤ last_seq index.now }
    ensures { result ≡ (item_at index.now seq).prev }
{
    match index.item(seq) {
        Some(item) => item.prev,
        None => unreachable!(),
    }
}
