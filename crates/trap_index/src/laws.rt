//! What an index of a state's records tells of the state. Each law is a function with no body, and
//! its contract is the law.

ghost use Rattle.std.specs.Prelude.{◌≡◌, ℕ, ◌+◌, ◌-◌, ◌<◌, ◌≤◌, take, drop};
ghost use Rattle.trap_model.specs.declared.history.Entry.{Entry};
ghost use Rattle.trap_model.specs.declared.history.State.{State};
ghost use Rattle.trap_model.specs.declared.numbers.Geometry.{Geometry};
ghost use Rattle.trap_model.specs.ArrayStep.{added, kept_from};
ghost use Rattle.trap_model.specs.Image.{block_of};
ghost use Rattle.trap_model.specs.Path.{path};
ghost use Rattle.trap_model.specs.Records.{rec_of, record_of, records, entry_at};
ghost use Rattle.trap_model.specs.State.{fresh, image, image_at, image_by, kept, last};
ghost use Rattle.trap_model.specs.State as state;
ghost use Rattle.trap_index.specs.Indexed.{Indexed, nothing_indexed, with_record, dropped_to};
ghost use Rattle.trap_index.specs.Indexed.{last_seq, last_record_time, recs_len, newest, item_at};
ghost use Rattle.trap_index.specs.Indexed.{rec_at, rec_len, IsLastBy, path_to};
ghost use Rattle.trap_index.specs.Keeping.{IsIndexed, link, told};
ghost use Rattle.trap_index.specs.Describes.{Describes, IsLastOf, IsItemOf, block_before};

/// An index without records describes the fresh state, and an index with the record of a further
/// entry the state with that entry. With entries dropped it describes the state without them.
pub fn described()
    ensures fresh { (g : Geometry) (first_off : ℕ)
        → Describes (nothing_indexed g 0 0 first_off) (fresh g) }
    ensures further { (i : Indexed) (s : State) (e : Entry) → Describes i s
        → Describes (with_record i (rec_of (last s + 1) (block_of (image s) e.block) e))
        (added s e) }
    ensures dropped { (i : Indexed) (s : State) (q : ℕ) → Describes i s → s.first ≤ q → q ≤ last s
        → Describes (dropped_to i q) (kept_from s q) }
{}

/// What dropping leaves: the last number and time, where the last record ends, and each retained
/// record's item, whose link and whose block's newest number are 0 where they name a dropped entry.
pub fn drops()
    ensures last { (i : Indexed) (q : ℕ) → i.first ≤ q → q ≤ last_seq i
        → last_seq (dropped_to i q) ≡ last_seq i }
    ensures time { (i : Indexed) (q : ℕ) → last_record_time (dropped_to i q) ≡ last_record_time i }
    ensures end { (i : Indexed) (q : ℕ)
        → (dropped_to i q).first_off + recs_len (dropped_to i q).recs
        ≡ i.first_off + recs_len i.recs }
    ensures item { (i : Indexed) (q n : ℕ) → IsIndexed i → i.first ≤ q → q < n → n ≤ last_seq i
        → item_at (dropped_to i q) n ≡ told q (item_at i n) }
    ensures newest { (i : Indexed) (q block : ℕ) → IsIndexed i → i.first ≤ q → q ≤ last_seq i
        → newest block (dropped_to i q).recs ≡ link q (newest block i.recs) }
{}

/// Its numbers are the state's, and each item is its entry's.
pub fn tells()
    ensures last { (i : Indexed) (s : State) → Describes i s → last_seq i ≡ last s }
    ensures time { (i : Indexed) (s : State) → Describes i s
        → last_record_time i ≡ state.last_time s }
    ensures bytes { (i : Indexed) (s : State) → Describes i s → recs_len i.recs ≡ kept s }
    ensures item { (i : Indexed) (s : State) (q : ℕ) → Describes i s → s.first < q → q ≤ last s
        → IsItemOf s i.first_off q (item_at i q) }
    ensures newest { (i : Indexed) (s : State) (block : ℕ) → Describes i s
        → IsLastOf s block (last s) (newest block i.recs) }
{}

/// What it finds in the ring, and of an instant, is so of the state: the record of an entry stands
/// where its item says, the last number by a time has the image by that time, and the path is the
/// state's.
pub fn finds()
    ensures record_there { (i : Indexed) (s : State) (q : ℕ) → Describes i s → s.first < q
        → q ≤ last s
        → take (rec_len (rec_at i q)) (drop ((item_at i q).off - i.first_off) (records s))
        ≡ record_of q (block_before s q) (entry_at s q) }
    ensures image_there { (i : Indexed) (s : State) (t q : ℕ) → Describes i s → IsLastBy i t q
        → image_by s t ≡ image_at s q }
    ensures path_there { (i : Indexed) (s : State) (block q : ℕ) → Describes i s
        → path_to i block q ≡ path s block q }
{}
