//! Laws over what `send` says. Each is a function with no body, and its contract is the law.

ghost use Rattle.std.specs.Prelude.{◌≡◌, ℕ, ◌+◌, ◌-◌, ◌^◌, ◌<◌, ◌≤◌, List, ◌++◌, length, take};
ghost use Rattle.std.specs.Prelude.{get_or, flat_map, map, IsTrue, All, Contains};
ghost use Rattle.trap_apply.specs.Fitting.{FitsReplica};
ghost use Rattle.trap_apply.specs.History.{IsFrameOf, HoldsPrimary};
ghost use Rattle.trap_apply.specs.Reached.{HoldsReached, arrivals, received};
ghost use Rattle.trap_bank.specs.Disks.{Contents, Disks};
ghost use Rattle.trap_bank.specs.Calls.{SaysPart};
ghost use Rattle.trap_array.specs.Calls.{Mounted, StandsFor};
ghost use Rattle.trap_format.specs.declared.shape.Shape.{Shape};
ghost use Rattle.trap_index.specs.Describes.{block_before};
ghost use Rattle.trap_model.specs.declared.history.Entry.{Entry};
ghost use Rattle.trap_model.specs.declared.history.State.{State};
ghost use Rattle.trap_model.specs.declared.numbers.Geometry.{Geometry};
ghost use Rattle.trap_model.specs.Frame.{AreFrames, Sent};
ghost use Rattle.trap_model.specs.Frame as ending;
ghost use Rattle.trap_model.specs.Image.{volume};
ghost use Rattle.trap_model.specs.Receiver.{starting, gapless};
ghost use Rattle.trap_model.specs.Records.{entry_at};
ghost use Rattle.trap_model.specs.State.{IsValid, image_at, last};
ghost use Rattle.trap_replica.specs.Mounted.{arrival};
ghost use Rattle.trap_replica.specs.World.{World, FollowsPrimary};
ghost use Rattle.trap_send.specs.Copying.{IsStateOf, HasCopy, HoldsCopy};
ghost use Rattle.trap_send.specs.Sending.{frame_of, frame_bytes, sent_frames, sent_text};
ghost use Rattle.trap_send.specs.EntryFrames.{AreEntryFrames};
ghost use Rattle.trap_send.specs.Sends.{Sends, SendsAll};

use trap_bank::Bank;

/// The frames of a state's entries after an instant: one for each, with the entry's number, time,
/// block and parity; and their bytes are the stream of these frames, up to its end.
pub fn sending()
    ensures count { (id : ℕ) (s : State) (p : ℕ) → s.first ≤ p → p ≤ last s
        → length (sent_frames id s p) ≡ last s - p }
    ensures entry { (id : ℕ) (s : State) (p q : ℕ) (none : Sent) → s.first ≤ p → p < q
        → q ≤ last s → get_or (sent_frames id s p) (q - (p + 1)) none
        ≡ frame_of id q (block_before s q) (entry_at s q) }
    ensures stream { (g : Geometry) (id : ℕ) (s : State) (p : ℕ) → IsValid g s → id < 2 ^ 64
        → All (λ entry. entry.time < 2 ^ 64) s.entries → s.first ≤ p → p ≤ last s
        → AreFrames g.block (sent_text id s p) (sent_frames id s p) ending.AtEnd }
{}

/// Where the array stands for a state that a read gives, what is said are frames of the state: a
/// first part of them, or all.
pub fn told<B: Bank>(bank: &B)
    ensures frames { (a : Mounted) (s : State) (p k : ℕ) (text : List ℕ)
        → IsTrue (B.view bank.now).tells → StandsFor a s (B.view bank.now).now.disks
        → s.first ≤ p → p + k ≤ last s → AreEntryFrames a (B.view bank.now) p k text
        → text ≡ flat_map frame_bytes (take k (sent_frames a.g.id s p)) }
    ensures part { (a : Mounted) (s : State) (p : ℕ) (x y : Contents)
        → IsTrue (B.view bank.now).tells → StandsFor a s (B.view bank.now).now.disks
        → s.first ≤ p → Sends a (B.view bank.now) p x y
        → SaysPart (sent_text a.g.id s p) x y }
    ensures whole { (a : Mounted) (s : State) (p : ℕ) (x y : Contents)
        → IsTrue (B.view bank.now).tells → StandsFor a s (B.view bank.now).now.disks
        → s.first ≤ p → p ≤ last s → SendsAll a (B.view bank.now) p x y
        → y.said ≡ x.said ++ sent_text a.g.id s p }
{}

/// The frame of each retained entry is one of the primary's, in whatever state that is; and it is
/// for a replica that has the array's id and as many blocks.
pub fn followed()
    ensures primary { (id q : ℕ) (s : State) (w : World) → IsStateOf w s → s.first < q
        → q ≤ last s → let sent = frame_of id q (block_before s q) (entry_at s q)
        in IsFrameOf w (arrival sent.frame sent.parity) }
    ensures fits { (g : Geometry) (sh : Shape) (q : ℕ) (s : State) → IsValid g s
        → sh.volume ≡ volume g → s.first < q → q ≤ last s
        → FitsReplica sh (frame_of sh.id q (block_before s q) (entry_at s q)).frame }
{}

/// A replica begins with the image after some entry, and gets frames that are sent of the state, in
/// any order, some of them repeatedly and others never. Stopped at any moment, it holds the image
/// after an entry from there to where the numbers that came go without a gap: the primary's, where
/// it began with that; and the state's own, where it began with one of those. A receiver that got
/// all of them has that image exactly, the last to which the numbers go without a gap.
pub fn copied()
    ensures primary { (sh : Shape) (id p time : ℕ) (s : State) (w : World) (frames : List Sent)
        (disks : Disks) → IsStateOf w s → FollowsPrimary sh.volume sh.block w → s.first ≤ p
        → p ≤ last s → All (Contains (sent_frames id s p)) frames
        → HoldsReached sh (starting w.number time w.image) (arrivals frames) disks
        → HoldsPrimary sh w time w.number
        (gapless w.number (map (λ sent. sent.frame.seq) frames)) disks }
    ensures state { (g : Geometry) (sh : Shape) (id p n time : ℕ) (s : State)
        (frames : List Sent) (disks : Disks) → IsValid g s → sh.volume ≡ volume g
        → sh.block ≡ g.block → s.first ≤ n → n ≤ last s → s.first ≤ p → p ≤ last s
        → All (Contains (sent_frames id s p)) frames
        → HoldsReached sh (starting n time (image_at s n)) (arrivals frames) disks
        → HoldsCopy sh s time n (gapless n (map (λ sent. sent.frame.seq) frames)) disks }
    ensures received { (g : Geometry) (sh : Shape) (id p n time : ℕ) (s : State)
        (frames : List Sent) → IsValid g s → sh.volume ≡ volume g → sh.block ≡ g.block
        → s.first ≤ n → n ≤ last s → s.first ≤ p → p ≤ last s
        → All (Contains (sent_frames id s p)) frames
        → HasCopy s time n (gapless n (map (λ sent. sent.frame.seq) frames))
        (received (starting n time (image_at s n)) frames) }
{}
