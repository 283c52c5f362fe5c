//! Laws of runs, one after the other: functions with no body, whose contracts are the laws.

ghost use Rattle.std.specs.Prelude.{◌≡◌, ◌+◌, ◌^◌, ◌<◌, ℕ, List, length, Option, Some, None};
ghost use Rattle.std.specs.Prelude.{IsTrue, ◌++◌};
ghost use Rattle.trap_bank.specs.Disks.{Disks};
ghost use Rattle.trap_bank.specs.Steps.{Always};
ghost use Rattle.trap_bank.specs.Stream.{Stream};
ghost use Rattle.trap_model.specs.declared.numbers.Geometry.{Geometry};
ghost use Rattle.trap_model.specs.declared.history.State.{State};
ghost use Rattle.trap_format.specs.declared.shape.Shape.{Shape};
ghost use Rattle.trap_model.specs.Frame.{Sent, AreFrames};
ghost use Rattle.trap_model.specs.Frame.Ending.{AtEnd};
ghost use Rattle.trap_model.specs.Receiver.{starting};
ghost use Rattle.trap_model.specs.State.{fresh, image_at};
ghost use Rattle.trap_replica.specs.OnDisk.{ReplicaHolds};
ghost use Rattle.trap_send.specs.Copying.{copied_time, HoldsCopy};
ghost use Rattle.trap_send.specs.Sending.{sent_frames, sent_text};
ghost use Rattle.trap_array.specs.Holding.{Holds};
ghost use Rattle.trap_array.specs.Mounting.{SameHead};
ghost use Rattle.trap_array.specs.Gone.{HoldsBut};
ghost use Rattle.trap_cli.specs.Said.{BeginsHeld};
ghost use Rattle.trap_cli.specs.Creating.{HoldsNew};
ghost use Rattle.trap_cli.specs.Command.{command_session, command_send, command_apply};
ghost use Rattle.trap_cli.specs.Following.{BeginsCopy, BringsSent, gapless_of};
ghost use Rattle.trap_cli.specs.ReplicaCrash.{ApplyLeaves};
ghost use Rattle.trap_cli.specs.Beside.{LeavesApart};
ghost use Rattle.trap_cli.specs.Completes.{NothingFails, IsDone, output};
ghost use Rattle.trap_cli.specs.Run.{RunOutcome};
ghost use Rattle.trap_cli.specs.Frame.{Frames};
ghost use Rattle.trap_cli.specs.declared.command.Command.{Command};
ghost use Rattle.trap_cli.specs.declared.command.Command.TheVariants.{Session};
ghost use Rattle.trap_cli.specs.Crash.{AfterGiven, OneMayGo, SessionLeaves, HistoryLeaves};
ghost use Rattle.trap_cli.specs.Crash.{SendLeaves};

use trap_bank::Bank;

/// A state stays held where only the slot of the head's cell that isn't current differs. So where
/// every crash on entry leaves disks that hold a state, every crash in a session leaves disks that
/// hold the state after the lines whose replies were given, or after one more: the next run begins
/// with that one. A crash in a history, or in `send`, leaves the state.
pub fn runs_compose<B: Bank>()
    ensures head { (g : Geometry) (s : State) (x y : Disks)
        → SameHead x y → Holds g s x → Holds g s y }
    ensures session { (entry : B) (g : Geometry) (s : State) (input p : List ℕ) (from : Stream)
        (left : Disks) → BeginsHeld g s input (B.view entry) from
        → Always (B.view entry) (Holds g s) → SessionLeaves g s input (B.view entry) p left
        → AfterGiven g s input p (λ t. Holds g t left) }
    ensures history { (entry : B) (g : Geometry) (s : State) (p : List ℕ) (left : Disks)
        → IsTrue (B.view entry).tells → Always (B.view entry) (Holds g s)
        → HistoryLeaves g s (B.view entry) p left → Holds g s left }
    ensures send { (entry : B) (g : Geometry) (s : State) (seq : ℕ) (p : List ℕ) (left : Disks)
        → IsTrue (B.view entry).tells → Always (B.view entry) (Holds g s)
        → SendLeaves g s seq (B.view entry) p left → Holds g s left }
{}

/// Where a run changes nothing but what its command may change, each disk that is none of the
/// command's is exactly as it was: on every answer, at any moment, and whatever it holds.
pub fn apart<B: Bank>()
    ensures { (command : Option Command) (entry exit : B)
        → Frames command (B.view entry) (B.view exit)
        → LeavesApart command (B.view entry) (B.view exit) }
{}

/// At most one member gone. Where every crash on entry leaves the state with no member out but
/// perhaps one, so does what a crash in the run leaves, though that member's disk be removed, of
/// the state after the lines whose replies were given, or after one more. So the next session over
/// those disks, in which nothing fails, answers from it.
pub fn one_member_gone<B: Bank>()
    ensures created { (g : Geometry) (m : ℕ) (disks : Disks)
        → HoldsNew g disks → HoldsBut g (fresh g) m disks }
    ensures session { (entry : B) (g : Geometry) (s : State) (m : ℕ) (input p : List ℕ)
        (from : Stream) (left gone : Disks) → BeginsHeld g s input (B.view entry) from
        → Always (B.view entry) (HoldsBut g s m) → SessionLeaves g s input (B.view entry) p left
        → OneMayGo g m left gone → AfterGiven g s input p (λ t. HoldsBut g t m gone) }
    ensures history { (entry : B) (g : Geometry) (s : State) (m : ℕ) (p : List ℕ)
        (left gone : Disks) → IsTrue (B.view entry).tells
        → Always (B.view entry) (HoldsBut g s m) → HistoryLeaves g s (B.view entry) p left
        → OneMayGo g m left gone → HoldsBut g s m gone }
    ensures send { (entry : B) (g : Geometry) (s : State) (m seq : ℕ) (p : List ℕ)
        (left gone : Disks) → IsTrue (B.view entry).tells
        → Always (B.view entry) (HoldsBut g s m) → SendLeaves g s seq (B.view entry) p left
        → OneMayGo g m left gone → HoldsBut g s m gone }
    ensures answers { (entry next after : B) (g : Geometry) (s : State) (m : ℕ)
        (input p more : List ℕ) (from asked to : Stream) (left : Disks) (status : ℕ)
        → BeginsHeld g s input (B.view entry) from → Always (B.view entry) (HoldsBut g s m)
        → SessionLeaves g s input (B.view entry) p left
        → OneMayGo g m left (B.view next).now.disks
        → IsTrue (B.view next).tells → asked.left ≡ Some more → length more < 2 ^ 40
        → RunOutcome B.view status command_session next after asked to
        → NothingFails g (λ k. (B.view next).now.disks (k + 1) ≡ None)
        (B.view next) (B.view after) asked to
        → AfterGiven g s input p
        (λ t. IsDone status (output g t Session more) (B.view next) (B.view after)) }
{}

/// A replica follows the array whose frames it gets. What a run of `send` says is a stream of the
/// frames of the state's entries. A run of `apply` over the state's image after entry number n gets
/// some of these frames, repeatedly and in any order, the last of them perhaps cut off. Stopped at
/// any moment, it leaves the state's image after an entry from there to where their numbers go
/// without a gap, so that the law speaks of a next run over that image too. Where it ended with
/// status 0, it leaves exactly the last of these images.
pub fn replica_follows<B: Bank>()
    ensures sent { (entry exit : B) (g : Geometry) (s : State) (p : ℕ) (from to : Stream)
        → IsTrue (B.view entry).tells → Holds g s (B.view entry).now.disks
        → RunOutcome B.view 0 (command_send p) entry exit from to
        → ((B.view exit).now.said ≡ (B.view entry).now.said ++ sent_text g.id s p)
        × BringsSent g s p (sent_frames g.id s p) (sent_text g.id s p) }
    ensures stopped { (entry : B) (g : Geometry) (s : State) (sh : Shape) (n time p : ℕ)
        (frames : List Sent) (input said : List ℕ) (left : Disks)
        → BeginsCopy g s sh n time (B.view entry) → BringsSent g s p frames input
        → ApplyLeaves sh (starting n time (image_at s n)) input (B.view entry) said left
        → HoldsCopy sh s time n (gapless_of n frames) left }
    ensures applied { (entry exit : B) (g : Geometry) (s : State) (sh : Shape) (n time p : ℕ)
        (frames : List Sent) (input : List ℕ) (from to : Stream)
        → BeginsCopy g s sh n time (B.view entry) → BringsSent g s p frames input
        → AreFrames g.block input frames AtEnd → from.left ≡ Some input
        → RunOutcome B.view 0 command_apply entry exit from to
        → let last = gapless_of n frames
        in ReplicaHolds sh last (copied_time s n time last) (image_at s last)
        (B.view exit).now.disks }
{}
