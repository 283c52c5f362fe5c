//! Laws of a run. Each is a function with no body, and its contract is the law.

ghost use Rattle.std.specs.Prelude.{◌≡◌, ◌≤◌, ◌^◌, ℕ, List, [], ◌∷◌, ◌++◌, All, length};
ghost use Rattle.std.specs.Prelude.{map, Some, false};
ghost use Rattle.trap_bank.specs.Disks.{Disks};
ghost use Rattle.trap_bank.specs.Stream.{Stream};
ghost use Rattle.trap_frame.specs.Filling.{TakesBytes};
ghost use Rattle.trap_frame.specs.Reading.{FindsNoFrame};
ghost use Rattle.trap_frame.specs.declared.found.FrameFault.TheVariants as fault;
ghost use Rattle.trap_format.specs.declared.shape.Shape.{Shape};
ghost use Rattle.trap_model.specs.Frame.{Sent, Ending, AreFrames, BeginsWithFrames};
ghost use Rattle.trap_model.specs.Receiver.{Receiver, starting, receive, gapless};
ghost use Rattle.trap_model.specs.declared.arrival.Arrival.{Arrival};
ghost use Rattle.trap_replica.specs.Holding.{has_next};
ghost use Rattle.trap_replica.specs.Mounted.{MountedReplica, receiver};
ghost use Rattle.trap_replica.specs.OnDisk.{ReplicaHolds};
ghost use Rattle.trap_replica.specs.World.{World, FollowsPrimary, Deliver, Happens};
ghost use Rattle.trap_apply.specs.Summary.{IsSummary, summary_of};
ghost use Rattle.trap_apply.specs.Reached.{HoldsReached, HoldsBetween, HoldsTimed, arrivals};
ghost use Rattle.trap_apply.specs.Stepping.{FindsEnd};
ghost use Rattle.trap_apply.specs.Applies.{TakesFrames, BringsFrames, AreWholeIn};
ghost use Rattle.trap_apply.specs.History.{IsFrameOf, IsPrimary, HoldsPrimary, passed_time};
ghost use Rattle.trap_apply.specs.declared.summary.Summary.{Summary};

/// Whatever a crash leaves of a run, the number of its image lies between the replica's and the one
/// that the receiver has after the frames: the last to which their numbers go without a gap. The
/// image's time is that of the frame with its number. With more numbers the last is no less.
pub fn reached()
    ensures between { (s : Shape) (r : Receiver) (frames : List Arrival) (disks : Disks)
        → has_next r.number r.held ≡ false → HoldsReached s r frames disks
        → HoldsBetween s r.number (receive r frames).number disks }
    ensures gapless { (s : Shape) (number time : ℕ) (image : List (List ℕ))
        (frames : List Arrival) (disks : Disks)
        → HoldsReached s (starting number time image) frames disks
        → HoldsBetween s number (gapless number (map (λ f. f.seq) frames)) disks }
    ensures timed { (s : Shape) (number time : ℕ) (image : List (List ℕ))
        (frames : List Arrival) (disks : Disks)
        → HoldsReached s (starting number time image) frames disks
        → HoldsTimed s frames number time disks }
    ensures longer { (number : ℕ) (numbers more : List ℕ)
        → gapless number numbers ≤ gapless number (numbers ++ more) }

    // What first frames of a stream reach is reached with all of its frames.
    ensures whole { (s : Shape) (r : Receiver) (input rest : List ℕ) (frames all : List Sent)
        (ending : Ending) (disks : Disks) → BeginsWithFrames s.block frames rest input
        → AreFrames s.block input all ending → HoldsReached s r (arrivals frames) disks
        → HoldsReached s r (arrivals all) disks }
{}

/// Where the source tells its bytes, the frames that were taken are those of its stream, and the
/// run ended where the stream does. Where it fails, or is too long, they are the frames that lie
/// whole in what was taken.
pub fn taken_frames()
    ensures end { (size used used' : ℕ) (input : List ℕ) (frames : List Sent) (s t u : Stream)
        → s.left ≡ Some input → TakesFrames size frames used s t → FindsEnd size used used' t u
        → AreFrames size input frames Ending.AtEnd }
    ensures cut { (size used used' at : ℕ) (input : List ℕ) (frames : List Sent) (s t u : Stream)
        → s.left ≡ Some input → TakesFrames size frames used s t
        → FindsNoFrame size (fault.Cut at) used used' t u
        → AreFrames size input frames (Ending.CutAt at) }
    ensures bad { (size used used' at : ℕ) (input : List ℕ) (frames : List Sent) (s t u : Stream)
        → s.left ≡ Some input → TakesFrames size frames used s t
        → FindsNoFrame size (fault.BadFrame at) used used' t u
        → AreFrames size input frames (Ending.BadAt at) }
    ensures read_fault { (size used used' : ℕ) (frames : List Sent) (s t u : Stream)
        → TakesFrames size frames used s t → FindsNoFrame size fault.ReadFault used used' t u
        → (bytes : List ℕ) × TakesBytes bytes 0 (length bytes) s u × AreWholeIn size bytes frames }
    ensures too_long { (size used used' : ℕ) (frames : List Sent) (s t u : Stream)
        → TakesFrames size frames used s t → FindsNoFrame size fault.TooLong used used' t u
        → (bytes : List ℕ) × TakesBytes bytes 0 (length bytes) s u × AreWholeIn size bytes frames
        × (length bytes ≡ 2 ^ 40) }
    ensures begins { (s : Shape) (frames : List Sent) (input : List ℕ) (t u : Stream)
        → t.left ≡ Some input → BringsFrames s frames t u
        → (rest : List ℕ) × BeginsWithFrames s.block frames rest input }
{}

/// Where the replica is the receiver after the frames, the summary is the receiver's.
pub fn summarised()
    ensures { (r : Receiver) (frames : List Arrival) (b : MountedReplica)
        (image : List (List ℕ)) (s : Summary)
        → IsSummary b r frames s → receiver b image ≡ receive r frames → s ≡ summary_of r frames }
{}

/// Where the frames are those of a primary's entries, whatever is lost, repeated or reordered, and
/// the replica has the primary's image after as many entries as its number says, so it has then:
/// stopped at any moment, and after all of them, up to where their numbers go without a gap.
pub fn history()
    ensures stopped { (s : Shape) (w : World) (time : ℕ) (frames : List Arrival) (disks : Disks)
        → FollowsPrimary s.volume s.block w → All (IsFrameOf w) frames
        → HoldsReached s (starting w.number time w.image) frames disks
        → HoldsPrimary s w time w.number (gapless w.number (map (λ f. f.seq) frames)) disks }
    ensures received { (s : Shape) (w : World) (time : ℕ) (frames : List Arrival)
        → FollowsPrimary s.volume s.block w → All (IsFrameOf w) frames
        → IsPrimary w time (receive (starting w.number time w.image) frames)
        × ((receive (starting w.number time w.image) frames).number
        ≡ gapless w.number (map (λ f. f.seq) frames)) }

    // So a run, stopped or not, is a delivery of these numbers in the receiver's world.
    ensures delivers { (s : Shape) (w : World) (time : ℕ) (frames : List Arrival) (disks : Disks)
        → FollowsPrimary s.volume s.block w → All (IsFrameOf w) frames
        → HoldsReached s (starting w.number time w.image) frames disks
        → (v : World) × Happens s.volume s.block (Deliver (map (λ f. f.seq) frames) v.number) w v
        × ReplicaHolds s v.number (passed_time w time v.number) v.image disks }
{}
