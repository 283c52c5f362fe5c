//! Laws over the definition of frames. Each is a function with no body, and its contract is the
//! law.

ghost use Rattle.std.specs.Prelude.{◌≡◌, ℕ, ◌^◌, ◌<◌, List, [], ◌∷◌, ◌++◌, length};
ghost use Rattle.trap_model.specs.Frame.{SpellsFrame, IsPart, IsCut, IsBadFrame, Sent, Ending};
ghost use Rattle.trap_model.specs.Frame.{AreFrames, further};

use crate::Frame;

/// No frame begins another, so what was sent is read again, whatever follows it.
pub fn frames_apart()
    ensures { (size : ℕ) (f g : Frame) (p u x y more_x more_y : List ℕ) → size < 2 ^ 15
        → SpellsFrame size f p x → SpellsFrame size g u y → x ++ more_x ≡ y ++ more_y
        → (f ≡ g) × (p ≡ u) × (x ≡ y) }
{}

/// A stream has one list of frames, and one end.
pub fn frames_of_a_stream()
    ensures { (size : ℕ) (stream : List ℕ) (a b : List Sent) (e d : Ending) → size < 2 ^ 15
        → AreFrames size stream a e → AreFrames size stream b d → (a ≡ b) × (e ≡ d) }
{}

/// A stream's frames are those that are found one after the other. So a reader that finds a frame
/// at a time, up to an end, a frame that is cut off or bytes that are no frame, has found all of
/// them, and the end.
pub fn frames_follow()
    ensures end { (size : ℕ) → AreFrames size [] [] Ending.AtEnd }
    ensures cut { (size : ℕ) (bytes : List ℕ) → IsCut size bytes
        → AreFrames size bytes [] (Ending.CutAt 0) }

    // Whatever follows bytes that are no frame.
    ensures bad { (size : ℕ) (bytes more : List ℕ) → IsBadFrame size bytes
        → AreFrames size (bytes ++ more) [] (Ending.BadAt 0) }
    ensures next { (size : ℕ) (f : Frame) (p x rest : List ℕ) (frames : List Sent) (e : Ending)
        → SpellsFrame size f p x → AreFrames size rest frames e
        → AreFrames size (x ++ rest) (record {
          frame = f;
          parity = p;
        } ∷ frames) (further (length x) e) }

    // What is only a part begins with no frame.
    ensures part { (size : ℕ) (f : Frame) (p x more : List ℕ) → size < 2 ^ 15
        → SpellsFrame size f p x
        → IsPart size (x ++ more) → ⊥ }
{}
