//! Laws over the definition of a receiver. Each is a function with no body, and its contract is the
//! law.

ghost use Rattle.std.specs.Prelude.{◌≡◌, ◌≢◌, ℕ, ◌+◌, ◌≤◌, List, All, map};
ghost use Rattle.trap_model.specs.Receiver.{window as window_size, starting, receive, answers};
ghost use Rattle.trap_model.specs.Receiver.{gapless, IsGapless};

use crate::{Arrival, Taken};

/// A receiver applies exactly the longest run of numbers without a gap, each of which came at least
/// once within the window, whatever the order and however often. Where no number is beyond the
/// window at the start, none is left out. Only the numbers tell how far it comes.
pub fn window()
    ensures longest { (n : ℕ) (numbers : List ℕ) → IsGapless n numbers (gapless n numbers) }
    ensures none_beyond { (n time : ℕ) (image : List (List ℕ)) (frames : List Arrival)
        → All (λ f. f.seq ≤ n + window_size) frames
        → All (λ a. a ≢ Taken.Beyond) (answers (starting n time image) frames) }
    ensures number { (n time : ℕ) (image : List (List ℕ)) (frames : List Arrival)
        → (receive (starting n time image) frames).number ≡ gapless n (map (λ f. f.seq) frames) }
{}
