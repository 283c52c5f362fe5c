//! Laws over the definitions. Each is a function with no body, and its contract is the law.

ghost use Rattle.std.specs.Prelude.{◌≡◌, ℕ, ◌+◌, ◌^◌, ◌<◌, ◌≤◌, List, ◌++◌, length};
ghost use Rattle.trap_model.specs.ZeroRun.{ZeroRun, IsRefused};
ghost use Rattle.trap_model.specs.LogRecord.{LogRecord};

use crate::LogRec;
pub use crate::array_laws::{drops, kept_valid, sizes};
pub use crate::frame_laws::{frames_apart, frames_follow, frames_of_a_stream};
pub use crate::receiver_laws::window;

/// Each block that isn't empty has exactly one spelling, of at least 4 bytes and at most 7 more
/// than its own. Of blocks of one size no spelling begins another, and none stands for two blocks;
/// and no log record begins another. So what was written is read again, whatever follows it.
pub fn spellings()
    ensures some { (block : List ℕ) → (bytes : List ℕ) × ZeroRun block bytes }
    ensures one { (block a b : List ℕ) → ZeroRun block a → ZeroRun block b → a ≡ b }
    ensures len { (block bytes : List ℕ) → 1 ≤ length block → ZeroRun block bytes
        → (4 ≤ length bytes) × (length bytes ≤ length block + 7) }
    ensures codes { (a b x y more_x more_y : List ℕ) → length a ≡ length b → length a < 2 ^ 16
        → ZeroRun a x → ZeroRun b y → x ++ more_x ≡ y ++ more_y → (a ≡ b) × (x ≡ y) }
    ensures records { (size : ℕ) (r q : LogRec) (p u s v x y more_x more_y : List ℕ) → size < 2 ^ 15
        → LogRecord size r p s x → LogRecord size q u v y → x ++ more_x ≡ y ++ more_y
        → (r ≡ q) × (p ≡ u) × (s ≡ v) × (x ≡ y) }
{}

/// No log record begins another, of whatever block sizes they are.
pub fn records()
    ensures { (n m : ℕ) (r q : LogRec) (p u s v x y more_x more_y : List ℕ) → n < 2 ^ 15
        → m < 2 ^ 15
        → LogRecord n r p s x → LogRecord m q u v y → x ++ more_x ≡ y ++ more_y
        → (r ≡ q) × (p ≡ u) × (s ≡ v) × (x ≡ y) }
{}

/// What is refused spells no block of that size, and is refused at one place.
pub fn refusals()
    ensures none { (size : ℕ) (bytes block : List ℕ) (at : ℕ) → size < 2 ^ 16
        → IsRefused size bytes at → length block ≡ size → ¬ ZeroRun block bytes }
    ensures place { (size : ℕ) (bytes : List ℕ) (a b : ℕ) → size < 2 ^ 16
        → IsRefused size bytes a → IsRefused size bytes b → a ≡ b }
{}
