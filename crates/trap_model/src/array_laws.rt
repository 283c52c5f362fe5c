//! Laws over the definitions of the array. Each is a function with no body, and its contract is the
//! law.

ghost use Rattle.std.specs.Prelude.{◌≡◌, ℕ, ◌≤◌, List};
ghost use Rattle.trap_model.specs.ZeroRun.{ZeroRun};
ghost use Rattle.trap_model.specs.Size.{code_of};
ghost use Rattle.trap_model.specs.State.{image_at, fresh, IsValid};
ghost use Rattle.trap_model.specs.ArrayStep.{kept_from, step, IsSized};

use crate::{Geometry, Request, State};

/// The fresh state is valid, and every request keeps a state valid. Its contents, where it has any,
/// are a block.
pub fn kept_valid()
    ensures fresh { (g : Geometry) → IsValid g (fresh g) }
    ensures kept { (g : Geometry) (s : State) (request : Request) → IsValid g s → IsSized g request
        → IsValid g ((step g).next s request) }
{}

/// The code that the size of an entry counts is the one spelling of the block.
pub fn sizes()
    ensures some { (block : List ℕ) → ZeroRun block (code_of block) }
    ensures one { (block bytes : List ℕ) → ZeroRun block bytes → bytes ≡ code_of block }
{}

/// Dropping no entry changes nothing, dropping in two steps is dropping at once, and an instant
/// that stays retained has the same image as before.
pub fn drops()
    ensures none { (s : State) → kept_from s s.first ≡ s }
    ensures twice { (s : State) (p q : ℕ) → s.first ≤ p → p ≤ q
        → kept_from (kept_from s p) q ≡ kept_from s q }
    ensures instants { (s : State) (p q : ℕ) → s.first ≤ p → p ≤ q
        → image_at (kept_from s p) q ≡ image_at s q }
{}
