//! Laws over the definitions of this crate.

ghost use Rattle.std.specs.Prelude.{◌≡◌, ◌≢◌, ◌↔◌, ◌<◌, ◌≤◌, ◌+◌, ◌^◌, ℕ, List, ◌∷◌, ◌++◌, Some};
ghost use Rattle.std.specs.Prelude.{true, length, drop, slice_get, decimal};
ghost use Rattle.trap_model.specs.Given.{given};
ghost use Rattle.trap_model.specs.Machine.{Machine};
ghost use Rattle.trap_model.specs.declared.request.Request.{Request};
ghost use Rattle.trap_model.specs.declared.request.Reply.TheVariants.{Silent};
ghost use Rattle.trap_script.specs.Lines.{goes_on, lines};
ghost use Rattle.trap_script.specs.Numbers.{number_of};
ghost use Rattle.trap_script.specs.Replies.{reply_text};
ghost use Rattle.trap_script.specs.Walk.{states, state_after, replies, reply_texts, first_texts};
ghost use Rattle.trap_script.specs.Walk.{AreSaid};

/// A text is a number exactly where it is the number's decimal text, and the number is below 2^64.
pub fn numbers()
    ensures { (text : List ℕ) (n : ℕ)
        → (number_of text ≡ Some n) ↔ ((n < 2 ^ 64) × (text ≡ decimal n)) }
{}

/// State number `j` of the list of states is the one after the first `j` requests, and there is one
/// state more than there are requests, and as many replies.
pub fn walks<S>()
    ensures state { (m : Machine S) (s : S) (all : List Request) (j : ℕ) → j ≤ length all
        → slice_get (states m s all) j ≡ Some (state_after m s all j) }
    ensures count { (m : Machine S) (s : S) (all : List Request)
        → (length (states m s all) ≡ length all + 1) × (length (replies m s all) ≡ length all) }
{}

/// Where a machine replies to every request but `Q`, and its first `j` replies to an input are
/// said, just `j` replies are given; also where the next one is said up to its middle.
pub fn given_replies<S>()
    ensures whole { (m : Machine S) (s : S) (size : ℕ) (input : List ℕ) (j : ℕ)
        → ((t : S) (request : Request) → goes_on request ≡ true → m.reply t request ≢ Silent)
        → j ≤ length (lines size input)
        → given (reply_texts m s (lines size input)) (first_texts m s (lines size input) j) ≡ j }
    ensures part { (m : Machine S) (s : S) (requests : List Request) (j : ℕ) (next : Request)
        (rest : List Request) (front : List ℕ) → drop j requests ≡ next ∷ rest
        → length front < length (reply_text (m.reply (state_after m s requests j) next))
        → given (reply_texts m s requests) (first_texts m s requests j ++ front) ≡ j }
{}

/// How many texts are given, once these bytes are said: that many of them begin the bytes, and no
/// greater number does.
pub fn given()
    ensures said { (texts : List (List ℕ)) (bytes : List ℕ)
        → AreSaid (given texts bytes) texts bytes }
    ensures within { (texts : List (List ℕ)) (bytes : List ℕ) → given texts bytes ≤ length texts }
    ensures greatest { (texts : List (List ℕ)) (bytes : List ℕ) (j : ℕ) → j ≤ length texts
        → AreSaid j texts bytes → j ≤ given texts bytes }
{}
