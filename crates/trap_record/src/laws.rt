//! Laws of reading. Each is a function with no body, and its contract is the law.

ghost use Rattle.std.specs.Prelude.{◌≡◌, ℕ, ◌^◌, ◌<◌, List, ◌++◌, length};
ghost use Rattle.trap_model.specs.LogRecord.{LogRecord};
ghost use Rattle.trap_record.specs.Reading.{ReadsAs};

use crate::ReadRec;
use trap_model::LogRec;

/// Reading has one answer.
pub fn one_answer()
    ensures { (size : ℕ) (bytes : List ℕ) (a b : ReadRec) → size < 2 ^ 15
        → ReadsAs size bytes a → ReadsAs size bytes b → a ≡ b }
{}

/// What was written is read again, whatever follows it.
pub fn read_again()
    ensures { (size : ℕ) (r : LogRec) (p s x more : List ℕ) (answer : ReadRec) → size < 2 ^ 15
        → LogRecord size r p s x → ReadsAs size (x ++ more) answer
        → answer ≡ ReadRec.Whole r (length x) }
{}
