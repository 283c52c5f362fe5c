//! The lines that say that a replica is made.

ghost use Rattle.std.specs.Prelude.{◌≡◌, ◌+◌, ◌≤◌, ◌++◌, length, take, codes, decimal};
ghost use Rattle.trap_bank.specs.Calls.{Says};
ghost use Rattle.trap_remote.specs.Ended.{created_line, loaded_line};

use trap_apply::put_word_number;
use trap_bank::{Bank, Failed};
use trap_script::text::put;

// Writes a word and a number, and answers how long the line is.
fn write_line(word: &[u8], number: u64, out: &mut [u8]) -> usize
    requires { length word.now + 21 ≤ length out.old }
    ensures end { result ≤ length out.new }
    ensures text { take result out.new ≡ word.now ++ decimal number ++ codes "\n" }
{
    let at = put_word_number(out, 0, word, number);
    put(out, at, b"\n")
}

/// Says that the replica of this array is made.
pub(crate) fn say_created<B: Bank>(bank: &mut B, id: u64) -> Result<(), Failed>
    ensures { Says (created_line id) result (B.view bank.old) (B.view bank.new) }
{
    let mut line = [0u8; 64];
    let len = write_line(b"created ", id, &mut line);
    bank.say(&line[..len])
}

/// Says that an image with this number is loaded.
pub(crate) fn say_loaded<B: Bank>(bank: &mut B, seq: u64) -> Result<(), Failed>
    ensures { Says (loaded_line seq) result (B.view bank.old) (B.view bank.new) }
{
    let mut line = [0u8; 64];
    let len = write_line(b"loaded ", seq, &mut line);
    bank.say(&line[..len])
}
