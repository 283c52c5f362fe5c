//! The command `history`.

ghost use Rattle.std.specs.Prelude.{◌≡◌, ◌+◌, ◌-◌, ◌≤◌, ◌++◌, length, take, true, IfOk, OnErr};
ghost use Rattle.trap_bank.specs.Faults.{Rose};
ghost use Rattle.trap_bank.specs.Steps.{Steps, SpokePart};
ghost use Rattle.trap_bank.specs.Stream.{Stream};
ghost use Rattle.trap_array.specs.Mounting.{IsNoLog};
ghost use Rattle.trap_array.specs.Sources.{CallsAtMost};
ghost use Rattle.trap_index.specs.Indexed.{last_seq};
ghost use Rattle.trap_cli.specs.Command.{command_history};
ghost use Rattle.trap_cli.specs.History.{word, mark};
ghost use Rattle.trap_port.specs.Outgoing.{KeepsDisks};
ghost use Rattle.trap_cli.specs.Listing.{item_line, Flushed, Lists, HasListed};
ghost use Rattle.trap_cli.specs.Session.{MountsOnly};
ghost use Rattle.trap_cli.specs.Run.{CommandOutcome, only_mounts};

use crate::outcome::Ended;
use std::alloc::Global;
use trap_array::Array;
use trap_bank::{Bank, Failed};
use trap_index::Item;
use trap_model::RECORD_HEADER_BYTES;
use trap_script::text::{put, put_number};

/// One call of the port has at most this many bytes of lines.
const PIECE_BYTES: usize = 4096;

/// Four numbers of at most 20 digits with a space after each, the mark, and a line feed.
const LINE_BYTES: usize = 86;

/// Mounts the array, and says a line for each retained entry. All but the last line of the run.
pub fn run_history<B: Bank>(alloc: Global, bank: &mut B) -> Ended
    ensures outcome { (from : Stream) → CommandOutcome command_history result
        (B.view bank.old) (B.view bank.new) from from }
    ensures mounted { only_mounts command_history result ≡ true
        → MountsOnly B.view command_history result bank.old bank.new }
    ensures untouched { IsNoLog ((B.view bank.old).sizes 0) → bank.new ≡ bank.old }
{
    match Array::mount(alloc, bank) {
        Ok(array) => match say_lines(&array, bank) {
            Ok(()) => Ended::Done,
            Err(_) => Ended::Port,
        },
        Err(why) => Ended::NotMounted(why),
    }
}

// Says the lines in their order, many at once.
fn say_lines<B: Bank>(array: &Array, bank: &mut B) -> Result<(), Failed>
    requires first { array.now.index.first ≡ array.now.head.first }
    requires last { last_seq array.now.index ≡ array.now.head.last }
    ensures steps { Steps (B.view bank.old) (B.view bank.new)
        (Lists array.now) (HasListed array.now result) }
    ensures disks { KeepsDisks (B.view bank.old) (B.view bank.new) }
    ensures cause { OnErr result
        (Rose (B.view bank.old).port_faults (B.view bank.new).port_faults) }
    ensures calls { CallsAtMost (last_seq array.now.index - array.now.index.first + 1)
        (B.view bank.old) (B.view bank.new) }
{
    let span = array.span();
    let mut piece = [0u8; PIECE_BYTES];
    let mut len = 0;
    for before in span.first..span.last {
        if let Some(item) = array.entry(before + 1) {
            len = make_room(bank, &piece, len)?;
            len = put_line(&mut piece, len, before + 1, &item);
        }
    }
    bank.say(&piece[..len])
}

// Says what the piece begins with where no line has room after it, and answers where the next line
// goes.
fn make_room<B: Bank>(bank: &mut B, piece: &[u8], len: usize) -> Result<usize, Failed>
    requires within { len ≤ length piece.now }
    requires line { 86 ≤ length piece.now }
    ensures room { IfOk result (λ at. at + 86 ≤ length piece.now) }
    ensures steps { Steps (B.view bank.old) (B.view bank.new)
        (SpokePart (take len piece.now)) (Flushed piece.now len result) }
    ensures disks { KeepsDisks (B.view bank.old) (B.view bank.new) }
    ensures cause { OnErr result
        (Rose (B.view bank.old).port_faults (B.view bank.new).port_faults) }
    ensures calls { CallsAtMost 1 (B.view bank.old) (B.view bank.new) }
{
    if LINE_BYTES <= piece.len() - len {
        return Ok(len);
    }
    match bank.say(&piece[..len]) {
        Ok(()) => Ok(0),
        Err(failed) => Err(failed),
    }
}

// Writes the line of the entry with this number, and answers the place after it.
fn put_line(out: &mut [u8], at: usize, seq: u64, item: &Item) -> usize
    requires { at + 86 ≤ length out.old }
    ensures end { result ≤ at + 86 }
    ensures so_far { take result out.new ≡ take at out.old ++ item_line seq item.now }
{
    let size = RECORD_HEADER_BYTES + u64::from(item.plen) + u64::from(item.slen);
    let at = put_word(out, at, seq);
    let at = put_word(out, at, item.time);
    let at = put_word(out, at, u64::from(item.block));
    let at = put_word(out, at, size);
    put_mark(out, at, item.snap)
}

fn put_word(out: &mut [u8], at: usize, number: u64) -> usize
    requires { at + 21 ≤ length out.old }
    ensures end { result ≤ at + 21 }
    ensures so_far { take result out.new ≡ take at out.old ++ word number }
{
    let at = put_number(out, at, number);
    put(out, at, b" ")
}

fn put_mark(out: &mut [u8], at: usize, is_snap: bool) -> usize
    requires { at + 2 ≤ length out.old }
    ensures end { result ≤ at + 2 }
    ensures so_far { take result out.new ≡ take at out.old ++ mark is_snap }
{
    if is_snap {
        put(out, at, b"s\n")
    } else {
        put(out, at, b"-\n")
    }
}
