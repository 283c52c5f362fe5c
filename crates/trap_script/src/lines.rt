//! The lines of a session.

ghost use Rattle.std.specs.Prelude.{◌≡◌, ◌+◌, ◌*◌, ◌≤◌, ◌∷◌, ℕ, List, length};
ghost use Rattle.std.specs.List.{slice_split};
ghost use Rattle.std.specs.Option.{option_copied};
ghost use Rattle.trap_script.specs.Lines.{is_space, is_letter, fields_after, read_form, write_form};
ghost use Rattle.trap_script.specs.Lines.{quit_form, two_numbers, at_form, by_form, info_form};
ghost use Rattle.trap_script.specs.Lines.{longest_line, request_of, request_with, LeavesBuffer};

use crate::digits::decode_to_slice;
use crate::read_number;

/// A line of a session. Numbers are as the line has them, in range or not.
#[derive(Debug, Clone, Copy, PartialEq, Eq)]
pub enum Line {
    /// Write the block; its new contents stand in the buffer beside the line.
    Write { time: u64, block: u64 },
    /// The present contents of the block.
    Read { block: u64 },
    /// The contents after the entry with this number.
    At { seq: u64, block: u64 },
    /// The contents after all entries with a time of at most this one.
    By { time: u64, block: u64 },
    /// The numbers of the history.
    Info,
    /// Drop the entries up to this number.
    Keep { seq: u64 },
    /// End the session.
    Quit,
    /// The line has no form.
    Bad,
}

// The first field, and what stands after the space that ends it.
fn cut_field(line: &[u8]) -> (&[u8], Option<&[u8]>)
    ensures { slice_split is_space line.now ≡ result.0.now ∷ fields_after (option_copied result.1) }
{
    match line.iter().position(|byte| *byte == b' ') {
        Some(at) => (&line[..at], Some(&line[at + 1..])),
        None => (line, None),
    }
}

// Whether the name is this one letter.
fn is_letter(name: &[u8], letter: u8) -> bool
    ensures { result ≡ is_letter name.now letter }
{
    name.len() == 1 && name[0] == letter
}

// `Q`
fn quit_form(rest: Option<&[u8]>) -> Line
    ensures asked { (fresh : List ℕ)
        → quit_form (fields_after (option_copied rest.entry)) ≡ request_with result fresh }
{
    match rest {
        None => Line::Quit,
        Some(_) => Line::Bad,
    }
}

// `R BLOCK`
fn read_form(rest: Option<&[u8]>) -> Line
    ensures asked { (fresh : List ℕ)
        → read_form (fields_after (option_copied rest.entry)) ≡ request_with result fresh }
{
    let Some(rest) = rest else {
        return Line::Bad;
    };
    let (block, more) = cut_field(rest);
    if let Some(_) = more {
        return Line::Bad;
    }
    let Some(block) = read_number(block) else {
        return Line::Bad;
    };
    Line::Read { block }
}

// `W TIME BLOCK HEX`
fn write_form(rest: Option<&[u8]>, fresh: &mut [u8]) -> Line
    ensures asked { write_form (length fresh.old) (fields_after (option_copied rest.entry))
        ≡ request_with result fresh.new }
    ensures buffer { LeavesBuffer result fresh.old fresh.new }
{
    let Some(rest) = rest else {
        return Line::Bad;
    };
    let (time, later) = cut_field(rest);
    let Some(later) = later else {
        return Line::Bad;
    };
    let (block, digits) = cut_field(later);
    let Some(digits) = digits else {
        return Line::Bad;
    };
    let Some(time) = read_number(time) else {
        return Line::Bad;
    };
    let Some(block) = read_number(block) else {
        return Line::Bad;
    };
    // A space is no digit, so a fourth field makes the digits bad.
    match decode_to_slice(digits, fresh) {
        Ok(()) => Line::Write { time, block },
        Err(_) => Line::Bad,
    }
}

// Two fields, each a number.
fn two_numbers(rest: Option<&[u8]>) -> Option<(u64, u64)>
    ensures { result ≡ two_numbers (fields_after (option_copied rest.entry)) }
{
    let (first, later) = cut_field(rest?);
    let (second, more) = cut_field(later?);
    if let Some(_) = more {
        return None;
    }
    let first = read_number(first)?;
    let second = read_number(second)?;
    Some((first, second))
}

// `A SEQ BLOCK`
fn at_form(rest: Option<&[u8]>) -> Line
    ensures asked { (fresh : List ℕ)
        → at_form (fields_after (option_copied rest.entry)) ≡ request_with result fresh }
{
    match two_numbers(rest) {
        Some((seq, block)) => Line::At { seq, block },
        None => Line::Bad,
    }
}

// `T TIME BLOCK`
fn by_form(rest: Option<&[u8]>) -> Line
    ensures asked { (fresh : List ℕ)
        → by_form (fields_after (option_copied rest.entry)) ≡ request_with result fresh }
{
    match two_numbers(rest) {
        Some((time, block)) => Line::By { time, block },
        None => Line::Bad,
    }
}

// `I`
fn info_form(rest: Option<&[u8]>) -> Line
    ensures asked { (fresh : List ℕ)
        → info_form (fields_after (option_copied rest.entry)) ≡ request_with result fresh }
{
    match rest {
        None => Line::Info,
        Some(_) => Line::Bad,
    }
}

/// How many bytes the longest line has that has a form, over blocks of that size.
pub fn longest_line(size: usize) -> usize
    requires { size ≤ 4096 }
    ensures { result ≡ longest_line size }
{
    44 + 2 * size
}

/// Reads a line without its line feed; `fresh` has as many bytes as a block, at most 4096. For a
/// write `fresh` then holds the block's new contents. After a line without a form it holds any
/// bytes, and after every other line it is as it was. `Bad` comes exactly where the line has no
/// form.
pub fn read_line(line: &[u8], fresh: &mut [u8]) -> Line
    requires { length fresh.old ≤ 4096 }
    ensures request { request_of (length fresh.old) line.now ≡ request_with result fresh.new }
    ensures buffer { LeavesBuffer result fresh.old fresh.new }
{
    if line.len() > longest_line(fresh.len()) {
        return Line::Bad;
    }
    let (name, rest) = cut_field(line);
    if is_letter(name, b'Q') {
        quit_form(rest)
    } else if is_letter(name, b'R') {
        read_form(rest)
    } else if is_letter(name, b'W') {
        write_form(rest, fresh)
    } else if is_letter(name, b'A') {
        at_form(rest)
    } else if is_letter(name, b'T') {
        by_form(rest)
    } else if is_letter(name, b'I') {
        info_form(rest)
    } else {
        Line::Bad
    }
}
