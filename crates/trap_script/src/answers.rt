//! The answers to a session's lines.

ghost use Rattle.std.specs.Prelude.{◌≡◌, ◌+◌, ◌*◌, ◌≤◌, ◌++◌, length, take};
ghost use Rattle.hex.specs.Hex.{encode_lower};
ghost use Rattle.trap_script.specs.Replies.{refusal_words, span_words, reply_words, reply_text};
ghost use Rattle.trap_script.specs.Replies.{reply_from, shown_len};

use crate::text::{put, put_number};
use trap_model::Refusal;

/// The numbers of the history.
#[derive(Debug, Clone, Copy, PartialEq, Eq)]
pub struct Span4 {
    /// The number of the base: the last entry that isn't retained.
    pub first: u64,
    /// The number of the last entry.
    pub last: u64,
    /// The time of the base.
    pub base_time: u64,
    /// The time of the last entry.
    pub last_time: u64,
}

/// The answer to a line.
#[derive(Debug, Clone, Copy)]
pub enum Answer<'a> {
    /// The write has this number, or entries up to this number are dropped.
    Kept { seq: u64 },
    /// Present contents.
    Is { bytes: &'a [u8] },
    /// Contents at an instant.
    At { bytes: &'a [u8] },
    /// The numbers of the history.
    Span { span: Span4 },
    /// The request is refused.
    No(Refusal),
}

// Writes two digits for each byte.
fn put_hex(out: &mut [u8], at: usize, bytes: &[u8]) -> usize
    requires { at + 2 * length bytes.now ≤ length out.old }
    ensures end { result ≡ at + 2 * length bytes.now }
    ensures so_far { take result out.new ≡ take at out.old ++ encode_lower bytes.now }
{
    let end = at + 2 * bytes.len();
    let _ = hex::encode_to_slice(bytes, &mut out[at..end]);
    end
}

fn put_refusal(refusal: Refusal, out: &mut [u8]) -> usize
    requires { 29 ≤ length out.old }
    ensures end { result ≤ 29 }
    ensures so_far { take result out.new ≡ refusal_words refusal }
{
    match refusal {
        Refusal::NoLine => put(out, 0, b"no line"),
        Refusal::NoBlock => put(out, 0, b"no block"),
        Refusal::TimeBack { last } => {
            let at = put(out, 0, b"no time ");
            put_number(out, at, last)
        }
        Refusal::Worn => put(out, 0, b"no worn"),
        Refusal::Full => put(out, 0, b"no full"),
        Refusal::NotKept { bound } => {
            let at = put(out, 0, b"no kept ");
            put_number(out, at, bound)
        }
        Refusal::Ahead { last } => {
            let at = put(out, 0, b"no ahead ");
            put_number(out, at, last)
        }
    }
}

fn put_span(span: Span4, out: &mut [u8]) -> usize
    requires { 86 ≤ length out.old }
    ensures end { result ≤ 86 }
    ensures so_far { take result out.new
        ≡ span_words span.first span.last span.base_time span.last_time }
{
    let at = put(out, 0, b"is ");
    let at = put_number(out, at, span.first);
    let at = put(out, at, b" ");
    let at = put_number(out, at, span.last);
    let at = put(out, at, b" ");
    let at = put_number(out, at, span.base_time);
    let at = put(out, at, b" ");
    put_number(out, at, span.last_time)
}

fn put_words(answer: &Answer, out: &mut [u8]) -> usize
    requires { 87 + 2 * shown_len answer.now ≤ length out.old }
    ensures end { result + 1 ≤ 88 + 2 * shown_len answer.now }
    ensures so_far { take result out.new ≡ reply_words (reply_from answer.now) }
{
    match answer {
        Answer::Kept { seq } => {
            let at = put(out, 0, b"ok ");
            put_number(out, at, *seq)
        }
        Answer::Is { bytes } => {
            let at = put(out, 0, b"is ");
            put_hex(out, at, bytes)
        }
        Answer::At { bytes } => {
            let at = put(out, 0, b"at ");
            put_hex(out, at, bytes)
        }
        Answer::Span { span } => put_span(*span, out),
        Answer::No(refusal) => put_refusal(*refusal, out),
    }
}

/// Writes the text of an answer with its line feed at the front of `out`, and answers how long it
/// is. `out` has room for 88 bytes and two for each byte of contents that the answer shows. What
/// stands in it after the text is not said.
pub fn write_answer(answer: &Answer, out: &mut [u8]) -> usize
    requires { 88 + 2 * shown_len answer.now ≤ length out.old }
    ensures end { result ≤ length out.new }
    ensures text { take result out.new ≡ reply_text (reply_from answer.now) }
{
    let end = put_words(answer, out);
    put(out, end, b"\n")
}
