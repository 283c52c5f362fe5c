//! Why a request is refused.

ghost use Rattle.std.specs.Prelude.{◌≡◌, ◌^◌, ◌<◌, ◌≤◌, length};
ghost use Rattle.trap_model.specs.Image.{volume, block_of};
ghost use Rattle.trap_model.specs.State.{last, image, IsValid};
ghost use Rattle.trap_model.specs.ArrayStep.{entry_of, full, write_refusal, number_refusal};
ghost use Rattle.trap_model.specs.ArrayStep.{time_refusal, refusal, IsSized};

use crate::code::change_len;
use crate::history::State;
use crate::log_record::RECORD_HEADER_BYTES;
use crate::{Block, Geometry, Refusal, Request};

/// The greatest sequence number.
const LAST_NUMBER: u64 = 1 << 40;

/// Whether there is no room for a further entry.
fn is_full(g: &Geometry, s: &State, time: u64, block: u64, bytes: &Block) -> bool
    requires valid { IsValid g.now s.now }
    requires block { block < volume g.now }
    requires size { length bytes.now ≡ g.now.block }
    ensures { result ≡ full g.now s.now (entry_of g.now s.now time block bytes.now) }
{
    let old = s.block_now(block as usize);
    let size = RECORD_HEADER_BYTES + change_len(old.as_slice(), bytes.as_slice()) as u64;
    s.entries.as_slice().len() == g.entries as usize || g.ring < s.kept() + size
}

/// Why a write to a block of the array is refused, where it is.
fn refuse_write(g: &Geometry, s: &State, time: u64, block: u64, bytes: &Block) -> Option<Refusal>
    requires valid { IsValid g.now s.now }
    requires block { block < volume g.now }
    requires size { length bytes.now ≡ g.now.block }
    ensures { result ≡ write_refusal g.now s.now (entry_of g.now s.now time block bytes.now) }
{
    let last_time = s.last_time();
    if time < last_time {
        Some(Refusal::TimeBack { last: last_time })
    } else if s.last() == LAST_NUMBER {
        Some(Refusal::Worn)
    } else if is_full(g, s, time, block, bytes) {
        Some(Refusal::Full)
    } else {
        None
    }
}

/// Why a number is refused, where it is.
fn refuse_number(s: &State, seq: u64) -> Option<Refusal>
    requires { last s.now ≤ 2 ^ 40 }
    ensures { result ≡ number_refusal s.now seq }
{
    let last = s.last();
    if seq < s.first {
        Some(Refusal::NotKept { bound: s.first })
    } else if last < seq {
        Some(Refusal::Ahead { last })
    } else {
        None
    }
}

/// Why a time is refused, where it is.
fn refuse_time(s: &State, time: u64) -> Option<Refusal>
    ensures { result ≡ time_refusal s.now time }
{
    if time < s.base_time {
        Some(Refusal::NotKept { bound: s.base_time })
    } else {
        None
    }
}

/// Why a request is refused, where it is.
pub(crate) fn refuse(g: &Geometry, s: &State, request: &Request) -> Option<Refusal>
    requires valid { IsValid g.now s.now }
    requires sized { IsSized g.now request.now }
    ensures { result ≡ refusal g.now s.now request.now }
{
    match request {
        Request::Write { block, .. }
        | Request::Read { block }
        | Request::At { block, .. }
        | Request::By { block, .. }
            if *block >= u64::from(g.volume()) => { Some(Refusal::NoBlock) }
        Request::Write { time, block, bytes } => refuse_write(g, s, *time, *block, bytes),
        Request::At { seq, .. } | Request::Keep { seq } => refuse_number(s, *seq),
        Request::By { time, .. } => refuse_time(s, *time),
        Request::Read { .. } | Request::Info | Request::Quit => None,
        Request::Bad => Some(Refusal::NoLine),
    }
}
