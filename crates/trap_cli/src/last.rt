//! The texts of a run: its last line, and what `create` says.

ghost use Rattle.std.specs.Prelude.{◌≡◌, ◌≤◌, length, take};
ghost use Rattle.trap_cli.specs.Ended.{status_of, session_line, last_line, end_line, created_line};
ghost use Rattle.trap_cli.specs.Faults.{end_status};

use crate::faults::{
    apply_status, create_status, mount_status, put_apply, put_create, put_field, put_mount,
    put_pair, put_replica, put_unretained, replica_status, session_status,
};
use crate::outcome::Ended;
use trap_array::Denied;
use trap_remote::ReplicaEnd;
use trap_script::text::{put, put_number};
use trap_session::SessionFault;

/// The exit status.
pub fn status(ended: Ended) -> u8
    ensures { result ≡ status_of ended }
{
    match ended {
        Ended::Done => 0,
        Ended::Usage => 2,
        Ended::BadGeometry(_) => 3,
        Ended::NotCreated(why) => create_status(why),
        Ended::NotMounted(why) => mount_status(why),
        Ended::NotRetained(_) => 14,
        Ended::Stopped(why) => session_status(why),
        Ended::Port => 9,
        Ended::Memory => 10,
        Ended::Replica(end) => end_status(end),
    }
}

fn end_status(end: ReplicaEnd) -> u8
    ensures { result ≡ end_status end }
{
    match end {
        ReplicaEnd::Done => 0,
        ReplicaEnd::Memory => 10,
        ReplicaEnd::Port => 9,
        ReplicaEnd::BadGeometry(_) => 3,
        ReplicaEnd::NoReplica(why) => replica_status(why),
        ReplicaEnd::NotMade(why) => replica_status(why),
        ReplicaEnd::NotApplied(why) => apply_status(why),
        ReplicaEnd::NotExported => 13,
    }
}

fn write_session(why: SessionFault, out: &mut [u8]) -> usize
    requires { 64 ≤ length out.old }
    ensures end { result ≤ length out.new }
    ensures text { take result out.new ≡ session_line why }
{
    match why {
        SessionFault::Array(Denied::MemberFault { first, second }) => {
            let at = put(out, 0, b"fault members ");
            let at = put_pair(out, at, first, second);
            put(out, at, b"\n")
        }
        SessionFault::Array(Denied::Damaged { offset }) => {
            let at = put(out, 0, b"fault damaged ");
            let at = put_number(out, at, offset);
            put(out, at, b"\n")
        }
        SessionFault::Array(_) => put(out, 0, b"fault log\n"),
        SessionFault::ReadFault => put(out, 0, b"fault input\n"),
        SessionFault::WriteFault => 0,
        SessionFault::TooLong => put(out, 0, b"fault too long\n"),
    }
}

fn write_end(end: ReplicaEnd, out: &mut [u8]) -> usize
    requires { 64 ≤ length out.old }
    ensures end { result ≤ length out.new }
    ensures text { take result out.new ≡ end_line end }
{
    match end {
        ReplicaEnd::Done => 0,
        ReplicaEnd::Memory => put(out, 0, b"fault memory\n"),
        ReplicaEnd::Port => 0,
        ReplicaEnd::BadGeometry(field) => {
            let at = put(out, 0, b"fault geometry ");
            let at = put_field(out, at, field);
            put(out, at, b"\n")
        }
        ReplicaEnd::NoReplica(why) | ReplicaEnd::NotMade(why) => {
            let at = put(out, 0, b"fault ");
            let at = put_replica(out, at, why);
            put(out, at, b"\n")
        }
        ReplicaEnd::NotApplied(why) => {
            let at = put(out, 0, b"fault ");
            let at = put_apply(out, at, why);
            put(out, at, b"\n")
        }
        ReplicaEnd::NotExported => put(out, 0, b"fault replica\n"),
    }
}

/// Writes the last line at the front of `out`, which has room for 64 bytes, and answers how long it
/// is.
pub fn write_last(ended: Ended, out: &mut [u8]) -> usize
    requires { 64 ≤ length out.old }
    ensures end { result ≤ length out.new }
    ensures text { take result out.new ≡ last_line ended }
{
    match ended {
        Ended::Done => 0,
        Ended::Usage => put(out, 0, b"fault usage\n"),
        Ended::BadGeometry(field) => {
            let at = put(out, 0, b"fault geometry ");
            let at = put_field(out, at, field);
            put(out, at, b"\n")
        }
        Ended::NotCreated(why) => {
            let at = put(out, 0, b"fault ");
            let at = put_create(out, at, why);
            put(out, at, b"\n")
        }
        Ended::NotMounted(why) => {
            let at = put(out, 0, b"fault ");
            let at = put_mount(out, at, why);
            put(out, at, b"\n")
        }
        Ended::NotRetained(why) => {
            let at = put(out, 0, b"fault ");
            let at = put_unretained(out, at, why);
            put(out, at, b"\n")
        }
        Ended::Stopped(why) => write_session(why, out),
        Ended::Port => 0,
        Ended::Memory => put(out, 0, b"fault memory\n"),
        Ended::Replica(end) => write_end(end, out),
    }
}

/// Writes what `create` says at the front of `out`, which has room for 64 bytes, and answers how
/// long it is.
pub fn write_created(id: u64, out: &mut [u8]) -> usize
    requires { 64 ≤ length out.old }
    ensures end { result ≤ length out.new }
    ensures text { take result out.new ≡ created_line id }
{
    let at = put(out, 0, b"created ");
    let at = put_number(out, at, id);
    put(out, at, b"\n")
}
