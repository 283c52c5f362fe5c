//! The status and the text of each fault.

ghost use Rattle.std.specs.Prelude.{◌≡◌, ◌+◌, ◌≤◌, ◌++◌, length, take, decimal};
ghost use Rattle.trap_cli.specs.Faults.{create_status, mount_status, session_status};
ghost use Rattle.trap_cli.specs.Faults.{field_name, pair, create_text, mount_text};
ghost use Rattle.trap_cli.specs.Faults.{unretained_text, replica_text, frame_text, apply_text};
ghost use Rattle.trap_cli.specs.Faults.{replica_status, frame_status, apply_status};

use crate::outcome::Unretained;
use trap_apply::ApplyFault;
use trap_array::{CreateFault, Denied, MountFault};
use trap_format::Field;
use trap_frame::FrameFault;
use trap_replica::ReplicaFault;
use trap_script::text::{put, put_number};
use trap_session::SessionFault;

pub fn create_status(why: CreateFault) -> u8
    ensures { result ≡ create_status why }
{
    match why {
        CreateFault::Exists { .. } => 3,
        CreateFault::LogFault => 6,
        CreateFault::MemberFault { .. } => 7,
    }
}

pub fn mount_status(why: MountFault) -> u8
    ensures { result ≡ mount_status why }
{
    match why {
        MountFault::NotAnArray => 3,
        MountFault::BadVersion { .. } => 3,
        MountFault::WrongMember { .. } => 5,
        MountFault::TooManyLost { .. } => 5,
        MountFault::Damaged { .. } => 4,
        MountFault::LogFault => 6,
        MountFault::MemberFault { .. } => 7,
        MountFault::OutOfMemory => 10,
    }
}

// No session ends by a refusal, or by an array that an earlier fault has stopped.
pub fn session_status(why: SessionFault) -> u8
    ensures { result ≡ session_status why }
{
    match why {
        SessionFault::Array(Denied::Refused(_)) => 6,
        SessionFault::Array(Denied::LogFault) => 6,
        SessionFault::Array(Denied::MemberFault { .. }) => 7,
        SessionFault::Array(Denied::Damaged { .. }) => 4,
        SessionFault::Array(Denied::Stopped) => 6,
        SessionFault::ReadFault => 8,
        SessionFault::WriteFault => 9,
        SessionFault::TooLong => 12,
    }
}

// Each number has at most 20 digits, and the space takes one byte more.
pub fn put_pair(out: &mut [u8], at: usize, first: u8, second: u8) -> usize
    requires { at + 41 ≤ length out.old }
    ensures end { result ≤ at + 41 }
    ensures so_far { take result out.new ≡ take at out.old ++ pair first second }
{
    let at = put_number(out, at, u64::from(first));
    let at = put(out, at, b" ");
    put_number(out, at, u64::from(second))
}

pub fn put_create(out: &mut [u8], at: usize, why: CreateFault) -> usize
    requires { at + 53 ≤ length out.old }
    ensures end { result ≤ at + 53 }
    ensures so_far { take result out.new ≡ take at out.old ++ create_text why }
{
    match why {
        CreateFault::Exists { disk } => {
            let at = put(out, at, b"exists ");
            put_number(out, at, u64::from(disk))
        }
        CreateFault::LogFault => put(out, at, b"log"),
        CreateFault::MemberFault { first, second } => {
            let at = put(out, at, b"members ");
            put_pair(out, at, first, second)
        }
    }
}

pub fn put_mount(out: &mut [u8], at: usize, why: MountFault) -> usize
    requires { at + 53 ≤ length out.old }
    ensures end { result ≤ at + 53 }
    ensures so_far { take result out.new ≡ take at out.old ++ mount_text why }
{
    match why {
        MountFault::NotAnArray => put(out, at, b"not an array"),
        MountFault::BadVersion { version } => {
            let at = put(out, at, b"version ");
            put_number(out, at, u64::from(version))
        }
        MountFault::WrongMember { member } => {
            let at = put(out, at, b"wrong member ");
            put_number(out, at, u64::from(member))
        }
        MountFault::TooManyLost { first, second } => {
            let at = put(out, at, b"lost ");
            put_pair(out, at, first, second)
        }
        MountFault::Damaged { offset } => {
            let at = put(out, at, b"damaged ");
            put_number(out, at, offset)
        }
        MountFault::LogFault => put(out, at, b"log"),
        MountFault::MemberFault { first, second } => {
            let at = put(out, at, b"members ");
            put_pair(out, at, first, second)
        }
        MountFault::OutOfMemory => put(out, at, b"memory"),
    }
}

pub fn put_field(out: &mut [u8], at: usize, field: Field) -> usize
    requires { at + 7 ≤ length out.old }
    ensures end { result ≤ at + 7 }
    ensures so_far { take result out.new ≡ take at out.old ++ field_name field }
{
    match field {
        Field::Members => put(out, at, b"members"),
        Field::Chunk => put(out, at, b"chunk"),
        Field::Block => put(out, at, b"block"),
        Field::Rows => put(out, at, b"rows"),
        Field::Volume => put(out, at, b"volume"),
        Field::Slots => put(out, at, b"slots"),
        Field::Gap => put(out, at, b"gap"),
        Field::Entries => put(out, at, b"entries"),
        Field::Ring => put(out, at, b"ring"),
        Field::Seq => put(out, at, b"seq"),
    }
}

pub fn put_unretained(out: &mut [u8], at: usize, why: Unretained) -> usize
    requires { at + 53 ≤ length out.old }
    ensures end { result ≤ at + 53 }
    ensures so_far { take result out.new ≡ take at out.old ++ unretained_text why }
{
    match why {
        Unretained::NotKept { bound } => {
            let at = put(out, at, b"not kept ");
            put_number(out, at, bound)
        }
        Unretained::Ahead { last } => {
            let at = put(out, at, b"ahead ");
            put_number(out, at, last)
        }
    }
}

pub fn replica_status(why: ReplicaFault) -> u8
    ensures { result ≡ replica_status why }
{
    match why {
        ReplicaFault::Exists { .. } => 3,
        ReplicaFault::NotAReplica => 3,
        ReplicaFault::Damaged { .. } => 4,
        ReplicaFault::DiskFault => 13,
        ReplicaFault::ReadFault => 8,
        ReplicaFault::ShortImage { .. } => 11,
        ReplicaFault::LongImage { .. } => 11,
        ReplicaFault::Stranger { .. } => 11,
        ReplicaFault::NoBlock { .. } => 11,
        ReplicaFault::Stopped => 13,
        ReplicaFault::OutOfMemory => 10,
    }
}

fn frame_status(why: FrameFault) -> u8
    ensures { result ≡ frame_status why }
{
    match why {
        FrameFault::BadFrame { .. } => 11,
        FrameFault::Cut { .. } => 11,
        FrameFault::ReadFault => 8,
        FrameFault::TooLong => 12,
    }
}

pub fn apply_status(why: ApplyFault) -> u8
    ensures { result ≡ apply_status why }
{
    match why {
        ApplyFault::Stream(why) => frame_status(why),
        ApplyFault::Replica(why) => replica_status(why),
    }
}

// Writes a word and a number, and answers the place after them.
fn put_word(out: &mut [u8], at: usize, word: &[u8], number: u64) -> usize
    requires { at + length word.now + 20 ≤ length out.old }
    ensures end { result ≤ at + length word.now + 20 }
    ensures so_far { take result out.new ≡ take at out.old ++ word.now ++ decimal number }
{
    let at = put(out, at, word);
    put_number(out, at, number)
}

pub fn put_replica(out: &mut [u8], at: usize, why: ReplicaFault) -> usize
    requires { at + 53 ≤ length out.old }
    ensures end { result ≤ at + 53 }
    ensures so_far { take result out.new ≡ take at out.old ++ replica_text why }
{
    match why {
        ReplicaFault::Exists { disk } => put_word(out, at, b"exists ", u64::from(disk)),
        ReplicaFault::NotAReplica => put(out, at, b"not a replica"),
        ReplicaFault::Damaged { offset } => put_word(out, at, b"damaged ", offset),
        ReplicaFault::DiskFault => put(out, at, b"replica"),
        ReplicaFault::ReadFault => put(out, at, b"input"),
        ReplicaFault::ShortImage { at: end } => put_word(out, at, b"short image ", end),
        ReplicaFault::LongImage { at: end } => put_word(out, at, b"long image ", end),
        ReplicaFault::Stranger { id } => put_word(out, at, b"stranger ", id),
        ReplicaFault::NoBlock { block } => put_word(out, at, b"no block ", u64::from(block)),
        ReplicaFault::Stopped => put(out, at, b"replica"),
        ReplicaFault::OutOfMemory => put(out, at, b"memory"),
    }
}

fn put_frame(out: &mut [u8], at: usize, why: FrameFault) -> usize
    requires { at + 53 ≤ length out.old }
    ensures end { result ≤ at + 53 }
    ensures so_far { take result out.new ≡ take at out.old ++ frame_text why }
{
    match why {
        FrameFault::BadFrame { at: start } => put_word(out, at, b"frame ", start),
        FrameFault::Cut { at: start } => put_word(out, at, b"cut ", start),
        FrameFault::ReadFault => put(out, at, b"input"),
        FrameFault::TooLong => put(out, at, b"too long"),
    }
}

pub fn put_apply(out: &mut [u8], at: usize, why: ApplyFault) -> usize
    requires { at + 53 ≤ length out.old }
    ensures end { result ≤ at + 53 }
    ensures so_far { take result out.new ≡ take at out.old ++ apply_text why }
{
    match why {
        ApplyFault::Stream(why) => put_frame(out, at, why),
        ApplyFault::Replica(why) => put_replica(out, at, why),
    }
}
