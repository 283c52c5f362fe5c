//! The words after the program's name.

ghost use Rattle.std.specs.Prelude.{◌≡◌, length, IfNone, IfSome};
ghost use Rattle.trap_model.specs.declared.asked.Asked.{Asked};
ghost use Rattle.trap_remote.specs.declared.outcome.AskedReplica.{AskedReplica};
ghost use Rattle.trap_remote.specs.declared.outcome.Start.{Start};
ghost use Rattle.trap_cli.specs.Command.{IsCommand, AreNumbers, array_numbers};
ghost use Rattle.trap_cli.specs.Command.{replica_numbers, image_numbers};

use trap_model::Asked;
use trap_remote::{AskedReplica, Start};
use trap_script::read_number;

/// What the program is to do.
#[derive(Debug, Clone, Copy, PartialEq, Eq)]
pub enum Command {
    /// Make an array of these numbers, if they are within their limits.
    Create(Asked),
    /// Answer the lines of the input.
    Session,
    /// Say a line for each retained entry.
    History,
    /// Say the frames of the entries after this number.
    Send(u64),
    /// Make a replica of these numbers that holds zeros.
    ReplicaCreate(AskedReplica),
    /// Make a replica that holds the input's image, which begins with this number and time.
    ReplicaLoad(AskedReplica, Start),
    /// Apply the frames of the input to the replica.
    Apply,
    /// Say the image of the replica.
    ReplicaExport,
}

/// The command that the words are, if they are one.
pub fn read_command(words: &[String]) -> Option<Command>
    ensures { IsCommand result words.now }
{
    if words.len() == 1 {
        return read_alone(words);
    }
    if words.len() == 2 {
        return read_send(words);
    }
    if words.len() == 4 {
        return read_replica_create(words);
    }
    if words.len() == 6 {
        return read_replica_load(words);
    }
    if words.len() == 10 {
        return read_create(words);
    }
    None
}

// A command that has no numbers.
fn read_alone(words: &[String]) -> Option<Command>
    requires { length words.now ≡ 1 }
    ensures { IsCommand result words.now }
{
    let name = words[0].as_str();
    if name == "session" {
        return Some(Command::Session);
    }
    if name == "history" {
        return Some(Command::History);
    }
    if name == "apply" {
        return Some(Command::Apply);
    }
    if name == "replica-export" {
        return Some(Command::ReplicaExport);
    }
    None
}

fn read_send(words: &[String]) -> Option<Command>
    requires { length words.now ≡ 2 }
    ensures { IsCommand result words.now }
{
    if words[0].as_str() != "send" {
        return None;
    }
    match read_number(words[1].as_bytes()) {
        Some(seq) => Some(Command::Send(seq)),
        None => None,
    }
}

fn read_replica_create(words: &[String]) -> Option<Command>
    requires { length words.now ≡ 4 }
    ensures { IsCommand result words.now }
{
    if words[0].as_str() != "replica-create" {
        return None;
    }
    match read_replica(&words[1..]) {
        Some(asked) => Some(Command::ReplicaCreate(asked)),
        None => None,
    }
}

fn read_replica_load(words: &[String]) -> Option<Command>
    requires { length words.now ≡ 6 }
    ensures { IsCommand result words.now }
{
    if words[0].as_str() != "replica-load" {
        return None;
    }
    match read_image(&words[1..]) {
        Some((asked, start)) => Some(Command::ReplicaLoad(asked, start)),
        None => None,
    }
}

fn read_create(words: &[String]) -> Option<Command>
    requires { length words.now ≡ 10 }
    ensures { IsCommand result words.now }
{
    if words[0].as_str() != "create" {
        return None;
    }
    match read_array(&words[1..]) {
        Some(asked) => Some(Command::Create(asked)),
        None => None,
    }
}

// The numbers of a replica, if each of three words is one.
fn read_replica(words: &[String]) -> Option<AskedReplica>
    requires { length words.now ≡ 3 }
    ensures some { IfSome result (λ asked. AreNumbers words.now (replica_numbers asked)) }
    ensures none { IfNone result ((asked : AskedReplica)
        → AreNumbers words.now (replica_numbers asked) → ⊥) }
{
    Some(AskedReplica {
        id: read_number(words[0].as_bytes())?,
        block: read_number(words[1].as_bytes())?,
        volume: read_number(words[2].as_bytes())?,
    })
}

// The numbers of a replica and of its image, if each of five words is one.
fn read_image(words: &[String]) -> Option<(AskedReplica, Start)>
    requires { length words.now ≡ 5 }
    ensures some { IfSome result (λ both. AreNumbers words.now (image_numbers both.0 both.1)) }
    ensures none { IfNone result ((asked : AskedReplica) (start : Start)
        → AreNumbers words.now (image_numbers asked start) → ⊥) }
{
    let asked = AskedReplica {
        id: read_number(words[0].as_bytes())?,
        block: read_number(words[1].as_bytes())?,
        volume: read_number(words[2].as_bytes())?,
    };
    let start = Start {
        seq: read_number(words[3].as_bytes())?,
        time: read_number(words[4].as_bytes())?,
    };
    Some((asked, start))
}

// The numbers of an array, if each of nine words is one.
fn read_array(words: &[String]) -> Option<Asked>
    requires { length words.now ≡ 9 }
    ensures some { IfSome result (λ asked. AreNumbers words.now (array_numbers asked)) }
    ensures none { IfNone result ((asked : Asked)
        → AreNumbers words.now (array_numbers asked) → ⊥) }
{
    Some(Asked {
        id: read_number(words[0].as_bytes())?,
        members: read_number(words[1].as_bytes())?,
        chunk: read_number(words[2].as_bytes())?,
        block: read_number(words[3].as_bytes())?,
        rows: read_number(words[4].as_bytes())?,
        slots: read_number(words[5].as_bytes())?,
        gap: read_number(words[6].as_bytes())?,
        entries: read_number(words[7].as_bytes())?,
        ring: read_number(words[8].as_bytes())?,
    })
}
