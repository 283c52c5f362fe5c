//! A run of the program: its words, its input and its disks give what it says and its status.

ghost use Rattle.std.specs.Prelude.{◌≡◌, ◌↔◌, ◌^◌, ◌≤◌, Option, None, true};
ghost use Rattle.trap_bank.specs.Disks.{Contents};
ghost use Rattle.trap_cli.specs.Command.{IsCommand};
ghost use Rattle.trap_cli.specs.declared.command.Command.{Command};
ghost use Rattle.trap_cli.specs.Ended.{last_line};
ghost use Rattle.trap_cli.specs.Crash.{CommandLeaves};
ghost use Rattle.trap_cli.specs.Completes.{Completes};
ghost use Rattle.trap_cli.specs.Session.{SaysInOne, AnswersMounted, MountsOnly};
ghost use Rattle.trap_cli.specs.Run.{CommandOutcome, RunOutcome, reads_input, only_mounts};
ghost use Rattle.trap_cli.specs.Run.{IsUncalled};
ghost use Rattle.trap_cli.specs.ReplicaRuns.{ReplicaGoes, ReplicaCompletes};
ghost use Rattle.trap_cli.specs.Frame.{Frames, StaysHeld};

use crate::command::{Command, read_command};
use crate::creating::run_create;
use crate::history::run_history;
use crate::last::{status, write_last};
use crate::outcome::Ended;
use crate::sending::run_send;
use crate::session::run_session;
use std::alloc::Global;
use trap_bank::{Bank, Source, Turns};
use trap_remote::{apply_frames, create_replica, export_replica, load_replica};

// Says the last line, where there is one. That the port may fail in it changes nothing.
fn say_last<B: Bank>(bank: &mut B, ended: Ended)
    ensures said { SaysInOne B.view (last_line ended) bank.old bank.new }
{
    let mut line = [0u8; 64];
    let len = write_last(ended, &mut line);
    if len > 0 {
        match bank.say(&line[..len]) {
            Ok(()) => {}
            Err(_) => {}
        }
    }
}

// What the words ask for, without the last line.
fn run_command<B: Bank, S: Source>(
    alloc: Global,
    command: &Option<Command>,
    bank: &mut B,
    source: &mut S,
) -> Ended
    requires below { (S.stream source.old).given ≤ 2 ^ 62 }
    ensures outcome { CommandOutcome command.now result (B.view bank.old) (B.view bank.new)
        (S.stream source.old) (S.stream source.new) }
    ensures lines { reads_input command.now result ≡ true
        → AnswersMounted B.view result bank.old bank.new
        (S.stream source.old) (S.stream source.new) }
    ensures mounted { only_mounts command.now result ≡ true
        → MountsOnly B.view command.now result bank.old bank.new }
    ensures replica { ReplicaGoes B.view command.now result bank.old bank.new
        (S.stream source.old) (S.stream source.new) }
    ensures untouched { IsUncalled command.now result (B.view bank.old) → bank.new ≡ bank.old }
    ensures completes { ReplicaCompletes command.now result (B.view bank.old) (B.view bank.new)
        (S.stream source.old) (S.stream source.new) }
{
    match command {
        Some(Command::Create(asked)) => run_create(bank, asked),
        Some(Command::Session) => run_session(alloc, bank, source),
        Some(Command::History) => run_history(alloc, bank),
        Some(Command::Send(seq)) => run_send(alloc, bank, *seq),
        Some(Command::ReplicaCreate(asked)) => Ended::Replica(create_replica(bank, asked)),
        Some(Command::ReplicaLoad(asked, start)) => {
            Ended::Replica(load_replica(alloc, bank, source, asked, start))
        }
        Some(Command::Apply) => Ended::Replica(apply_frames(alloc, bank, source)),
        Some(Command::ReplicaExport) => Ended::Replica(export_replica(alloc, bank)),
        None => Ended::Usage,
    }
}

/// All that the program does. The words are those after the program's name. What contracts say of
/// bytes said and of disks holds where the bank and the source tell them.
pub fn run<B: Bank, S: Source, T: Turns>(
    alloc: Global,
    words: &[String],
    bank: &mut B,
    source: &mut S,
    _turns: &mut T,
) -> u8
    requires below { (S.stream source.old).given ≤ 2 ^ 62 }
    ensures runs { (command : Option Command) → IsCommand command words.now
        → RunOutcome B.view result command bank.old bank.new
        (S.stream source.old) (S.stream source.new) }
    ensures usage { (result ≡ 2) ↔ IsCommand None words.now }

    // Over disks that hold a state, the command is done where nothing fails, unless there is no
    // memory.
    ensures completes { (command : Option Command) → IsCommand command words.now
        → Completes result command (B.view bank.old) (B.view bank.new)
        (S.stream source.old) (S.stream source.new) }

    // Whatever the disks hold, nothing changes but what the command may change, at the end and at
    // any moment.
    ensures frame { (command : Option Command) → IsCommand command words.now
        → Frames command (B.view bank.old) (B.view bank.new) }

    // A state stays held. A member that wasn't recorded lost on entry is so only where its disk was
    // absent.
    ensures held { StaysHeld (B.view bank.old) (B.view bank.new) }
    ensures turns { _turns.new ≡ _turns.old }

    // What a crash at any moment of the run leaves.
    ensures any_moment { (command : Option Command) → IsCommand command words.now
        → (c : Contents) → (B.view bank.new).left (B.view bank.old).moment c
        → CommandLeaves command (B.view bank.old) (S.stream source.old)
        (B.view bank.old).now.said c }
{
    let command = read_command(words);
    let ended = run_command(alloc, &command, bank, source);
    say_last(bank, ended);
    status(ended)
}
