//! The command `session`.

ghost use Rattle.std.specs.Prelude.{◌≡◌, ◌+◌, ◌^◌, ◌<◌, ◌≤◌, ℕ, true, false};
ghost use Rattle.trap_bank.specs.Steps.{Steps};
ghost use Rattle.trap_array.specs.Calls.{IsReady};
ghost use Rattle.trap_array.specs.Mounting.{IsNoLog};
ghost use Rattle.trap_session.specs.Serving.{Serves};
ghost use Rattle.trap_cli.specs.Command.{command_session};
ghost use Rattle.trap_cli.specs.Said.{ServedSaid, ServedCause, LeavesMounted};
ghost use Rattle.trap_cli.specs.Session.{AnswersLines, AnswersMounted, MountsOnly};
ghost use Rattle.trap_cli.specs.Run.{CommandOutcome, reads_input, only_mounts};

use crate::outcome::Ended;
use std::alloc::Global;
use trap_array::Array;
use trap_bank::{Bank, Source};
use trap_session::Session;

/// Mounts the array, and answers the lines of the input. All but the last line of the run.
pub fn run_session<B: Bank, S: Source>(alloc: Global, bank: &mut B, source: &mut S) -> Ended
    requires below { (S.stream source.old).given ≤ 2 ^ 62 }
    ensures outcome { CommandOutcome command_session result (B.view bank.old) (B.view bank.new)
        (S.stream source.old) (S.stream source.new) }
    ensures lines { reads_input command_session result ≡ true
        → AnswersMounted B.view result bank.old bank.new
        (S.stream source.old) (S.stream source.new) }
    ensures mounted { only_mounts command_session result ≡ true
        → MountsOnly B.view command_session result bank.old bank.new }
    ensures untouched { IsNoLog ((B.view bank.old).sizes 0) → bank.new ≡ bank.old }
{
    match Array::mount(alloc, bank) {
        Ok(array) => answer_lines(alloc, array, bank, source),
        Err(why) => Ended::NotMounted(why),
    }
}

// Takes the session's memory before the first byte is read, and answers the lines.
fn answer_lines<B: Bank, S: Source>(
    alloc: Global,
    mut array: Array,
    bank: &mut B,
    source: &mut S,
) -> Ended
    requires running { array.is_stopped ≡ false }
    requires ready { IsReady array (B.view bank.old) }
    requires below { (S.stream source.old).given ≤ 2 ^ 62 }
    ensures steps { Steps (B.view bank.old) (B.view bank.new)
        (Serves array (B.view bank.old) (S.stream source.old))
        (ServedSaid array (B.view bank.old) result (S.stream source.old) (S.stream source.new)) }
    ensures leaves { LeavesMounted array result (B.view bank.old) (B.view bank.new)
        (S.stream source.old) (S.stream source.new) }
    ensures lines { reads_input command_session result ≡ true
        → AnswersLines B.view array result bank.old bank.new
        (S.stream source.old) (S.stream source.new) }
    ensures idle { result ≡ Ended.Memory → (bank.new ≡ bank.old)
        × (S.stream source.new ≡ S.stream source.old) }
    ensures cause { ServedCause array result (B.view bank.old) (B.view bank.new)
        (S.stream source.old) (S.stream source.new) }
{
    let g = array.geometry();
    let Ok(session) = Session::new(alloc, &g) else {
        return Ended::Memory;
    };
    match session.serve(&mut array, bank, source) {
        Ok(_) => Ended::Done,
        Err(why) => Ended::Stopped(why),
    }
}
