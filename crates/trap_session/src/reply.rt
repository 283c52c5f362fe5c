//! The reply to a line, or to one that is refused.

ghost use Rattle.std.specs.Prelude.{◌≡◌, ◌+◌, ◌*◌, ◌≤◌, length, IfOk, IfErr};
ghost use Rattle.trap_bank.specs.Calls.{Says};
ghost use Rattle.trap_script.specs.Replies.{reply_text, reply_from, shown_len};
ghost use Rattle.trap_session.specs.Answers.{SaidInOneCall};
ghost use Rattle.trap_session.specs.Denying.{EndsSession};

use crate::{Next, SessionFault};
use trap_array::Denied;
use trap_bank::Bank;
use trap_model::Refusal;
use trap_script::{Answer, write_answer};

// Says the answer's text in one call.
pub fn say_answer<B: Bank>(
    bank: &mut B,
    answer: &Answer,
    out: &mut [u8],
) -> Result<Next, SessionFault>
    requires { 88 + 2 * shown_len answer.now ≤ length out.old }
    ensures says { Says (reply_text (reply_from answer.now)) result
        (B.view bank.old) (B.view bank.new) }
    ensures once { SaidInOneCall (B.view bank.old) (B.view bank.new) }
    ensures no_quit { IfOk result (λ next. next ≡ Next.More) }
    ensures port { IfErr result (λ fault. fault ≡ SessionFault.WriteFault) }
{
    let len = write_answer(answer, out);
    match bank.say(&out[..len]) {
        Ok(()) => Ok(Next::More),
        Err(_) => Err(SessionFault::WriteFault),
    }
}

// Why a line is refused. Every other answer of the array ends the session.
pub fn refusal_of(denied: Denied) -> Result<Refusal, SessionFault>
    ensures ok { IfOk result (λ why. denied ≡ Denied.Refused why) }
    ensures err { IfErr result (λ fault. (fault ≡ SessionFault.Array denied) × EndsSession denied) }
{
    match denied {
        Denied::Refused(why) => Ok(why),
        Denied::LogFault => Err(SessionFault::Array(Denied::LogFault)),
        Denied::MemberFault { first, second } => {
            Err(SessionFault::Array(Denied::MemberFault { first, second }))
        }
        Denied::Damaged { offset } => Err(SessionFault::Array(Denied::Damaged { offset })),
        Denied::Stopped => Err(SessionFault::Array(Denied::Stopped)),
    }
}
