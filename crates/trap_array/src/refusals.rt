//! What an array refuses by its own numbers, before it makes a call of the bank.

ghost use Rattle.std.specs.Prelude.{◌≡◌, ◌<◌, OnOk, IfErr, false};
ghost use Rattle.trap_model.specs.Image.{volume};
ghost use Rattle.trap_array.specs.Asked.{instant_refused};
ghost use Rattle.trap_array.specs.Causes.{DeniesAtOnce};
ghost use Rattle.trap_array.specs.Instants.{number_refused, time_refused};

use crate::Denied;
use crate::instant::Instant;
use trap_index::Index;
use trap_log::Log;
use trap_model::Refusal;

/// Whether a block may be asked for: the array has it, and isn't stopped.
pub(crate) fn admit(log: &Log, is_stopped: bool, block: u64) -> Result<(), Denied>
    ensures inside { OnOk result (block < volume log.now.g) }
    ensures running { OnOk result (is_stopped ≡ false) }
    ensures denied { IfErr result (DeniesAtOnce log.now.g is_stopped block) }
{
    if block >= u64::from(log.geometry().volume()) {
        return Err(Denied::Refused(Refusal::NoBlock));
    }
    if is_stopped {
        return Err(Denied::Stopped);
    }
    Ok(())
}

/// Why an instant is refused: it isn't retained.
pub(crate) fn refusal(index: &Index, instant: Instant) -> Option<Refusal>
    ensures { result ≡ instant_refused index.now instant }
{
    match instant {
        Instant::Number(seq) => number_refusal(index, seq),
        Instant::Time(time) => time_refusal(index, time),
    }
}

/// Why a number is refused: it is below what is retained, or above the last one.
fn number_refusal(index: &Index, seq: u64) -> Option<Refusal>
    ensures { result ≡ number_refused index.now seq }
{
    if seq < index.first() {
        Some(Refusal::NotKept {
            bound: index.first(),
        })
    } else if index.last() < seq {
        Some(Refusal::Ahead { last: index.last() })
    } else {
        None
    }
}

/// Why a time is refused: it is below what is retained.
fn time_refusal(index: &Index, time: u64) -> Option<Refusal>
    ensures { result ≡ time_refused index.now time }
{
    if time < index.base_time() {
        Some(Refusal::NotKept {
            bound: index.base_time(),
        })
    } else {
        None
    }
}
