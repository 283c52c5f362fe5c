//! The command `send`.

ghost use Rattle.std.specs.Prelude.{◌≡◌, true, false};
ghost use Rattle.trap_bank.specs.Steps.{Steps};
ghost use Rattle.trap_bank.specs.Stream.{Stream};
ghost use Rattle.trap_index.specs.Indexed.{last_seq};
ghost use Rattle.trap_array.specs.Calls.{IsReady};
ghost use Rattle.trap_array.specs.Mounting.{IsNoLog};
ghost use Rattle.trap_port.specs.Outgoing.{KeepsDisks};
ghost use Rattle.trap_cli.specs.Command.{command_send};
ghost use Rattle.trap_cli.specs.Sending.{SendsInside, SaysFrames, FramesCause};
ghost use Rattle.trap_cli.specs.Session.{MountsOnly, CallsFound};
ghost use Rattle.trap_cli.specs.Run.{CommandOutcome, only_mounts};

use crate::outcome::{Ended, Unretained};
use std::alloc::Global;
use trap_array::Array;
use trap_bank::Bank;
use trap_send::{Parcel, SendFault, send};
use trap_session::SessionFault;

/// Mounts the array, and says the frames of the entries after number `seq`. All but the last line
/// of the run.
pub fn run_send<B: Bank>(alloc: Global, bank: &mut B, seq: u64) -> Ended
    ensures outcome { (from : Stream) → CommandOutcome (command_send seq) result
        (B.view bank.old) (B.view bank.new) from from }
    ensures mounted { only_mounts (command_send seq) result ≡ true
        → MountsOnly B.view (command_send seq) result bank.old bank.new }
    ensures untouched { IsNoLog ((B.view bank.old).sizes 0) → bank.new ≡ bank.old }
{
    match Array::mount(alloc, bank) {
        Ok(array) => say_frames(alloc, array, bank, seq),
        Err(why) => Ended::NotMounted(why),
    }
}

// Says the frames of a mounted array, where it has that instant. Before that nothing is said.
fn say_frames<B: Bank>(alloc: Global, mut array: Array, bank: &mut B, seq: u64) -> Ended
    requires first { array.index.first ≡ array.head.first }
    requires last { last_seq array.index ≡ array.head.last }
    requires running { array.is_stopped ≡ false }
    requires ready { IsReady array (B.view bank.old) }
    ensures steps { Steps (B.view bank.old) (B.view bank.new)
        (SendsInside array (B.view bank.old) seq)
        (SaysFrames array (B.view bank.old) seq result) }
    ensures disks { KeepsDisks (B.view bank.old) (B.view bank.new) }
    ensures cause { FramesCause array seq result (B.view bank.old) (B.view bank.new) }
    ensures calls { CallsFound B.view (command_send seq) array result bank.old bank.new }
{
    let span = array.span();
    if seq < span.first {
        return Ended::NotRetained(Unretained::NotKept { bound: span.first });
    }
    if span.last < seq {
        return Ended::NotRetained(Unretained::Ahead { last: span.last });
    }
    let Ok(parcel) = Parcel::new(alloc, usize::from(array.geometry().block)) else {
        return Ended::Memory;
    };
    match send(&mut array, parcel, bank, seq) {
        Ok(()) => Ended::Done,
        Err(SendFault::Array(why)) => Ended::Stopped(SessionFault::Array(why)),
        Err(SendFault::Port) => Ended::Port,
    }
}
