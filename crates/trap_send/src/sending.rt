//! The frames of all entries after an instant.

ghost use Rattle.std.specs.Prelude.{◌≡◌, ◌+◌, ◌-◌, ◌*◌, ◌≤◌, length, [], false, IfErr};
ghost use Rattle.trap_bank.specs.Steps.{Steps};
ghost use Rattle.trap_array.specs.Calls.{IsReady};
ghost use Rattle.trap_array.specs.Instants.{HasInstant};
ghost use Rattle.trap_array.specs.Sources.{CallsAtMost};
ghost use Rattle.trap_index.specs.Indexed.{last_seq};
ghost use Rattle.trap_port.specs.Outgoing.{KeepsDisks};
ghost use Rattle.trap_send.specs.Pieces.{GathersInPieces, SendsInPieces};
ghost use Rattle.trap_send.specs.Sends.{Sends, HasSent, HasGathered, SendStops, send_stops_array};

use crate::framing::put_frame;
use crate::{Parcel, SendFault};
use trap_array::Array;
use trap_bank::Bank;
use trap_port::Outgoing;

/// Says the frames of the entries after number `from`, in order, many in one call. Each is read
/// from the log again. After a fault a first part of them was said.
pub fn send<B: Bank>(
    array: &mut Array,
    parcel: Parcel,
    bank: &mut B,
    from: u64,
) -> Result<(), SendFault>
    requires size { parcel ≡ array.old.g.block }
    requires running { array.old.is_stopped ≡ false }
    requires retained { HasInstant array.old.index from }
    requires last { last_seq array.old.index ≡ array.old.head.last }
    requires ready { IsReady array.old (B.view bank.old) }

    // Stopped at any moment, a first part of the frames was said, and the disks are as they were.
    ensures steps { Steps (B.view bank.old) (B.view bank.new)
        (Sends array.old (B.view bank.old) from)
        (HasSent array.old (B.view bank.old) from result) }
    ensures disks { KeepsDisks (B.view bank.old) (B.view bank.new) }
    ensures same { array.new ≡ record array.old { is_stopped = send_stops_array result } }
    ensures ready { IsReady array.new (B.view bank.new) }
    ensures cause { IfErr result (λ fault. SendStops array.old from fault (B.view bank.old)
        (B.view bank.new)) }

    // Two reads a record at most, and one call for what waits before it, which is 32 KiB at least.
    ensures calls { CallsAtMost (3 * (last_seq array.old.index - from) + 1)
        (B.view bank.old) (B.view bank.new) }
    ensures pieces { SendsInPieces array.old from (array.old.g.block + 32809) result
        (B.view bank.old) (B.view bank.new) }
{
    let Parcel {
        mut outgoing,
        mut code,
        mut frame,
        size: _,
    } = parcel;
    let gathered = gather_frames(
        array,
        bank,
        from,
        code.as_mut_slice(),
        frame.as_mut_slice(),
        &mut outgoing,
    );
    match gathered {
        Ok(()) => match outgoing.flush(bank) {
            Ok(()) => Ok(()),
            Err(_) => Err(SendFault::Port),
        },
        Err(fault) => Err(fault),
    }
}

// Lets the frames wait, one after the other, and says what waits as often as there is no room.
fn gather_frames<B: Bank>(
    array: &mut Array,
    bank: &mut B,
    from: u64,
    code: &mut [u8],
    frame: &mut [u8],
    outgoing: &mut Outgoing,
) -> Result<(), SendFault>
    requires running { array.old.is_stopped ≡ false }
    requires retained { HasInstant array.old.index from }
    requires last { last_seq array.old.index ≡ array.old.head.last }
    requires code { length code.old ≡ array.old.g.block + 7 }
    requires room { length frame.old ≡ array.old.g.block + 41 }
    requires outgoing { array.old.g.block + 41 ≤ outgoing.old.room }
    requires empty { outgoing.old.bytes ≡ [] }
    requires ready { IsReady array.old (B.view bank.old) }
    ensures steps { Steps (B.view bank.old) (B.view bank.new)
        (Sends array.old (B.view bank.old) from)
        (HasGathered array.old (B.view bank.old) from outgoing.new.bytes result) }
    ensures disks { KeepsDisks (B.view bank.old) (B.view bank.new) }
    ensures same { array.new ≡ record array.old { is_stopped = send_stops_array result } }
    ensures ready { IsReady array.new (B.view bank.new) }
    ensures cause { IfErr result (λ fault. SendStops array.old from fault (B.view bank.old)
        (B.view bank.new)) }
    ensures calls { CallsAtMost (3 * (last_seq array.old.index - from))
        (B.view bank.old) (B.view bank.new) }
    ensures pieces { GathersInPieces array.old from outgoing.old.room outgoing.new.bytes result
        (B.view bank.old) (B.view bank.new) }
{
    let last = array.span().last;
    for before in from..last {
        match put_frame(array, bank, before + 1, code, frame, outgoing) {
            Ok(()) => {}
            Err(fault) => return Err(fault),
        }
    }
    Ok(())
}
