//! The frame of one retained entry.

ghost use Rattle.std.specs.Prelude.{◌≡◌, ◌+◌, ◌≤◌, length, take, false, IfOk, IfErr, OnOk};
ghost use Rattle.trap_bank.specs.Steps.{Steps, SpokePart, OnlyReads};
ghost use Rattle.trap_array.specs.Calls.{IsReady, is_fault};
ghost use Rattle.trap_array.specs.Instants.{HasEntry};
ghost use Rattle.trap_array.specs.Sources.{CallsAtMost};
ghost use Rattle.trap_index.specs.Indexed.{item_at};
ghost use Rattle.trap_port.specs.Outgoing.{KeepsDisks};
ghost use Rattle.trap_send.specs.EntryFrames.{frame_of_item, IsEntryFrame};
ghost use Rattle.trap_send.specs.Pieces.{PutsInRoom, frame_size};
ghost use Rattle.trap_send.specs.Sends.{PutsFrame, FailsEntry, StopsSending, send_stops_array};

use crate::SendFault;
use trap_array::{Array, Denied};
use trap_bank::Bank;
use trap_frame::{Frame, spell};
use trap_index::Item;
use trap_port::Outgoing;

// The header of the frame of the entry with this item.
fn frame_of(id: u64, seq: u64, item: &Item) -> Frame
    ensures { result ≡ frame_of_item id seq item.now }
{
    Frame {
        id,
        seq,
        time: item.time,
        block: item.block,
        length: item.plen,
    }
}

// What is known of a retained entry.
fn item_of(array: &Array, seq: u64) -> Item
    requires { HasEntry array.now.index seq }
    ensures { result ≡ item_at array.now.index seq }
{
    match array.entry(seq) {
        Some(item) => item,
        None => unreachable!(),
    }
}

/// Writes the frame of the retained entry `seq` at the front of `frame`, and answers its length.
/// `code` has room for a code, and holds any bytes then.
pub fn spell_frame<B: Bank>(
    array: &mut Array,
    bank: &mut B,
    seq: u64,
    code: &mut [u8],
    frame: &mut [u8],
) -> Result<usize, Denied>
    requires entry { HasEntry array.old.index seq }
    requires running { array.old.is_stopped ≡ false }
    requires code { length code.old ≡ array.old.g.block + 7 }
    requires room { length frame.old ≡ array.old.g.block + 41 }
    requires ready { IsReady array.old (B.view bank.old) }
    ensures frame { IfOk result (λ len. (len ≤ array.old.g.block + 41)
        × IsEntryFrame array.old (B.view bank.old) seq (take len frame.new)) }
    ensures same { array.new ≡ record array.old { is_stopped = is_fault result } }
    ensures ready { IsReady array.new (B.view bank.new) }
    ensures fails { IfErr result (λ denied. FailsEntry array.old seq denied (B.view bank.old)
        (B.view bank.new)) }
    ensures calls { CallsAtMost 2 (B.view bank.old) (B.view bank.new) }
    ensures any_moment { OnlyReads (B.view bank.old) (B.view bank.new) }
{
    let item = item_of(array, seq);
    match array.coded(bank, seq, code) {
        Ok(len) => {
            let header = frame_of(array.geometry().id, seq, &item);
            Ok(spell(&header, &code[..len], frame))
        }
        Err(denied) => Err(denied),
    }
}

/// Lets the frame of the retained entry `seq` wait after what waits, which is said first where
/// there is no room. `code` and `frame` hold any bytes then.
pub fn put_frame<B: Bank>(
    array: &mut Array,
    bank: &mut B,
    seq: u64,
    code: &mut [u8],
    frame: &mut [u8],
    outgoing: &mut Outgoing,
) -> Result<(), SendFault>
    requires entry { HasEntry array.old.index seq }
    requires running { array.old.is_stopped ≡ false }
    requires code { length code.old ≡ array.old.g.block + 7 }
    requires room { length frame.old ≡ array.old.g.block + 41 }
    requires outgoing { array.old.g.block + 41 ≤ outgoing.old.room }
    requires ready { IsReady array.old (B.view bank.old) }
    ensures steps { Steps (B.view bank.old) (B.view bank.new) (SpokePart outgoing.old.bytes)
        (PutsFrame array.old (B.view bank.old) seq outgoing.old.bytes outgoing.new.bytes
        result) }
    ensures room { outgoing.new.room ≡ outgoing.old.room }
    ensures disks { KeepsDisks (B.view bank.old) (B.view bank.new) }
    ensures same { array.new ≡ record array.old { is_stopped = send_stops_array result } }
    ensures ready { IsReady array.new (B.view bank.new) }
    ensures cause { IfErr result (λ fault. StopsSending array.old seq fault (B.view bank.old)
        (B.view bank.new)) }
    ensures calls { CallsAtMost 3 (B.view bank.old) (B.view bank.new) }
    ensures pieces { OnOk result (PutsInRoom array.old.g.block (frame_size array.old seq)
        outgoing.old outgoing.new (B.view bank.old) (B.view bank.new)) }
{
    let len = match spell_frame(array, bank, seq, code, frame) {
        Ok(len) => len,
        Err(denied) => return Err(SendFault::Array(denied)),
    };
    match outgoing.make_room(bank, len) {
        Ok(()) => {
            outgoing.put(&frame[..len]);
            Ok(())
        }
        Err(_) => Err(SendFault::Port),
    }
}
