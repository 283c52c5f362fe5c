//! Writes of the members' places.

ghost use Rattle.std.specs.Prelude.{◌≡◌, ◌↔◌, ◌<◌, ℕ, List, [], ◌∷◌, None, length, IsTrue, OnOk};
ghost use Rattle.std.specs.Prelude.{IfErr};
ghost use Rattle.trap_bank.specs.Called.{TakesCalls};
ghost use Rattle.trap_bank.specs.Disks.{Differs, Torn};
ghost use Rattle.trap_bank.specs.Steps.{Moves};
ghost use Rattle.trap_model.specs.Image.{volume};
ghost use Rattle.trap_raid.specs.Members.{IsPlace, Counts, RowFits, DrainFits};
ghost use Rattle.trap_raid.specs.Draining.{Drains, InDrained, InCounted, IsDrainedTo, PlaceWritten};
ghost use Rattle.trap_raid.specs.Draining.{place_calls, write_calls};
ghost use Rattle.trap_raid.specs.Reads.{FailedMember};

use crate::MemberFailed;
use crate::reads::row_offset;
use trap_bank::{Bank, Failed, write_through};
use trap_map::{Place, parity_of, place_of};
use trap_model::Geometry;

/// Whether a place counts: all do, but of the lost member those alone that are rebuilt.
fn counts(lost: Option<u8>, rebuilt: u32, place: Place) -> bool
    ensures { IsTrue result ↔ Counts lost rebuilt place.row place.member }
{
    lost != Some(place.member) || place.row < rebuilt
}

/// Writes the bytes of a place, where it counts.
pub(crate) fn write_place<B: Bank>(
    g: &Geometry,
    bank: &mut B,
    lost: Option<u8>,
    rebuilt: u32,
    place: Place,
    bytes: &[u8],
) -> Result<(), MemberFailed>
    requires place { IsPlace g.now place }
    requires size { length bytes.now ≡ g.now.block }
    requires disk { Counts lost rebuilt place.row place.member
        → RowFits g.now (B.view bank.old) place.row place.member }
    ensures ok { OnOk result (Moves (B.view bank.old) (B.view bank.new)
        (Differs (InCounted g.now lost rebuilt place.row place.member))
        (PlaceWritten g.now lost rebuilt place.row place.member bytes.now)) }
    ensures contents { IsTrue (B.view bank.old).tells
        → Torn (InCounted g.now lost rebuilt place.row place.member)
        (B.view bank.old).now (B.view bank.new).now }
    ensures sizes { (e : ℕ) → (B.view bank.new).sizes e ≡ (B.view bank.old).sizes e }
    ensures place { IfErr result (λ failed.
        (failed.member ≡ place.member) × Counts lost rebuilt place.row place.member) }
    ensures cause { IfErr result (λ failed.
        FailedMember g.now None (B.view bank.old) (B.view bank.new) failed.member) }
    ensures calls { TakesCalls (place_calls lost rebuilt place.row place.member) result
        (B.view bank.old) (B.view bank.new) }

    // Stopped at any moment, no other place has changed, nor this one where it doesn't count.
    ensures any_moment { Moves (B.view bank.old) (B.view bank.new)
        (Differs (InCounted g.now lost rebuilt place.row place.member))
        (Differs (InCounted g.now lost rebuilt place.row place.member)) }
{
    if !counts(lost, rebuilt, place) {
        return Ok(());
    }
    // The place is stable before the head has the write drained, and its slot may be filled again.
    match write_through(bank, place.member + 1, row_offset(g, place.row), bytes) {
        Ok(()) => Ok(()),
        Err(Failed) => Err(MemberFailed {
            member: place.member,
        }),
    }
}

/// Writes the two places of a pending write: its block's, and that of its row's parity.
pub(crate) fn write_slot<B: Bank>(
    g: &Geometry,
    bank: &mut B,
    lost: Option<u8>,
    rebuilt: u32,
    block: u32,
    bytes: &[u8],
    parity: &[u8],
) -> Result<(), MemberFailed>
    requires block { block < volume g.now }
    requires size { length bytes.now ≡ g.now.block }
    requires parity_size { length parity.now ≡ g.now.block }
    requires disks { DrainFits g.now lost rebuilt
        ((record {
          block = block;
          bytes = bytes.now;
          parity = parity.now;
        }) ∷ []) (B.view bank.old) }
    ensures ok { OnOk result (Moves (B.view bank.old) (B.view bank.new)
        (Differs (InDrained g.now lost rebuilt
        ((record { block = block; bytes = bytes.now; parity = parity.now }) ∷ [])))
        (Drains g.now lost rebuilt ((record {
          block = block;
          bytes = bytes.now;
          parity = parity.now;
        }) ∷ []))) }
    ensures contents { IsTrue (B.view bank.old).tells
        → Torn (InDrained g.now lost rebuilt
        ((record { block = block; bytes = bytes.now; parity = parity.now }) ∷ []))
        (B.view bank.old).now (B.view bank.new).now }
    ensures sizes { (e : ℕ) → (B.view bank.new).sizes e ≡ (B.view bank.old).sizes e }
    ensures place { IfErr result (λ failed. IsDrainedTo g.now lost rebuilt
        ((record { block = block; bytes = bytes.now; parity = parity.now }) ∷ []) failed.member) }
    ensures cause { IfErr result (λ failed.
        FailedMember g.now None (B.view bank.old) (B.view bank.new) failed.member) }
    ensures calls { TakesCalls
        (write_calls g.now lost rebuilt (record {
          block = block;
          bytes = bytes.now;
          parity = parity.now;
        }))
        result (B.view bank.old) (B.view bank.new) }

    // Stopped at any moment, no byte has changed but in those of these two places that count.
    ensures any_moment { Moves (B.view bank.old) (B.view bank.new)
        (Differs (InDrained g.now lost rebuilt
        ((record { block = block; bytes = bytes.now; parity = parity.now }) ∷ [])))
        (Differs (InDrained g.now lost rebuilt
        ((record { block = block; bytes = bytes.now; parity = parity.now }) ∷ []))) }
{
    let place = place_of(g, block);
    let parity_place = Place {
        member: parity_of(g, place.row),
        row: place.row,
    };
    write_place(g, bank, lost, rebuilt, place, bytes)?;
    write_place(g, bank, lost, rebuilt, parity_place, parity)
}
