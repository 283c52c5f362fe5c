//! Loading a replica: its image from a source, then its cell and its header, and the gate last.

ghost use Rattle.std.specs.Prelude.{◌≡◌, ◌≢◌, ◌↔◌, ◌+◌, ◌*◌, ◌^◌, ◌<◌, ◌≤◌, ℕ, List, length};
ghost use Rattle.std.specs.Prelude.{IsTrue, IsErrOf, Err, None, OnOk};
ghost use Rattle.trap_bank.specs.Called.{TakesCalls};
ghost use Rattle.trap_bank.specs.Calls.{Fits};
ghost use Rattle.trap_format.specs.ReplicaDisk.{replica_size, replica_value_len};
ghost use Rattle.trap_replica.specs.Creating.{MakesDisk};
ghost use Rattle.trap_replica.specs.Loading.{Loads};
ghost use Rattle.trap_replica.specs.LoadSteps.{TakesBlock, WritesBlock, EndsImage};
ghost use Rattle.trap_replica.specs.LoadSteps.{WritesImage, LoadsShut};
ghost use Rattle.trap_replica.specs.declared.fault.ReplicaFault.TheVariants as fault;

use crate::ReplicaFault;
use crate::creating::begin_shut;
use crate::layout::{DISK, NUMBERS, home_at, spell_value};
use std::alloc::Global;
use trap_bank::{Bank, Source, fill, write_through};
use trap_format::layout::OPEN_GATE;
use trap_format::{Shape, replica_len};

/// Fills the block with the next bytes of the image. `at` counts the bytes that came.
fn take_block<S: Source>(source: &mut S, block: &mut [u8], at: &mut u64) -> Result<(), ReplicaFault>
    requires counted { at.old + length block.old < 2 ^ 64 }
    requires below { (S.stream source.old).given + length block.old ≤ 2 ^ 63 }
    ensures takes { (bytes : List ℕ) × TakesBlock bytes result block.new at.old at.new
        (S.stream source.old) (S.stream source.new) }
{
    let Ok(have) = fill(source, block, at) else {
        return Err(ReplicaFault::ReadFault);
    };
    if have < block.len() {
        return Err(ReplicaFault::ShortImage { at: *at });
    }
    Ok(())
}

/// Refuses a byte after a whole image, of that many bytes.
fn expect_end<S: Source>(source: &mut S, whole: u64) -> Result<(), ReplicaFault>
    requires counted { whole < 2 ^ 63 }
    requires below { (S.stream source.old).given < 2 ^ 63 }
    ensures ends { (bytes : List ℕ) × EndsImage bytes result whole
        (S.stream source.old) (S.stream source.new) }
{
    let mut used = whole;
    let mut more = [0; 1];
    let Ok(have) = fill(source, &mut more, &mut used) else {
        return Err(ReplicaFault::ReadFault);
    };
    if have > 0 {
        return Err(ReplicaFault::LongImage { at: whole });
    }
    Ok(())
}

/// Fills a block from the source, and writes it home. Nothing is synced: the gate is off, and what
/// a crash leaves of the image is of no account.
fn load_block<B: Bank, S: Source>(
    bank: &mut B,
    s: &Shape,
    b: u32,
    source: &mut S,
    block: &mut [u8],
    at: &mut u64,
) -> Result<(), ReplicaFault>
    requires inside { b < s.now.volume }
    requires room { Fits (B.view bank.old) 17 (replica_size s.now) }
    requires sized { length block.old ≡ s.now.block }
    requires counted { at.old ≡ b * s.now.block }
    requires below { (S.stream source.old).given ≤ 2 ^ 62 + at.old }
    ensures writes { (bytes : List ℕ) × WritesBlock s.now b bytes result at.old at.new
        (B.view bank.old) (B.view bank.new) (S.stream source.old) (S.stream source.new) }
    ensures sizes { (e : ℕ) → (B.view bank.new).sizes e ≡ (B.view bank.old).sizes e }
    ensures calls { TakesCalls 1 result (B.view bank.old) (B.view bank.new) }
{
    take_block(source, block, at)?;
    bank.write(DISK, home_at(s, b), block)?;
    Ok(())
}

/// Writes the image area from the source, which is then at its end.
fn load_image<B: Bank, S: Source>(
    bank: &mut B,
    s: &Shape,
    source: &mut S,
    block: &mut [u8],
) -> Result<(), ReplicaFault>
    requires room { Fits (B.view bank.old) 17 (replica_size s.now) }
    requires below { (S.stream source.old).given ≤ 2 ^ 62 }
    requires sized { length block.old ≡ s.now.block }
    ensures writes { (bytes : List ℕ) × WritesImage s.now bytes result
        (B.view bank.old) (B.view bank.new) (S.stream source.old) (S.stream source.new) }
    ensures sizes { (e : ℕ) → (B.view bank.new).sizes e ≡ (B.view bank.old).sizes e }
    ensures calls { TakesCalls s.now.volume result (B.view bank.old) (B.view bank.new) }
{
    let mut at = 0;
    'blocks: for b in 0..s.volume {
        load_block(bank, s, b, source, block, &mut at)?;
    }
    expect_end(source, at)
}

/// Makes the disk with the source's image, a cell and a header, and leaves the gate off.
fn load_shut<B: Bank, S: Source>(
    bank: &mut B,
    s: &Shape,
    seq: u64,
    time: u64,
    source: &mut S,
    block: &mut [u8],
    value: &mut [u8],
) -> Result<(), ReplicaFault>
    requires below { (S.stream source.old).given ≤ 2 ^ 62 }
    requires sized { length block.old ≡ s.now.block }
    requires long { length value.old ≡ replica_value_len s.now }
    ensures loads { (bytes : List ℕ) × LoadsShut s.now seq time bytes result
        (B.view bank.old) (B.view bank.new) (S.stream source.old) (S.stream source.new) }
    ensures disk { MakesDisk s.now result (B.view bank.old) (B.view bank.new) }
    ensures calls { TakesCalls (s.now.volume + 8) result (B.view bank.old) (B.view bank.new) }
{
    bank.make(DISK, replica_len(s))?;
    load_image(bank, s, source, block)?;
    bank.read(DISK, home_at(s, 0), block)?;
    spell_value(value, seq, time, 0, block);
    begin_shut(bank, s, value)?;
    Ok(())
}

/// Makes a replica that holds the source's image, at a number and its time. Nothing is done where
/// disk 17 is there. All memory is taken before the first call of bank or source.
pub fn load<B: Bank, S: Source>(
    alloc: Global,
    bank: &mut B,
    s: &Shape,
    seq: u64,
    time: u64,
    source: &mut S,
) -> Result<(), ReplicaFault>
    requires most { seq ≤ 2 ^ 40 }
    requires below { (S.stream source.old).given ≤ 2 ^ 62 }

    // What was taken of the source, why it is refused, and what it leaves, stopped at any moment.
    ensures loads { (B.view bank.old).sizes 17 ≡ None → (bytes : List ℕ)
        × Loads s.now seq time bytes result (B.view bank.old) (B.view bank.new)
        (S.stream source.old) (S.stream source.new) }
    ensures disk { MakesDisk s.now result (B.view bank.old) (B.view bank.new) }
    ensures exists { IsErrOf result (fault.Exists 17) ↔ ((B.view bank.old).sizes 17 ≢ None) }
    ensures untouched { (B.view bank.old).sizes 17 ≢ None
        → (bank.new ≡ bank.old) × (source.new ≡ source.old) }
    ensures memory { result ≡ Err fault.OutOfMemory
        → (bank.new ≡ bank.old) × (source.new ≡ source.old) }
    ensures calls { (B.view bank.old).sizes 17 ≡ None
        → TakesCalls (s.now.volume + 10) result (B.view bank.old) (B.view bank.new) }
{
    // An id that is read is known to fit the header's field.
    let _id = s.id;
    if bank.size(DISK).is_some() {
        return Err(ReplicaFault::Exists { disk: DISK });
    }
    let size = s.block as usize;
    let mut block = vec![in alloc; 0u8; size]?;
    let mut value = vec![in alloc; 0u8; NUMBERS + size]?;
    load_shut(
        bank,
        s,
        seq,
        time,
        source,
        block.as_mut_slice(),
        value.as_mut_slice(),
    )?;
    // Image, cell and header are stable before the gate says that they are there.
    write_through(bank, DISK, 0, &[OPEN_GATE])?;
    Ok(())
}
