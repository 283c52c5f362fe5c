//! How a reader finds frames.

ghost use Rattle.std.specs.Prelude.{◌≡◌, ◌+◌, ◌^◌, ◌<◌, ◌≤◌, ◌-◌, List, ℕ, length, take, drop};
ghost use Rattle.std.specs.Prelude.{slice_range, Some, None, Err, IfOk, IfErr, OnOk};
ghost use Rattle.trap_frame.specs.Reading.{FindsFrame, FindsNoFrame, IsFaultAtStop};
ghost use Rattle.trap_frame.specs.Filling.{FillsBuffer};
ghost use Rattle.trap_frame.specs.declared.found.FrameFault.{FrameFault};

use super::Frames;
use crate::filling::{Stop, fill_between};
use crate::found::{FrameFault, Next};
use crate::header::{HEADER, read_header};
use std::alloc::{AllocError as OutOfMemory, Global};
use trap_bank::Source;
use trap_zrun::decode;

impl Frames {
    /// Takes room for one frame over blocks of `size` bytes.
    pub fn new(alloc: Global, size: usize) -> Result<Frames, OutOfMemory>
        requires { size < 2 ^ 15 }
        ensures size { IfOk result (λ frames. frames.size ≡ size) }
        ensures untaken { IfOk result (λ frames. frames.used ≡ 0) }
        ensures no_fault { IfOk result (λ frames. frames.fault ≡ None) }
    {
        let buf = vec![in alloc; 0u8; size + 41]?;
        Ok(Frames {
            buf,
            size,
            used: 0,
            fault: None,
        })
    }

    /// The next frame, and its parity in `parity`. After a fault `parity` holds any bytes, and each
    /// further call answers the same fault and takes nothing.
    pub fn next<S: Source>(&mut self, source: &mut S, parity: &mut [u8]) -> Result<Next, FrameFault>
        requires sized { length parity.old ≡ self.old.size }
        requires below { (S.stream source.old).given ≤ 2 ^ 62 + 2 ^ 40 }
        ensures size { self.new.size ≡ self.old.size }
        ensures ok { IfOk result
            (λ next. FindsFrame self.old.size next parity.new self.old.used self.new.used
            (S.stream source.old) (S.stream source.new)) }
        ensures goes_on { OnOk result ((self.old.fault ≡ None) × (self.new.fault ≡ None)) }
        ensures err { self.old.fault ≡ None
            → IfErr result (λ fault. FindsNoFrame self.old.size fault
            self.old.used self.new.used (S.stream source.old) (S.stream source.new)) }
        ensures kept { IfErr result (λ fault. self.new.fault ≡ Some fault) }

        // After a fault the same one comes again, and nothing is taken.
        ensures again { (fault : FrameFault) → self.old.fault ≡ Some fault → (result ≡ Err fault)
            × (self.new ≡ self.old) × (S.stream source.new ≡ S.stream source.old) }
    {
        if let Some(fault) = self.fault {
            return Err(fault);
        }
        match self.read_frame(source, parity) {
            Ok(next) => Ok(next),
            Err(fault) => {
                self.fault = Some(fault);
                Err(fault)
            }
        }
    }

    // Fills the buffer between two places from the source, unless the input ends before.
    fn fill_part<S: Source>(
        &mut self,
        source: &mut S,
        start: usize,
        end: usize,
    ) -> Result<usize, Stop>
        requires order { start ≤ end }
        requires inside { end ≤ self.old.size + 41 }
        requires below { (S.stream source.old).given ≤ 2 ^ 62 + 2 ^ 41 }
        ensures size { self.new.size ≡ self.old.size }
        ensures fault { self.new.fault ≡ self.old.fault }
        ensures front { take start self.new.buf.items ≡ take start self.old.buf.items }
        ensures taken { (front : List ℕ)
            × FillsBuffer front (end - start) result self.old.used self.new.used
            (S.stream source.old) (S.stream source.new)
            × (take (length front) (drop start self.new.buf.items) ≡ front) }
    {
        fill_between(source, self.buf.as_mut_slice(), start, end, &mut self.used)
    }

    // The next frame, where there was no fault before.
    fn read_frame<S: Source>(
        &mut self,
        source: &mut S,
        parity: &mut [u8],
    ) -> Result<Next, FrameFault>
        requires sized { length parity.old ≡ self.old.size }
        requires below { (S.stream source.old).given ≤ 2 ^ 62 + 2 ^ 40 }
        ensures size { self.new.size ≡ self.old.size }
        ensures fault { self.new.fault ≡ self.old.fault }
        ensures ok { IfOk result
            (λ next. FindsFrame self.old.size next parity.new self.old.used self.new.used
            (S.stream source.old) (S.stream source.new)) }
        ensures err { IfErr result
            (λ fault. FindsNoFrame self.old.size fault self.old.used self.new.used
            (S.stream source.old) (S.stream source.new)) }
    {
        let at = self.used;
        let have = match self.fill_part(source, 0, HEADER) {
            Ok(have) => have,
            Err(stop) => return Err(fault_of(stop)),
        };
        if have == 0 {
            return Ok(Next::End);
        }
        if have < HEADER {
            return Err(FrameFault::Cut { at });
        }
        let Some(frame) = read_header(self.buf.as_slice(), self.size) else {
            return Err(FrameFault::BadFrame { at });
        };
        let len = usize::from(frame.length);
        let have = match self.fill_part(source, HEADER, HEADER + len) {
            Ok(have) => have,
            Err(stop) => return Err(fault_of(stop)),
        };
        if have < len {
            return Err(FrameFault::Cut { at });
        }
        match decode(code_in(self.buf.as_slice(), len), parity) {
            Ok(()) => Ok(Next::Frame(frame)),
            Err(_) => Err(FrameFault::BadFrame { at }),
        }
    }
}

// The fault of a reader that got no more bytes.
fn fault_of(stop: Stop) -> FrameFault
    ensures { IsFaultAtStop result stop }
{
    match stop {
        Stop::Source => FrameFault::ReadFault,
        Stop::TooLong => FrameFault::TooLong,
    }
}

// The bytes of a code, after a header.
fn code_in(buf: &[u8], len: usize) -> &[u8]
    requires { 34 + len ≤ length buf.now }
    ensures { result.now ≡ slice_range buf.now 34 (34 + len) }
{
    &buf[HEADER..HEADER + len]
}
