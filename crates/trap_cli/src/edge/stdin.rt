//! Trusted edge: standard input.

ghost use Rattle.std.specs.Prelude.{◌≡◌, false, None};
ghost use Rattle.trap_bank.specs.Stream.{Stream};

use std::io::{ErrorKind, Read};
use trap_bank::{Failed, Source};

/// Standard input, read as far as the caller's buffer holds. It tells nothing of content.
#[derive(Drop)]
pub struct StdinSource<R: Input> {
    reader: R::Reader,
    given: u64,
    ended: bool,
    faults: u64,
}

impl<R: Input + Drop> StdinSource<R> {
    /// Nothing is read yet.
    pub fn new(rt: R) -> StdinSource<R>
        ensures given { result.given ≡ 0 }
        ensures ended { result.ended ≡ false }
        ensures faults { result.faults ≡ 0 }
    {
        StdinSource {
            reader: rt.reader(),
            given: 0,
            ended: false,
            faults: 0,
        }
    }
}

impl<R: Input> Source for StdinSource<R> {
    ghost stream = { λ s.
        record { left = None; given = s.given; ended = s.ended; faults = s.faults } };

    fn take(&mut self, buf: &mut [u8]) -> Result<usize, Failed> {
        'tries: for _ in 0..u64::MAX {
            match self.reader.read(buf) {
                Ok(count) => {
                    self.given += count as u64;
                    self.ended = count == 0;
                    return Ok(count);
                }
                Err(e) if e.kind() == ErrorKind::Interrupted => {}
                Err(_) => break,
            }
        }
        self.faults = self.faults.saturating_add(1);
        Err(Failed)
    }
}
