//! Numbers that follow from a seed.

ghost use Rattle.std.specs.Prelude.{◌≡◌, ◌+◌, ◌*◌, ◌%◌, ◌<◌, ◌^◌, length};
ghost use Rattle.trap_bank.specs.Draws.{next_number, drawn_byte, drawn, after_draws};

/// The last number of the generator: x(0) is the seed mod 2^31, and x(k) is
/// (x(k - 1) x 1103515245 + 12345) mod 2^31. The byte of a draw is (x(k) div 65536) mod 256.
#[derive(Debug, Drop)]
pub(crate) struct Draws {
    pub number: u64,
    ghost below: { number < 2 ^ 31 },
}

impl Draws {
    pub(crate) fn new(seed: u64) -> Draws
        ensures { result.number ≡ seed % 2 ^ 31 }
    {
        Draws {
            number: seed % (1 << 31),
        }
    }

    /// The next byte.
    fn next(&mut self) -> u8
        ensures number { self.new.number ≡ next_number self.old.number }
        ensures byte { result ≡ drawn_byte (next_number self.old.number) }
    {
        self.number = (self.number * 1_103_515_245 + 12_345) % (1 << 31);
        (self.number / 65_536 % 256) as u8
    }

    /// Puts the next bytes over all of these.
    pub(crate) fn fill(&mut self, bytes: &mut [u8])
        ensures bytes { bytes.new ≡ drawn (length bytes.old) self.old.number }
        ensures number { self.new.number ≡ after_draws (length bytes.old) self.old.number }
    {
        for i in 0..bytes.len() {
            bytes[i] = self.next();
        }
    }
}
