//! The generator's numbers, and what is made of one.

ghost use Rattle.std.specs.Prelude.{◌≡◌, ◌+◌, ◌*◌, ◌/◌, ◌%◌, ◌^◌, ◌<◌, length, set, replicate};
ghost use Rattle.trap_model.specs.Image.{volume};

use trap_model::Geometry;

/// Numbers stay below this.
pub const MODULUS: u64 = 1 << 31;

/// The next number of the generator.
pub fn number_after(number: u64) -> u64
    requires { number < 2 ^ 31 }
    ensures { result ≡ (number * 1103515245 + 12345) % 2 ^ 31 }
{
    (number * 1_103_515_245 + 12_345) % MODULUS
}

/// The block that a number names.
pub fn block_named(g: &Geometry, number: u64) -> u32
    ensures { result ≡ number / 65536 % volume g.now }
{
    (number / 65_536 % u64::from(g.volume())) as u32
}

/// The contents that a number and a request make: zero bytes but for one.
pub fn fill_contents(fresh: &mut [u8], number: u64, request: u32)
    requires { 0 < length fresh.old }
    ensures { fresh.new ≡ set (replicate (length fresh.old) 0) (number / 256 % length fresh.old)
        (1 + request % 255) }
{
    fresh.fill(0);
    let at = (number / 256 % fresh.len() as u64) as usize;
    fresh[at] = 1 + (request % 255) as u8;
}
