//! Reads the hexadecimal digits of a block by a table, with no branch that a digit decides.

ghost use Rattle.std.specs.Prelude.{◌≡◌, ◌+◌, ◌^◌, ◌<◌, length, MatchResult, Ok, Err, unwrap_or};
ghost use Rattle.hex.specs.Hex.{decode_sized, hex_digit_value, pair_value};
ghost use Rattle.hex.specs.declared.error.FromHexError.TheVariants.{InvalidHexCharacter};

use hex::FromHexError;

// The value of each byte as a digit, or 255 where it is none.
const VALUES: &[u8; 256] = &[
    255, 255, 255, 255, 255, 255, 255, 255, 255, 255, 255, 255, 255, 255, 255, 255, 255, 255, 255,
    255, 255, 255, 255, 255, 255, 255, 255, 255, 255, 255, 255, 255, 255, 255, 255, 255, 255, 255,
    255, 255, 255, 255, 255, 255, 255, 255, 255, 255, 0, 1, 2, 3, 4, 5, 6, 7, 8, 9, 255, 255, 255,
    255, 255, 255, 255, 10, 11, 12, 13, 14, 15, 255, 255, 255, 255, 255, 255, 255, 255, 255, 255,
    255, 255, 255, 255, 255, 255, 255, 255, 255, 255, 255, 255, 255, 255, 255, 255, 10, 11, 12, 13,
    14, 15, 255, 255, 255, 255, 255, 255, 255, 255, 255, 255, 255, 255, 255, 255, 255, 255, 255,
    255, 255, 255, 255, 255, 255, 255, 255, 255, 255, 255, 255, 255, 255, 255, 255, 255, 255, 255,
    255, 255, 255, 255, 255, 255, 255, 255, 255, 255, 255, 255, 255, 255, 255, 255, 255, 255, 255,
    255, 255, 255, 255, 255, 255, 255, 255, 255, 255, 255, 255, 255, 255, 255, 255, 255, 255, 255,
    255, 255, 255, 255, 255, 255, 255, 255, 255, 255, 255, 255, 255, 255, 255, 255, 255, 255, 255,
    255, 255, 255, 255, 255, 255, 255, 255, 255, 255, 255, 255, 255, 255, 255, 255, 255, 255, 255,
    255, 255, 255, 255, 255, 255, 255, 255, 255, 255, 255, 255, 255, 255, 255, 255, 255, 255, 255,
    255, 255, 255, 255, 255, 255, 255, 255, 255, 255, 255, 255, 255, 255, 255, 255, 255, 255, 255,
    255, 255, 255,
];

// The digit's value, or 255 where it is none.
#[inline(always)]
fn value_of(digit: u8) -> u8
    ensures { result ≡ unwrap_or (hex_digit_value digit) 255 }
{
    VALUES[digit as usize]
}

// Why a byte that is no digit is refused.
#[cold]
fn not_a_digit(byte: u8, at: usize) -> FromHexError
    ensures { result ≡ InvalidHexCharacter byte at }
{
    FromHexError::InvalidHexCharacter {
        c: char::from(byte),
        index: at,
    }
}

// The byte of two digits, the first of them at a place of the text.
#[inline(always)]
fn byte_of(high: u8, low: u8, at: usize) -> Result<u8, FromHexError>
    requires { at + 1 < 2 ^ 64 }
    ensures { result ≡ pair_value high low at }
{
    let high_value = value_of(high);
    let low_value = value_of(low);
    if high_value > 15 {
        return Err(not_a_digit(high, at));
    }
    if low_value > 15 {
        return Err(not_a_digit(low, at + 1));
    }
    Ok(high_value * 16 + low_value)
}

/// Fills the block with the bytes that the digits spell, two digits for each. The answer is that of
/// `hex::decode_to_slice`, and comes several times sooner.
pub fn decode_to_slice(digits: &[u8], block: &mut [u8]) -> Result<(), FromHexError>
    ensures { MatchResult (decode_sized digits.now (length block.old))
        (λ bytes. (result ≡ Ok tt) × (block.new ≡ bytes))
        (λ e. result ≡ Err e) }
{
    if digits.len() % 2 != 0 {
        return Err(FromHexError::OddLength);
    }
    if digits.len() / 2 != block.len() {
        return Err(FromHexError::InvalidStringLength);
    }
    for i in 0..block.len() {
        block[i] = byte_of(digits[2 * i], digits[2 * i + 1], 2 * i)?;
    }
    Ok(())
}
