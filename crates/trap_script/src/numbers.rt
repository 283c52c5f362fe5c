//! Decimal numbers in lines and words.

ghost use Rattle.std.specs.Prelude.{◌≡◌};
ghost use Rattle.trap_script.specs.Numbers.{has_shape, number_of};

// Whether the text is as long as a number may be, and begins as one may.
fn has_shape(bytes: &[u8]) -> bool
    ensures { result ≡ has_shape bytes.now }
{
    if bytes.is_empty() || bytes.len() > 20 {
        return false;
    }
    bytes[0] != b'0' || bytes.len() == 1
}

/// A number of 1 to 20 decimal digits, at most 2^64 - 1, without a leading zero other than `0`
/// itself. None exactly where the bytes are no such number.
pub fn read_number(bytes: &[u8]) -> Option<u64>
    ensures { result ≡ number_of bytes.now }
{
    if !has_shape(bytes) {
        return None;
    }
    let mut value: u64 = 0;
    'digits: for byte in bytes {
        if !byte.is_ascii_digit() {
            return None;
        }
        value = value.checked_mul(10)?.checked_add(u64::from(*byte - b'0'))?;
    }
    Some(value)
}
