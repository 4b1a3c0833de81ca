//! Decimal numbers as they are spelled.

ghost use Rattle.std.specs.Prelude.{◌≡◌, ◌+◌, ◌*◌, ◌-◌, ◌&&◌, Some, None, nat_lt, if◌then◌else◌};
ghost use Rattle.std.specs.Char.{is_ascii_digit};
ghost use Rattle.dpirun.specs.Literal.{value_of};

// the value of some digits and one digit more
fn with_digit(value: u32, digit: u8) -> Option<u32>
    ensures { result ≡ (if is_ascii_digit digit && nat_lt (value * 10 + (digit - 48)) 4294967296
        then Some (value * 10 + (digit - 48)) else None) }
{
    if !digit.is_ascii_digit() {
        return None;
    }
    let value = u64::from(value) * 10 + u64::from(digit - b'0');
    u32::try_from(value).ok()
}

/// The value of a text of decimal digits, or None where another byte is among them or the value is
/// past 4,294,967,295. No digits give 0.
pub fn value(digits: &[u8]) -> Option<u32>
    ensures { result ≡ value_of digits.now }
{
    let mut value = 0;
    for digit in digits {
        value = with_digit(value, *digit)?;
    }
    Some(value)
}
