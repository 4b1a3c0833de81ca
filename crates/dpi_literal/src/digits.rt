//! Digits and the numbers that they write.

ghost use Rattle.std.specs.Prelude.{◌≡◌, ◌≤◌, min};
ghost use Rattle.dpi_lex.specs.Bytes as lex;
ghost use Rattle.dpi_lex.specs.Digits.{is_digit_in, value_in};

/// The value of a digit in any base up to 36; 36 where it's none.
pub(crate) fn digit_value(b: u8) -> u8
    ensures value { result ≡ lex.digit_value b }
    ensures bound { result ≤ 36 }
{
    match b {
        b'0'..=b'9' => b - b'0',
        b'a'..=b'z' => b - b'a' + 10,
        b'A'..=b'Z' => b - b'A' + 10,
        _ => 36,
    }
}

/// Whether the byte is a digit of the base.
pub(crate) fn is_digit_in(base: u8, b: u8) -> bool
    ensures { result ≡ is_digit_in base b }
{
    digit_value(b) < base
}

/// The value of the digits of the base among the bytes, but at most the limit.
pub(crate) fn value_up_to(limit: u64, base: u8, bytes: &[u8]) -> u64
    ensures { result ≡ min (value_in base bytes.now) limit }
{
    let mut value: u64 = 0;
    for byte in bytes {
        if is_digit_in(base, *byte) {
            let next = value as u128 * base as u128 + digit_value(*byte) as u128;
            if next > limit as u128 {
                return limit;
            }
            value = next as u64;
        }
    }
    value
}
