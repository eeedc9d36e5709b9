//! Decimal numerals: the numbers of problem texts, of certificates and of the command line.
#![tactic(auto)]

ghost use Rattle.std.specs.Prelude.{◌≡◌, ◌≤◌, IfSome};
ghost use Rattle.numerals.specs.Numerals.{digits_value, numeral_value};

/// The value of a run of decimal digits. `None` exactly where the bytes are none or not all digits,
/// or where the value passes the limit. Zeros may lead.
pub fn digits_value(digits: &[u8], limit: u64) -> Option<u64>
    ensures value { result ≡ digits_value limit digits.now }
    ensures within { IfSome result (λ n. n ≤ limit) }
{
    if digits.is_empty() {
        return None;
    }
    let mut value: u64 = 0;
    for digit in digits {
        if !digit.is_ascii_digit() {
            return None;
        }
        let next = value as u128 * 10 + (*digit - b'0') as u128;
        if next > limit as u128 {
            return None;
        }
        value = next as u64;
    }
    Some(value)
}

/// The value of a numeral: `0`, or digits of which the first is not `0`. `None` exactly where the
/// bytes are no numeral, or where the value passes the limit.
pub fn numeral_value(digits: &[u8], limit: u64) -> Option<u64>
    ensures { result ≡ numeral_value limit digits.now }
{
    if digits.len() > 1 && digits[0] == b'0' {
        return None;
    }
    digits_value(digits, limit)
}
