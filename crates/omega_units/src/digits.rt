//! Runs of digits.
ghost use Rattle.std.specs.Prelude.{◌≡◌, ◌+◌, ◌*◌, ◌^◌, ◌≤◌, ◌<◌, ◌++◌, length, IfSome};
ghost use Rattle.omega_units.specs.Digits.{number_after, number};

/// A number of at most so many digits fits into 64 bits.
const SHORT: usize = 19;

/// The same as `read_digits`, where all digits are so few that 64 bits are enough.
fn read_short(start: u64, text: &[u8]) -> Option<u64>
    requires { (start + 1) * 10 ^ length text.now ≤ 10 ^ 19 }
    ensures value { result ≡ number_after start text.now }
    ensures bound { IfSome result (λ value. value + 1 ≤ (start + 1) * 10 ^ length text.now) }
{
    let mut value = start;
    for byte in text {
        if !byte.is_ascii_digit() {
            return None;
        }
        value = value * 10 + u64::from(*byte - b'0');
    }
    Some(value)
}

/// The number that the digits of `text` write behind those of `start`. `None` exactly where a byte
/// isn't an ASCII digit.
pub fn read_digits(start: u128, text: &[u8]) -> Option<u128>
    requires { (start + 1) * 10 ^ length text.now ≤ 10 ^ 32 }
    ensures value { result ≡ number_after start text.now }
    ensures bound { IfSome result (λ value. value + 1 ≤ (start + 1) * 10 ^ length text.now) }
{
    let mut value = start;
    for byte in text {
        if !byte.is_ascii_digit() {
            return None;
        }
        value = value * 10 + u128::from(*byte - b'0');
    }
    Some(value)
}

/// The same as `read_joined`, where all digits are so few that 64 bits are enough.
fn join_short(front: &[u8], back: &[u8]) -> Option<u64>
    requires some { 0 < length front.now + length back.now }
    requires short { length front.now + length back.now ≤ 19 }
    ensures value { result ≡ number (front.now ++ back.now) }
    ensures bound { IfSome result (λ value. value < 10 ^ 19) }
{
    let value = read_short(0, front)?;
    read_short(value, back)
}

/// The number that two texts of digits alone write one behind the other. `None` exactly where
/// there is no byte in both, or a byte isn't an ASCII digit.
pub fn read_joined(front: &[u8], back: &[u8]) -> Option<u128>
    requires { length front.now + length back.now ≤ 32 }
    ensures value { result ≡ number (front.now ++ back.now) }
    ensures bound { IfSome result (λ value. value < 10 ^ 32) }
{
    if front.len() + back.len() == 0 {
        return None;
    }
    if front.len() + back.len() <= SHORT {
        return join_short(front, back).map(u128::from);
    }
    let value = read_digits(0, front)?;
    read_digits(value, back)
}

/// The number that a text of digits alone writes. `None` exactly where there is no byte, or a byte
/// isn't an ASCII digit.
pub fn read_number(text: &[u8]) -> Option<u128>
    requires { length text.now ≤ 32 }
    ensures value { result ≡ number text.now }
    ensures bound { IfSome result (λ value. value < 10 ^ 32) }
{
    if text.is_empty() {
        return None;
    }
    if text.len() <= SHORT {
        return read_short(0, text).map(u128::from);
    }
    read_digits(0, text)
}
