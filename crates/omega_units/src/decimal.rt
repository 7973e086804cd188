//! Quantities: digits with a point, and an exponent.
ghost use Rattle.std.specs.Prelude.{◌≡◌, ◌+◌, ◌*◌, ◌^◌, ◌≤◌, ◌<◌, length, drop, IfSome, SomeIff};
ghost use Rattle.std.specs.List.{position_or_len};
ghost use Rattle.std.specs.Str.Parse.{without_leading_sign};
ghost use Rattle.omega_model.specs.Numbers.{is_point, is_exponent_mark};
ghost use Rattle.omega_units.specs.Units.{rounded, quotient};
ghost use Rattle.omega_units.specs.Parts.{decimal_of, value_of, significand_of, exponent_of, IsShort};

use crate::Rounding;
use crate::digits::{read_joined, read_number};
use omega_model::GREATEST_QUANTITY;

/// The greatest number of units: 1000 times 10^9.
const MOST: u128 = GREATEST_QUANTITY as u128;

/// A quantity as it is written: its digits as one number, how many of them stand behind the point,
/// and the exponent with its sign.
#[derive(Clone, Copy, Debug)]
pub struct Decimal {
    pub mantissa: u128,
    pub places: u128,
    pub exponent: u128,
    pub is_negative: bool,
}

/// The parts of a quantity. `None` exactly where the text isn't one; the empty text isn't.
pub fn read_decimal(text: &[u8]) -> Option<Decimal>
    requires { length text.now ≤ 32 }
    ensures value { result ≡ decimal_of text.now }
    ensures bound { IfSome result IsShort }
{
    let mark = exponent_place(text);
    let (mantissa, places) = read_significand(&text[..mark])?;
    if mark == text.len() {
        return Some(Decimal {
            mantissa,
            places,
            exponent: 0,
            is_negative: false,
        });
    }
    let (is_negative, exponent) = read_exponent(behind(text, mark))?;
    Some(Decimal {
        mantissa,
        places,
        exponent,
        is_negative,
    })
}

/// The place of the first `e` or `E`, or the length where there is none.
fn exponent_place(text: &[u8]) -> usize
    ensures place { result ≡ position_or_len is_exponent_mark text.now }
    ensures bound { result ≤ length text.now }
{
    for (place, byte) in text.iter().enumerate() {
        if *byte == b'E' || *byte == b'e' {
            return place;
        }
    }
    text.len()
}

/// The place of the first point, or the length where there is none.
fn point_place(text: &[u8]) -> usize
    ensures place { result ≡ position_or_len is_point text.now }
    ensures bound { result ≤ length text.now }
{
    for (place, byte) in text.iter().enumerate() {
        if *byte == b'.' {
            return place;
        }
    }
    text.len()
}

/// What stands behind a place; nothing where it is the last or beyond.
fn behind(text: &[u8], place: usize) -> &[u8]
    requires { place ≤ length text.now }
    ensures { result.now ≡ drop (place + 1) text.now }
{
    text.get(place + 1..).unwrap_or(&[])
}

/// The number that the digits before and behind the point write together, and how many stand
/// behind it. `None` exactly where there is no digit, or another byte.
fn read_significand(text: &[u8]) -> Option<(u128, u128)>
    requires { length text.now ≤ 32 }
    ensures value { result ≡ significand_of text.now }
    ensures bound { IfSome result (λ (mantissa, places). (mantissa < 10 ^ 32) × (places ≤ 32)) }
{
    let point = point_place(text);
    let integer = &text[..point];
    let fraction = behind(text, point);
    let mantissa = read_joined(integer, fraction)?;
    Some((mantissa, fraction.len() as u128))
}

/// Whether the exponent is negative, and its digits as a number. `None` exactly where behind the
/// sign, if there is one, there is no byte, or a byte that isn't a digit.
fn read_exponent(text: &[u8]) -> Option<(bool, u128)>
    requires { length text.now ≤ 32 }
    ensures value { result ≡ exponent_of text.now }
    ensures bound { IfSome result (λ (is_negative, exponent). exponent < 10 ^ 32) }
{
    let exponent = read_number(without_sign(text))?;
    Some((matches!(text, [b'-', ..]), exponent))
}

/// An exponent without its sign.
fn without_sign(text: &[u8]) -> &[u8]
    ensures { result.now ≡ without_leading_sign text.now }
{
    match text {
        [b'-' | b'+', digits @ ..] => digits,
        _ => text,
    }
}

impl Decimal {
    /// The units, rounded. `None` exactly where the exact value is above 1000.
    pub fn units(self, rounding: Rounding) -> Option<u64>
        requires { IsShort self }
        ensures value { result ≡ rounded rounding (value_of self) }
        ensures bound { IfSome result (λ units. units ≤ MOST) }
    {
        if self.is_negative {
            scaled(self.mantissa, 0, self.places + self.exponent, rounding)
        } else {
            scaled(self.mantissa, self.exponent, self.places, rounding)
        }
    }
}

/// The units of a number times ten to the power `raise`, over ten to the power `lower`, rounded.
/// `None` exactly where that value is above 1000.
fn scaled(number: u128, raise: u128, lower: u128, rounding: Rounding) -> Option<u64>
    requires number { number < 10 ^ 32 }
    requires raise { raise < 10 ^ 32 }
    ensures value { result ≡ rounded rounding (record { over = number * 10 ^ raise; under = 10 ^ lower }) }
    ensures bound { IfSome result (λ units. units ≤ MOST) }
{
    if number == 0 {
        return Some(0);
    }
    let units = raise + 9;
    if lower < units {
        raised(number, units - lower)
    } else {
        lowered(number, lower - units, rounding)
    }
}

/// A number that isn't 0, times ten to a power. `None` exactly above `MOST`. Multiplies two numbers of 64
/// bits, since nearly every quantity of a trace comes here.
fn raised(number: u128, power: u128) -> Option<u64>
    requires { 0 < number }
    ensures value { SomeIff result (number * 10 ^ power ≤ MOST) (number * 10 ^ power) }
    ensures bound { IfSome result (λ units. units ≤ MOST) }
{
    if power > 12 {
        return None;
    }
    if number > MOST {
        return None;
    }
    let units = u128::from(number as u64) * u128::from(10u64.pow(power as u32));
    if units > MOST {
        return None;
    }
    Some(units as u64)
}

/// A number over ten to a power, rounded. `None` exactly where it is above `MOST` before that.
fn lowered(number: u128, power: u128, rounding: Rounding) -> Option<u64>
    requires { number < 10 ^ 32 }
    ensures value { SomeIff result (number ≤ MOST * 10 ^ power) (quotient rounding number (10 ^ power)) }
    ensures bound { IfSome result (λ units. units ≤ MOST) }
{
    // From 10^32 on every power is above the number, so that they all round alike.
    let divisor = 10u128.pow(power.min(32) as u32);
    let up = number.div_ceil(divisor);
    if up > MOST {
        return None;
    }
    Some(match rounding {
        Rounding::Up => up as u64,
        Rounding::Down => (number / divisor) as u64,
    })
}
