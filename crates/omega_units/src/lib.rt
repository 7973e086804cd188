//! Numbers in text, read exactly: whole numbers and quantities.
//!
//! Promised: a whole number and a quantity are read exactly, with the rounding that is asked for.
#![tactic(auto)]

ghost use Rattle.std.specs.Prelude.{◌≡◌, ◌≤◌, IfOk};
ghost use Rattle.std.specs.Result.{result_ok};
ghost use Rattle.omega_model.specs.Fields.{greatest_quantity};
ghost use Rattle.omega_model.specs.Numbers.{whole};
ghost use Rattle.omega_units.specs.Units.{units};

mod decimal;
mod digits;

/// Which way a quantity becomes a whole number of units.
#[derive(Clone, Copy, Debug, PartialEq, Eq)]
pub enum Rounding {
    Up,
    Down,
}

/// The text isn't a number of the kind that was asked for.
#[derive(Clone, Copy, Debug, Drop, PartialEq, Eq)]
pub struct BadNumber;

/// A number has at most this many bytes.
const LONGEST: usize = 32;

/// The whole number that a text writes: ASCII digits alone, at least one and at most 32, and a
/// value below 2^64. Leading zeros are allowed. One pass.
pub fn read_u64(text: &[u8]) -> Result<u64, BadNumber>
    ensures { result_ok result ≡ whole text.now }
{
    if text.len() > LONGEST {
        return Err(BadNumber);
    }
    let Some(value) = digits::read_number(text) else {
        return Err(BadNumber);
    };
    u64::try_from(value).map_err(|_| BadNumber)
}

/// The units of a quantity, each 10^-9: the exact value of the text times 10^9, rounded. The empty
/// text is 0.
///
/// Any other text is one or more digits, with at most one point before, among or behind them (`2`,
/// `2.5`, `.5`, `2.`), and then, if it goes on, `e` or `E`, at most one sign, and one or more digits.
/// No sign stands in front. `BadNumber` where the text is no such thing, is longer than 32 bytes, or
/// has an exact value above 1000, which is judged before the rounding. Looks at each byte at most
/// three times.
pub fn read_quantity(text: &[u8], rounding: Rounding) -> Result<u64, BadNumber>
    ensures value { result_ok result ≡ units rounding text.now }
    ensures bound { IfOk result (λ units. units ≤ greatest_quantity) }
{
    if text.is_empty() {
        return Ok(0);
    }
    if text.len() > LONGEST {
        return Err(BadNumber);
    }
    let Some(decimal) = decimal::read_decimal(text) else {
        return Err(BadNumber);
    };
    decimal.units(rounding).ok_or(BadNumber)
}
