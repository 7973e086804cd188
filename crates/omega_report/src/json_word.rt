//! A word as JSON.
ghost use Rattle.std.specs.Prelude.{◌≡◌, ◌++◌, OnOk};
ghost use Rattle.omega_report.specs.JsonOfText.{is_short_number, text_json};
ghost use Rattle.omega_report.specs.Writing.{with_digit};

use omega_model::NoMemory;

/// Appends a word as JSON, by its text: digits alone of a number below 2^64 as they are, any other word between
/// double quotes.
pub fn push_json_word(json: &mut Vec<u8>, word: &[u8]) -> Result<(), NoMemory>
    ensures { OnOk result (json.new.items ≡ json.old.items ++ text_json word.now) }
{
    if is_short_number(word) {
        json.extend_from_slice(word)?;
        return Ok(());
    }
    json.push(b'"')?;
    json.extend_from_slice(word)?;
    json.push(b'"')?;
    Ok(())
}

/// Whether a word is digits alone, of a number below 2^64.
fn is_short_number(word: &[u8]) -> bool
    ensures { result ≡ is_short_number word.now }
{
    let mut value: u64 = 0;
    for byte in word {
        match with_digit(value, *byte) {
            Some(next) => value = next,
            None => return false,
        }
    }
    true
}

/// A number with one more digit, if the byte is one and 64 bits hold the number.
fn with_digit(value: u64, byte: u8) -> Option<u64>
    ensures { result ≡ with_digit value byte }
{
    match byte {
        b'0'..=b'9' => value.checked_mul(10)?.checked_add(u64::from(byte - b'0')),
        _ => None,
    }
}
