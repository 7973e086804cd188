//! A line's words.
ghost use Rattle.std.specs.Prelude.{◌≡◌, ◌↔◌, ◌⊎◌, true, [], Some, slice_get, IfErr, IsTrue};
ghost use Rattle.omega_calls.specs.Refusals.{is_of_lines};

use crate::fault::Fault;
use omega_model::{Bytes, Seq};
use std::alloc::Global;
use std::mem;

/// Which part of an escape was read last.
#[derive(Clone, Copy, Debug, PartialEq, Eq)]
enum Escape {
    Nothing,
    Backslash,
    /// `\x`, of which two digits are to come.
    Hex,
    /// `\x` and the first digit, of this value.
    Digit(u8),
}

/// What was read of a line.
#[derive(Debug, Drop)]
struct Reading {
    alloc: Global,
    words: Vec<Bytes>,
    word: Bytes,
    in_word: bool,
    in_quotes: bool,
    escape: Escape,
}

/// Whether a line is printed as it is: a heading, which begins with `#`, or a line without a byte.
pub fn is_heading(text: &str) -> bool
    ensures { IsTrue result ↔ ((text.now ≡ []) ⊎ (slice_get text.now 0 ≡ Some 35)) }
{
    matches!(text.as_bytes(), [] | [b'#', ..])
}

/// The words of a line. Spaces part them, except between two quotes (`"`), which can also make a
/// word without a byte. `\n`, `\r`, `\"`, `\\` and `\x` with two hexadecimal digits, of which letters
/// are small, stand for a byte each, inside quotes and outside. `BadLine` where a quote isn't closed, or
/// where another escape stands or one isn't complete.
pub fn words_of(alloc: Global, text: &str) -> Result<Vec<Bytes>, Fault>
    ensures { IfErr result (λ fault. is_of_lines fault ≡ true) }
{
    let mut reading = Reading {
        alloc,
        words: Vec::new(alloc),
        word: Seq::new(alloc),
        in_word: false,
        in_quotes: false,
        escape: Escape::Nothing,
    };
    for byte in text.as_bytes() {
        reading.take(*byte)?;
    }
    reading.end()
}

impl Reading {
    /// Takes the next byte.
    fn take(&mut self, byte: u8) -> Result<(), Fault>
        ensures { IfErr result (λ fault. is_of_lines fault ≡ true) }
    {
        match (self.escape, byte) {
            (Escape::Nothing, b'\\') => {
                self.escape = Escape::Backslash;
                Ok(())
            }
            (Escape::Nothing, b'"') => {
                self.in_word = true;
                self.in_quotes = !self.in_quotes;
                Ok(())
            }
            (Escape::Nothing, b' ') if !self.in_quotes => self.end_word(),
            (Escape::Nothing, _) => self.push(byte),
            (Escape::Backslash, b'x') => {
                self.escape = Escape::Hex;
                Ok(())
            }
            (Escape::Backslash, _) => self.push(escaped(byte)?),
            (Escape::Hex, _) => {
                self.escape = Escape::Digit(hex_digit(byte)?);
                Ok(())
            }
            (Escape::Digit(first), _) => self.push(first.wrapping_mul(16) | hex_digit(byte)?),
        }
    }

    /// Appends a byte to the word.
    fn push(&mut self, byte: u8) -> Result<(), Fault>
        ensures { IfErr result (λ fault. is_of_lines fault ≡ true) }
    {
        self.escape = Escape::Nothing;
        self.in_word = true;
        self.word.push(byte)?;
        Ok(())
    }

    /// Ends the word, if there is one.
    fn end_word(&mut self) -> Result<(), Fault>
        ensures { IfErr result (λ fault. is_of_lines fault ≡ true) }
    {
        if self.in_word {
            self.in_word = false;
            let word = mem::replace(&mut self.word, Seq::new(self.alloc));
            self.words.push(word)?;
        }
        Ok(())
    }

    /// The words, at the end of the line.
    fn end(self) -> Result<Vec<Bytes>, Fault>
        ensures { IfErr result (λ fault. is_of_lines fault ≡ true) }
    {
        let mut reading = self;
        if reading.in_quotes || reading.escape != Escape::Nothing {
            return Err(Fault::BadLine);
        }
        reading.end_word()?;
        let Reading { words, .. } = reading;
        Ok(words)
    }
}

/// The byte of an escape.
fn escaped(byte: u8) -> Result<u8, Fault>
    ensures { IfErr result (λ fault. is_of_lines fault ≡ true) }
{
    match byte {
        b'n' => Ok(b'\n'),
        b'r' => Ok(b'\r'),
        b'"' | b'\\' => Ok(byte),
        _ => Err(Fault::BadLine),
    }
}

/// The value of a hexadecimal digit; of letters only small ones are digits.
fn hex_digit(byte: u8) -> Result<u8, Fault>
    ensures { IfErr result (λ fault. is_of_lines fault ≡ true) }
{
    match byte {
        b'0'..=b'9' => Ok(byte - b'0'),
        b'a'..=b'f' => Ok(byte - b'a' + 10),
        _ => Err(Fault::BadLine),
    }
}
