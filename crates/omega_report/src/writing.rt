//! How a line is written in a format.
ghost use Rattle.std.specs.Prelude.{◌≡◌, ◌++◌, map, IsTrue, OnOk};
ghost use Rattle.std.specs.List.{join_with_byte, list_all};
ghost use Rattle.omega_report.specs.Forms.{closing, gap, line_form, more_form, opening, text_form, word_form};
ghost use Rattle.omega_report.specs.Spelling.{fits, word_of};

use crate::json_word::push_json_word;
use crate::line_words::Word;
use omega_model::{Format, NoMemory};

/// Appends the line of these words: as text with one space between two of them and a line feed, as JSON the
/// array of the words.
pub fn push_line(format: Format, out: &mut Vec<u8>, words: &[Word]) -> Result<(), NoMemory>
    ensures bytes { OnOk result (out.new.items ≡ out.old.items ++ line_form format (map word_of words.now)) }
    ensures numbers { OnOk result (IsTrue (list_all fits words.now)) }
{
    out.extend_from_slice(opening(format))?;
    push_words(format, out, words)?;
    out.extend_from_slice(closing(format))?;
    Ok(())
}

/// What begins a line.
fn opening(format: Format) -> &'static [u8]
    ensures { result.now ≡ opening format }
{
    match format {
        Format::Text => b"",
        Format::Json => b"[",
    }
}

/// What ends a line.
fn closing(format: Format) -> &'static [u8]
    ensures { result.now ≡ closing format }
{
    match format {
        Format::Text => b"\n",
        Format::Json => b"]",
    }
}

/// What stands between two words.
fn gap(format: Format) -> u8
    ensures { result ≡ gap format }
{
    match format {
        Format::Text => b' ',
        Format::Json => b',',
    }
}

/// The words with what stands between two of them.
fn push_words(format: Format, out: &mut Vec<u8>, words: &[Word]) -> Result<(), NoMemory>
    ensures bytes { OnOk result (out.new.items ≡ out.old.items ++ join_with_byte (gap format) (map (word_form format) (map word_of words.now))) }
    ensures numbers { OnOk result (IsTrue (list_all fits words.now)) }
{
    match words.split_first() {
        None => Ok(()),
        Some((first, more)) => {
            push_word(format, out, *first)?;
            push_more(format, out, more)?;
            Ok(())
        }
    }
}

/// Some words, each behind what stands between two.
fn push_more(format: Format, out: &mut Vec<u8>, words: &[Word]) -> Result<(), NoMemory>
    ensures bytes { OnOk result (out.new.items ≡ out.old.items ++ more_form format (map word_of words.now)) }
    ensures numbers { OnOk result (IsTrue (list_all fits words.now)) }
{
    for word in words {
        out.push(gap(format))?;
        push_word(format, out, *word)?;
    }
    Ok(())
}

/// A word.
fn push_word(format: Format, out: &mut Vec<u8>, word: Word) -> Result<(), NoMemory>
    ensures bytes { OnOk result (out.new.items ≡ out.old.items ++ word_form format (word_of word)) }
    ensures numbers { OnOk result (IsTrue (fits word)) }
{
    match word {
        Word::Name(name) => push_text(format, out, name.as_bytes()),
        Word::Number(number) => {
            let mut buffer = itoa::Buffer::new();
            push_text(format, out, buffer.format(number).as_bytes())
        }
        Word::Time(time) => {
            let mut buffer = itoa::Buffer::new();
            push_text(format, out, buffer.format(time).as_bytes())
        }
    }
}

/// A word by its text.
fn push_text(format: Format, out: &mut Vec<u8>, text: &[u8]) -> Result<(), NoMemory>
    ensures { OnOk result (out.new.items ≡ out.old.items ++ text_form format text.now) }
{
    match format {
        Format::Text => {
            out.extend_from_slice(text)?;
            Ok(())
        }
        Format::Json => push_json_word(out, text),
    }
}
