//! The JSON of lines that stand as text.
ghost use Rattle.std.specs.Prelude.{◌≡◌, ◌++◌, [], ℕ, List, true, IfOk, OnOk};
ghost use Rattle.omega_model.specs.Report.{Line};
ghost use Rattle.omega_model.specs.declared.settings.Format.{Format};
ghost use Rattle.omega_model.specs.ReportForms.{are_plain, text_of};
ghost use Rattle.omega_report.specs.JsonOfText.{are_words, in_wide_format, json_of_words, text_of_words};
ghost use Rattle.omega_report.specs.declared.json_of_text.Position.TheVariants.{Beginning};
ghost use Rattle.omega_report.specs.Writing.{after_byte, ending, lead, with_word};

use crate::json_word::push_json_word;
use omega_model::{Bytes, NoMemory, Seq};
use std::alloc::Global;
use std::marker::Model;

/// The JSON of lines that are given as text: one array with an item for each line, and a line feed. An
/// item is the array of the line's words, a number as a number where 64 bits hold it, and any other word
/// as a string.
///
/// Each line of the text ends with a line feed and has words of small letters, digits and dashes, parted by
/// one space. A word of digits alone is a number, and has no zero in front unless it is 0. Costs the text.
pub fn json_of(alloc: Global, text: &[u8]) -> Result<Bytes, NoMemory>
    ensures words { (lines : List (List (List ℕ))) → are_words lines ≡ true → text.now ≡ text_of_words lines
        → IfOk result (λ json. json ≡ json_of_words lines) }
    ensures lines { (lines : List Line) → are_plain lines ≡ true → text.now ≡ text_of lines
        → IfOk result (λ json. json ≡ in_wide_format Format.Json lines) }
{
    let mut writing = Writing::new(alloc);
    for byte in text {
        writing.read(*byte)?;
    }
    writing.finish()
}

/// Where a word stands: at the beginning of the text, first in a further line, or behind others of its line.
#[derive(Clone, Copy, Debug)]
pub enum Position {
    Beginning,
    NewLine,
    SameLine,
}

/// A text that is read byte by byte: the JSON of its words so far, the word under way, and where that
/// stands.
#[derive(Drop)]
struct Writing {
    json: Vec<u8>,
    word: Vec<u8>,
    position: Position,
}

impl Model for Writing {
    ghost use Rattle.omega_report.specs.Writing.{WritingState};

    ghost Value = { WritingState };

    ghost view = { λ w. record { json = w.json.items; word = w.word.items; position = w.position } };
}

impl Writing {
    /// Nothing is read yet.
    fn new(alloc: Global) -> Writing
        ensures { result ≡ record { json = []; word = []; position = Beginning } }
    {
        Writing {
            json: Vec::new(alloc),
            word: Vec::new(alloc),
            position: Position::Beginning,
        }
    }

    /// Reads the next byte.
    fn read(&mut self, byte: u8) -> Result<(), NoMemory>
        ensures { OnOk result (self.new ≡ after_byte self.old byte) }
    {
        match byte {
            b' ' => {
                self.end_word()?;
                self.position = Position::SameLine;
            }
            b'\n' => {
                self.end_word()?;
                self.json.push(b']')?;
                self.position = Position::NewLine;
            }
            _ => self.word.push(byte)?,
        }
        Ok(())
    }

    /// Writes the word under way.
    fn end_word(&mut self) -> Result<(), NoMemory>
        ensures { OnOk result (self.new ≡ record { json = with_word self.old; word = []; position = self.old.position }) }
    {
        self.json.extend_from_slice(lead(self.position))?;
        push_json_word(&mut self.json, self.word.as_slice())?;
        self.word.clear();
        Ok(())
    }

    /// The JSON with the end of its array.
    fn finish(self) -> Result<Bytes, NoMemory>
        ensures { IfOk result (λ json. json ≡ self.json ++ ending self.position) }
    {
        let mut json = self.json;
        json.extend_from_slice(ending(self.position))?;
        Ok(Seq::of(json))
    }
}

/// What stands before a word.
fn lead(position: Position) -> &'static [u8]
    ensures { result.now ≡ lead position }
{
    match position {
        Position::Beginning => b"[[",
        Position::NewLine => b",[",
        Position::SameLine => b",",
    }
}

/// What ends the array of lines; where no word was read, it is opened first.
fn ending(position: Position) -> &'static [u8]
    ensures { result.now ≡ ending position }
{
    match position {
        Position::Beginning => b"[]\n",
        Position::NewLine | Position::SameLine => b"]\n",
    }
}
