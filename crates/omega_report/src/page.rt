//! A page of lines.
ghost use Rattle.std.specs.Prelude.{◌≡◌, ◌∷◌, ◌++◌, [], map, IfOk, OnOk, OnErr, IsTrue};
ghost use Rattle.std.specs.List.{list_all};
ghost use Rattle.omega_model.specs.ReportForms.{in_format};
ghost use Rattle.omega_report.specs.Details.{lines_told};
ghost use Rattle.omega_report.specs.JsonOfText.{in_wide_format};
ghost use Rattle.omega_report.specs.Pages.{added_bytes};
ghost use Rattle.omega_report.specs.Spelling.{fits, is_no_time, is_plain_line, word_of};
ghost use Rattle.omega_sim.specs.TimeLines.{lines_of_totals};

use crate::details::{TimeDetails, push_details};
use crate::items::{end, push_item, push_totals};
use crate::line_words::Word;
use omega_model::{Bytes, Format, NoMemory, Seq};
use omega_sim::TimeTotals;
use std::alloc::Global;
use std::marker::Model;

/// The lines of a report that is under way, in one format.
///
/// A contract sees the format and the list of the lines. What is held is their bytes alone. Each call
/// that appends costs the bytes of its lines. Where it answers `NoMemory`, the page has those of its
/// lines for which there was memory, each as a whole.
#[derive(Drop)]
pub struct Page {
    format: Format,
    bytes: Vec<u8>,
    // The bytes of the line that is appended, so that it is added as a whole or not at all.
    line: Vec<u8>,
}

impl Model for Page {
    ghost use Rattle.omega_report.specs.Pages.{IsPage, PageState};
    ghost use Rattle.omega_report.specs.Readings.{lines_read};

    ghost Value = { PageState };

    ghost view = { λ p. record { format = p.format; lines = lines_read p.bytes.items } };

    ghost invariant = { λ p. IsPage p.format p.bytes.items };
}

impl Page {
    /// A page without a line.
    pub fn new(alloc: Global, format: Format) -> Page
        ensures format { result.format ≡ format }
        ensures lines { result.lines ≡ [] }
    {
        Page {
            format,
            bytes: Vec::new(alloc),
            line: Vec::new(alloc),
        }
    }

    /// Appends the line of these words, of which there is at least one and none is a time. Where memory runs
    /// out the page stays as it was.
    pub fn append(&mut self, words: &[Word]) -> Result<(), NoMemory>
        requires plain { IsTrue (is_plain_line (map word_of words.now)) }
        requires no_time { IsTrue (list_all is_no_time words.now) }
        ensures format { self.new.format ≡ self.old.format }
        ensures ok { OnOk result (self.new.lines ≡ self.old.lines ++ map word_of words.now ∷ []) }
        ensures err { OnErr result (self.new.lines ≡ self.old.lines) }
    {
        let is_first = self.bytes.as_slice().is_empty();
        write_item(self.format, is_first, &mut self.line, words)?;
        self.bytes.extend_from_slice(self.line.as_slice())?;
        Ok(())
    }

    /// The bytes of all lines in the page's format. As text it takes no memory, as JSON that of what
    /// ends the array.
    pub fn finish(self) -> Result<Bytes, NoMemory>
        ensures { IfOk result (λ bytes. bytes ≡ in_format self.format self.lines) }
    {
        let mut bytes = self.bytes;
        end(self.format, &mut bytes)?;
        Ok(Seq::of(bytes))
    }

    /// The bytes of all lines in the page's format, and behind them of those of these totals and of the times,
    /// where these are told. A time of more than 64 bits is a string in JSON.
    pub fn finish_with(
        self,
        totals: &[TimeTotals],
        details: Option<TimeDetails>,
    ) -> Result<Bytes, NoMemory>
        ensures { IfOk result (λ bytes. bytes ≡ in_wide_format self.format (self.lines ++ lines_of_totals totals.now ++ lines_told details.entry)) }
    {
        let mut bytes = self.bytes;
        push_totals(self.format, &mut bytes, totals)?;
        push_details(self.format, &mut bytes, details)?;
        end(self.format, &mut bytes)?;
        Ok(Seq::of(bytes))
    }
}

/// The bytes that a line adds to a page.
fn write_item(
    format: Format,
    is_first: bool,
    out: &mut Vec<u8>,
    words: &[Word],
) -> Result<(), NoMemory>
    ensures bytes { OnOk result (out.new.items ≡ added_bytes format is_first (map word_of words.now)) }
    ensures numbers { OnOk result (IsTrue (list_all fits words.now)) }
{
    out.clear();
    push_item(format, is_first, out, words)
}
