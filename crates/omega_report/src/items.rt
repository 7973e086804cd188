//! Lines behind each other, in a format.
ghost use Rattle.std.specs.Prelude.{◌≡◌, ◌∷◌, ◌++◌, [], List, map, IsTrue, OnOk};
ghost use Rattle.std.specs.List.{list_all};
ghost use Rattle.omega_model.specs.Report.{Line};
ghost use Rattle.omega_report.specs.JsonOfText.{in_wide_format};
ghost use Rattle.omega_report.specs.Pages.{added_bytes, end_of_array, open_form};
ghost use Rattle.omega_report.specs.Spelling.{fits, word_of};
ghost use Rattle.omega_sim.specs.TimeLines.{lines_by, lines_of_totals};

use crate::line_words::Word::{self, Name, Number, Time};
use crate::writing::push_line;
use omega_model::{Format, NoMemory};
use omega_sim::TimeTotals;

/// Appends the bytes that a line adds, where it may be the first one: in JSON the lines are the items of an
/// array.
pub fn push_item(
    format: Format,
    is_first: bool,
    out: &mut Vec<u8>,
    words: &[Word],
) -> Result<(), NoMemory>
    ensures bytes { OnOk result (out.new.items ≡ out.old.items ++ added_bytes format is_first (map word_of words.now)) }
    ensures numbers { OnOk result (IsTrue (list_all fits words.now)) }
{
    match format {
        Format::Text => {}
        Format::Json => out.push(if is_first { b'[' } else { b',' })?,
    }
    push_line(format, out, words)?;
    Ok(())
}

/// Appends the lines of these totals behind others.
pub fn push_totals(
    format: Format,
    bytes: &mut Vec<u8>,
    totals: &[TimeTotals],
) -> Result<(), NoMemory>
    ensures { OnOk result ((lines : List Line) → bytes.old.items ≡ open_form format lines
        → bytes.new.items ≡ open_form format (lines ++ lines_of_totals totals.now)) }
{
    for of_one in totals {
        push_both(format, bytes, of_one)?;
    }
    Ok(())
}

/// Appends both lines of a scheduler.
fn push_both(format: Format, bytes: &mut Vec<u8>, totals: &TimeTotals) -> Result<(), NoMemory>
    ensures { OnOk result ((lines : List Line) → bytes.old.items ≡ open_form format lines
        → bytes.new.items ≡ open_form format (lines ++ lines_by totals.now)) }
{
    let scheduler = Number(u64::from(totals.scheduler));
    let busy = [
        Name("busy"),
        scheduler,
        Time(totals.busy),
        Time(totals.span),
    ];
    push_behind(format, bytes, &busy)?;
    let wait = [
        Name("wait"),
        scheduler,
        Number(totals.jobs),
        Time(totals.wait),
    ];
    push_behind(format, bytes, &wait)?;
    Ok(())
}

/// Appends a line behind others.
pub fn push_behind(format: Format, bytes: &mut Vec<u8>, words: &[Word]) -> Result<(), NoMemory>
    ensures { OnOk result ((lines : List Line) → bytes.old.items ≡ open_form format lines
        → bytes.new.items ≡ open_form format (lines ++ map word_of words.now ∷ [])) }
{
    let is_first = bytes.as_slice().is_empty();
    push_item(format, is_first, bytes, words)?;
    Ok(())
}

/// Ends the lines: in JSON with the end of the array.
pub fn end(format: Format, bytes: &mut Vec<u8>) -> Result<(), NoMemory>
    ensures { OnOk result ((lines : List Line) → bytes.old.items ≡ open_form format lines
        → bytes.new.items ≡ in_wide_format format lines) }
{
    match format {
        Format::Text => Ok(()),
        Format::Json => {
            let end = end_of_array(bytes.as_slice().is_empty());
            bytes.extend_from_slice(end)?;
            Ok(())
        }
    }
}

/// What ends the array of the lines; where there is none, the array is opened first.
fn end_of_array(is_empty: bool) -> &'static [u8]
    ensures { result.now ≡ end_of_array is_empty }
{
    if is_empty { b"[]\n" } else { b"]\n" }
}
