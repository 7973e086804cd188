//! What holds of JSON and of lawful histories, by the definitions alone.
ghost use Rattle.std.specs.Prelude.{◌≡◌, ◌∷◌, ◌++◌, [], List, true};
ghost use Rattle.std.specs.List.{list_all};
ghost use Rattle.serde_json.specs.Written.{compact_text};
ghost use Rattle.omega_model.specs.Lawful.{Lawful};
ghost use Rattle.omega_model.specs.Report.{Line};
ghost use Rattle.omega_model.specs.ReportForms.{are_plain, json_of};
ghost use Rattle.omega_model.specs.declared.entries.Entry.{Entry};
ghost use Rattle.omega_model.specs.declared.rows.TraceTables.{TraceTables};
ghost use Rattle.omega_model.specs.declared.settings.Format.{Format};
ghost use Rattle.omega_model.specs.declared.settings.Settings.{Settings};
ghost use Rattle.omega_report.specs.Begun.{BeginsRoundsOf};
ghost use Rattle.omega_report.specs.Items.{report_data};
ghost use Rattle.omega_report.specs.JsonOfText.{in_wide_format};
ghost use Rattle.omega_report.specs.Spelling.{are_short};

/// Where all words of some lines are plain and all their numbers have 64 bits, the JSON that is made of
/// their text is that of the lines. Does nothing: the contract is the law.
pub fn json_of_short_lines()
    ensures { (lines : List Line) → are_plain lines ≡ true → list_all are_short lines ≡ true
        → in_wide_format Format.Json lines ≡ json_of lines }
{}

/// The JSON of lines of plain words is the compact form in which `serde_json` prints them as a `Value`, an array
/// with an array of words for each line, and a line feed. Does nothing: the contract is the law.
pub fn json_is_compact()
    ensures { (lines : List Line) → are_plain lines ≡ true
        → compact_text (report_data lines) ++ 10 ∷ [] ≡ json_of lines }
{}

/// A lawful history of a trace begins as many rounds as the trace has. Does nothing: the contract is the law.
pub fn lawful_histories_begin_all_rounds()
    ensures { (settings : Settings) (trace : TraceTables) (history : List Entry)
        → Lawful settings trace history → BeginsRoundsOf settings trace history }
{}
