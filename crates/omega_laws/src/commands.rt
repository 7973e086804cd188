//! What the command of the settings changes of a run in turns.
ghost use Rattle.std.specs.Prelude.{◌≡◌, List};
ghost use Rattle.omega_model.specs.Lawful.{Lawful};
ghost use Rattle.omega_model.specs.ReportForms.{printed_report};
ghost use Rattle.omega_model.specs.declared.entries.Entry.{Entry};
ghost use Rattle.omega_model.specs.declared.rows.TraceTables.{TraceTables};
ghost use Rattle.omega_model.specs.declared.settings.Command.TheVariants.{Resume};
ghost use Rattle.omega_model.specs.declared.settings.Settings.{Settings};
ghost use Rattle.omega_laws.specs.AsReplay.{as_replay};

/// For settings that differ in the command alone the same histories of a trace are lawful; whether the
/// schedulers take turns in one is said of the history alone. And of each history `resume` prints the
/// report that `replay` prints, byte for byte. Does nothing: the contract is the law.
pub fn resumed_runs_are_replays()
    ensures lawful { (settings : Settings) (trace : TraceTables) (history : List Entry)
        → Lawful settings trace history → Lawful (as_replay settings) trace history }
    ensures no_more { (settings : Settings) (trace : TraceTables) (history : List Entry)
        → Lawful (as_replay settings) trace history → Lawful settings trace history }
    ensures report { (settings : Settings) (trace : TraceTables) (history : List Entry)
        → settings.command ≡ Resume
        → printed_report settings trace history ≡ printed_report (as_replay settings) trace history }
{}
