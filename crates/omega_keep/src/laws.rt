//! What holds of lines, by the definitions alone.
ghost use Rattle.std.specs.Prelude.{◌≡◌, ℕ, List};
ghost use Rattle.omega_model.specs.declared.entries.Entry.{Entry};
ghost use Rattle.omega_keep.specs.Audited.{IsAudited, IsFirstRefused};
ghost use Rattle.omega_keep.specs.KeptLines.{entry_text, IsAnswered, IsInRange};

/// No two entries have the same line. Does nothing: the contract is the law.
pub fn one_line_each()
    ensures { (a b : Entry) → IsInRange a → IsInRange b → IsAnswered a → IsAnswered b → entry_text a ≡ entry_text b → a ≡ b }
{}

/// Lines of a history each of whose entries is possible have no line that is refused. Does nothing: the
/// contract is the law.
pub fn audited_lines_are_not_refused()
    ensures { (lines : List (List ℕ)) (history : List Entry) (place : ℕ) → IsAudited lines history → IsFirstRefused lines place → ⊥ }
{}
