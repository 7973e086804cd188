//! What holds of every legal history.
ghost use Rattle.std.specs.Prelude.{List};
ghost use Rattle.omega_model.specs.Legal.{Legal};
ghost use Rattle.omega_model.specs.declared.entries.Entry.{Entry};
ghost use Rattle.omega_cell.specs.Laws.{NoGangIsSplit, EvictionsGoDown};

/// In every legal history a commit in gang mode has all its claims placed or none; and each task that
/// a claim evicts ran on the claim's machine with lower precedence, is among the claim's victims, and
/// had to go: with the tasks evicted before it as its only victims the claim would not be placed.
/// Does nothing: the contract is the law.
pub fn commits_of_legal_histories()
    ensures gangs { (history : List Entry) → Legal history → NoGangIsSplit history }
    ensures evictions { (history : List Entry) → Legal history → EvictionsGoDown history }
{}
