//! What holds of every history, by the definitions alone.
ghost use Rattle.std.specs.Prelude.{◌≡◌, ℕ, ◌≤◌, List, ◌++◌, length, take};
ghost use Rattle.omega_model.specs.Legal.{Legal, Sound};
ghost use Rattle.omega_model.specs.State.{state};
ghost use Rattle.omega_model.specs.Work.{HasLeft, commits_of};
ghost use Rattle.omega_model.specs.declared.entries.Entry.{Entry};
ghost use Rattle.omega_model.specs.declared.rows.Row.{Row};
ghost use Rattle.omega_model.specs.declared.rows.TraceTables.{TraceTables};
ghost use Rattle.omega_model.specs.declared.settings.Settings.{Settings};
ghost use Rattle.omega_model.specs.declared.wishes.Request.{Request};

/// In every legal history the state after each number of entries is sound: no task runs twice, each
/// is on a machine that is up, and no machine is used beyond its capacity. Does nothing: the contract
/// is the law.
pub fn states_of_legal_histories()
    ensures { (history : List Entry) → Legal history → (n : ℕ) → Sound (state (take n history)) }
{}

/// Only a scheduler's own commits change what is left of its requests in a round: where entries without
/// a commit of its number follow a history that holds the round's rows, just the same is left with
/// them as without. Does nothing: the contract is the law.
pub fn work_that_is_left()
    ensures grows { (settings : Settings) (trace : TraceTables) (rows : List Row) (opened_at scheduler : ℕ)
        (history later : List Entry) (left : List Request)
        → opened_at ≤ length history → commits_of scheduler later ≡ 0
        → HasLeft settings trace rows opened_at scheduler history left
        → HasLeft settings trace rows opened_at scheduler (history ++ later) left }
    ensures shrinks { (settings : Settings) (trace : TraceTables) (rows : List Row) (opened_at scheduler : ℕ)
        (history later : List Entry) (left : List Request)
        → opened_at ≤ length history → commits_of scheduler later ≡ 0
        → HasLeft settings trace rows opened_at scheduler (history ++ later) left
        → HasLeft settings trace rows opened_at scheduler history left }
{}
