//! The steps of a run by the free clock: what each is, that they end, and who decides on what.
ghost use Rattle.std.specs.Prelude.{◌≡◌, ◌≤◌, ℕ, List, [], Some, None};
ghost use Rattle.std.specs.List.{AllByRecursion as Each};
ghost use Rattle.omega_model.specs.Routing.{scheduler_of};
ghost use Rattle.omega_model.specs.declared.entries.Entry.{Entry};
ghost use Rattle.omega_model.specs.declared.rows.TraceTables.{TraceTables};
ghost use Rattle.omega_model.specs.declared.settings.Settings.{Settings};
ghost use Rattle.omega_laws.specs.VirtualTime.{Timed};
ghost use Rattle.omega_free_laws.specs.CrewLaws.{CrewInOrder, IsOnIt};
ghost use Rattle.omega_free_laws.specs.Free.{Free, FreeByLives, IsOver, after};
ghost use Rattle.omega_free_laws.specs.FreeSteps.{DueCommit, Moment, first_due, next};
ghost use Rattle.omega_free_laws.specs.NextStep.{Happens};
ghost use Rattle.omega_free_laws.specs.Readings.{Reading, by_lives, by_rows};
ghost use Rattle.omega_free_laws.specs.StepsLeft.{most_steps, none_left};
ghost use Rattle.omega_free_laws.specs.LivesLaws.{lives_left};

/// In each step the next round opens, a task ends of itself or a scheduler commits: the one of the
/// three that is due first, and of those due at one time the former. It is over only where no round
/// is to come and nobody is deciding. Does nothing: the contract is the law.
pub fn steps_of_free_runs()
    ensures happens { (settings : Settings) (reading : Reading) (old new : Moment)
        → next settings reading old ≡ Some new → Happens settings reading old new }
    ensures over { (settings : Settings) (reading : Reading) (moment : Moment)
        → IsOver settings reading moment → (moment.coming ≡ []) × (first_due moment.crew ≡ None) }
{}

/// Every run ends, after a number of steps that follows from the settings and the trace, and so
/// every trace has a run. Does nothing: the contract is the law.
pub fn free_runs_end()
    ensures by_rows { (settings : Settings) (trace : TraceTables) → 1 ≤ settings.tries
        → IsOver settings (by_rows trace) (after settings (by_rows trace) (most_steps none_left settings (by_rows trace))) }
    ensures by_lives { (settings : Settings) (trace : TraceTables) → 1 ≤ settings.tries
        → IsOver settings (by_lives trace) (after settings (by_lives trace) (most_steps (lives_left trace) settings (by_lives trace))) }
    ensures has_one { (settings : Settings) (trace : TraceTables) → 1 ≤ settings.tries
        → ((history : List Entry) × ((times : List Timed) × Free settings trace history times))
        × ((history : List Entry) × ((times : List Timed) × FreeByLives settings trace history times)) }
{}

/// At each moment the schedulers stand in order of number, and each that is deciding has planned for
/// the first of its requests, those of its wishes that were wanted, on what it had seen, and will
/// have decided when the time for so many has gone by. The attempt that is due first is that of the
/// scheduler of its number, and for a job of it. Does nothing: the contract is the law.
pub fn schedulers_of_free_runs()
    ensures order { (settings : Settings) (reading : Reading) (steps : ℕ)
        → CrewInOrder settings reading (after settings reading steps) }
    ensures due { (settings : Settings) (reading : Reading) (steps : ℕ) (due : DueCommit)
        → first_due (after settings reading steps).crew ≡ Some due
        → Each (IsOnIt due) (after settings reading steps).crew }
    ensures routed { (settings : Settings) (reading : Reading) (steps : ℕ) (due : DueCommit)
        → first_due (after settings reading steps).crew ≡ Some due
        → scheduler_of settings reading.trace due.attempt.job ≡ due.by }
{}
