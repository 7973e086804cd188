//! What holds of the history of every run by the free clock.
ghost use Rattle.std.specs.Prelude.{◌≡◌, ◌<◌, ℕ, List};
ghost use Rattle.omega_model.specs.declared.entries.Entry.{Entry};
ghost use Rattle.omega_model.specs.declared.rows.TraceTables.{TraceTables};
ghost use Rattle.omega_model.specs.declared.settings.Settings.{Settings};
ghost use Rattle.omega_laws.specs.VirtualTime.{Timed};
ghost use Rattle.omega_free_laws.specs.Free.{Free, FreeByLives, FreeRun};
ghost use Rattle.omega_free_laws.specs.LawsOfRuns.{HoldsByLives, HoldsByRows, HoldsOfFreeRuns};
ghost use Rattle.omega_free_laws.specs.Readings.{Reading};

/// However a trace is read, the run by the free clock has one history and one list of times. The
/// history is legal, its state is sound after each entry, no gang is split and evictions go down;
/// it begins as many rounds as the trace has; each commit had seen its scheduler's last one; the
/// times are those of the commits. Each commit is what was still wanted of a plan for wishes of the
/// trace on what its scheduler had seen, each claim on a machine that met the wish's constraints
/// there, and it comes a decision on these wishes after its sync. Does nothing: the contract is the
/// law.
pub fn free_histories()
    ensures only { (settings : Settings) (reading : Reading) (one other : List Entry)
        (times_one times_other : List Timed)
        → FreeRun settings reading one times_one → FreeRun settings reading other times_other
        → (one ≡ other) × (times_one ≡ times_other) }
    ensures holds { (settings : Settings) (reading : Reading) (history : List Entry)
        (times : List Timed)
        → FreeRun settings reading history times → HoldsOfFreeRuns settings reading history times }
{}

/// Where tasks end by the trace's rows, the entries of each round's rows stand in one stretch, the
/// rounds in order, with commits alone between them, and the times never fall. Does nothing: the
/// contract is the law.
pub fn free_histories_by_rows()
    ensures { (settings : Settings) (trace : TraceTables) (history : List Entry) (times : List Timed)
        → 0 < settings.window
        → Free settings trace history times → HoldsByRows settings trace history times }
{}

/// Where tasks end when they have run for their lives, the entries of the other rows stand so, with
/// commits and ends between them, and the times never fall. Each end is that of a task that runs on
/// its machine. The end of a task of the trace comes when the task has run there for the life of its
/// piece, and is the only one of that piece; and when all is over, none was due. Does nothing: the
/// contract is the law.
pub fn free_histories_by_lives()
    ensures { (settings : Settings) (trace : TraceTables) (history : List Entry) (times : List Timed)
        → 0 < settings.window
        → FreeByLives settings trace history times → HoldsByLives settings trace history times }
{}
