//! What holds of the times of every run by the free clock, by the definitions alone.
ghost use Rattle.std.specs.Prelude.{List};
ghost use Rattle.omega_laws.specs.VirtualTime.{Timed};
ghost use Rattle.omega_model.specs.Ranges.{IsInRange};
ghost use Rattle.omega_model.specs.declared.entries.Entry.{Entry};
ghost use Rattle.omega_model.specs.declared.rows.TraceTables.{TraceTables};
ghost use Rattle.omega_model.specs.declared.settings.Settings.{Settings};
ghost use Rattle.omega_sim.specs.InBounds.{IsInBounds};
ghost use Rattle.omega_sim.specs.Summing.{SumsFit};
ghost use Rattle.omega_free_laws.specs.Free.{FreeRun};
ghost use Rattle.omega_free.specs.FreeRuns.{reading_of};

/// In every run by the free clock of a trace within the limits a decision takes less than 2^51 microseconds and begins
/// before 2^101, and a scheduler commits for fewer than 2^21 jobs; so no sum over its times has more than 128 bits. Does
/// nothing: the contract is the law.
pub fn sums_of_free_runs()
    ensures { (settings : Settings) (trace : TraceTables) (history : List Entry) (times : List Timed)
        → IsInRange settings → IsInBounds trace → FreeRun settings (reading_of settings trace) history times
        → SumsFit history times }
{}
