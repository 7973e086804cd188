//! The run of a trace by the free clock.
ghost use Rattle.std.specs.Prelude.{◌≡◌, ◌≤◌, All, IfOk, true};
ghost use Rattle.omega_model.specs.Fields.{most_activities};
ghost use Rattle.omega_model.specs.Limits.{IsWithinLimits};
ghost use Rattle.omega_model.specs.Ranges.{IsInRange};
ghost use Rattle.omega_top.specs.Clocks.{runs_freely};
ghost use Rattle.omega_top.specs.Runs.{IsRunOf};

use crate::done::Remains;
use crate::replay::WholeRun;
use crate::told::told_of;
use omega_free::{WholeRun as FreeRun, run_freely};
use omega_model::{Clock, Command, NoMemory, Settings, TraceTables};
use std::alloc::Global;

/// Whether these settings are of a run by the free clock: on `simulate`, where they choose it.
pub fn runs_freely(settings: &Settings) -> bool
    ensures { result ≡ runs_freely settings.now }
{
    match settings.command {
        Command::Simulate => matches!(settings.clock, Clock::Free),
        _ => false,
    }
}

/// The run of a trace by the free clock, with what its report tells of its times.
pub fn ran_freely(
    alloc: Global,
    settings: &Settings,
    trace: TraceTables,
) -> Result<WholeRun, NoMemory>
    requires range { IsInRange settings.now }
    requires within { IsWithinLimits trace }
    requires few { All (λ row. row.activities ≤ most_activities) trace.activities }
    requires free { runs_freely settings.now ≡ true }
    ensures { IfOk result (IsRunOf settings.now trace) }
{
    let FreeRun {
        history,
        times,
        effects,
        left,
        rounds,
        remains,
    } = run_freely(alloc, settings, trace)?;
    let told = told_of(alloc, settings, &rounds, history.as_slice(), times)?;
    Ok(WholeRun {
        history,
        effects,
        left,
        told: Some(told),
        remains: Remains::Free(remains),
    })
}
