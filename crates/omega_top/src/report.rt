//! The report of a run.
ghost use Rattle.std.specs.Prelude.{IfOk};
ghost use Rattle.omega_cell.specs.Effects.{AreEffects};
ghost use Rattle.omega_model.specs.Ranges.{IsInRange};
ghost use Rattle.omega_model.specs.declared.rows.TraceTables.{TraceTables};
ghost use Rattle.omega_top.specs.Reports.{IsReport};
ghost use Rattle.omega_top.specs.Runs.{IsRunOf};

use crate::replay::WholeRun;
use omega_model::{Bytes, NoMemory, Settings};
use omega_report::{report, timed_report};
use std::alloc::Global;

/// The bytes of the report of a run, in the format of the settings; that of a simulated run also says how long
/// its schedulers decided and how long its jobs waited, and, if the settings ask for it, tells each time.
pub fn report_of_run(alloc: Global, settings: &Settings, run: &WholeRun) -> Result<Bytes, NoMemory>
    requires range { IsInRange settings.now }
    requires effects { AreEffects run.now.history run.now.effects }
    ensures { IfOk result (λ bytes. (trace : TraceTables) → IsRunOf settings.now trace run.now
        → IsReport settings.now trace run.now.history bytes) }
{
    let history = run.history.as_slice();
    match &run.told {
        None => report(alloc, settings, history, &run.effects, &run.left),
        Some(told) => {
            let totals = told.totals.as_slice();
            let details = told.lend_details();
            timed_report(
                alloc,
                settings,
                history,
                &run.effects,
                &run.left,
                totals,
                details,
            )
        }
    }
}
