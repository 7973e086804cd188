//! The lines of a report that say how long schedulers decided and how long jobs waited.
ghost use Rattle.std.specs.Prelude.{◌≡◌, ◌∷◌, ◌++◌, [], IfOk, OnOk};
ghost use Rattle.std.specs.List.{flat_map};
ghost use Rattle.std.specs.String.{string_bytes};
ghost use Rattle.omega_model.specs.Ranges.{IsInRange};
ghost use Rattle.omega_model.specs.ReportForms.{text_of};
ghost use Rattle.omega_model.specs.declared.rows.TraceTables.{TraceTables};
ghost use Rattle.omega_sim.specs.Arriving.{AreArrivalsOf};
ghost use Rattle.omega_sim.specs.Summing.{SumsFit};
ghost use Rattle.omega_sim.specs.TimeLines.{busy_line, lines_of_time, text_of_totals, wait_line};

use crate::arrivals::Arrivals;
use crate::timed::Timed;
use crate::totals::{TimeTotals, time_totals};
use omega_model::{Bytes, Entry, NoMemory, Seq, Settings};
use std::alloc::Global;

/// The bytes of the lines that say for each scheduler, from 0, how long it decided and how long the whole run
/// took, and for how many jobs it committed and how long these waited in all; times are in microseconds.
///
/// Costs what `time_totals` costs.
pub fn time_lines(
    alloc: Global,
    settings: &Settings,
    arrivals: &Arrivals,
    history: &[Entry],
    times: &[Timed],
) -> Result<Bytes, NoMemory>
    requires range { IsInRange settings.now }
    requires sums { SumsFit history.now times.now }
    ensures { IfOk result (λ bytes. (trace : TraceTables) → AreArrivalsOf settings.now trace arrivals.now
        → bytes ≡ text_of (lines_of_time settings.now trace history.now times.now)) }
{
    let totals = time_totals(alloc, settings, arrivals, history, times)?;
    let mut text = String::new(alloc);
    push_lines(&mut text, totals.as_slice())?;
    Ok(Seq::of(text.into_bytes()))
}

/// Appends the lines of each scheduler.
fn push_lines(text: &mut String, totals: &[TimeTotals]) -> Result<(), NoMemory>
    ensures { OnOk result (string_bytes text.new ≡ string_bytes text.old ++ flat_map text_of_totals totals.now) }
{
    for of_one in totals {
        push_both(text, of_one)?;
    }
    Ok(())
}

/// Appends both lines of a scheduler.
fn push_both(text: &mut String, totals: &TimeTotals) -> Result<(), NoMemory>
    ensures { OnOk result (string_bytes text.new ≡ string_bytes text.old ++ text_of_totals totals.now) }
{
    push_busy(text, totals.scheduler, totals.busy, totals.span)?;
    push_wait(text, totals.scheduler, totals.jobs, totals.wait)
}

/// Appends the line of how long a scheduler decided.
fn push_busy(text: &mut String, scheduler: u32, decided: u128, span: u128) -> Result<(), NoMemory>
    ensures { OnOk result (string_bytes text.new ≡ string_bytes text.old ++ text_of (busy_line scheduler decided span ∷ [])) }
{
    writeln!(text, "busy {scheduler} {decided} {span}")?;
    Ok(())
}

/// Appends the line of how long the jobs of a scheduler waited.
fn push_wait(text: &mut String, scheduler: u32, jobs: u64, waited: u128) -> Result<(), NoMemory>
    ensures { OnOk result (string_bytes text.new ≡ string_bytes text.old ++ text_of (wait_line scheduler jobs waited ∷ [])) }
{
    writeln!(text, "wait {scheduler} {jobs} {waited}")?;
    Ok(())
}
