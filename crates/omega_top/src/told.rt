//! What a report tells of the times of a run.
ghost use Rattle.std.specs.Prelude.{◌≡◌, IfOk};
ghost use Rattle.omega_model.specs.Ranges.{IsInRange};
ghost use Rattle.omega_model.specs.declared.rows.TraceTables.{TraceTables};
ghost use Rattle.omega_report.specs.Details.{lines_told};
ghost use Rattle.omega_sim.specs.Arriving.{AreArrivalsOf};
ghost use Rattle.omega_top.specs.Clocks.{IsTimedRun};
ghost use Rattle.omega_top.specs.Reports.{AreReadRounds, IsOfSomeTrace, IsTold, lines_of_told, told_if};

use omega_feed::EventRounds;
use omega_model::{Entry, NoMemory, Seq, Settings};
use omega_report::TimeDetails;
use omega_sim::{Arrivals, FirstCommit, TimeTotals, Times, first_commits, time_totals};
use std::alloc::Global;

/// What a report tells of the times of a run's commits.
#[derive(Drop)]
pub struct ToldTimes {
    /// What they add up to for each scheduler.
    pub totals: Seq<TimeTotals>,
    /// Each of them, if the settings ask for that.
    pub details: Option<Details>,
}

/// Each time of a run's commits.
#[derive(Drop)]
pub struct Details {
    /// The times of all commits, in order.
    pub times: Times,
    /// The first commit of each job that has one, in order of these commits.
    pub firsts: Seq<FirstCommit>,
}

impl ToldTimes {
    /// Each time, if the settings ask for that, as a report takes it.
    pub fn lend_details(&self) -> Option<TimeDetails<'_>>
        ensures { lines_told result ≡ lines_of_told self.now.details }
    {
        match &self.details {
            None => None,
            Some(details) => Some(TimeDetails {
                times: details.times.as_slice(),
                firsts: details.firsts.as_slice(),
            }),
        }
    }
}

/// What a report tells of a history whose commits have these times, where `rounds` are those of its trace. The
/// times are those of a run of a trace that was read.
///
/// Costs a copy of each row, and for each commit a few look-ups for each scheduler.
pub fn told_of(
    alloc: Global,
    settings: &Settings,
    rounds: &EventRounds,
    history: &[Entry],
    times: Times,
) -> Result<ToldTimes, NoMemory>
    requires range { IsInRange settings.now }
    requires run { IsOfSomeTrace settings.now rounds.now history.now times }
    ensures { (trace : TraceTables) → AreReadRounds settings.now trace rounds.now
        → IsTimedRun settings.now trace history.now times → IfOk result (IsTold settings.now trace history.now) }
{
    let arrivals = Arrivals::of(alloc, rounds)?;
    let totals = time_totals(alloc, settings, &arrivals, history, times.as_slice())?;
    let details = details_of(alloc, settings, &arrivals, history, times)?;
    Ok(ToldTimes { totals, details })
}

/// Each of these times of a history, if the settings ask for them.
fn details_of(
    alloc: Global,
    settings: &Settings,
    arrivals: &Arrivals,
    history: &[Entry],
    times: Times,
) -> Result<Option<Details>, NoMemory>
    requires range { IsInRange settings.now }
    ensures { (trace : TraceTables) → AreArrivalsOf settings.now trace arrivals.now
        → IfOk result (λ details. details ≡ told_if settings.now.times trace history.now times) }
{
    if !settings.times {
        return Ok(None);
    }
    let firsts = first_commits(alloc, arrivals, history, times.as_slice())?;
    Ok(Some(Details { times, firsts }))
}
