//! What the times of a simulated run add up to.
ghost use Rattle.std.specs.Prelude.{◌≡◌, IfOk};
ghost use Rattle.omega_model.specs.Ranges.{IsInRange};
ghost use Rattle.omega_model.specs.declared.rows.TraceTables.{TraceTables};
ghost use Rattle.omega_sim.specs.Arriving.{AreArrivalsOf};
ghost use Rattle.omega_sim.specs.Summing.{SumsFit};
ghost use Rattle.omega_sim.specs.TimeLines.{totals_of};

use crate::arrivals::Arrivals;
use crate::sums::{busy, committed_jobs, first_syncs, last_time, waited};
use crate::timed::Timed;
use omega_model::{Entry, NoMemory, Seq, Settings};
use std::alloc::Global;

/// What the times of a scheduler's commits add up to. Times are in microseconds.
#[derive(Clone, Copy, Debug)]
pub struct TimeTotals {
    pub scheduler: u32,
    /// How long it decided.
    pub busy: u128,
    /// How long the whole run took.
    pub span: u128,
    /// For how many jobs it has a commit.
    pub jobs: u64,
    /// How long these jobs waited in all.
    pub wait: u128,
}

/// What the times of each scheduler's commits add up to, from scheduler 0.
///
/// Goes over the commits a few times for each scheduler, of which there are at most 32; each costs a
/// look-up among the jobs.
pub fn time_totals(
    alloc: Global,
    settings: &Settings,
    arrivals: &Arrivals,
    history: &[Entry],
    times: &[Timed],
) -> Result<Seq<TimeTotals>, NoMemory>
    requires range { IsInRange settings.now }
    requires sums { SumsFit history.now times.now }
    ensures { IfOk result (λ totals. (trace : TraceTables) → AreArrivalsOf settings.now trace arrivals.now
        → totals ≡ totals_of settings.now trace history.now times.now) }
{
    let synced = first_syncs(alloc, history, times)?;
    let span = arrivals.span(last_time(times));
    let mut totals = Seq::new(alloc);
    for scheduler in 0..settings.schedulers() {
        let jobs = committed_jobs(alloc, scheduler, history, times)?;
        totals.push(TimeTotals {
            scheduler,
            busy: busy(scheduler, times),
            span,
            jobs: jobs.len() as u64,
            wait: waited(jobs.as_slice(), &arrivals.first_times, &synced),
        })?;
    }
    Ok(totals)
}
