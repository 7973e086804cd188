//! The run of a trace.
ghost use Rattle.std.specs.Prelude.{◌≡◌, ◌≤◌, All, false, IfOk};
ghost use Rattle.std.specs.Thread.{IsSync};
ghost use Rattle.omega_model.specs.Fields.{most_activities};
ghost use Rattle.omega_model.specs.Limits.{IsWithinLimits};
ghost use Rattle.omega_model.specs.Ranges.{IsInRange};
ghost use Rattle.omega_model.specs.declared.rows.TraceTables.{TraceTables};
ghost use Rattle.omega_model.specs.declared.settings.Settings.{Settings as SettingsOfRun};
ghost use Rattle.omega_rounds.specs.Stages.{IsInRunOf};
ghost use Rattle.omega_top.specs.Clocks.{runs_freely};
ghost use Rattle.omega_top.specs.Reports.{AreReadRounds, AreTimesBy, IsOfSomeTraceBy, IsToldBy};
ghost use Rattle.omega_top.specs.Runs.{IsOver, IsRunOf};

use crate::done::Remains;
use crate::free_run::{ran_freely, runs_freely};
use crate::told::{ToldTimes, told_of};
use omega_cell::Effects;
use omega_feed::WaitingTasks;
use omega_io::Gate;
use omega_model::{ActivityRow, Command, Entries, NoMemory, Settings, TraceTables};
use omega_rounds::{World, in_time, in_turns, on_threads};
use omega_sim::Times;
use std::alloc::Global;
use std::sync::Wait;
use std::thread::Threads;

/// A whole run: its history, what its report is made of, and what is left of the world in which it ran.
#[derive(Drop)]
pub struct WholeRun {
    /// The history.
    pub history: Entries,
    /// What its entries did to the cell.
    pub effects: Effects,
    /// The tasks that wait at its end, and their jobs.
    pub left: WaitingTasks,
    /// What is told of the times of its commits, on `simulate`; else `None`.
    pub told: Option<ToldTimes>,
    /// What is left of the world in which it ran.
    pub remains: Remains,
}

/// What a run depends on: the settings, and the tables of the trace.
#[derive(Drop)]
pub struct RunInput {
    pub settings: Settings,
    pub trace: TraceTables,
}

/// The run of a trace under these settings: on `run` with each scheduler on a thread of its own, which passes the
/// gate; on `simulate` by the virtual clock that they choose; else with the schedulers taking turns. On `run` it may
/// wait.
pub fn replayed<R: Threads + Wait + Sync, G: Gate + Sync>(
    rt: &R,
    alloc: Global,
    input: RunInput,
    gate: &G,
) -> Result<WholeRun, NoMemory>
    requires range { IsInRange input.settings }
    requires within { IsWithinLimits input.trace }
    requires sync { IsSync R.row × IsSync G.row }
    ensures { IfOk result (IsRunOf input.settings input.trace) }
{
    let RunInput { settings, trace } = input;
    activities_are_few(trace.activities.as_slice());
    if runs_freely(&settings) {
        ran_freely(alloc, &settings, trace)
    } else {
        ran_in_rounds(rt, alloc, &settings, trace, gate)
    }
}

/// The run of a trace whose rounds wait for all schedulers.
fn ran_in_rounds<R: Threads + Wait + Sync, G: Gate + Sync>(
    rt: &R,
    alloc: Global,
    settings: &Settings,
    trace: TraceTables,
    gate: &G,
) -> Result<WholeRun, NoMemory>
    requires range { IsInRange settings.now }
    requires within { IsWithinLimits trace }
    requires few { All (λ row. row.activities ≤ most_activities) trace.activities }
    requires rounds { runs_freely settings.now ≡ false }
    requires sync { IsSync R.row × IsSync G.row }
    ensures { IfOk result (IsRunOf settings.now trace) }
{
    let world = World::new(alloc, settings, trace)?;
    let (world, times) = run_to_end(rt, settings, world, gate)?;
    let told = told_by(alloc, settings, &world, times)?;
    whole_run(world, told)
}

/// What is held of a world whose run is over, and of whose times this is told.
pub fn whole_run(world: World, told: Option<ToldTimes>) -> Result<WholeRun, NoMemory>
    ensures history { IfOk result (λ run. run.history ≡ world.history) }
    ensures run { (settings : SettingsOfRun) (trace : TraceTables) → runs_freely settings ≡ false → IsOver settings trace world
        → IsToldBy settings.command settings trace world.history told → IfOk result (IsRunOf settings trace) }
{
    let left = world.waiting()?;
    let (history, effects, remains) = world.into_run();
    Ok(WholeRun {
        history,
        effects,
        left,
        told,
        remains: Remains::OfRounds(remains),
    })
}

/// Runs all rounds of a new world as the command has it. Answers the world after them, and on `simulate` the
/// times of its commits.
fn run_to_end<R: Threads + Wait + Sync, G: Gate + Sync>(
    rt: &R,
    settings: &Settings,
    world: World,
    gate: &G,
) -> Result<(World, Option<Times>), NoMemory>
    requires new { world.stage.begun ≡ 0 }
    requires by { world.stage.settings ≡ settings.now }
    requires rounds { runs_freely settings.now ≡ false }
    requires sync { IsSync R.row × IsSync G.row }
    ensures over { IfOk result (λ after. (trace : TraceTables) → IsInRunOf world.stage trace
        → IsOver settings.now trace after.0) }
    ensures timed { IfOk result (λ after. (trace : TraceTables) → IsInRunOf world.stage trace
        → AreTimesBy settings.now.command settings.now trace after.0.history after.1) }
{
    match settings.command {
        Command::Run => Ok((on_threads(rt, world, gate)?, None)),
        Command::Simulate => {
            let (world, times) = in_time(world)?;
            Ok((world, Some(times)))
        }
        _ => Ok((in_turns(rt, world)?, None)),
    }
}

/// What is told of the times of a run's commits, if it has times. The world is that of a trace that was read.
fn told_by(
    alloc: Global,
    settings: &Settings,
    world: &World,
    times: Option<Times>,
) -> Result<Option<ToldTimes>, NoMemory>
    requires range { IsInRange settings.now }
    requires run { IsOfSomeTraceBy settings.now world.now.stage.source.rounds world.now.history times }
    ensures { (trace : TraceTables) → AreReadRounds settings.now trace world.now.stage.source.rounds
        → AreTimesBy settings.now.command settings.now trace world.now.history times
        → IfOk result (IsToldBy settings.now.command settings.now trace world.now.history) }
{
    match times {
        None => Ok(None),
        Some(times) => {
            let told = told_of(alloc, settings, world.rounds(), world.history(), times)?;
            Ok(Some(told))
        }
    }
}

/// No job has more activities than a row can say: the type of a row keeps it.
fn activities_are_few(rows: &[ActivityRow])
    ensures { All (λ row. row.activities ≤ most_activities) rows.now }
{
    for row in rows {
        let _activities = row.activities;
    }
}
