//! A run by a virtual clock, in which decisions take time.
ghost use Rattle.std.specs.Prelude.{◌≡◌, ◌≤◌, ◌<◌, ◌+◌, List, Some, IfOk, OnOk, length, max, unwrap_or};
ghost use Rattle.omega_laws.specs.Simulated.{SimulatedWith, until_after};
ghost use Rattle.omega_laws.specs.VirtualTime.{Timed as CommitTime, decision};
ghost use Rattle.omega_model.specs.Policy.{schedulers};
ghost use Rattle.omega_model.specs.declared.entries.Entry.{Entry};
ghost use Rattle.omega_model.specs.declared.rows.TraceTables.{TraceTables};
ghost use Rattle.omega_rounds.specs.Clocked.{TimedRound, next_at};
ghost use Rattle.omega_rounds.specs.InTime.{BeginsInTime, EndsInTime, GoesByClock, PlaysInTime, StandsInTime, rows_time};
ghost use Rattle.omega_rounds.specs.Stages.{AllHaveBegun, IsInRunOf};
ghost use Rattle.omega_sim.specs.Agenda.{IsFirst};

use crate::steps::RoundStep;
use crate::world::World;
use omega_model::{NoMemory, Settings};
use omega_sim::{Agenda, Timed, Times, last_time};
use omega_workers::Stepped;

/// Runs all rounds of a new world to their end by a virtual clock. When a round begins all schedulers
/// that have work sync, and each decides for as long as the settings say for its first request and the
/// wishes that are left of it. The one whose time comes first commits, of several at the same time the one
/// with the least number, and syncs at once if it has work left. Where nobody has work the next round begins:
/// at the greatest time of its rows, or when the last commit was made, if that is later. Answers the commits
/// with their times. Where memory runs out the world is gone. A time of more than 128 bits is answered as want
/// of memory too; no memory has room for as many commits as that takes.
///
/// The history and the times are the only ones that are simulated for the settings and the trace. Costs, beside
/// the steps, for each commit a look at each scheduler.
pub fn in_time(world: World) -> Result<(World, Times), NoMemory>
    requires { world.stage.begun ≡ 0 }
    ensures source { IfOk result (λ after. after.0.stage.source ≡ world.stage.source) }
    ensures settings { IfOk result (λ after. after.0.stage.settings ≡ world.stage.settings) }
    ensures last { IfOk result (λ after. AllHaveBegun after.0.stage) }
    ensures simulated { IfOk result (λ after. (trace : TraceTables) → IsInRunOf world.stage trace
        → SimulatedWith world.stage.settings trace after.0.history after.1) }
    ensures only { IfOk result (λ after. (trace : TraceTables) → IsInRunOf world.stage trace
        → (other : List Entry) (times : List CommitTime) → SimulatedWith world.stage.settings trace other times
        → (other ≡ after.0.history) × (times ≡ after.1)) }
{
    let mut times = Times::new(world.alloc());
    let mut world = world;
    loop {
        let (mut next, step) = world.next_round()?;
        match step {
            RoundStep::Begun(_) => play_round(&mut next, &mut times)?,
            RoundStep::Unfinished(_) => unreachable!(),
            RoundStep::Over => return Ok((next, times)),
        }
        world = next;
    }
}

/// Plays the round that is under way to its end, and appends the times of its commits.
fn play_round(world: &mut World, times: &mut Times) -> Result<(), NoMemory>
    requires begins { (timed : TimedRound) × BeginsInTime timed world.old times.old }
    ensures stage { OnOk result (world.new.stage ≡ world.old.stage) }
    ensures plays { OnOk result (PlaysInTime world.old times.old world.new times.new) }
{
    let mut agenda = Agenda::new(world.alloc(), world.schedulers())?;
    let base = base_of(world, times.as_slice());
    sync_all(world, &mut agenda, base)?;
    commit_all(world, &mut agenda, times)?;
    Ok(())
}

/// When the round that is under way begins, after these commits: at the greatest time of its rows, or when the
/// last of the commits was made, if that is later.
fn base_of(world: &World, times: &[Timed]) -> u128
    ensures { result ≡ max (until_after 0 times.now) (unwrap_or (rows_time world.now.stage) 0) }
{
    let rows = u128::from(world.rows_time().unwrap_or(0));
    last_time(times).max(rows)
}

/// Where a round begins all schedulers that have work sync.
fn sync_all(world: &mut World, agenda: &mut Agenda, base: u128) -> Result<(), NoMemory>
    requires count { length agenda.old ≡ schedulers world.old.stage.settings }
    ensures stage { OnOk result (world.new.stage ≡ world.old.stage) }
    ensures synced { OnOk result ((timed : TimedRound) (times : List CommitTime)
        → StandsInTime timed world.old agenda.old times (λ scheduler. 0 ≤ scheduler) base
        → GoesByClock timed world.new agenda.new times) }
{
    for scheduler in 0..world.schedulers() {
        sync_next(world, agenda, scheduler, base)?;
    }
    Ok(())
}

/// One commit after the other, until nobody has work.
fn commit_all(world: &mut World, agenda: &mut Agenda, times: &mut Times) -> Result<(), NoMemory>
    requires some { (timed : TimedRound) × GoesByClock timed world.old agenda.old times.old }
    ensures stage { OnOk result (world.new.stage ≡ world.old.stage) }
    ensures ends { OnOk result ((timed : TimedRound) → GoesByClock timed world.old agenda.old times.old
        → EndsInTime timed world.new times.new) }
{
    while let Some((scheduler, time)) = agenda.first() {
        commit_first(world, agenda, times, scheduler, time)?;
    }
    Ok(())
}

/// The scheduler that is the first of the agenda commits at its time, and syncs if it has work left.
fn commit_first(
    world: &mut World,
    agenda: &mut Agenda,
    times: &mut Times,
    scheduler: u32,
    time: u128,
) -> Result<(), NoMemory>
    requires first { IsFirst agenda.old (Some (scheduler, time)) }
    requires some { (timed : TimedRound) × GoesByClock timed world.old agenda.old times.old }
    ensures stage { OnOk result (world.new.stage ≡ world.old.stage) }
    ensures goes { OnOk result ((timed : TimedRound) → GoesByClock timed world.old agenda.old times.old
        → GoesByClock timed world.new agenda.new times.new) }
    ensures fewer { OnOk result (world.new.to_do < world.old.to_do) }
{
    let sync = time - decision(&world.settings(), scheduler, world.left(scheduler));
    let Stepped::Committed(place) = world.step(scheduler)? else {
        unreachable!()
    };
    times.push(Timed {
        place,
        scheduler,
        sync,
        time,
    })?;
    sync_next(world, agenda, scheduler, time)?;
    Ok(())
}

/// A scheduler syncs now, if it has work, and the agenda gets the time of its next commit.
fn sync_next(
    world: &mut World,
    agenda: &mut Agenda,
    scheduler: u32,
    now: u128,
) -> Result<(), NoMemory>
    requires known { scheduler < schedulers world.old.stage.settings }
    requires count { length agenda.old ≡ schedulers world.old.stage.settings }
    ensures stage { OnOk result (world.new.stage ≡ world.old.stage) }
    ensures count { OnOk result (length agenda.new ≡ length agenda.old) }
    ensures to_do { OnOk result (world.new.to_do ≤ world.old.to_do) }
    ensures in_turn { OnOk result ((timed : TimedRound) (times : List CommitTime)
        → StandsInTime timed world.old agenda.old times (λ other. scheduler ≤ other) now
        → StandsInTime timed world.new agenda.new times (λ other. scheduler + 1 ≤ other) now) }
    ensures alone { OnOk result ((timed : TimedRound) (times : List CommitTime)
        → StandsInTime timed world.old agenda.old times (λ other. other ≡ scheduler) now
        → GoesByClock timed world.new agenda.new times) }
{
    world.step(scheduler)?;
    match next_at(&world.settings(), scheduler, world.left(scheduler), now)? {
        Some(time) => agenda.set(scheduler, time),
        None => agenda.clear(scheduler),
    }
    Ok(())
}

/// When a scheduler commits next that syncs now with so many wishes of its request left, if there are any.
fn next_at(
    settings: &Settings,
    scheduler: u32,
    wishes: usize,
    now: u128,
) -> Result<Option<u128>, NoMemory>
    ensures { IfOk result (λ next. next ≡ next_at settings.now scheduler wishes now) }
{
    if wishes == 0 {
        return Ok(None);
    }
    let time = now
        .checked_add(decision(settings, scheduler, wishes))
        .ok_or(NoMemory)?;
    Ok(Some(time))
}

/// How long a scheduler takes to decide on so many wishes, in microseconds.
fn decision(settings: &Settings, scheduler: u32, wishes: usize) -> u128
    ensures { result ≡ decision settings.now scheduler wishes }
{
    let (t_job, t_task) = match scheduler {
        0 => (settings.service_t_job, settings.service_t_task),
        _ => (settings.t_job, settings.t_task),
    };
    u128::from(t_job) + u128::from(t_task) * wishes as u128
}
