//! A run in which the schedulers take turns.
ghost use Rattle.std.specs.Prelude.{◌≡◌, ◌≤◌, ◌<◌, true, [], List, IfOk, OnOk};
ghost use Rattle.std.specs.Thread.{IsSync};
ghost use Rattle.omega_model.specs.Lawful.{Lawful};
ghost use Rattle.omega_model.specs.Turns.{InTurns};
ghost use Rattle.omega_model.specs.declared.entries.Entry.{Entry};
ghost use Rattle.omega_model.specs.declared.rows.TraceTables.{TraceTables};
ghost use Rattle.omega_rounds.specs.Playing.{CommitsTurn, PlaysRound, SyncsTurn, TakesTurnFrom};
ghost use Rattle.omega_rounds.specs.Stages.{AllHaveBegun, IsInRunOf};

use crate::steps::RoundStep;
use crate::world::World;
use omega_model::NoMemory;
use std::thread::Threads;

/// Runs all rounds of a new world to their end. In each round, while a scheduler has work, all that
/// have work sync, and then all commit in order of their numbers. Where memory runs out the world is
/// gone.
///
/// Where there is more than one processor, and the plans of a turn seem worth it, they are made on threads,
/// which are joined before anybody commits: the call waits for these alone, they wait for nobody, and it
/// returns if they do. Where no thread can be made the plans are made one after the other. The answer is the
/// same.
///
/// The history is the only one that is lawful and in turns for the settings and the trace.
pub fn in_turns<R: Threads + Sync>(rt: &R, world: World) -> Result<World, NoMemory>
    requires new { world.stage.begun ≡ 0 }
    requires sync { IsSync R.row }
    ensures source { IfOk result (λ after. after.stage.source ≡ world.stage.source) }
    ensures settings { IfOk result (λ after. after.stage.settings ≡ world.stage.settings) }
    ensures last { IfOk result (λ after. AllHaveBegun after.stage) }
    ensures lawful { IfOk result (λ after. (trace : TraceTables) → IsInRunOf world.stage trace
        → Lawful world.stage.settings trace after.history) }
    ensures turns { IfOk result (λ after. InTurns after.history) }
    ensures only { IfOk result (λ after. (trace : TraceTables) → IsInRunOf world.stage trace
        → (other : List Entry) → Lawful world.stage.settings trace other → InTurns other
        → other ≡ after.history) }
{
    let mut world = world;
    loop {
        let (mut next, step) = world.next_round()?;
        match step {
            RoundStep::Begun(_) => play_round(rt, &mut next)?,
            RoundStep::Unfinished(_) => unreachable!(),
            RoundStep::Over => return Ok(next),
        }
        world = next;
    }
}

/// Plays the round that is under way to its end. Costs its attempts.
pub(crate) fn play_round<R: Threads + Sync>(rt: &R, world: &mut World) -> Result<(), NoMemory>
    requires sync { IsSync R.row }
    ensures stage { OnOk result (world.new.stage ≡ world.old.stage) }
    ensures plays { OnOk result (PlaysRound world.old world.new) }
{
    loop {
        if !take_turn(rt, world)? {
            return Ok(());
        }
    }
}

/// A turn: all that have work sync, and then all commit. Answers whether anybody has committed.
fn take_turn<R: Threads + Sync>(rt: &R, world: &mut World) -> Result<bool, NoMemory>
    requires sync { IsSync R.row }
    ensures stage { OnOk result (world.new.stage ≡ world.old.stage) }
    ensures turn { IfOk result (λ committed. TakesTurnFrom world.old world.new committed) }
    ensures fewer { IfOk result (λ committed. committed ≡ true → world.new.to_do < world.old.to_do) }
{
    sync_all(rt, world)?;
    let committed = commit_all(world)?;
    Ok(committed)
}

/// The first half of a turn: all that have work sync, at the same time where that is worth threads.
fn sync_all<R: Threads + Sync>(rt: &R, world: &mut World) -> Result<(), NoMemory>
    requires sync { IsSync R.row }
    ensures stage { OnOk result (world.new.stage ≡ world.old.stage) }
    ensures synced { OnOk result (SyncsTurn world.old world.new) }
    ensures to_do { OnOk result (world.new.to_do ≤ world.old.to_do) }
{
    if world.is_worth_threads() {
        world.sync_together(rt)
    } else {
        sync_in_order(world)
    }
}

/// The same, one after the other: a step of each scheduler, none of which has synced.
fn sync_in_order(world: &mut World) -> Result<(), NoMemory>
    ensures stage { OnOk result (world.new.stage ≡ world.old.stage) }
    ensures synced { OnOk result (SyncsTurn world.old world.new) }
    ensures to_do { OnOk result (world.new.to_do ≤ world.old.to_do) }
{
    for scheduler in 0..world.schedulers() {
        world.step(scheduler)?;
    }
    Ok(())
}

/// The second half of a turn: a step of each scheduler, in order. Answers whether anybody has
/// committed.
fn commit_all(world: &mut World) -> Result<bool, NoMemory>
    ensures stage { OnOk result (world.new.stage ≡ world.old.stage) }
    ensures committed { IfOk result (λ committed. CommitsTurn world.old world.new committed) }
    ensures fewer { IfOk result (λ committed. committed ≡ true → world.new.to_do < world.old.to_do) }
{
    let mut committed = false;
    for scheduler in 0..world.schedulers() {
        let stepped = world.step(scheduler)?;
        committed = stepped.is_committed() || committed;
    }
    Ok(committed)
}
