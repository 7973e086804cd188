//! A run in which each scheduler works on a thread of its own.
ghost use Rattle.std.specs.Prelude.{◌≡◌, ◌≤◌, ◌<◌, ◌*◌, ◌^◌, ℕ, [], false, All, IfOk, OnOk, Some, length, map, slice_get, vec_capacity};
ghost use Rattle.std.specs.List.{list_any};
ghost use Rattle.std.specs.Thread.{IsSync};
ghost use Rattle.omega_model.specs.Lawful.{Lawful};
ghost use Rattle.omega_model.specs.Policy.{schedulers};
ghost use Rattle.omega_model.specs.Ranges.{IsInRange};
ghost use Rattle.omega_model.specs.declared.rows.TraceTables.{TraceTables};
ghost use Rattle.omega_shared.specs.Passes.{new_pass};
ghost use Rattle.omega_rounds.specs.Closed.{AreBack, Suffice};
ghost use Rattle.omega_rounds.specs.Keeping.{AreIndexesFor};
ghost use Rattle.omega_workers.specs.Workers.{IsWorker};
ghost use Rattle.omega_rounds.specs.Stages.{AllHaveBegun, IsInRunOf};
ghost use Rattle.omega_workers.specs.declared.worker.Worker.{Worker};

mod player;
mod together;

use crate::steps::RoundStep;
use crate::world::World;
use omega_cell::Cell;
use omega_io::Gate;
use omega_model::{NoMemory, Settings};
use omega_plan::Indexes;
use omega_shared::{Pass, SharedCell};
use omega_workers::Worker;
use player::Player;
use std::alloc::Global;
use std::sync::Wait;
use std::thread::Threads;
use together::play_all;

/// Runs all rounds of a new world to their end, with a thread for each scheduler that has work. In each
/// round they share the cell: each makes attempts until it has no work, and an attempt is a look at the cell,
/// a plan on what was seen there and a commit. The gate is asked after each of the three. Where no thread can
/// be made the schedulers work one after the other. Where memory runs out the world is gone. May wait.
///
/// The history is lawful for the settings and the trace, in whatever order the schedulers came to the
/// cell. Nothing is said of that order, of time, nor that plans of different schedulers are made at
/// the same time. Costs the attempts, of which another order may need more, for each look and each
/// commit a turn at the cell, and for each round in which somebody has work the threads.
pub fn on_threads<R: Threads + Wait + Sync, G: Gate + Sync>(
    rt: &R,
    world: World,
    gate: &G,
) -> Result<World, NoMemory>
    requires new { world.stage.begun ≡ 0 }
    requires sync { IsSync R.row × IsSync G.row }
    ensures source { IfOk result (λ after. after.stage.source ≡ world.stage.source) }
    ensures settings { IfOk result (λ after. after.stage.settings ≡ world.stage.settings) }
    ensures last { IfOk result (λ after. AllHaveBegun after.stage) }
    ensures lawful { IfOk result (λ after. (trace : TraceTables) → IsInRunOf world.stage trace
        → Lawful world.stage.settings trace after.history) }
{
    let mut world = world;
    loop {
        let (next, step) = world.next_round()?;
        match step {
            RoundStep::Begun(_) => world = next.play_on_threads(rt, gate)?,
            RoundStep::Unfinished(_) => unreachable!(),
            RoundStep::Over => return Ok(next),
        }
    }
}

/// Lets the schedulers of these workers work until nothing is left at any desk, each on a thread of its
/// own and with indexes of its own, and answers the cell, the workers and the indexes. Where memory runs out
/// all are gone. May wait.
pub(crate) fn play_shared<R: Threads + Wait + Sync, G: Gate + Sync>(
    rt: &R,
    alloc: Global,
    settings: &Settings,
    cell: Cell,
    workers: Vec<Worker>,
    indexes: Vec<Indexes>,
    gate: &G,
) -> Result<(Cell, Vec<Worker>, Vec<Indexes>), NoMemory>
    requires sync { IsSync R.row × IsSync G.row }
    requires range { IsInRange settings.now }
    requires short { length cell.history < 2 ^ 63 }
    requires count { length workers.items ≡ schedulers settings.now }
    requires each { (number : ℕ) (worker : Worker) → slice_get workers.items number ≡ Some worker
        → IsWorker settings.now cell.history number worker }
    requires indexes { AreIndexesFor (schedulers settings.now) cell.history indexes.items }
    ensures back { IfOk result (λ back. AreBack settings.now cell.history back.0.history workers.items back.1.items) }
    ensures indexes { IfOk result (λ back. AreIndexesFor (schedulers settings.now) back.0.history back.2.items) }
{
    let turns = turns_for(settings, workers.as_slice())?;
    let (shared, passes) = share(rt, alloc, cell, settings.schedulers(), turns)?;
    let mut players = players_of(alloc, workers, indexes, passes)?;
    play_all(rt, alloc, &shared, &mut players, gate);
    let (workers, indexes, passes) = back_from(alloc, players)?;
    Ok((shared.close(rt, passes), workers, indexes))
}

/// How many turns at the cell each scheduler gets: two for each attempt, where all have as many requests as
/// the desk with the most, and make all tries for each. 2^32 turns or more are answered as want of memory.
fn turns_for(settings: &Settings, workers: &[Worker]) -> Result<u32, NoMemory>
    ensures { IfOk result (Suffice settings.now workers.now) }
{
    let most = most_requests(workers);
    let Some(turns) = most.checked_mul(2 * u128::from(settings.tries)) else {
        return Err(NoMemory);
    };
    match u32::try_from(turns) {
        Ok(turns) => Ok(turns),
        Err(_) => Err(NoMemory),
    }
}

/// The number of requests at the desk that has most.
fn most_requests(workers: &[Worker]) -> u128
    ensures { All (λ worker. length worker.desk.requests ≤ result) workers.now }
{
    let mut most = 0;
    for worker in workers {
        most = most.max(worker.desk.request_count());
    }
    most
}

/// The players of the schedulers, by number. Where memory runs out all that is handed in is gone.
fn players_of(
    alloc: Global,
    workers: Vec<Worker>,
    indexes: Vec<Indexes>,
    passes: Vec<Pass>,
) -> Result<Vec<Player>, NoMemory>
    requires as_many { length passes.items ≡ length workers.items }
    requires indexes { length indexes.items ≡ length workers.items }
    ensures workers { IfOk result (λ players. map (λ player. player.worker) players.items ≡ workers.items) }
    ensures indexes { IfOk result (λ players. map (λ player. player.indexes) players.items ≡ indexes.items) }
    ensures passes { IfOk result (λ players. map (λ player. player.pass) players.items ≡ passes.items) }
    ensures fresh { IfOk result (λ players. All (λ player. player.failed ≡ false) players.items) }
{
    let room = Vec::with_capacity(alloc, workers.len())?;
    Ok(paired(workers, indexes, passes, room))
}

/// Each worker with its indexes and its pass. There is room for them.
fn paired(
    workers: Vec<Worker>,
    indexes: Vec<Indexes>,
    passes: Vec<Pass>,
    mut players: Vec<Player>,
) -> Vec<Player>
    requires as_many { length passes.items ≡ length workers.items }
    requires indexes { length indexes.items ≡ length workers.items }
    requires room { (players.items ≡ []) × (length workers.items ≤ vec_capacity players) }
    ensures workers { map (λ player. player.worker) result.items ≡ workers.items }
    ensures indexes { map (λ player. player.indexes) result.items ≡ indexes.items }
    ensures passes { map (λ player. player.pass) result.items ≡ passes.items }
    ensures fresh { All (λ player. player.failed ≡ false) result.items }
{
    let mut indexes = indexes.into_iter();
    let mut passes = passes.into_iter();
    for worker in workers {
        let Some(own) = indexes.next() else {
            unreachable!()
        };
        let Some(pass) = passes.next() else {
            unreachable!()
        };
        players.push_reserved(Player {
            worker,
            indexes: own,
            pass,
            failed: false,
        });
    }
    players
}

/// The workers, the indexes and the passes of players that have played. Where one has met want of memory, or
/// memory runs out, they are gone.
fn back_from(
    alloc: Global,
    players: Vec<Player>,
) -> Result<(Vec<Worker>, Vec<Indexes>, Vec<Pass>), NoMemory>
    ensures succeeded { OnOk result (list_any (λ player. player.failed) players.items ≡ false) }
    ensures workers { IfOk result (λ back. back.0.items ≡ map (λ player. player.worker) players.items) }
    ensures indexes { IfOk result (λ back. back.1.items ≡ map (λ player. player.indexes) players.items) }
    ensures passes { IfOk result (λ back. back.2.items ≡ map (λ player. player.pass) players.items) }
{
    if any_failed(&players) {
        return Err(NoMemory);
    }
    let workers = Vec::with_capacity(alloc, players.len())?;
    let indexes = Vec::with_capacity(alloc, players.len())?;
    let passes = Vec::with_capacity(alloc, players.len())?;
    Ok(apart(players, workers, indexes, passes))
}

/// Whether one of these players has met want of memory.
fn any_failed(players: &[Player]) -> bool
    ensures { result ≡ list_any (λ player. player.failed) players.now }
{
    players.iter().any(has_failed)
}

/// Whether a player has met want of memory.
fn has_failed(player: &Player) -> bool
    ensures { result ≡ player.now.failed }
{
    player.failed
}

/// The workers, the indexes and the passes of players. There is room for them.
fn apart(
    players: Vec<Player>,
    mut workers: Vec<Worker>,
    mut indexes: Vec<Indexes>,
    mut passes: Vec<Pass>,
) -> (Vec<Worker>, Vec<Indexes>, Vec<Pass>)
    requires workers { (workers.items ≡ []) × (length players.items ≤ vec_capacity workers) }
    requires indexes { (indexes.items ≡ []) × (length players.items ≤ vec_capacity indexes) }
    requires passes { (passes.items ≡ []) × (length players.items ≤ vec_capacity passes) }
    ensures workers { result.0.items ≡ map (λ player. player.worker) players.items }
    ensures indexes { result.1.items ≡ map (λ player. player.indexes) players.items }
    ensures passes { result.2.items ≡ map (λ player. player.pass) players.items }
{
    for player in players {
        let Player {
            worker,
            indexes: own,
            pass,
            ..
        } = player;
        workers.push_reserved(worker);
        indexes.push_reserved(own);
        passes.push_reserved(pass);
    }
    (workers, indexes, passes)
}

/// Shares a cell. Where memory runs out the cell is gone. May wait.
fn share<R: Wait>(
    rt: &R,
    alloc: Global,
    cell: Cell,
    callers: u32,
    turns: u32,
) -> Result<(SharedCell, Vec<Pass>), NoMemory>
    requires callers { (1 ≤ callers) × (callers ≤ 32) }
    requires short { length cell.history < 2 ^ 63 }
    ensures callers { IfOk result (λ made. made.0.callers ≡ callers) }
    ensures first { IfOk result (λ made. made.0.first ≡ cell.history) }
    ensures count { IfOk result (λ made. length made.1.items ≡ callers) }
    ensures pass { IfOk result (λ made. (i : ℕ) → i < callers
        → slice_get made.1.items i ≡ Some (new_pass made.0.of turns cell.history i)) }
{
    match SharedCell::share(rt, alloc, cell, callers, turns) {
        Ok(made) => Ok(made),
        Err(_) => Err(NoMemory),
    }
}
