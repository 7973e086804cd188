//! Schedulers over one cell, none of which waits for another.
ghost use Rattle.std.specs.Prelude.{◌≡◌, ◌+◌, [], IfOk, length};
ghost use Rattle.omega_feed.specs.Asked.{asked_after};
ghost use Rattle.omega_feed.specs.Left.{AreLeft};
ghost use Rattle.omega_model.specs.Feed.{feed};
ghost use Rattle.omega_model.specs.Policy.{schedulers};
ghost use Rattle.omega_model.specs.Ranges.{IsInRange};
ghost use Rattle.omega_model.specs.State.{state};
ghost use Rattle.omega_model.specs.declared.rows.TraceTables.{TraceTables};
ghost use Rattle.omega_free_laws.specs.FreeSteps.{beginning};
ghost use Rattle.omega_free.specs.FreeWorkers.{AreNewWorkers};
ghost use Rattle.omega_free.specs.EndsBy.{cause_of_end};
ghost use Rattle.omega_free.specs.FreeRuns.{IsWholeRun, reading_of};
ghost use Rattle.omega_free.specs.KeptWorlds.{IsAtEnd, StandsIn};

use crate::clock::FreeWorld;
use crate::crew::{commit_by, first_due, sync_by, sync_idle};
use crate::ends_by::{end_by, first_end, look_on, note_commit, open_by, own_ends};
use crate::next_round::{NextRound, next_round};
use crate::own_ends::OwnEnds;
use crate::remains::Remains;
use crate::run::WholeRun;
use crate::worker::Worker;
use omega_cell::Cell;
use omega_feed::{EventRounds, Events, OpenJobs, WaitingTasks, Wanted};
use omega_model::{NoMemory, Settings, TraceTables};
use omega_opening::Demand;
use omega_pieces::DueEnd;
use omega_plan::Indexes;
use omega_sim::Times;
use std::alloc::Global;

/// Schedulers that share one cell and work on a trace by the free clock, where tasks end by the trace's rows or of
/// themselves.
///
/// It writes its `Drop` out, so that whoever lets it go cites one function.
pub struct World {
    pub alloc: Global,
    pub settings: Settings,
    /// All rounds of the trace.
    pub rounds: EventRounds,
    /// How many of them have opened.
    pub opened: usize,
    /// How often there was cause for a new pass: rounds that opened, and ends while a round was to come.
    pub triggers: usize,
    /// The next one.
    pub next: Option<NextRound>,
    /// What the trace asks for so far.
    pub demand: Demand,
    /// How many entries were looked at for tasks that they stopped; those behind them are commits.
    pub looked_at: usize,
    pub cell: Cell,
    /// One for each scheduler, in order of number.
    pub workers: Vec<Worker>,
    /// What plans are made by beside the cell's board.
    pub indexes: Indexes,
    /// The times of the commits so far.
    pub times: Times,
    /// What is kept of ends, where tasks end of themselves.
    pub own: Option<OwnEnds>,
    /// The end that is due first.
    pub due_end: Option<DueEnd>,
}

impl Drop for World {
    fn drop(self) {
        let World {
            alloc: _,
            settings: _,
            rounds: _,
            opened: _,
            triggers: _,
            next: _,
            demand: _,
            looked_at: _,
            cell: _,
            workers: _,
            indexes: _,
            times: _,
            own: _,
            due_end: _,
        } = self;
    }
}

impl World {
    /// The world of a trace at the first moment: nothing has happened. Takes the tables over, and gives their memory back
    /// but for the rows of the events and of constraints. Costs a few look-ups for each row, and a sort of tables of events
    /// that aren't in order of time; where tasks end of themselves a copy of each row once more.
    pub fn new(alloc: Global, settings: &Settings, tables: TraceTables) -> Result<World, NoMemory>
        requires { IsInRange settings.now }
        ensures settings { IfOk result (λ world. world.settings ≡ settings.now) }
        ensures stands { IfOk result (λ world. StandsIn world tables (beginning settings.now (reading_of settings.now tables))) }
    {
        let (events, wanted) = events_and_wanted(alloc, settings, tables)?;
        let open_jobs = OpenJobs::new(alloc);
        let rounds = EventRounds::cut(alloc, events, settings.window)?;
        let next = next_round(alloc, &rounds, 0)?;
        let own = own_ends(alloc, settings, &rounds)?;
        let workers = new_workers(alloc, settings)?;
        Ok(World {
            alloc,
            settings: *settings,
            rounds,
            opened: 0,
            triggers: 0,
            next,
            demand: Demand { wanted, open_jobs },
            looked_at: 0,
            cell: Cell::new(alloc),
            workers,
            indexes: Indexes::new(alloc),
            times: Times::new(alloc),
            own,
            due_end: None,
        })
    }

    /// How many wanted tasks don't run, and their jobs, each once. Costs a look at each job of the trace and a look-up for
    /// each wanted task.
    pub fn waiting(&self) -> Result<WaitingTasks, NoMemory>
        ensures { IfOk result (AreLeft self.now.demand.wanted.tasks (state self.now.cell.history)) }
    {
        self.demand.wanted.left(self.alloc, self.cell.board())
    }

    /// The whole run of a trace, where this world stands at its end and these tasks wait there.
    pub fn into_run(self, left: WaitingTasks) -> WholeRun
        ensures { (trace : TraceTables) → IsAtEnd self trace → AreLeft self.demand.wanted.tasks (state self.cell.history) left
            → IsWholeRun self.settings trace result }
    {
        let World {
            alloc: _,
            settings: _,
            rounds,
            opened: _,
            triggers: _,
            next: _,
            demand,
            looked_at: _,
            cell,
            workers,
            indexes,
            times,
            own: _,
            due_end: _,
        } = self;
        let (history, effects, board) = cell.into_run();
        WholeRun {
            history,
            times,
            effects,
            left,
            rounds,
            remains: Remains {
                board,
                demand,
                workers,
                indexes,
            },
        }
    }
}

impl FreeWorld for World {
    ghost use Rattle.omega_free.specs.EndsLeft.{bounds_of, left_at, left_of};
    ghost use Rattle.omega_free.specs.FreeRuns.{reading_of};
    ghost use Rattle.omega_free.specs.FreeWorlds.{steps_left};
    ghost use Rattle.omega_free.specs.KeptWorlds.{StandsIn, state_of};
    ghost use Rattle.omega_free.specs.StepsTold.{steps_left_told};

    ghost settings = { λ world. world.settings };

    ghost reads = { reading_of };

    ghost left = { left_of };

    ghost bounds = { bounds_of };

    ghost stands = { λ world trace moment. StandsIn world trace moment };

    ghost history = { λ world. world.cell.history };

    ghost times = { λ world. world.times };

    ghost to_come = { λ world. steps_left world.settings (left_at world.settings world.rounds world.cell.history) (state_of world) };

    ghost tells_history = { λ world trace moment is. is.stands.there.history };

    ghost tells_times = { λ world trace moment is. is.stands.there.times };

    ghost tells_to_come = { λ world trace moment is. steps_left_told world.settings trace moment world.rounds (state_of world) is.keeps.range.window.0 is.rounds is.stands.there };

    fn round_due(&self) -> Option<u128> {
        match &self.next {
            Some(next) => Some(u128::from(next.due)),
            None => None,
        }
    }

    fn end_due(&self) -> Option<u128> {
        match self.due_end {
            Some(end) => Some(end.time),
            None => None,
        }
    }

    fn commit_due(&self) -> Option<(u32, u128)> {
        first_due(&self.workers)
    }

    fn open(&mut self) -> Result<(), NoMemory> {
        let Some(NextRound { round, due }) = self.next.take() else {
            return Ok(());
        };
        self.looked_at = open_by(
            self.alloc,
            round,
            &mut self.own,
            &mut self.demand,
            &mut self.cell,
            self.looked_at,
        )?;
        self.due_end = first_end(&mut self.own, &self.cell);
        self.opened = one_more(self.opened)?;
        self.triggers = one_more(self.triggers)?;
        self.next = next_round(self.alloc, &self.rounds, self.opened)?;
        sync_idle(
            self.alloc,
            &mut self.workers,
            &mut self.indexes,
            &self.settings,
            self.triggers as u64,
            &self.demand.wanted,
            &mut self.demand.open_jobs,
            &self.cell,
            u128::from(due),
        )
    }

    fn end(&mut self) -> Result<(), NoMemory> {
        let Some(end) = self.due_end else {
            return Ok(());
        };
        self.looked_at = end_by(
            self.alloc,
            end,
            &mut self.own,
            &mut self.demand,
            &mut self.cell,
            self.looked_at,
        )?;
        self.due_end = first_end(&mut self.own, &self.cell);
        self.triggers = with_end(self.triggers, &self.next)?;
        sync_idle(
            self.alloc,
            &mut self.workers,
            &mut self.indexes,
            &self.settings,
            self.triggers as u64,
            &self.demand.wanted,
            &mut self.demand.open_jobs,
            &self.cell,
            end.time,
        )
    }

    fn commit(&mut self, scheduler: u32) -> Result<(), NoMemory> {
        let timed = commit_by(
            self.alloc,
            &mut self.workers,
            scheduler,
            &self.settings,
            &self.demand.wanted,
            &mut self.cell,
        )?;
        self.times.push(timed)?;
        note_commit(&mut self.own, timed.time, &self.cell)?;
        self.due_end = first_end(&mut self.own, &self.cell);
        self.looked_at = look_on(&mut self.demand, &self.cell, self.looked_at)?;
        sync_by(
            self.alloc,
            &mut self.workers,
            scheduler,
            &mut self.indexes,
            &self.settings,
            self.triggers as u64,
            &self.demand.wanted,
            &mut self.demand.open_jobs,
            &self.cell,
            timed.time,
        )
    }
}

/// The rows of a trace's events in order of time, and what it asks for before the first of them.
fn events_and_wanted(
    alloc: Global,
    settings: &Settings,
    mut tables: TraceTables,
) -> Result<(Events, Wanted), NoMemory>
    requires { IsInRange settings.now }
    ensures events { IfOk result (λ made. made.0 ≡ feed tables) }
    ensures wanted { IfOk result (λ made. made.1 ≡ asked_after settings.now tables []) }
{
    let events = Events::take(alloc, &mut tables)?;
    let wanted = Wanted::new(alloc, tables, &events, settings)?;
    Ok((events, wanted))
}

/// A worker for each scheduler, in order of number.
fn new_workers(alloc: Global, settings: &Settings) -> Result<Vec<Worker>, NoMemory>
    requires { IsInRange settings.now }
    ensures count { IfOk result (λ workers. length workers.items ≡ schedulers settings.now) }
    ensures new { IfOk result (λ workers. AreNewWorkers settings.now 0 workers.items) }
{
    let mut workers = Vec::new(alloc);
    for scheduler in 0..settings.schedulers() {
        workers.push(Worker::new(alloc, settings, scheduler))?;
    }
    Ok(workers)
}

/// A count with one more; 2^64, which no memory holds, is answered as want of memory.
fn one_more(count: usize) -> Result<usize, NoMemory>
    ensures { IfOk result (λ more. more ≡ count + 1) }
{
    count.checked_add(1).ok_or(NoMemory)
}

/// How often there was cause for a new pass once a task has ended, where this is the next round: once more if there is
/// one. 2^64 times, which no memory holds, are answered as want of memory.
fn with_end(triggers: usize, next: &Option<NextRound>) -> Result<usize, NoMemory>
    ensures { IfOk result (λ more. more ≡ triggers + cause_of_end next.now) }
{
    match next {
        Some(_) => one_more(triggers),
        None => Ok(triggers),
    }
}
