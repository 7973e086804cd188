//! Schedulers over one cell, round by round.
ghost use Rattle.std.specs.Prelude.{◌≡◌, ◌<◌, [], ℕ, None, List, length, take, IfOk, IfSome, OnErr, OnOk};
ghost use Rattle.std.specs.Thread.{IsSync};
ghost use Rattle.omega_cell.specs.Effects.{AreEffects};
ghost use Rattle.omega_feed.specs.Asked.{asked_after};
ghost use Rattle.omega_feed.specs.Left.{AreLeft, IsLeft};
ghost use Rattle.omega_model.specs.Applying.{EachMayApply};
ghost use Rattle.omega_model.specs.Feed.{feed};
ghost use Rattle.omega_model.specs.Lawful.{LawfulSoFar};
ghost use Rattle.omega_model.specs.Legal.{Legal, Sound};
ghost use Rattle.omega_model.specs.Policy.{schedulers};
ghost use Rattle.omega_model.specs.Ranges.{IsInRange};
ghost use Rattle.omega_model.specs.State.{state};
ghost use Rattle.omega_model.specs.Wanted.{wanted};
ghost use Rattle.omega_model.specs.World.{NobodySynced};
ghost use Rattle.omega_model.specs.declared.entries.Entry.{Entry};
ghost use Rattle.omega_model.specs.declared.rows.TraceTables.{TraceTables};
ghost use Rattle.omega_rounds.specs.Closed.{IsDone};
ghost use Rattle.omega_rounds.specs.Going.{GoesOn, IsOverAtLast, LeavesToDo, MovesOn, OpensRound, ReachesRound, StepsOn};
ghost use Rattle.omega_rounds.specs.InTime.{HasWishesLeft, IsNoneWithoutWork, rows_time};
ghost use Rattle.omega_rounds.specs.Keeping.{AreIndexesFor, IsNew, LawfulWorld};
ghost use Rattle.omega_rounds.specs.Beginning.{AreNewWorkers};
ghost use Rattle.omega_rounds.specs.Playing.{IsAtStart, IsInSomeRun, SyncsTurn};
ghost use Rattle.omega_rounds.specs.Stages.{AllHaveBegun, IsInRunOf, first_stage, rows_begun, world_of};

mod beginning;
mod course;
mod crew;
mod remains;

use crate::steps::RoundStep;
use beginning::open_and_begin;
use course::Course;
use crew::Crew;
use omega_cell::{Cell, Effects};
use omega_feed::{EventRounds, Events, OpenJobs, WaitingTasks, Wanted};
use omega_io::{Gate, pieces_on};
use omega_model::{Entries, Entry, NoMemory, Settings, TraceTables};
use omega_opening::{Demand, reopen_since};
use omega_plan::Indexes;
use omega_workers::{Stepped, Worker, are_worth_threads, first_at_work, sync_pieces};
pub use remains::Remains;
use std::alloc::Global;
use std::marker::Model;
use std::sync::Wait;
use std::thread::Threads;

/// Schedulers that share one cell and work on a trace, round by round, in whatever order they are
/// let do their steps.
///
/// A contract sees at which stage of its trace's run the world is, the history, for each scheduler
/// that has synced since its last commit how many entries it had seen, and how many commits can
/// follow at most in the round that is under way. The history is lawful so far at every moment.
#[derive(Drop)]
pub struct World {
    alloc: Global,
    course: Course,
    crew: Crew,
}

impl Model for World {
    ghost use Rattle.std.specs.Prelude.{map};
    ghost use Rattle.std.specs.List.{sum_by};
    ghost use Rattle.omega_model.specs.Policy.{schedulers};
    ghost use Rattle.omega_rounds.specs.Keeping.{AreIndexesFor, IsWorld};
    ghost use Rattle.omega_opening.specs.Reopening.{WereQuiet};
    ghost use Rattle.omega_workers.specs.Workers.{synced_of, to_do_of};
    ghost use Rattle.omega_rounds.specs.Stages.{WorldState, stage_of};

    ghost Value = { WorldState };

    ghost view = { λ w. record { stage = stage_of w.course.settings w.course.rounds w.course.demand.wanted w.course.begun w.course.opened_at; history = w.crew.cell.history; synced = map synced_of w.crew.workers.items; to_do = sum_by to_do_of w.crew.workers.items } };

    ghost invariant = { λ w. IsWorld (stage_of w.course.settings w.course.rounds w.course.demand.wanted w.course.begun w.course.opened_at) w.course.demand.wanted.tasks w.crew.cell.history w.crew.workers.items
        × WereQuiet w.course.demand.open_jobs w.course.demand.wanted w.course.opened_at w.crew.cell.history
        × AreIndexesFor (schedulers w.course.settings) w.crew.cell.history w.crew.indexes.items };
}

impl World {
    /// The world of a trace with the empty history, before its first round. Takes the tables over, and gives
    /// their memory back but for the rows of the events and of constraints. Costs a few look-ups for each row, and a
    /// sort of tables of events that aren't in order of time.
    pub fn new(alloc: Global, settings: &Settings, tables: TraceTables) -> Result<World, NoMemory>
        requires { IsInRange settings.now }
        ensures stage { IfOk result (λ world. world.stage ≡ first_stage settings.now tables) }
        ensures is_new { IfOk result (λ world. IsNew (world_of world)) }
        ensures to_do { IfOk result (λ world. world.to_do ≡ 0) }
    {
        let (events, wanted) = events_and_wanted(alloc, settings, tables)?;
        let open_jobs = OpenJobs::new(alloc);
        let demand = Demand { wanted, open_jobs };
        let rounds = EventRounds::cut(alloc, events, settings.window)?;
        let workers = new_workers(alloc, settings)?;
        let indexes = new_indexes(alloc, settings)?;
        Ok(World {
            alloc,
            course: Course {
                settings: *settings,
                rounds,
                begun: 0,
                opened_at: 0,
                demand,
            },
            crew: Crew {
                cell: Cell::new(alloc),
                workers,
                indexes,
                pieces: None,
            },
        })
    }

    /// The history: lawful so far for each trace in whose run the world is, where each scheduler that has
    /// synced has seen what it may; legal, and with no state on the way that is overcommitted.
    pub fn history(&self) -> &[Entry]
        ensures history { result.now ≡ self.now.history }
        ensures lawful { (trace : TraceTables) → IsInRunOf self.now.stage trace
            → LawfulWorld self.now.stage.settings trace (world_of self.now) }
        ensures legal { Legal self.now.history }
        ensures sound { (n : ℕ) → Sound (state (take n self.now.history)) }
    {
        self.crew.cell.history()
    }

    /// How many of the tasks that are wanted after the rows of the rounds that have begun don't run, and their
    /// jobs. Where all rounds have begun that is what waits at the end of each trace in whose run the world is.
    /// Costs of each job of the trace its blocks of slots and in those with a wanted task the slots, and for each
    /// wanted task the logarithm of the number of those that run or wait.
    pub fn waiting(&self) -> Result<WaitingTasks, NoMemory>
        ensures tasks { IfOk result (AreLeft (wanted (rows_begun self.now.stage)) (state self.now.history)) }
        ensures end { (trace : TraceTables) → IsInRunOf self.now.stage trace → AllHaveBegun self.now.stage
            → IfOk result (IsLeft trace (state self.now.history)) }
    {
        self.course
            .demand
            .wanted
            .left(self.alloc, self.crew.cell.board())
    }

    /// The history itself.
    pub fn into_history(self) -> Entries
        ensures history { result ≡ self.history }
        ensures lawful { (trace : TraceTables) → IsInRunOf self.stage trace
            → LawfulSoFar self.stage.settings trace self.history }
        ensures legal { Legal self.history }
        ensures applied { EachMayApply self.history }
        ensures sound { (n : ℕ) → Sound (state (take n self.history)) }
    {
        let World { crew, .. } = self;
        let (cell, _workers, _indexes) = crew.into_parts();
        cell.into_history()
    }

    /// The history itself, what its entries did, and what is left of the world.
    pub fn into_run(self) -> (Entries, Effects, Remains)
        ensures history { result.0 ≡ self.history }
        ensures effects { AreEffects self.history result.1 }
        ensures lawful { (trace : TraceTables) → IsInRunOf self.stage trace
            → LawfulSoFar self.stage.settings trace self.history }
        ensures legal { Legal self.history }
        ensures applied { EachMayApply self.history }
        ensures sound { (n : ℕ) → Sound (state (take n self.history)) }
    {
        let World { course, crew, .. } = self;
        let (cell, workers, indexes) = crew.into_parts();
        let (history, effects, board) = cell.into_run();
        let remains = Remains {
            board,
            course,
            workers,
            indexes,
        };
        (history, effects, remains)
    }

    /// Goes on to the next round, if nobody has work: appends the entries of its rows, and hands each
    /// scheduler its requests. Else names the first scheduler that has work, or says that no round is
    /// left; then the world is as it was. Where memory runs out the world is gone. Costs the rows of
    /// the round, the entries since those of the round before it, the requests, and a look at the jobs of which
    /// something may have to be placed.
    pub fn next_round(self) -> Result<(World, RoundStep), NoMemory>
        ensures settings { IfOk result (λ next. next.0.stage.settings ≡ self.stage.settings) }
        ensures source { IfOk result (λ next. next.0.stage.source ≡ self.stage.source) }
        ensures stage { IfOk result (λ next. MovesOn self next.0 next.1) }
        ensures run { IfOk result (λ next. (trace : TraceTables) → IsInRunOf self.stage trace
            → GoesOn trace self next.0 next.1) }
        ensures last { IfOk result (λ next. IsOverAtLast next.0.stage next.1) }
        ensures made { IsInSomeRun self.stage }
        ensures start { self.stage.begun ≡ 0 → IsAtStart self }
    {
        if let Some(scheduler) = first_at_work(self.crew.workers.as_slice()) {
            return Ok((self, RoundStep::Unfinished(scheduler as u32)));
        }
        if self.course.begun == self.course.rounds.len() {
            return Ok((self, RoundStep::Over));
        }
        let (world, number) = self.begin_round()?;
        Ok((world, RoundStep::Begun(number)))
    }

    /// The next round begins. Answers its number.
    fn begin_round(self) -> Result<(World, u64), NoMemory>
        requires no_work { self.to_do ≡ 0 }
        requires more { self.stage.begun < length self.stage.source.rounds }
        ensures stage { IfOk result (λ next. ReachesRound self next.0 next.1) }
        ensures run { IfOk result (λ next. (trace : TraceTables) → IsInRunOf self.stage trace
            → OpensRound trace self next.0) }
    {
        let World {
            alloc,
            mut course,
            mut crew,
        } = self;
        reopen_since(&mut course.demand, &crew.cell, course.opened_at)?;
        let Some(round) = course.rounds.get(alloc, course.begun)? else {
            unreachable!()
        };
        let number = round.number;
        open_and_begin(
            alloc,
            round,
            &mut course.demand,
            &mut crew.cell,
            &mut crew.workers,
        )?;
        course.begun += 1;
        course.opened_at = crew.cell.history().len();
        let world = World {
            alloc,
            course,
            crew,
        };
        Ok((world, number))
    }

    /// Lets a scheduler do one step. Without work it does nothing. With work it syncs, if it hasn't since
    /// its last commit or the round's rows: from then on the history up to there is what it has seen, and
    /// its plan for the first request that it has left is made. Else it commits this plan. A sync costs the
    /// plan, and what the entries since the last sync of any scheduler touch; a commit costs the commit.
    /// Where memory runs out the world is as it was.
    pub fn step(&mut self, scheduler: u32) -> Result<Stepped, NoMemory>
        requires { scheduler < schedulers self.old.stage.settings }
        ensures stage { self.new.stage ≡ self.old.stage }
        ensures step { IfOk result (λ stepped. (trace : TraceTables) → IsInRunOf self.old.stage trace
            → StepsOn trace self.old scheduler self.new stepped) }
        ensures to_do { IfOk result (λ stepped. LeavesToDo self.old self.new stepped) }
        ensures err { OnErr result (self.new ≡ self.old) }
    {
        let alloc = self.alloc;
        let worker = &mut self.crew.workers[scheduler as usize];
        let first = &mut self.crew.indexes[0];
        let stepped = worker.step(alloc, first, &mut self.crew.cell)?;
        Ok(stepped)
    }

    /// Whether the plans that are to be made now are worth threads; never once it is known that there is one
    /// processor. Costs, for each scheduler whose first wish has constraints, a few searches in the index of what
    /// is free; each of them looks at a few machines mostly, and at worst at all.
    pub(crate) fn is_worth_threads(&self) -> bool {
        let crew = &self.crew;
        crew.pieces != Some(1)
            && are_worth_threads(crew.workers.as_slice(), crew.indexes.as_slice(), &crew.cell)
    }

    /// Lets all schedulers that have work and haven't synced do so. They are cut into pieces that work at the
    /// same time, each on a thread of its own where one can be made. These wait for nobody, and the call returns
    /// if they do. Where memory runs out some schedulers may have synced.
    pub(crate) fn sync_together<R: Threads + Sync>(&mut self, rt: &R) -> Result<(), NoMemory>
        requires sync { IsSync R.row }
        ensures stage { self.new.stage ≡ self.old.stage }
        ensures synced { OnOk result (SyncsTurn self.old self.new) }
        ensures to_do { self.new.to_do ≡ self.old.to_do }
    {
        let pieces = known_pieces(rt, &mut self.crew.pieces);
        sync_pieces(
            rt,
            self.alloc,
            &self.crew.cell,
            &mut self.crew.workers,
            &mut self.crew.indexes,
            pieces,
        )
    }

    /// Plays the round that is under way to its end, with a thread for each scheduler. A history of
    /// 2^63 entries, which no memory holds, is answered as want of memory. Where memory runs out the world is
    /// gone. May wait. Costs the attempts, and the threads unless nobody has work.
    pub(crate) fn play_on_threads<R: Threads + Wait + Sync, G: Gate + Sync>(
        self,
        rt: &R,
        gate: &G,
    ) -> Result<World, NoMemory>
        requires sync { IsSync R.row × IsSync G.row }
        requires begun { 0 < self.stage.begun }
        requires nobody { NobodySynced (world_of self) }
        ensures stage { IfOk result (λ after. after.stage ≡ self.stage) }
        ensures done { IfOk result IsDone }
    {
        if first_at_work(self.crew.workers.as_slice()).is_none() {
            return Ok(self);
        }
        let World {
            alloc,
            course,
            crew,
        } = self;
        let crew = crew.play_on_threads(rt, alloc, &course.settings, gate)?;
        Ok(World {
            alloc,
            course,
            crew,
        })
    }

    /// How many wishes of its first request a scheduler has left, 0 exactly where it has no work.
    pub fn left(&self, scheduler: u32) -> usize
        requires { scheduler < schedulers self.now.stage.settings }
        ensures wishes { HasWishesLeft self.now scheduler result }
        ensures idle { IsNoneWithoutWork self.now scheduler result }
    {
        self.crew.workers[scheduler as usize].left()
    }

    /// The greatest time of the rows of the round that is under way, in microseconds. `None` exactly before
    /// the first round. Costs a look at the last row of the round in each table of events.
    pub fn rows_time(&self) -> Option<u64>
        ensures rows { result ≡ rows_time self.now.stage }
        ensures none { result ≡ None → self.now.stage.begun ≡ 0 }
    {
        let last = self.course.begun.checked_sub(1)?;
        self.course.rounds.rows_time(last)
    }

    /// All rounds of the trace, also those that haven't begun.
    pub fn rounds(&self) -> &EventRounds
        ensures { result.now ≡ self.now.stage.source.rounds }
    {
        &self.course.rounds
    }

    /// The settings of the run.
    pub(crate) fn settings(&self) -> Settings
        ensures is { result ≡ self.now.stage.settings }
    {
        self.course.settings
    }

    /// Where the world's lists get their memory.
    pub(crate) fn alloc(&self) -> Global {
        self.alloc
    }

    /// How many schedulers there are.
    pub fn schedulers(&self) -> u32
        ensures { result ≡ schedulers self.now.stage.settings }
    {
        self.course.settings.schedulers()
    }
}

/// The rows of a trace's events in order of time, and what it asks for before the first of them. The memory of the
/// other rows is given back, but for those of constraints.
fn events_and_wanted(
    alloc: Global,
    settings: &Settings,
    mut tables: TraceTables,
) -> Result<(Events, Wanted), NoMemory>
    requires { IsInRange settings.now }
    ensures events { IfOk result (λ made. made.0 ≡ feed tables) }
    ensures wanted { IfOk result (λ made. made.1 ≡ asked_after settings.now tables []) }
{
    let events = Events::take(alloc, &mut tables)?;
    let wanted = Wanted::new(alloc, tables, &events, settings)?;
    Ok((events, wanted))
}

/// A worker for each scheduler.
fn new_workers(alloc: Global, settings: &Settings) -> Result<Vec<Worker>, NoMemory>
    requires { IsInRange settings.now }
    ensures { IfOk result (λ workers. AreNewWorkers settings.now (schedulers settings.now) workers.items) }
{
    let mut workers = Vec::new(alloc);
    for scheduler in 0..settings.schedulers() {
        workers.push(Worker::new(alloc, settings, scheduler))?;
    }
    Ok(workers)
}

/// The indexes of the empty board, for each scheduler. They take no memory beside the list.
fn new_indexes(alloc: Global, settings: &Settings) -> Result<Vec<Indexes>, NoMemory>
    requires { IsInRange settings.now }
    ensures { IfOk result (λ indexes. (history : List Entry) → AreIndexesFor (schedulers settings.now) history indexes.items) }
{
    let mut all = Vec::new(alloc);
    for _ in 0..settings.schedulers() {
        all.push(Indexes::new(alloc))?;
    }
    Ok(all)
}

/// In how many pieces plans are made: asked for once, and known from then on.
fn known_pieces<R: Threads>(rt: &R, known: &mut Option<usize>) -> usize {
    if let Some(pieces) = *known {
        return pieces;
    }
    let pieces = pieces_on(rt);
    *known = Some(pieces);
    pieces
}
