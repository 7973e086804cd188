//! What belongs to one scheduler that waits for no other.
ghost use Rattle.std.specs.Prelude.{◌≡◌, ◌+◌, ◌++◌, ◌∷◌, [], Some, IfOk, IfSome, OnOk, OnErr, is_some, length, option_map};
ghost use Rattle.omega_desk.specs.Desks.{IsSameDesk, left_at};
ghost use Rattle.omega_feed.specs.Open.{OthersAreQuiet};
ghost use Rattle.omega_model.specs.State.{state};
ghost use Rattle.omega_model.specs.Work.{after_outcomes};
ghost use Rattle.omega_plan.specs.Indexes.{AreIndexesOf};
ghost use Rattle.omega_free_laws.specs.Passes.{Attempt as Decided, Past, wanted_at};
ghost use Rattle.omega_free_laws.specs.Readings.{Reading};
ghost use Rattle.omega_free.specs.FreeWorkers.{AnswerInOrder, CommitsWanted, IsMoment, IsNewWorker, MayCommit, SyncsAt, SyncsIfIdle, TakesCommit, wanted_outcomes};
ghost use Rattle.omega_free.specs.KeptAttempts.{IsCounted, IsKeptFor, IsKnown, attempt_of};
ghost use Rattle.omega_free.specs.PassDesks.{IsAsked};

use crate::attempts::{kept_claims, kept_seqs};
use crate::passes::sync_desk;
use crate::planning::{Attempt, first_attempt};
use omega_cell::Cell;
use omega_desk::Desk;
use omega_feed::{OpenJobs, Wanted};
use omega_model::{NoMemory, Settings, Txn};
use omega_plan::Indexes;
use omega_sim::Timed;
use std::alloc::Global;

/// What belongs to one scheduler.
#[derive(Drop)]
pub struct Worker {
    pub desk: Desk,
    /// How often there had been cause for a new pass when the pass at the desk began.
    pub begun: u64,
    /// Its attempt, while it is deciding.
    pub attempt: Option<Attempt>,
}

impl Worker {
    /// The worker of a scheduler that has done nothing yet: nothing is at its desk, and it isn't deciding.
    pub fn new(alloc: Global, settings: &Settings, scheduler: u32) -> Worker
        ensures { IsNewWorker settings.now scheduler result }
    {
        Worker {
            desk: Desk::new(alloc, settings, scheduler),
            begun: 0,
            attempt: None,
        }
    }

    /// Syncs now: its desk does, where so often there was cause for a new pass, and the attempt on the first request that
    /// remains there is planned. Where memory runs out it isn't deciding on anything new, and requests may have left the
    /// desk. Where a new pass begins the quiet ones of its scheduler's open jobs are closed. Costs what `sync_desk` costs,
    /// and the plan.
    pub fn sync(
        &mut self,
        alloc: Global,
        indexes: &mut Indexes,
        settings: &Settings,
        triggers: u64,
        wanted: &Wanted,
        open_jobs: &mut OpenJobs,
        cell: &Cell,
        now: u128,
    ) -> Result<(), NoMemory>
        requires known { IsKnown settings.now self.old.desk }
        requires quiet { OthersAreQuiet open_jobs.old wanted.now (state cell.now.history).tasks }
        requires asked { IsAsked wanted.now }
        requires indexes { AreIndexesOf cell.now.history indexes.old }
        ensures same { IsSameDesk self.old.desk self.new.desk }
        ensures attempts { self.new.desk.attempts ≡ self.old.desk.attempts }
        ensures indexes { AreIndexesOf cell.now.history indexes.new }
        ensures quiet { OthersAreQuiet open_jobs.new wanted.now (state cell.now.history).tasks }
        ensures syncs { OnOk result (SyncsAt settings.now wanted.now cell.now.history triggers now self.old self.new) }
    {
        let begun = sync_desk(
            alloc,
            &mut self.desk,
            self.begun,
            triggers,
            wanted,
            open_jobs,
            cell.board(),
        )?;
        let attempt = first_attempt(alloc, indexes, settings, &self.desk, wanted, cell, now)?;
        self.begun = begun;
        self.attempt = attempt;
        Ok(())
    }

    /// Syncs, if its scheduler isn't deciding.
    pub fn sync_if_idle(
        &mut self,
        alloc: Global,
        indexes: &mut Indexes,
        settings: &Settings,
        triggers: u64,
        wanted: &Wanted,
        open_jobs: &mut OpenJobs,
        cell: &Cell,
        now: u128,
    ) -> Result<(), NoMemory>
        requires known { IsKnown settings.now self.old.desk }
        requires quiet { OthersAreQuiet open_jobs.old wanted.now (state cell.now.history).tasks }
        requires asked { IsAsked wanted.now }
        requires indexes { AreIndexesOf cell.now.history indexes.old }
        ensures indexes { AreIndexesOf cell.now.history indexes.new }
        ensures quiet { OthersAreQuiet open_jobs.new wanted.now (state cell.now.history).tasks }
        ensures syncs { OnOk result ((reading : Reading) (past : Past)
            → IsMoment settings.now reading wanted.now cell.now.history triggers past → IsCounted cell.now.history self.old.desk
            → SyncsIfIdle settings.now reading past now self.old self.new self.old.attempt) }
    {
        if self.is_deciding() {
            return Ok(());
        }
        self.sync(
            alloc, indexes, settings, triggers, wanted, open_jobs, cell, now,
        )
    }

    /// Commits what is still wanted of its attempt, and its desk takes what came of it; then it isn't deciding. Answers
    /// the commit with its times. Where memory runs out the history and the desk are as before, and the attempt is lost.
    /// Costs the claims, each a look-up, and the commit.
    pub fn commit(
        &mut self,
        alloc: Global,
        settings: &Settings,
        wanted: &Wanted,
        cell: &mut Cell,
    ) -> Result<Timed, NoMemory>
        requires may { MayCommit settings.now wanted.now.tasks cell.old.history self.old }
        ensures commits { IfOk result (λ timed. (attempt : Decided) → attempt_of self.old.attempt ≡ Some attempt
            → CommitsWanted settings.now wanted.now.tasks cell.old.history cell.new.history self.old.desk.scheduler attempt timed) }
        ensures takes { OnOk result ((attempt : Decided) (reading : Reading) (before : Past) → attempt_of self.old.attempt ≡ Some attempt
            → wanted_at reading before ≡ wanted.now.tasks → before.history ≡ cell.old.history
            → TakesCommit settings.now reading before (record { by = self.old.desk.scheduler; attempt = attempt }) self.old self.new) }
        ensures stays { OnErr result (cell.new.history ≡ cell.old.history) }
        ensures desk { OnErr result (self.new.desk ≡ self.old.desk) }
    {
        let Some(attempt) = self.attempt.take() else {
            unreachable!()
        };
        commit_attempt(alloc, settings, &mut self.desk, wanted, cell, attempt)
    }

    /// Whose worker it is.
    pub fn scheduler(&self) -> u32
        ensures { result ≡ self.now.desk.scheduler }
    {
        self.desk.scheduler()
    }

    /// When its attempt is due, in microseconds of the trace. `None` where it isn't deciding.
    pub fn due(&self) -> Option<u128>
        ensures { result ≡ option_map (λ attempt. attempt.due) (attempt_of self.now.attempt) }
    {
        match &self.attempt {
            Some(attempt) => Some(attempt.due),
            None => None,
        }
    }

    /// Whether it is deciding.
    pub fn is_deciding(&self) -> bool
        ensures { result ≡ is_some self.now.attempt }
    {
        self.attempt.is_some()
    }
}

/// Commits what is still wanted of an attempt of a desk's scheduler, and the desk takes what came of it. Answers the
/// commit with its times. Where memory runs out neither the history nor the desk has changed.
fn commit_attempt(
    alloc: Global,
    settings: &Settings,
    desk: &mut Desk,
    wanted: &Wanted,
    cell: &mut Cell,
    attempt: Attempt,
) -> Result<Timed, NoMemory>
    requires known { IsKnown settings.now desk.old }
    requires counted { IsCounted cell.old.history desk.old }
    requires kept { IsKeptFor cell.old.history desk.old attempt }
    requires answers { AnswerInOrder wanted.now.tasks desk.old.requests attempt }
    ensures same { IsSameDesk desk.old desk.new }
    ensures attempts { OnOk result (desk.new.attempts ≡ desk.old.attempts + 1) }
    ensures commits { IfOk result (CommitsWanted settings.now wanted.now.tasks cell.old.history cell.new.history desk.old.scheduler attempt.attempt) }
    ensures took { OnOk result (after_outcomes desk.old.settings (left_at desk.old) desk.old.requests
        (wanted_outcomes settings.now cell.old.history wanted.now.tasks desk.old.scheduler attempt.attempt) ≡ Some (left_at desk.new)) }
    ensures err { OnErr result (cell.new.history ≡ cell.old.history) }
    ensures stays { OnErr result (desk.new ≡ desk.old) }
{
    let Attempt {
        job,
        seen,
        claims,
        seqs,
        sync,
        due,
        listed,
    } = attempt;
    let kept = kept_seqs(alloc, claims.as_slice(), &seqs, wanted)?;
    let policy = settings.policy(desk.scheduler());
    let txn = Txn {
        job,
        rule: policy.rule,
        mode: policy.mode,
        claims: kept_claims(claims, wanted),
    };
    match cell.reserve(alloc, txn) {
        Ok(prepared) => {
            let scheduler = desk.scheduler();
            let reply = cell.commit(scheduler, seen, &kept, prepared);
            desk.take(listed, &reply);
            Ok(Timed {
                place: reply.place,
                scheduler,
                sync,
                time: due,
            })
        }
        Err((_txn, error)) => Err(error),
    }
}
