//! A scheduler's worker: its desk and its plan.
ghost use Rattle.std.specs.Prelude.{◌≡◌, ◌≢◌, [], None, Some, position, IfOk, IsSome, OnOk, OnErr};
ghost use Rattle.std.specs.List.{All};
ghost use Rattle.omega_plan.specs.Indexes.{AreIndexesOf};
ghost use Rattle.omega_desk.specs.Desks.{IsSameDesk, left_at, still_tried};
ghost use Rattle.omega_desk.specs.Walks.{HasDistinctWishes};
ghost use Rattle.omega_laws.specs.VirtualTime.{first_wishes};
ghost use Rattle.omega_model.specs.Ranges.{IsInRange};
ghost use Rattle.omega_model.specs.Work.{fresh};
ghost use Rattle.omega_workers.specs.Forked.{IsNotDue, HasSyncedOrStays};
ghost use Rattle.omega_workers.specs.Workers.{has_work, IsWorker, synced_of};
ghost use Rattle.omega_workers.specs.Plans.{IsReady};
ghost use Rattle.omega_workers.specs.WorkerSteps.{CommitsFirst, WorkerSteps, SyncsWorker};

use crate::plans::{Plan, plan_first};
use crate::steps::Stepped;
use omega_cell::Cell;
use omega_desk::Desk;
use omega_mapreduce::CountedRequests;
use omega_model::{NoMemory, Settings};
use omega_plan::Indexes;
use std::alloc::Global;

/// What belongs to one scheduler of a world.
#[derive(Drop)]
pub struct Worker {
    pub desk: Desk,
    /// What it has planned, if the scheduler has synced since its last commit.
    pub plan: Option<Plan>,
}

impl Worker {
    /// The worker of a scheduler that has no work and has seen nothing.
    pub fn new(alloc: Global, settings: &Settings, scheduler: u32) -> Worker
        requires { IsInRange settings.now }
        ensures worker { IsWorker settings.now [] scheduler result }
        ensures synced { synced_of result ≡ None }
        ensures left { left_at result.desk ≡ fresh (λ job. 0) [] }
    {
        Worker {
            desk: Desk::new(alloc, settings, scheduler),
            plan: None,
        }
    }

    /// Takes a round's requests in order, but for those of jobs that are given up; the scheduler
    /// hasn't synced then.
    pub fn begin(&mut self, requests: CountedRequests) -> Result<(), NoMemory>
        requires no_work { self.old.desk.requests ≡ [] }
        requires distinct { All HasDistinctWishes requests }
        ensures desk { IsSameDesk self.old.desk self.new.desk }
        ensures attempts { self.new.desk.attempts ≡ self.old.desk.attempts }
        ensures left { OnOk result (left_at self.new.desk ≡ fresh (left_at self.old.desk).failing
            (still_tried self.old.desk.settings (left_at self.old.desk).failing requests)) }
        ensures synced { OnOk result (synced_of self.new ≡ None) }
    {
        self.desk.begin(requests)?;
        self.plan = None;
        Ok(())
    }

    /// Whether its scheduler has work: a request is left at its desk.
    pub fn has_work(&self) -> bool
        ensures { result ≡ has_work self.now }
    {
        self.desk.has_work()
    }

    /// How many wishes of its first request are left, 0 where no request is.
    pub fn left(&self) -> usize
        ensures { result ≡ first_wishes (Some self.now.desk.requests) }
    {
        self.desk.wish_count()
    }

    /// One step of the worker's scheduler over a cell, with indexes of its history. Where memory runs out, the history, the desk and whether the scheduler has synced are as before.
    pub fn step(
        &mut self,
        alloc: Global,
        indexes: &mut Indexes,
        cell: &mut Cell,
    ) -> Result<Stepped, NoMemory>
        requires ready { IsReady self.old.desk cell.old.history self.old }
        requires indexes { AreIndexesOf cell.old.history indexes.old }
        ensures ready { IsReady self.old.desk cell.new.history self.new }
        ensures indexes { AreIndexesOf cell.new.history indexes.new }
        ensures step { IfOk result (λ stepped.
            WorkerSteps self.old.desk.settings self.old.desk.scheduler cell.old.history self.old cell.new.history self.new stepped) }
        ensures err { OnErr result (cell.new.history ≡ cell.old.history) }
        ensures desk { OnErr result (self.new.desk ≡ self.old.desk) }
        ensures synced { OnErr result (synced_of self.new ≡ synced_of self.old) }
    {
        if !self.has_work() {
            return Ok(Stepped::Idle);
        }
        if self.plan.is_none() {
            self.sync(alloc, indexes, cell)?;
            return Ok(Stepped::Synced);
        }
        let place = self.commit(alloc, cell)?;
        Ok(Stepped::Committed(place))
    }

    /// Syncs if its scheduler has work and hasn't synced. Where memory runs out neither the desk has changed
    /// nor whether the scheduler has synced.
    pub fn sync_if_due(
        &mut self,
        alloc: Global,
        indexes: &mut Indexes,
        cell: &Cell,
    ) -> Result<(), NoMemory>
        requires ready { IsReady self.old.desk cell.now.history self.old }
        requires indexes { AreIndexesOf cell.now.history indexes.old }
        ensures may { HasSyncedOrStays cell.now.history self.old self.new }
        ensures indexes { AreIndexesOf cell.now.history indexes.new }
        ensures synced { OnOk result (IsNotDue self.new) }
    {
        if !self.has_work() {
            return Ok(());
        }
        if self.plan.is_some() {
            return Ok(());
        }
        self.sync(alloc, indexes, cell)?;
        Ok(())
    }

    /// The scheduler has seen the history to its end, and plans its attempt on the first request that is left.
    /// Where memory runs out it hasn't synced.
    fn sync(&mut self, alloc: Global, indexes: &mut Indexes, cell: &Cell) -> Result<(), NoMemory>
        requires ready { IsReady self.old.desk cell.now.history self.old }
        requires indexes { AreIndexesOf cell.now.history indexes.old }
        requires unsynced { self.old.plan ≡ None }
        requires work { self.old.desk.requests ≢ [] }
        ensures ready { IsReady self.old.desk cell.now.history self.new }
        ensures indexes { AreIndexesOf cell.now.history indexes.new }
        ensures syncs { OnOk result (SyncsWorker cell.now.history self.old cell.now.history self.new) }
        ensures desk { OnErr result (self.new.desk ≡ self.old.desk) }
        ensures plan { OnErr result (self.new.plan ≡ self.old.plan) }
    {
        let plan = plan_first(alloc, &self.desk, indexes, cell)?;
        self.plan = Some(plan);
        Ok(())
    }

    /// Commits the plan. Answers the place of the commit. Where memory runs out nothing has changed but the
    /// cell's room.
    fn commit(&mut self, alloc: Global, cell: &mut Cell) -> Result<u64, NoMemory>
        requires ready { IsReady self.old.desk cell.old.history self.old }
        requires planned { IsSome self.old.plan }
        ensures ready { IsReady self.old.desk cell.new.history self.new }
        ensures commits { IfOk result (λ place.
            CommitsFirst self.old.desk.settings self.old.desk.scheduler cell.old.history self.old cell.new.history self.new place) }
        ensures err { OnErr result (cell.new.history ≡ cell.old.history) }
        ensures desk { OnErr result (self.new.desk ≡ self.old.desk) }
        ensures plan { OnErr result (self.new.plan ≡ self.old.plan) }
    {
        let Some(
            Plan {
                seen,
                txn,
                seqs,
                listed,
            },
        ) = self.plan.take()
        else {
            unreachable!()
        };
        match cell.reserve(alloc, txn) {
            Ok(prepared) => {
                let scheduler = self.desk.scheduler();
                let reply = cell.commit(scheduler, seen, &seqs, prepared);
                self.desk.take(listed, &reply);
                Ok(reply.place)
            }
            Err((txn, error)) => {
                self.plan = Some(Plan {
                    seen,
                    txn,
                    seqs,
                    listed,
                });
                Err(error)
            }
        }
    }
}

/// The first scheduler that has work.
pub fn first_at_work(workers: &[Worker]) -> Option<usize>
    ensures { result ≡ position has_work workers.now }
{
    workers.iter().position(|worker| worker.has_work())
}
