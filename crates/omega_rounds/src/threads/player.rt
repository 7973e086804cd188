//! A scheduler's part in a round that is played on threads.
ghost use Rattle.std.specs.Prelude.{◌≡◌, ◌≢◌, ◌<◌, ◌+◌, ◌^◌, [], None, Some, length, OnOk};
ghost use Rattle.omega_rounds.specs.Players.{HasPlayed, MayPlay};
ghost use Rattle.omega_rounds.specs.PlayingOn.{IsSynced, PlaysOn};
ghost use Rattle.omega_workers.specs.Plans.{HasPlan};
ghost use Rattle.omega_workers.specs.Workers.{synced_of, to_do_of};

use omega_io::{Gate, Point};
use omega_model::NoMemory;
use omega_plan::Indexes;
use omega_shared::{Pass, SharedCell};
use omega_workers::{Plan, Worker, plan_first};
use std::alloc::Global;
use std::sync::Wait;

/// A worker with indexes to plan by and its pass to the shared cell, and whether it has met want of memory.
#[derive(Drop)]
pub(crate) struct Player {
    pub worker: Worker,
    pub indexes: Indexes,
    pub pass: Pass,
    pub failed: bool,
}

impl Player {
    /// Makes attempts until nothing is left at the desk: each is a look at the cell, a plan on what was seen
    /// there and a commit, and the gate is asked after each of the three. Nothing is planned under a turn. Where
    /// memory runs out, the scheduler takes no further turn. May wait.
    pub fn play<R: Wait, G: Gate>(&mut self, rt: &R, alloc: Global, shared: &SharedCell, gate: &G)
        requires may_play { MayPlay shared.now.of self.old }
        ensures played { HasPlayed self.old self.new }
    {
        while self.worker.has_work() {
            let Ok(()) = self.attempt(rt, alloc, shared, gate) else {
                self.failed = true;
                return;
            };
        }
    }

    /// One attempt on the first request that is left, in two turns. Asks the gate after each step.
    fn attempt<R: Wait, G: Gate>(
        &mut self,
        rt: &R,
        alloc: Global,
        shared: &SharedCell,
        gate: &G,
    ) -> Result<(), NoMemory>
        requires may_play { MayPlay shared.now.of self.old }
        requires work { self.old.worker.desk.requests ≢ [] }
        ensures plays_on { PlaysOn self.old self.new }
        ensures may_play { OnOk result (MayPlay shared.now.of self.new) }
        ensures fewer { OnOk result (to_do_of self.new.worker < to_do_of self.old.worker) }
        ensures spent { OnOk result (synced_of self.new.worker ≡ None) }
        ensures failed { self.new.failed ≡ self.old.failed }
    {
        let number = self.pass.number();
        self.sync(rt, alloc, shared, gate)?;
        gate.at(number, Point::Planned);
        self.commit(rt, alloc, shared)?;
        gate.at(number, Point::Committed);
        Ok(())
    }

    /// A turn in which the scheduler looks at the cell, and its plan for the first request that is left, made on
    /// what it saw there. The gate is asked between the two. A transaction of 2^32 claims or more is answered as
    /// want of memory. Where memory runs out the scheduler hasn't synced.
    fn sync<R: Wait, G: Gate>(
        &mut self,
        rt: &R,
        alloc: Global,
        shared: &SharedCell,
        gate: &G,
    ) -> Result<(), NoMemory>
        requires may_play { MayPlay shared.now.of self.old }
        requires left { 0 < self.old.pass.turns }
        requires work { self.old.worker.desk.requests ≢ [] }
        ensures plays_on { PlaysOn self.old self.new }
        ensures turn { self.new.pass.turns + 1 ≡ self.old.pass.turns }
        ensures desk { self.new.worker.desk ≡ self.old.worker.desk }
        ensures all { OnOk result (synced_of self.new.worker ≡ Some (length self.new.pass.seen)) }
        ensures short { OnOk result (length self.new.pass.seen + 1 < 2 ^ 64) }
        ensures plan { OnOk result (HasPlan self.new.pass.seen self.new.worker) }
        ensures failed { self.new.failed ≡ self.old.failed }
    {
        self.worker.plan = None;
        let view = shared.look(rt, alloc, &mut self.pass)?;
        gate.at(self.pass.number(), Point::Synced);
        let plan = plan_first(alloc, &self.worker.desk, &mut self.indexes, view.cell())?;
        self.worker.plan = Some(plan);
        Ok(())
    }

    /// A turn in which the plan is committed, after which the desk moves on by what was answered. Where memory
    /// runs out the desk is as before, and the plan is gone.
    fn commit<R: Wait>(
        &mut self,
        rt: &R,
        alloc: Global,
        shared: &SharedCell,
    ) -> Result<(), NoMemory>
        requires synced { IsSynced shared.now.of self.old }
        requires plan { HasPlan self.old.pass.seen self.old.worker }
        requires short { length self.old.pass.seen + 1 < 2 ^ 64 }
        ensures plays_on { PlaysOn self.old self.new }
        ensures turn { self.new.pass.turns + 1 ≡ self.old.pass.turns }
        ensures fewer { OnOk result (to_do_of self.new.worker < to_do_of self.old.worker) }
        ensures spent { OnOk result (synced_of self.new.worker ≡ None) }
        ensures failed { self.new.failed ≡ self.old.failed }
    {
        let Some(
            Plan {
                seen,
                txn,
                seqs,
                listed,
            },
        ) = self.worker.plan.take()
        else {
            unreachable!()
        };
        let Ok(reply) = shared.commit_planned(rt, alloc, &mut self.pass, seen, txn, seqs) else {
            return Err(NoMemory);
        };
        self.worker.desk.take(listed, &reply);
        Ok(())
    }
}
