//! When running tasks are due to end.
ghost use Rattle.std.specs.Prelude.{◌≡◌, ◌<◌, ◌+◌, ◌++◌, ◌∷◌, [], ℕ, List, Some, None, IsSome, length, IfOk, OnOk};
ghost use Rattle.std.specs.BTreeMap as tree;
ghost use Rattle.std.specs.BTreeMap.{btree_map_len};
ghost use Rattle.std.specs.List.{fold, zip};
ghost use Rattle.omega_feed.specs.Index.{key_cmp};
ghost use Rattle.omega_free_laws.specs.Lives.{first_own_end};
ghost use Rattle.omega_laws.specs.VirtualTime.{Timed};
ghost use Rattle.omega_model.specs.State.{state};
ghost use Rattle.omega_model.specs.declared.cells.TaskKey.{TaskKey};
ghost use Rattle.omega_model.specs.declared.entries.Entry.{Entry};
ghost use Rattle.omega_model.specs.declared.entries.Entry.TheVariants.{Commit};
ghost use Rattle.omega_model.specs.declared.rows.Row.{Row};
ghost use Rattle.omega_model.specs.declared.rows.TraceTables.{TraceTables};
ghost use Rattle.omega_pieces.specs.Due.{AreAsBefore, AreQueued, IsFirstDue, IsFirstOf, KeepsEnds, SetsDue, due_after, due_at, due_when};
ghost use Rattle.omega_pieces.specs.Kept.{KeepsPieces};

use crate::task_pieces::TaskPieces;
use omega_model::{Claim, Judgement, NoMemory, TaskKey, Txn};
use omega_running::{FIRST_EXTRA, Running};
use std::alloc::Global;
use std::collections::{BTreeMap, BTreeSet};
use std::marker::Model;

/// When tasks are due to end, in microseconds, by task.
type Times = BTreeMap<TaskKey, u128>;

/// The same in order of time, then of task.
type Queue = BTreeSet<(u128, TaskKey)>;

/// An end that is due: the task, the machine on which it runs, and when, in microseconds.
#[derive(Clone, Copy, Debug)]
pub struct DueEnd {
    pub key: TaskKey,
    pub machine: u64,
    pub time: u128,
}

impl Model for DueEnd {
    ghost use Rattle.omega_free_laws.specs.Lives.{DueEnd as LifeEnd};

    ghost Value = { LifeEnd };

    ghost view = { λ d. record { key = d.key; machine = d.machine; time = d.time } };

    ghost inverse = { λ v. record { key = v.key; machine = v.machine; time = v.time } };
}

/// When each of some tasks is due to end, found by task and in order of time. A contract sees the times by task.
///
/// The time of a task that no longer runs is void, and is taken off when it comes first, or when the task is placed again.
#[derive(Drop)]
pub struct EndsDue {
    times: Times,
    queue: Queue,
}

impl Model for EndsDue {
    ghost use Rattle.std.specs.Prelude.{ℕ, List};
    ghost use Rattle.omega_model.specs.declared.cells.TaskKey.{TaskKey};
    ghost use Rattle.omega_pieces.specs.Due.{AreQueued};

    ghost Value = { List (TaskKey × ℕ) };

    ghost view = { λ ends. ends.times.entries };

    ghost invariant = { λ ends. AreQueued ends.times.entries ends.queue };
}

impl EndsDue {
    /// No end is due, since no task runs.
    pub fn new(alloc: Global) -> EndsDue
        ensures { (trace : TraceTables) → KeepsEnds trace [] [] result }
    {
        EndsDue {
            times: BTreeMap::new(alloc),
            queue: BTreeSet::new(alloc),
        }
    }

    /// A transaction has been committed at this time, in microseconds: each task of the trace that it placed is due to
    /// end when it will have run for the life of its piece, if that has one. A time of 2^128 or later is answered as want of
    /// memory. After a refused call nothing is said of the ends.
    /// Costs for each placed claim the logarithms of the number of tasks and of the number of ends.
    pub fn commit(
        &mut self,
        pieces: &TaskPieces,
        time: u128,
        txn: &Txn,
        reply: &[Judgement],
    ) -> Result<(), NoMemory>
        ensures { (trace : TraceTables) (rows : List Row) (history : List Entry) (times : List Timed) (by seen : ℕ) (timed : Timed)
            → KeepsPieces trace rows history pieces.now → KeepsEnds trace history times self.old
            → timed.place ≡ length history → timed.time ≡ time
            → OnOk result (KeepsEnds trace (history ++ Commit by seen txn.now reply.now ∷ []) (times ++ timed ∷ []) self.new) }
    {
        self.claims(pieces, time, txn.claims.as_slice(), reply)?;
        Ok(())
    }

    /// The same by the transaction's claims.
    fn claims(
        &mut self,
        pieces: &TaskPieces,
        time: u128,
        claims: &[Claim],
        reply: &[Judgement],
    ) -> Result<(), NoMemory>
        ensures { (trace : TraceTables) (rows : List Row) (history : List Entry) → KeepsPieces trace rows history pieces.now → (key : TaskKey)
            → OnOk result (due_at self.new key ≡ fold (due_after key (due_when trace history time key)) (due_at self.old key) (zip claims.now reply.now)) }
    {
        for (claim, judgement) in claims.iter().zip(reply) {
            self.claim(pieces, time, claim, judgement)?;
        }
        Ok(())
    }

    /// The same of one claim.
    fn claim(
        &mut self,
        pieces: &TaskPieces,
        time: u128,
        claim: &Claim,
        judgement: &Judgement,
    ) -> Result<(), NoMemory>
        ensures { (trace : TraceTables) (rows : List Row) (history : List Entry) → KeepsPieces trace rows history pieces.now → (key : TaskKey)
            → OnOk result (due_at self.new key ≡ due_after key (due_when trace history time key) (due_at self.old key) (claim.now, judgement.now)) }
    {
        if !judgement.verdict.is_placed() {
            return Ok(());
        }
        let due = due_when(pieces, time, claim.key)?;
        self.set(claim.key, due)?;
        Ok(())
    }

    /// Sets when a task is due to end, if it is, in place of what was set before.
    fn set(&mut self, key: TaskKey, time: Option<u128>) -> Result<(), NoMemory>
        ensures { OnOk result (SetsDue self.old self.new key time) }
    {
        take_off(&mut self.times, &mut self.queue, key);
        match time {
            None => Ok(()),
            Some(time) => {
                put(&mut self.times, &mut self.queue, key, time)?;
                Ok(())
            }
        }
    }

    /// The end that is due first among those of the tasks that run: the one with the least time, and of several at one
    /// time the one of the least name. `None` exactly where no running task is due to end. Void times that come before it are
    /// taken off.
    /// Costs the logarithm of the number of tasks for itself, and as much for each void time, once.
    pub fn first(&mut self, running: &Running) -> Option<DueEnd>
        ensures first { (trace : TraceTables) (history : List Entry) (times : List Timed) → running.now.tasks ≡ (state history).tasks
            → KeepsEnds trace history times self.old → result ≡ first_own_end trace history times }
        ensures kept { (trace : TraceTables) (history : List Entry) (times : List Timed) → running.now.tasks ≡ (state history).tasks
            → KeepsEnds trace history times self.old → KeepsEnds trace history times self.new }
    {
        first_running(&mut self.times, &mut self.queue, running)
    }
}

/// The end that is due first among those of the tasks that run, once void times before it are taken off.
fn first_running(times: &mut Times, queue: &mut Queue, running: &Running) -> Option<DueEnd>
    requires { AreQueued times.old.entries queue.old }
    ensures queued { AreQueued times.new.entries queue.new }
    ensures same { AreAsBefore running.now.tasks times.old.entries times.new.entries }
    ensures first { IsFirstDue running.now.tasks times.new.entries result }
{
    while let Some(first) = first_of(queue) {
        match running.get(first.1) {
            Some(task) => return Some(end_of(first, task.machine)),
            None => take_off(times, queue, first.1),
        }
    }
    None
}

/// The end of a task on this machine that is due then.
fn end_of(first: (u128, TaskKey), machine: u64) -> DueEnd
    ensures { result ≡ record { key = first.1; machine = machine; time = first.0 } }
{
    DueEnd {
        key: first.1,
        machine,
        time: first.0,
    }
}

/// The first of a queue. Takes time logarithmic in its length.
fn first_of(queue: &Queue) -> Option<(u128, TaskKey)>
    ensures { IsFirstOf queue.now result }
{
    match queue.first() {
        Some(first) => Some(*first),
        None => None,
    }
}

/// Takes a task's time off, if it has one.
fn take_off(times: &mut Times, queue: &mut Queue, key: TaskKey)
    requires { AreQueued times.old.entries queue.old }
    ensures queued { AreQueued times.new.entries queue.new }
    ensures times { tree.Updates key_cmp times.old times.new key None }
    ensures fewer { IsSome (tree.get key_cmp times.old key) → btree_map_len times.new < btree_map_len times.old }
{
    if let Some(time) = times.remove(&key) {
        queue.remove(&(time, key));
    }
}

/// Puts in the time of a task that has none. A refused call leaves the times.
fn put(times: &mut Times, queue: &mut Queue, key: TaskKey, time: u128) -> Result<(), NoMemory>
    requires queued { AreQueued times.old.entries queue.old }
    requires none { tree.get key_cmp times.old key ≡ None }
    ensures queued { AreQueued times.new.entries queue.new }
    ensures times { OnOk result (tree.Updates key_cmp times.old times.new key (Some time)) }
{
    queue.insert((time, key))?;
    match times.insert(key, time) {
        Ok(_) => Ok(()),
        Err(_) => {
            queue.remove(&(time, key));
            Err(NoMemory)
        }
    }
}

/// When a task is due to end that is placed at this time, in microseconds; `None` where it isn't one of the trace, or its
/// piece under way has no life.
fn due_when(pieces: &TaskPieces, time: u128, key: TaskKey) -> Result<Option<u128>, NoMemory>
    ensures { (trace : TraceTables) (rows : List Row) (history : List Entry) → KeepsPieces trace rows history pieces.now
        → IfOk result (λ due. due ≡ due_when trace history time key) }
{
    if key.index >= FIRST_EXTRA {
        return Ok(None);
    }
    match pieces.life(key) {
        Some(life) => {
            let due = later(time, life)?;
            Ok(Some(due))
        }
        None => Ok(None),
    }
}

/// So much later, in microseconds; 2^128 or more is answered as want of memory.
fn later(time: u128, life: u64) -> Result<u128, NoMemory>
    ensures { IfOk result (λ due. due ≡ time + life) }
{
    time.checked_add(u128::from(life)).ok_or(NoMemory)
}
