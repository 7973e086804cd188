//! The attempt of a scheduler that syncs, as it is kept until it is due.
ghost use Rattle.std.specs.Prelude.{◌≡◌, ◌<◌, ◌+◌, ◌^◌, IfOk, IfSome, OnOk, length};
ghost use Rattle.omega_laws.specs.VirtualTime.{decision};
ghost use Rattle.omega_model.specs.State.{state};
ghost use Rattle.omega_model.specs.Work.{commits_of, planned};
ghost use Rattle.omega_plan.specs.Indexes.{AreIndexesOf, TellAll};
ghost use Rattle.omega_free.specs.KeptAttempts.{BeginsFirst, IsCounted, IsKept, IsKeptFor, IsKnown, attempt_for, wanted_part};

use crate::attempts::{still_wanted, wants_all};
use omega_board::touched;
use omega_cell::Cell;
use omega_desk::Desk;
use omega_feed::Wanted;
use omega_model::{Claims, NoMemory, Request, Settings, Txn};
use omega_plan::{Indexes, plan, seqs_on};
use std::alloc::Global;
use std::marker::Model;

/// An attempt on which its scheduler is deciding: a plan for a job that was made when the scheduler synced, after so
/// many entries of the history that it had seen then, with the sequence number that the machine of each claim had
/// there, and with the request, where its wishes had to be listed. Both times are in microseconds of the trace.
#[derive(Drop)]
pub struct Attempt {
    pub(crate) job: u64,
    pub(crate) seen: u64,
    pub(crate) claims: Claims,
    pub(crate) seqs: Vec<u64>,
    pub(crate) sync: u128,
    pub(crate) due: u128,
    pub(crate) listed: Option<Request>,
}

impl Model for Attempt {
    ghost use Rattle.omega_free.specs.KeptAttempts.{KeptAttempt};

    ghost Value = { KeptAttempt };

    ghost view = { λ a. record { attempt = record { job = a.job; seen = a.seen; claims = a.claims; sync = a.sync; due = a.due }; seqs = a.seqs.items; listed = a.listed } };
}

/// The attempt that begins now on the first request at a desk, for those of its wishes that are still wanted, planned on
/// the cell's board with these indexes, which are brought up to it. `None` where no request is left. A plan of 2^32
/// claims or more, and a time of 2^128 or more, are answered as want of memory; the indexes are right in any case. Costs
/// a look-up for each wish, the plan, and the entries that the indexes haven't seen; where wishes of the request are
/// counted, a list of all of them, and where some are no longer wanted, a copy of the others.
pub(crate) fn first_attempt(
    alloc: Global,
    indexes: &mut Indexes,
    settings: &Settings,
    desk: &Desk,
    wanted: &Wanted,
    cell: &Cell,
    now: u128,
) -> Result<Option<Attempt>, NoMemory>
    requires known { IsKnown settings.now desk.now }
    requires indexes { AreIndexesOf cell.now.history indexes.old }
    ensures indexes { AreIndexesOf cell.now.history indexes.new }
    ensures first { IfOk result (BeginsFirst settings.now wanted.now.tasks cell.now.history now desk.now) }
    ensures kept { IfOk result (λ kept. IfSome kept (IsKeptFor cell.now.history desk.now)) }
{
    let listed = desk.listed(alloc)?;
    let Some(request) = desk.present(&listed) else {
        return Ok(None);
    };
    let attempt = attempt_on(alloc, indexes, settings, desk, wanted, cell, now, request)?;
    Ok(Some(Attempt { listed, ..attempt }))
}

/// The attempt that begins now on a request, for those of its wishes that are still wanted, without a list of them.
fn attempt_on(
    alloc: Global,
    indexes: &mut Indexes,
    settings: &Settings,
    desk: &Desk,
    wanted: &Wanted,
    cell: &Cell,
    now: u128,
    request: &Request,
) -> Result<Attempt, NoMemory>
    requires known { IsKnown settings.now desk.now }
    requires indexes { AreIndexesOf cell.now.history indexes.old }
    ensures indexes { AreIndexesOf cell.now.history indexes.new }
    ensures attempt { IfOk result (λ kept. IsCounted cell.now.history desk.now
        → kept.attempt ≡ attempt_for settings.now cell.now.history now desk.now.scheduler (wanted_part wanted.now.tasks request.now)) }
    ensures kept { IfOk result (IsKept cell.now.history) }
{
    if wants_all(request, wanted) {
        return attempt_for(alloc, indexes, settings, desk, cell, now, request);
    }
    let part = still_wanted(alloc, request, wanted)?;
    attempt_for(alloc, indexes, settings, desk, cell, now, &part)
}

/// The attempt that begins now for all wishes of a request, without a list of them.
fn attempt_for(
    alloc: Global,
    indexes: &mut Indexes,
    settings: &Settings,
    desk: &Desk,
    cell: &Cell,
    now: u128,
    request: &Request,
) -> Result<Attempt, NoMemory>
    requires known { IsKnown settings.now desk.now }
    requires indexes { AreIndexesOf cell.now.history indexes.old }
    ensures indexes { AreIndexesOf cell.now.history indexes.new }
    ensures attempt { IfOk result (λ kept. IsCounted cell.now.history desk.now
        → kept.attempt ≡ attempt_for settings.now cell.now.history now desk.now.scheduler request.now) }
    ensures kept { IfOk result (IsKept cell.now.history) }
{
    let txn = planned_txn(alloc, indexes, desk, cell, request)?;
    let seqs = seqs_on(alloc, cell.board(), txn.claims.as_slice())?;
    let due = due_after(settings, desk.scheduler(), request.wishes.len(), now)?;
    Ok(Attempt {
        job: txn.job,
        seen: cell.history().len() as u64,
        claims: txn.claims,
        seqs,
        sync: now,
        due,
        listed: None,
    })
}

/// The plan for all wishes of a request, as the next attempt of a desk's scheduler.
fn planned_txn(
    alloc: Global,
    indexes: &mut Indexes,
    desk: &Desk,
    cell: &Cell,
    request: &Request,
) -> Result<Txn, NoMemory>
    requires known { IsKnown desk.now.settings desk.now }
    requires indexes { AreIndexesOf cell.now.history indexes.old }
    ensures indexes { AreIndexesOf cell.now.history indexes.new }
    ensures job { IfOk result (λ txn. txn.job ≡ request.now.job) }
    ensures claims { IfOk result (λ txn. IsCounted cell.now.history desk.now
        → txn.claims ≡ planned desk.now.settings desk.now.scheduler (commits_of desk.now.scheduler cell.now.history) cell.now.history request.now.wishes) }
    ensures few { IfOk result (λ txn. length txn.claims < 2 ^ 32) }
{
    bring_up(alloc, indexes, cell)?;
    let board = cell.board();
    let start = desk.start(board.machines().len());
    let txn = plan(alloc, board, indexes, request, start, &desk.policy())?;
    if txn.claims.len() > u32::MAX as usize {
        return Err(NoMemory);
    }
    Ok(txn)
}

/// Brings indexes of a cell's history up to its board. Costs the entries that they haven't seen.
fn bring_up(alloc: Global, indexes: &mut Indexes, cell: &Cell) -> Result<(), NoMemory>
    requires { AreIndexesOf cell.now.history indexes.old }
    ensures indexes { AreIndexesOf cell.now.history indexes.new }
    ensures tell { OnOk result (TellAll (state cell.now.history) indexes.new) }
    ensures seen { OnOk result (indexes.new.seen ≡ length cell.now.history) }
{
    let (history, board) = (cell.history(), cell.board());
    let machines = touched(alloc, &history[indexes.seen() as usize..])?;
    indexes.make_room(board)?;
    indexes.go_on(board, history.len() as u64, &machines);
    Ok(())
}

/// When a scheduler that syncs now has decided on so many wishes. A time of 2^128 or more is answered as want of memory.
fn due_after(
    settings: &Settings,
    scheduler: u32,
    wishes: usize,
    now: u128,
) -> Result<u128, NoMemory>
    ensures { IfOk result (λ due. due ≡ now + decision settings.now scheduler wishes) }
{
    now.checked_add(decision(settings, scheduler, wishes))
        .ok_or(NoMemory)
}

/// How long a scheduler takes to decide on so many wishes, in microseconds.
fn decision(settings: &Settings, scheduler: u32, wishes: usize) -> u128
    ensures { result ≡ decision settings.now scheduler wishes }
{
    let (t_job, t_task) = match scheduler {
        0 => (settings.service_t_job, settings.service_t_task),
        _ => (settings.t_job, settings.t_task),
    };
    u128::from(t_job) + u128::from(t_task) * wishes as u128
}
