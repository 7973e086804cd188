//! Entries that a cell takes where they are possible.
ghost use Rattle.std.specs.Prelude.{◌≡◌, ◌++◌, ◌∷◌, [], false, true, ℕ, List, IfErr, OnOk};
ghost use Rattle.omega_model.specs.declared.claims.Judgement.{Judgement};
ghost use Rattle.omega_model.specs.declared.claims.Txn.{Txn};
ghost use Rattle.omega_model.specs.declared.entries.Entry.{Entry};
ghost use Rattle.omega_model.specs.Touches.{is_commit};
ghost use Rattle.omega_keep.specs.Audited.{IsPossible};
ghost use Rattle.omega_keep.specs.Taking.{GoesOn, StopsFor};
ghost use Rattle.omega_keep.specs.Touching.{AreTouches};

use crate::possible::is_possible;
use crate::stop::Stop;
use crate::touches::Touches;
use omega_cell::Cell;
use omega_model::{Entry, Judgement, Judgements, TaskKey, Txn};
use std::alloc::Global;

/// Takes an entry where it is possible. After a refusal the cell may have one entry more: a commit with
/// the reply that was due.
pub fn take_entry(
    alloc: Global,
    cell: &mut Cell,
    touches: &Touches,
    entry: Entry,
) -> Result<(), Stop>
    requires { AreTouches touches.now.places cell.old.history }
    ensures goes { OnOk result (GoesOn cell.old.history entry cell.new.history) }
    ensures stops { IfErr result (StopsFor (IsPossible cell.old.history entry → ⊥)) }
{
    match entry {
        Entry::Commit {
            scheduler,
            seen,
            txn,
            reply,
        } => {
            let kept = KeptCommit {
                scheduler,
                seen,
                txn,
                reply,
            };
            commit(alloc, cell, touches, kept)
        }
        entry => feed(alloc, cell, entry),
    }
}

/// Feeds an entry that is no commit.
fn feed(alloc: Global, cell: &mut Cell, entry: Entry) -> Result<(), Stop>
    requires { is_commit entry ≡ false }
    ensures goes { OnOk result (GoesOn cell.old.history entry cell.new.history) }
    ensures stops { IfErr result (StopsFor (IsPossible cell.old.history entry → ⊥)) }
{
    if !is_possible(cell, &entry) {
        return Err(Stop::Refused);
    }
    match cell.feed(alloc, entry) {
        Ok(()) => Ok(()),
        Err(_) => Err(Stop::OutOfMemory),
    }
}

/// How many claims a commit has at most.
const MOST_CLAIMS: usize = 4_294_967_295;

/// A commit that is kept: whose it is, how many entries its scheduler had seen, what was committed and what was
/// answered to it.
#[derive(Drop)]
struct KeptCommit {
    scheduler: u32,
    seen: u64,
    txn: Txn,
    reply: Judgements,
}

/// Commits a transaction again, and refuses it where its reply isn't the kept one.
fn commit(alloc: Global, cell: &mut Cell, touches: &Touches, kept: KeptCommit) -> Result<(), Stop>
    requires { AreTouches touches.now.places cell.old.history }
    ensures goes { OnOk result (GoesOn cell.old.history (Entry.Commit kept.scheduler kept.seen kept.txn kept.reply) cell.new.history) }
    ensures stops { IfErr result (StopsFor (IsPossible cell.old.history (Entry.Commit kept.scheduler kept.seen kept.txn kept.reply) → ⊥)) }
{
    let KeptCommit {
        scheduler,
        seen,
        txn,
        reply,
    } = kept;
    if seen > cell.history().len() as u64 || txn.claims.len() > MOST_CLAIMS {
        return Err(Stop::Refused);
    }
    let seqs = touches.seqs(alloc, seen, txn.claims.as_slice())?;
    let Ok(prepared) = cell.reserve(alloc, txn) else {
        return Err(Stop::OutOfMemory);
    };
    cell.commit(scheduler, seen, seqs.as_slice(), prepared);
    if !has_reply(cell, &reply) {
        return Err(Stop::Refused);
    }
    Ok(())
}

/// Whether the last entry is a commit with this reply.
fn has_reply(cell: &Cell, reply: &Judgements) -> bool
    ensures same { (before : List Entry) (scheduler seen : ℕ) (txn : Txn) (due : List Judgement) → cell.now.history ≡ before ++ Entry.Commit scheduler seen txn due ∷ [] → result ≡ true → due ≡ reply.now }
    ensures all { (before : List Entry) (scheduler seen : ℕ) (txn : Txn) (due : List Judgement) → cell.now.history ≡ before ++ Entry.Commit scheduler seen txn due ∷ [] → due ≡ reply.now → result ≡ true }
{
    match cell.history().last() {
        Some(Entry::Commit { reply: due, .. }) => are_same(due.as_slice(), reply.as_slice()),
        _ => false,
    }
}

/// Whether two replies are the same.
fn are_same(due: &[Judgement], reply: &[Judgement]) -> bool
    ensures same { result ≡ true → due.now ≡ reply.now }
    ensures all { due.now ≡ reply.now → result ≡ true }
{
    if due.len() != reply.len() {
        return false;
    }
    for i in 0..due.len() {
        if !is_same(&due[i], &reply[i]) {
            return false;
        }
    }
    true
}

/// Whether two answers to a claim are the same.
fn is_same(due: &Judgement, judgement: &Judgement) -> bool
    ensures same { result ≡ true → due.now ≡ judgement.now }
    ensures all { due.now ≡ judgement.now → result ≡ true }
{
    due.verdict == judgement.verdict
        && are_tasks(due.evicted.as_slice(), judgement.evicted.as_slice())
}

/// Whether two lists of tasks are the same.
fn are_tasks(due: &[TaskKey], keys: &[TaskKey]) -> bool
    ensures same { result ≡ true → due.now ≡ keys.now }
    ensures all { due.now ≡ keys.now → result ≡ true }
{
    due == keys
}
