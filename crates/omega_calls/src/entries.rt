//! Entries that are applied to a board, if they may be.
ghost use Rattle.std.specs.Prelude.{◌≡◌, ◌∷◌, [], IfOk, OnOk, OnErr};
ghost use Rattle.omega_board.specs.Board.{cell_of};
ghost use Rattle.omega_model.specs.State.{step};
ghost use Rattle.omega_model.specs.declared.claims.Mode.{Mode};
ghost use Rattle.omega_model.specs.declared.claims.Rule.{Rule};
ghost use Rattle.omega_model.specs.declared.entries.Entry.{Entry};

use crate::fault::Fault;
use crate::values::{GREATEST, need, number, task};
use omega_board::Board;
use omega_model::{
    Bytes, Claim, Copied, Entry, Judgement, Keys, MOST_MACHINES, Mode, Need, Rule, Seq, TaskKey,
    Txn, Verdict,
};
use std::alloc::Global;

/// Applies an entry, which is no commit: `add MACHINE AMOUNT`, `update MACHINE AMOUNT`, `remove MACHINE`,
/// `set MACHINE NAME VALUE`, `delete MACHINE NAME`, `end TASK` or `round NUMBER`. Answers the tasks that it
/// displaces. `UnknownCall` for other words, and `MayNot` where the board can't take the entry. After any refusal
/// machines and tasks of the board are as before.
pub fn apply(board: &mut Board, alloc: Global, call: &str, words: &[Bytes]) -> Result<Keys, Fault>
    ensures table { OnErr result (board.new.table ≡ board.old.table) }
    ensures tasks { OnErr result (board.new.tasks ≡ board.old.tasks) }
{
    match words {
        [word] => apply_named(board, alloc, call, word),
        [machine, words @ ..] => apply_to(board, alloc, call, machine, words),
        [] => Err(Fault::UnknownCall),
    }
}

/// Applies an entry of one word: that a machine is removed, that a task ends, or a round.
fn apply_named(board: &mut Board, alloc: Global, call: &str, word: &Bytes) -> Result<Keys, Fault>
    ensures table { OnErr result (board.new.table ≡ board.old.table) }
    ensures tasks { OnErr result (board.new.tasks ≡ board.old.tasks) }
{
    match call {
        "remove" => remove(board, alloc, number(word)?),
        "end" => end(board, alloc, task(word)?),
        "round" => round(board, alloc, number(word)?),
        _ => Err(Fault::UnknownCall),
    }
}

/// Applies an entry that says more of a machine.
fn apply_to(
    board: &mut Board,
    alloc: Global,
    call: &str,
    machine: &Bytes,
    words: &[Bytes],
) -> Result<Keys, Fault>
    ensures table { OnErr result (board.new.table ≡ board.old.table) }
    ensures tasks { OnErr result (board.new.tasks ≡ board.old.tasks) }
{
    match (call, words) {
        ("add", [cap]) => add(board, alloc, number(machine)?, need(cap)?),
        ("update", [cap]) => update(board, alloc, number(machine)?, need(cap)?),
        ("set", [name, value]) => set(board, alloc, number(machine)?, name, value),
        ("delete", [name]) => delete(board, alloc, number(machine)?, name),
        _ => Err(Fault::UnknownCall),
    }
}

/// A round begins.
fn round(board: &mut Board, alloc: Global, number: u64) -> Result<Keys, Fault>
    ensures table { OnErr result (board.new.table ≡ board.old.table) }
    ensures tasks { OnErr result (board.new.tasks ≡ board.old.tasks) }
{
    Ok(board.apply_entry(alloc, &Entry::Round { number })?)
}

/// Adds a machine. `MayNot` where there are 65,536 machines already, the capacity is above `GREATEST`, or
/// the machine's sequence number is 2^64 - 1.
pub fn add(board: &mut Board, alloc: Global, machine: u64, cap: Need) -> Result<Keys, Fault>
    ensures cell { OnOk result (cell_of board.new ≡ step (cell_of board.old) (Entry.MachineAdd machine cap)) }
    ensures table { OnErr result (board.new.table ≡ board.old.table) }
    ensures tasks { OnErr result (board.new.tasks ≡ board.old.tasks) }
{
    let room = board.machines().len() < MOST_MACHINES && cap.fits(GREATEST);
    if room && board.machines().seq(machine) < u64::MAX {
        Ok(board.apply_entry(alloc, &Entry::MachineAdd { machine, cap })?)
    } else {
        Err(Fault::MayNot)
    }
}

/// A machine has another capacity.
fn update(board: &mut Board, alloc: Global, machine: u64, cap: Need) -> Result<Keys, Fault>
    ensures table { OnErr result (board.new.table ≡ board.old.table) }
    ensures tasks { OnErr result (board.new.tasks ≡ board.old.tasks) }
{
    let room = board.machines().len() < MOST_MACHINES && cap.fits(GREATEST);
    if room && board.machines().seq(machine) < u64::MAX {
        Ok(board.apply_entry(alloc, &Entry::MachineUpdate { machine, cap })?)
    } else {
        Err(Fault::MayNot)
    }
}

/// A machine is removed.
fn remove(board: &mut Board, alloc: Global, machine: u64) -> Result<Keys, Fault>
    ensures table { OnErr result (board.new.table ≡ board.old.table) }
    ensures tasks { OnErr result (board.new.tasks ≡ board.old.tasks) }
{
    let room = board.machines().len() < MOST_MACHINES;
    if room && board.machines().seq(machine) < u64::MAX {
        Ok(board.apply_entry(alloc, &Entry::MachineRemove { machine })?)
    } else {
        Err(Fault::MayNot)
    }
}

/// An attribute is set.
fn set(
    board: &mut Board,
    alloc: Global,
    machine: u64,
    name: &Bytes,
    value: &Bytes,
) -> Result<Keys, Fault>
    ensures table { OnErr result (board.new.table ≡ board.old.table) }
    ensures tasks { OnErr result (board.new.tasks ≡ board.old.tasks) }
{
    let (name, value) = (name.copy(alloc)?, value.copy(alloc)?);
    let room = board.machines().len() < MOST_MACHINES;
    if room && board.machines().seq(machine) < u64::MAX {
        let entry = Entry::AttrSet {
            machine,
            name,
            value,
        };
        Ok(board.apply_entry(alloc, &entry)?)
    } else {
        Err(Fault::MayNot)
    }
}

/// An attribute is deleted.
fn delete(board: &mut Board, alloc: Global, machine: u64, name: &Bytes) -> Result<Keys, Fault>
    ensures table { OnErr result (board.new.table ≡ board.old.table) }
    ensures tasks { OnErr result (board.new.tasks ≡ board.old.tasks) }
{
    let name = name.copy(alloc)?;
    let room = board.machines().len() < MOST_MACHINES;
    if room && board.machines().seq(machine) < u64::MAX {
        Ok(board.apply_entry(alloc, &Entry::AttrDelete { machine, name })?)
    } else {
        Err(Fault::MayNot)
    }
}

/// Ends a task. `MayNot` where it doesn't run, or its machine's sequence number is 2^64 - 1.
pub fn end(board: &mut Board, alloc: Global, key: TaskKey) -> Result<Keys, Fault>
    ensures table { OnErr result (board.new.table ≡ board.old.table) }
    ensures tasks { OnErr result (board.new.tasks ≡ board.old.tasks) }
{
    let Some(task) = board.running().get(key) else {
        return Err(Fault::MayNot);
    };
    let machine = task.machine;
    if board.machines().seq(machine) < u64::MAX {
        Ok(board.apply_entry(alloc, &Entry::End { key, machine })?)
    } else {
        Err(Fault::MayNot)
    }
}

/// Judges a claim by rule `Fine`, and applies a commit of it alone where it is placed. Answers the
/// judgement. `MayNot` where it would be placed, but its machine's sequence number is 2^64 - 1.
pub fn commit_claim(board: &mut Board, alloc: Global, claim: Claim) -> Result<Judgement, Fault>
    ensures table { OnErr result (board.new.table ≡ board.old.table) }
    ensures tasks { OnErr result (board.new.tasks ≡ board.old.tasks) }
{
    let mut evicted = Vec::with_capacity(alloc, claim.victims.len())?;
    let verdict = board.judge(&claim, None, &mut evicted);
    let evicted = Seq::of(evicted);
    let judgement = Judgement { verdict, evicted };
    if verdict != Verdict::Placed {
        return Ok(judgement);
    }
    if board.machines().seq(claim.machine) == u64::MAX {
        return Err(Fault::MayNot);
    }
    let entry = entry_of(alloc, claim, judgement.copy(alloc)?)?;
    board.apply_entry(alloc, &entry)?;
    Ok(judgement)
}

/// The entry of a commit of one claim, with the judgement on it.
fn entry_of(alloc: Global, claim: Claim, judgement: Judgement) -> Result<Entry, Fault>
    ensures { IfOk result (λ entry. entry ≡ Entry.Commit 1 0 (record { job = claim.key.job; rule = Rule.Fine; mode = Mode.Incremental; claims = claim ∷ [] }) (judgement ∷ [])) }
{
    let reply = Seq::of(vec![in alloc; judgement]?);
    let txn = Txn {
        job: claim.key.job,
        rule: Rule::Fine,
        mode: Mode::Incremental,
        claims: Seq::of(vec![in alloc; claim]?),
    };
    Ok(Entry::Commit {
        scheduler: 1,
        seen: 0,
        txn,
        reply,
    })
}
