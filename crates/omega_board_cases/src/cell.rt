//! One history and what is committed to it: the calls of `omega_cell`.
ghost use Rattle.std.specs.Prelude.{◌≡◌, ◌<◌, ◌^◌, false, List, length, IfOk, OnOk, IsTrue};
ghost use Rattle.omega_model.specs.Touches.{is_commit};
ghost use Rattle.omega_copy.specs.Copies.{CopyOf};
ghost use Rattle.omega_model.specs.Applying.{CapacityIsInRange, EndsRunning};
ghost use Rattle.omega_model.specs.Limits.{most_machines};
ghost use Rattle.omega_model.specs.State.{state};
ghost use Rattle.omega_model.specs.declared.cells.Task.{Task};
ghost use Rattle.omega_model.specs.declared.entries.Entry.{Entry};
ghost use Rattle.omega_board_cases.specs.Copies.{StillStand};

use crate::board::{ask, is_question};
use crate::planning::{ask_copy, following, mode, show_plan, show_trial};
use crate::showing::{show_judged, show_part};
use omega_calls::{Fault, GREATEST, claim, is_colon, need, number, part, task, text};
use omega_cell::Cell;
use omega_copy::PrivateCopy;
use omega_model::{
    Bytes, Claims, Copied, Delta, Entry, MOST_MACHINES, Need, NoMemory, Outcome, Reply, Rule,
    TaskKey, Txn,
};
use std::alloc::Global;

/// `script STEP : STEP ..`: what each step answers on one cell and a scheduler's copy of it, which are
/// empty before the first; the answers are parted by `:` too.
///
/// Entries answer their place in the history: `add MACHINE AMOUNT`, `update MACHINE AMOUNT`, `remove
/// MACHINE`, `set MACHINE NAME VALUE`, `delete MACHINE NAME`, `end TASK`, `round NUMBER`. `sync` takes
/// the copy up to the history, and answers how many entries it has seen then. `commit RULE MODE CLAIM
/// ..` commits claims that were planned on the copy, each of five words as in `board`, and answers the
/// place of the commit, and for each claim the verdict and the tasks that are evicted; the rule is
/// `fine` or `coarse`, the mode `incremental` or `gang`.
///
/// `since NUMBER` answers what changed since the first so many entries: up to which entry it leads, and
/// each machine as `part` of `board` tells it. `judge`, `at`, `part`, `attributes`, `position`,
/// `machines` and `load` ask the board as in `board`, and `copy at 1` and the like ask the copy's.
///
/// `follow` goes on with a new copy that has followed the history, and answers how many entries it has
/// seen. `plan MODE PREEMPT START JOB WISH ..` plans a request on the copy from a position on, and answers
/// the claims, each as `TASK MACHINE VICTIMS`, `-` for none; with `evicting` evictions make room, with
/// `sparing` they don't, and a WISH is three words: `INDEX AMOUNT PRECEDENCE`. `copy victims MACHINE JOB
/// WISH` answers the tasks that must go for a wish, `-` where none must and `none` where no evictions make
/// room; `copy first START AMOUNT` the first position with room. `trial CLAIM` places a claim beside the board
/// of a new copy, and takes it back: it answers the verdict and what is evicted, and where all of its victims
/// are, before, meanwhile and after it whether the task runs, what is free on the machine, and the first
/// position with room for it.
pub(crate) fn answer(
    alloc: Global,
    call: &str,
    words: &[Bytes],
    answers: &mut String,
) -> Result<(), Fault> {
    if call != "script" {
        return Err(Fault::UnknownCall);
    }
    let mut cell = Cell::new(alloc);
    let mut copy = PrivateCopy::new(alloc);
    take_all(&mut cell, &mut copy, alloc, words, answers)
}

/// Does all steps, and appends their answers.
fn take_all(
    cell: &mut Cell,
    copy: &mut PrivateCopy,
    alloc: Global,
    words: &[Bytes],
    answers: &mut String,
) -> Result<(), Fault>
    requires stands { CopyOf copy.old cell.old.history }
{
    for step in words.split(|word| is_colon(word)) {
        part(answers)?;
        take(cell, copy, alloc, step, answers)?;
    }
    Ok(())
}

/// Does a step, and appends its answer.
fn take(
    cell: &mut Cell,
    copy: &mut PrivateCopy,
    alloc: Global,
    step: &[Bytes],
    answers: &mut String,
) -> Result<(), Fault>
    requires stands { CopyOf copy.old cell.old.history }
    ensures stands { OnOk result (CopyOf copy.new cell.new.history) }
{
    let [call, words @ ..] = step else {
        return Err(Fault::UnknownCall);
    };
    let call = text(call)?;
    match call {
        "sync" if words.is_empty() => sync(copy, cell, alloc, answers),
        "follow" if words.is_empty() => follow(copy, cell, alloc, answers),
        "plan" => show_plan(copy, alloc, words, answers),
        "trial" => show_trial(cell, alloc, words, answers),
        "commit" => commit(cell, copy, alloc, words, answers),
        "since" => show_since(cell, alloc, words, answers),
        "copy" => ask_copy(copy, alloc, words, answers),
        _ if is_question(call) => ask(cell.board(), alloc, call, words, answers),
        _ => show_fed(cell, alloc, call, words, answers),
    }
}

/// Feeds an entry, and appends its place.
fn show_fed(
    cell: &mut Cell,
    alloc: Global,
    call: &str,
    words: &[Bytes],
    answers: &mut String,
) -> Result<(), Fault>
    ensures { OnOk result (StillStand cell.old.history cell.new.history) }
{
    write!(answers, "{}", cell.history().len())?;
    feed_words(cell, alloc, call, words)
}

/// Feeds an entry.
fn feed_words(cell: &mut Cell, alloc: Global, call: &str, words: &[Bytes]) -> Result<(), Fault>
    ensures { OnOk result (StillStand cell.old.history cell.new.history) }
{
    match (call, words) {
        ("end", [key]) => end(cell, alloc, task(key)?),
        ("add", [machine, cap]) => add(cell, alloc, number(machine)?, need(cap)?),
        ("update", [machine, cap]) => update(cell, alloc, number(machine)?, need(cap)?),
        _ => feed(cell, alloc, entry_of(alloc, call, words)?),
    }
}

/// An entry that gives no capacity and ends no task.
fn entry_of(alloc: Global, call: &str, words: &[Bytes]) -> Result<Entry, Fault>
    ensures no_commit { IfOk result (λ entry. is_commit entry ≡ false) }
    ensures capacity { IfOk result CapacityIsInRange }
    ensures ends { IfOk result (λ entry. (tasks : List Task) → EndsRunning tasks entry) }
{
    match (call, words) {
        ("remove", [machine]) => {
            let machine = number(machine)?;
            Ok(Entry::MachineRemove { machine })
        }
        ("set", [machine, name, value]) => Ok(Entry::AttrSet {
            machine: number(machine)?,
            name: name.copy(alloc)?,
            value: value.copy(alloc)?,
        }),
        ("delete", [machine, name]) => Ok(Entry::AttrDelete {
            machine: number(machine)?,
            name: name.copy(alloc)?,
        }),
        ("round", [word]) => Ok(Entry::Round {
            number: number(word)?,
        }),
        _ => Err(Fault::UnknownCall),
    }
}

/// A machine is added.
fn add(cell: &mut Cell, alloc: Global, machine: u64, cap: Need) -> Result<(), Fault>
    ensures { OnOk result (StillStand cell.old.history cell.new.history) }
{
    if !cap.fits(GREATEST) {
        return Err(Fault::MayNot);
    }
    feed(cell, alloc, Entry::MachineAdd { machine, cap })
}

/// A machine has another capacity.
fn update(cell: &mut Cell, alloc: Global, machine: u64, cap: Need) -> Result<(), Fault>
    ensures { OnOk result (StillStand cell.old.history cell.new.history) }
{
    if !cap.fits(GREATEST) {
        return Err(Fault::MayNot);
    }
    feed(cell, alloc, Entry::MachineUpdate { machine, cap })
}

/// A running task ends.
fn end(cell: &mut Cell, alloc: Global, key: TaskKey) -> Result<(), Fault>
    ensures { OnOk result (StillStand cell.old.history cell.new.history) }
{
    let Some(task) = cell.board().running().get(key) else {
        return Err(Fault::MayNot);
    };
    let machine = task.machine;
    match cell.feed(alloc, Entry::End { key, machine }) {
        Ok(()) => Ok(()),
        Err(_) => Err(Fault::NoMemory),
    }
}

/// Feeds an entry that ends no task.
fn feed(cell: &mut Cell, alloc: Global, entry: Entry) -> Result<(), Fault>
    requires no_commit { is_commit entry ≡ false }
    requires capacity { CapacityIsInRange entry }
    requires ends { (tasks : List Task) → EndsRunning tasks entry }
    ensures { OnOk result (StillStand cell.old.history cell.new.history) }
{
    if !has_room(cell) {
        return Err(Fault::MayNot);
    }
    match cell.feed(alloc, entry) {
        Ok(()) => Ok(()),
        Err(_) => Err(Fault::NoMemory),
    }
}

/// Whether the list has room for a machine.
fn has_room(cell: &Cell) -> bool
    ensures { IsTrue result → length (state cell.now.history).machines < most_machines }
{
    cell.board().machines().len() < MOST_MACHINES
}

/// Takes the copy up to the history, and appends how many entries it has seen.
fn sync(
    copy: &mut PrivateCopy,
    cell: &Cell,
    alloc: Global,
    answers: &mut String,
) -> Result<(), Fault>
    requires stands { CopyOf copy.old cell.now.history }
    ensures stands { OnOk result (CopyOf copy.new cell.now.history) }
{
    catch_up(copy, cell, alloc)?;
    write!(answers, "{}", copy.seen())?;
    Ok(())
}

/// Takes the copy up to the history.
fn catch_up(copy: &mut PrivateCopy, cell: &Cell, alloc: Global) -> Result<(), NoMemory>
    requires stands { CopyOf copy.old cell.now.history }
    ensures stands { OnOk result (CopyOf copy.new cell.now.history) }
{
    let delta = cell.since(alloc, copy.seen())?;
    copy.catch_up(alloc, delta)?;
    Ok(())
}

/// Goes on with a new copy that has followed the history, and appends how many entries it has seen.
fn follow(
    copy: &mut PrivateCopy,
    cell: &Cell,
    alloc: Global,
    answers: &mut String,
) -> Result<(), Fault>
    ensures stands { OnOk result (CopyOf copy.new cell.now.history) }
{
    *copy = following(alloc, cell)?;
    write!(answers, "{}", copy.seen())?;
    Ok(())
}

/// Appends what changed since the first so many entries.
fn show_since(
    cell: &Cell,
    alloc: Global,
    words: &[Bytes],
    answers: &mut String,
) -> Result<(), Fault> {
    let [word] = words else {
        return Err(Fault::UnknownCall);
    };
    let seen = number(word)?;
    if seen > cell.history().len() as u64 {
        return Err(Fault::MayNot);
    }
    let delta = cell.since(alloc, seen)?;
    show_delta(answers, &delta)
}

/// Appends up to which entry a delta leads, and its machines.
fn show_delta(answers: &mut String, delta: &Delta) -> Result<(), Fault> {
    write!(answers, "{}", delta.to())?;
    for place in 0..delta.touched() {
        if let Some(part) = delta.part(place) {
            answers.push(' ')?;
            show_part(answers, part)?;
        }
    }
    Ok(())
}

/// Commits claims, and appends what is answered.
fn commit(
    cell: &mut Cell,
    copy: &PrivateCopy,
    alloc: Global,
    words: &[Bytes],
    answers: &mut String,
) -> Result<(), Fault>
    requires stands { CopyOf copy.now cell.old.history }
    ensures { OnOk result (StillStand cell.old.history cell.new.history) }
{
    let [rule, word, claims @ ..] = words else {
        return Err(Fault::UnknownCall);
    };
    let txn = Txn {
        job: 1,
        rule: rule_of(rule)?,
        mode: mode(word)?,
        claims: claims_of(alloc, claims)?,
    };
    let reply = commit_txn(cell, copy, alloc, txn)?;
    show_reply(answers, &reply)
}

/// The rule of a word.
fn rule_of(word: &Bytes) -> Result<Rule, Fault> {
    match text(word)? {
        "fine" => Ok(Rule::Fine),
        "coarse" => Ok(Rule::Coarse),
        _ => Err(Fault::UnknownCall),
    }
}

/// Claims, each of five words.
fn claims_of(alloc: Global, words: &[Bytes]) -> Result<Claims, Fault> {
    let mut claims = Claims::new(alloc);
    for five in words.chunks(5) {
        claims.push(claim(alloc, five)?)?;
    }
    Ok(claims)
}

/// Commits a transaction that was planned on the copy.
fn commit_txn(cell: &mut Cell, copy: &PrivateCopy, alloc: Global, txn: Txn) -> Result<Reply, Fault>
    requires stands { CopyOf copy.now cell.old.history }
    ensures { OnOk result (StillStand cell.old.history cell.new.history) }
{
    if txn.claims.len() >= 4_294_967_296 {
        return Err(Fault::MayNot);
    }
    let seqs = copy.seqs(alloc, txn.claims.as_slice())?;
    let Ok(prepared) = cell.reserve(alloc, txn) else {
        return Err(Fault::NoMemory);
    };
    Ok(cell.commit(1, copy.seen(), seqs.as_slice(), prepared))
}

/// Appends the place of a commit, and what is answered to each claim.
fn show_reply(answers: &mut String, reply: &Reply) -> Result<(), Fault> {
    write!(answers, "{}", reply.place)?;
    for outcome in reply.outcomes.as_slice() {
        answers.push(' ')?;
        show_outcome(answers, outcome)?;
    }
    Ok(())
}

/// Appends what is answered to a claim.
fn show_outcome(answers: &mut String, outcome: &Outcome) -> Result<(), Fault> {
    show_judged(answers, outcome.verdict, outcome.evicted.as_slice())
}
