//! What a scheduler does on a copy before it commits: claims beside its board and plans, as steps of `cell`.
ghost use Rattle.std.specs.Prelude.{◌≡◌, ◌≤◌, ◌↔◌, length, IfOk, IsTrue, OnOk};
ghost use Rattle.omega_board.specs.Board.{cell_of};
ghost use Rattle.omega_copy.specs.Copies.{CopyOf};
ghost use Rattle.omega_plan.specs.Indexes.{TellAll};
ghost use Rattle.omega_plan.specs.Overlays.{GoesInWhole};

use crate::board::ask;
use crate::showing::{show_free, show_judged, show_tasks};
use omega_board::Board;
use omega_calls::{Fault, claim, need, number, place, show_place, show_task, small, spec, text};
use omega_cell::Cell;
use omega_copy::PrivateCopy;
use omega_fit::FitIndex;
use omega_model::{
    Bytes, Claim, Constraints, Mode, Need, NoMemory, Policy, Request, Rule, TaskKey, Txn, Verdict,
    Wish, Wishes,
};
use omega_plan::{Indexes, Overlay, plan, victims};
use std::alloc::Global;
use std::mem;

/// A new copy that has followed the history of a cell.
pub(crate) fn following(alloc: Global, cell: &Cell) -> Result<PrivateCopy, Fault>
    ensures stands { IfOk result (λ copy. CopyOf copy cell.now.history) }
{
    let mut copy = PrivateCopy::new(alloc);
    copy.follow(alloc, cell.history())?;
    Ok(copy)
}

/// Appends what a copy answers: the first position with room, or what its board says.
pub(crate) fn ask_copy(
    copy: &mut PrivateCopy,
    alloc: Global,
    words: &[Bytes],
    answers: &mut String,
) -> Result<(), Fault>
    ensures { OnOk result (copy.new ≡ copy.old) }
{
    let [call, words @ ..] = words else {
        return Err(Fault::UnknownCall);
    };
    match (text(call)?, words) {
        ("first", [start, amount]) => show_first(copy, alloc, start, amount, answers),
        ("victims", [machine, wish @ ..]) => show_victims(copy, alloc, machine, wish, answers),
        (call, _) => ask(copy.board(), alloc, call, words, answers),
    }
}

/// Appends the first position with room for an amount, round from a start. The copy is as before.
fn show_first(
    copy: &mut PrivateCopy,
    alloc: Global,
    start: &Bytes,
    amount: &Bytes,
    answers: &mut String,
) -> Result<(), Fault>
    ensures { OnOk result (copy.new ≡ copy.old) }
{
    let (start, amount) = (place(start)?, need(amount)?);
    let whole = mem::replace(copy, PrivateCopy::new(alloc));
    let (board, indexes) = whole.into_parts();
    let told = show_first_of(indexes.free(), start, amount, answers);
    *copy = PrivateCopy::of_parts(board, indexes);
    told
}

/// The same of what is free.
fn show_first_of(
    free: &FitIndex,
    start: usize,
    amount: Need,
    answers: &mut String,
) -> Result<(), Fault> {
    if start > free.len() {
        return Err(Fault::MayNot);
    }
    show_place(answers, free.first(start, amount, |_| true))
}

/// Appends the tasks that must go for a wish, or `none` where no evictions make room.
fn show_victims(
    copy: &PrivateCopy,
    alloc: Global,
    machine: &Bytes,
    words: &[Bytes],
    answers: &mut String,
) -> Result<(), Fault> {
    let [job, words @ ..] = words else {
        return Err(Fault::UnknownCall);
    };
    let wish = wish(alloc, number(job)?, words)?;
    match victims(alloc, copy.board(), &wish, number(machine)?)? {
        Some(keys) => show_tasks(answers, keys.as_slice()),
        None => Ok(answers.push_str("none")?),
    }
}

/// A job's wish without constraints, of three words: its index, the amount and the precedence.
fn wish(alloc: Global, job: u64, words: &[Bytes]) -> Result<Wish, Fault> {
    let [index, amount, prec] = words else {
        return Err(Fault::UnknownCall);
    };
    let index = small(index)?;
    Ok(Wish {
        key: TaskKey { job, index },
        spec: spec(amount, prec)?,
        constraints: Constraints::new(alloc),
    })
}

/// A job's wishes, each of three words.
fn wishes(alloc: Global, job: u64, words: &[Bytes]) -> Result<Wishes, Fault> {
    let mut wishes = Wishes::new(alloc);
    for three in words.chunks(3) {
        wishes.push(wish(alloc, job, three)?)?;
    }
    Ok(wishes)
}

/// Plans a request on a copy, which is as it was then, and appends the claims: each the task, its
/// machine and the tasks that it evicts; `-` where there is none.
pub(crate) fn show_plan(
    copy: &mut PrivateCopy,
    alloc: Global,
    words: &[Bytes],
    answers: &mut String,
) -> Result<(), Fault>
    ensures { OnOk result (copy.new ≡ copy.old) }
{
    let [mode_of, preempt, start, job, words @ ..] = words else {
        return Err(Fault::UnknownCall);
    };
    let policy = Policy {
        rule: Rule::Fine,
        mode: mode(mode_of)?,
        preempt: preempts(preempt)?,
    };
    let job = number(job)?;
    let wishes = wishes(alloc, job, words)?;
    show_planned(
        copy,
        alloc,
        &Request { job, wishes },
        place(start)?,
        &policy,
        answers,
    )
}

/// A mode.
pub(crate) fn mode(word: &Bytes) -> Result<Mode, Fault> {
    match text(word)? {
        "incremental" => Ok(Mode::Incremental),
        "gang" => Ok(Mode::Gang),
        _ => Err(Fault::UnknownCall),
    }
}

/// Whether a word says that evictions make room.
fn preempts(word: &Bytes) -> Result<bool, Fault> {
    match text(word)? {
        "evicting" => Ok(true),
        "sparing" => Ok(false),
        _ => Err(Fault::UnknownCall),
    }
}

/// Appends the claims of a plan that begins to look at a position of the list of machines.
fn show_planned(
    copy: &mut PrivateCopy,
    alloc: Global,
    request: &Request,
    start: usize,
    policy: &Policy,
    answers: &mut String,
) -> Result<(), Fault>
    ensures { OnOk result (copy.new ≡ copy.old) }
{
    if start > copy.board().machines().len() {
        return Err(Fault::MayNot);
    }
    let txn = planned(copy, alloc, request, start, policy)?;
    show_claims(answers, txn.claims.as_slice())
}

/// The plan of a request on a copy, which is as before.
fn planned(
    copy: &mut PrivateCopy,
    alloc: Global,
    request: &Request,
    start: usize,
    policy: &Policy,
) -> Result<Txn, NoMemory>
    requires { start ≤ length copy.old.board.table }
    ensures { copy.new ≡ copy.old }
{
    let whole = mem::replace(copy, PrivateCopy::new(alloc));
    let (board, mut indexes) = whole.into_parts();
    let txn = plan(alloc, &board, &mut indexes, request, start, policy);
    *copy = PrivateCopy::of_parts(board, indexes);
    txn
}

/// Appends claims, parted by blanks; `-` where there is none.
fn show_claims(answers: &mut String, claims: &[Claim]) -> Result<(), Fault> {
    if claims.is_empty() {
        answers.push('-')?;
    }
    for (place, claim) in claims.iter().enumerate() {
        if place > 0 {
            answers.push(' ')?;
        }
        show_claim(answers, claim)?;
    }
    Ok(())
}

/// Appends a claim's task, its machine and the tasks that it evicts.
fn show_claim(answers: &mut String, claim: &Claim) -> Result<(), Fault> {
    show_task(answers, claim.key)?;
    write!(answers, " {} ", claim.machine)?;
    show_tasks(answers, claim.victims.as_slice())
}

/// Places a claim beside the board of a new copy that has followed the history, and takes it back. Appends
/// the verdict and what is evicted, and where the claim is placed and evicts all of its victims what is told
/// before, meanwhile and after that.
pub(crate) fn show_trial(
    cell: &Cell,
    alloc: Global,
    words: &[Bytes],
    answers: &mut String,
) -> Result<(), Fault> {
    let claim = claim(alloc, words)?;
    show_trial_of(cell, alloc, claim, answers)
}

/// The same with this claim.
fn show_trial_of(
    cell: &Cell,
    alloc: Global,
    claim: Claim,
    answers: &mut String,
) -> Result<(), Fault> {
    let (board, mut indexes) = following(alloc, cell)?.into_parts();
    show_trial_on(alloc, &board, &mut indexes, claim, answers)
}

/// The same on this board, of which these indexes tell.
fn show_trial_on(
    alloc: Global,
    board: &Board,
    indexes: &mut Indexes,
    claim: Claim,
    answers: &mut String,
) -> Result<(), Fault>
    requires { TellAll (cell_of board.now) indexes.old }
{
    let mut evicted = Vec::with_capacity(alloc, claim.victims.len())?;
    let verdict = board.judge(&claim, None, &mut evicted);
    show_judged(answers, verdict, evicted.as_slice())?;
    if verdict.is_placed() && are_same(evicted.as_slice(), claim.victims.as_slice()) {
        return show_beside(alloc, board, indexes, claim, answers);
    }
    Ok(())
}

/// Whether two lists have the same keys in the same order.
fn are_same(some: &[TaskKey], others: &[TaskKey]) -> bool
    ensures { IsTrue result ↔ (some.now ≡ others.now) }
{
    if some.len() != others.len() {
        return false;
    }
    for (i, key) in some.iter().enumerate() {
        if !is_same(key, &others[i]) {
            return false;
        }
    }
    true
}

fn is_same(a: &TaskKey, b: &TaskKey) -> bool
    ensures { IsTrue result ↔ (a.now ≡ b.now) }
{
    a.job == b.job && a.index == b.index
}

/// Places a claim beside a board, and takes it back. Appends what is told before, meanwhile and after that.
fn show_beside(
    alloc: Global,
    board: &Board,
    indexes: &mut Indexes,
    claim: Claim,
    answers: &mut String,
) -> Result<(), Fault>
    requires goes_in { GoesInWhole (cell_of board.now) claim }
    requires tell { TellAll (cell_of board.now) indexes.old }
{
    let (key, machine, need) = (claim.key, claim.machine, claim.spec.need);
    let mut overlay = Overlay::over(alloc, board);
    show_around(&overlay, indexes, key, machine, need, answers)?;
    overlay.claim(alloc, indexes, claim)?;
    show_around(&overlay, indexes, key, machine, need, answers)?;
    overlay.end(indexes);
    show_around(
        &Overlay::over(alloc, board),
        indexes,
        key,
        machine,
        need,
        answers,
    )
}

/// Appends whether a task runs after the claims beside a board, what a machine has free then, and the first
/// position with room for an amount.
fn show_around(
    overlay: &Overlay,
    indexes: &Indexes,
    key: TaskKey,
    machine: u64,
    amount: Need,
    answers: &mut String,
) -> Result<(), Fault> {
    let state = if overlay.runs(key) { "runs" } else { "waits" };
    write!(answers, ", {state} ")?;
    let free = indexes.free();
    match overlay.board().machines().position(machine) {
        Some(position) if position < free.len() => show_free(answers, free.at(position))?,
        _ => answers.push('-')?,
    }
    answers.push(' ')?;
    show_place(answers, free.first(0, amount, |_| true))
}
