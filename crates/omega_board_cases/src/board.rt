//! Claims that are judged and entries that are applied: the calls of `omega_board`.
ghost use Rattle.std.specs.Prelude.{◌≡◌, ◌<◌, ◌≤◌, ◌∷◌, [], length, IfOk};
ghost use Rattle.omega_board.specs.Undo.{IsUndoOf};

use crate::crowd::many;
use crate::script::{Steps, take_all};
use crate::showing::{show_attribute, show_free, show_judged, show_part, show_tasks};
use omega_board::{Board, Undo};
use omega_calls::{
    Fault, apply, claim, commit_claim, need, number, place, show_need, show_place, small, text,
};
use omega_machines::MachineTable;
use omega_model::{Bytes, Claim, Claims, Copied, Verdict};
use std::alloc::Global;

/// `script STEP : STEP ..`: what each step answers on one board, which is empty before the first;
/// the answers are parted by `:` too.
///
/// Entries answer the tasks that they stop, `-` for none: `add MACHINE AMOUNT`, `update MACHINE
/// AMOUNT`, `remove MACHINE`, `set MACHINE NAME VALUE`, `delete MACHINE NAME`, `end TASK`, `round
/// NUMBER`. A CLAIM is five words: `TASK MACHINE AMOUNT PRECEDENCE VICTIMS`, where a precedence has
/// `/differ` behind it if the task shares its machine with none of its job. `judge CLAIM` answers the
/// verdict and the tasks that are evicted, `judge CLAIM NUMBER` does so where the machine has this
/// sequence number in the copy. `place CLAIM` answers the same, and applies a commit of the claim where
/// it is placed. `try CLAIM` and `trial CLAIM` place it and take it back, and answer besides what `at`
/// does meanwhile; `try` makes room for the claim at once, `trial` for any one claim and then for its victims.
/// `copy` has a copy of the board take its place.
///
/// `at MACHINE` answers how many entries touched the machine, how many tasks run on all machines and
/// what is free on this one; `part POSITION` the machine at a position of the list: its number, whether
/// it is up, its capacity, how many attributes it has, how many entries touched it, and its tasks;
/// `attributes POSITION` its number and its attributes, each as `NAME=VALUE`; `position MACHINE` where
/// it stands in the list; `machines` the length of the list; `load` what is used on all machines that
/// are up, and their capacity.
///
/// `many MACHINES TASKS AMOUNT`: how many machines come up, each with the greatest amount, and how many
/// tasks of an amount are placed on them, at most so many on each and on all by turns, with what `load`
/// answers then; and when they have all ended, the same, and what `at` answers of the last machine.
pub(crate) fn answer(
    alloc: Global,
    call: &str,
    words: &[Bytes],
    answers: &mut String,
) -> Result<(), Fault> {
    match (call, words) {
        ("script", _) => take_all(Board::new(alloc), alloc, words, answers),
        ("many", [machines, tasks, amount]) => {
            let (machines, tasks) = (number(machines)?, small(tasks)?);
            many(alloc, machines, tasks, need(amount)?, answers)
        }
        _ => Err(Fault::UnknownCall),
    }
}

impl Steps for Board {
    fn take(&mut self, alloc: Global, step: &[Bytes], answers: &mut String) -> Result<(), Fault> {
        let [call, words @ ..] = step else {
            return Err(Fault::UnknownCall);
        };
        let call = text(call)?;
        match call {
            "place" => commit(self, alloc, words, answers),
            "try" => attempt(self, alloc, words, answers),
            "trial" => trial(self, alloc, words, answers),
            "copy" => copy(self, alloc, words, answers),
            _ if is_question(call) => ask(self, alloc, call, words, answers),
            _ => show_applied(self, alloc, call, words, answers),
        }
    }
}

/// Applies an entry, and appends the tasks that it stops.
fn show_applied(
    board: &mut Board,
    alloc: Global,
    call: &str,
    words: &[Bytes],
    answers: &mut String,
) -> Result<(), Fault> {
    let stopped = apply(board, alloc, call, words)?;
    show_tasks(answers, stopped.as_slice())
}

/// A copy takes the place of the board.
fn copy(
    board: &mut Board,
    alloc: Global,
    words: &[Bytes],
    answers: &mut String,
) -> Result<(), Fault> {
    if !words.is_empty() {
        return Err(Fault::UnknownCall);
    }
    *board = board.copy(alloc)?;
    write!(answers, "copied")?;
    Ok(())
}

/// Whether a step changes nothing.
pub(crate) fn is_question(call: &str) -> bool {
    matches!(
        call,
        "judge" | "at" | "part" | "attributes" | "position" | "machines" | "load"
    )
}

/// Appends the answer of a step that changes nothing.
pub(crate) fn ask(
    board: &Board,
    alloc: Global,
    call: &str,
    words: &[Bytes],
    answers: &mut String,
) -> Result<(), Fault> {
    match (call, words) {
        ("judge", [claim @ .., seq]) if claim.len() == 5 => {
            judge(board, alloc, claim, Some(number(seq)?), answers)
        }
        ("judge", _) => judge(board, alloc, words, None, answers),
        ("at", [machine]) => show_at(board, number(machine)?, answers),
        ("part", [position]) => show_position(board, alloc, place(position)?, answers),
        _ => ask_machines(board.machines(), call, words, answers),
    }
}

/// Appends what the table of machines answers.
fn ask_machines(
    machines: &MachineTable,
    call: &str,
    words: &[Bytes],
    answers: &mut String,
) -> Result<(), Fault> {
    match (call, words) {
        ("attributes", [position]) => show_attributes(machines, place(position)?, answers),
        ("position", [machine]) => show_place(answers, machines.position(number(machine)?)),
        ("machines", []) => {
            write!(answers, "{}", machines.len())?;
            Ok(())
        }
        ("load", []) => show_load(machines, answers),
        _ => Err(Fault::UnknownCall),
    }
}

/// Appends the verdict on a claim and what is evicted for it.
fn judge(
    board: &Board,
    alloc: Global,
    words: &[Bytes],
    copy_seq: Option<u64>,
    answers: &mut String,
) -> Result<(), Fault> {
    let claim = claim(alloc, words)?;
    let mut evicted = Vec::with_capacity(alloc, claim.victims.len())?;
    let verdict = board.judge(&claim, copy_seq, &mut evicted);
    show_judged(answers, verdict, evicted.as_slice())
}

/// Judges a claim, and applies a commit of it where it is placed.
fn commit(
    board: &mut Board,
    alloc: Global,
    words: &[Bytes],
    answers: &mut String,
) -> Result<(), Fault> {
    let claim = claim(alloc, words)?;
    let judgement = commit_claim(board, alloc, claim)?;
    show_judged(answers, judgement.verdict, judgement.evicted.as_slice())
}

/// Places a claim and takes it back, with room that is made for the list of it.
fn attempt(
    board: &mut Board,
    alloc: Global,
    words: &[Bytes],
    answers: &mut String,
) -> Result<(), Fault> {
    let claim = claim(alloc, words)?;
    let mut undo = room_for(board, alloc, &claim)?;
    place_and_take_back(board, alloc, &claim, &mut undo, answers)
}

/// Makes room for the list of one claim.
fn room_for(board: &mut Board, alloc: Global, claim: &Claim) -> Result<Undo, Fault>
    ensures undo { IfOk result (λ undo. IsUndoOf board.new undo) }
    ensures claims { IfOk result (λ undo. 0 < undo.claims) }
    ensures victims { IfOk result (λ undo. length claim.now.victims ≤ undo.victims) }
{
    let claims = alone(alloc, claim)?;
    Ok(board.reserve(alloc, &claims)?)
}

/// The list of one claim.
fn alone(alloc: Global, claim: &Claim) -> Result<Claims, Fault>
    ensures { IfOk result (λ claims. claims ≡ claim.now ∷ []) }
{
    let mut claims = Claims::new(alloc);
    claims.push(claim.copy(alloc)?)?;
    Ok(claims)
}

/// The same, with room that is made for one claim, and then for its victims.
fn trial(
    board: &mut Board,
    alloc: Global,
    words: &[Bytes],
    answers: &mut String,
) -> Result<(), Fault> {
    let claim = claim(alloc, words)?;
    let mut undo = board.reserve_room(alloc, 1, 0)?;
    undo.reserve_victims(claim.victims.len())?;
    place_and_take_back(board, alloc, &claim, &mut undo, answers)
}

/// Places a claim where it is placed, and takes it back.
fn place_and_take_back(
    board: &mut Board,
    alloc: Global,
    claim: &Claim,
    undo: &mut Undo,
    answers: &mut String,
) -> Result<(), Fault>
    requires undo { IsUndoOf board.old undo.old }
    requires claims { 0 < undo.old.claims }
    requires victims { length claim.now.victims ≤ undo.old.victims }
{
    let mut evicted = Vec::with_capacity(alloc, claim.victims.len())?;
    let verdict = board.judge(claim, None, &mut evicted);
    show_judged(answers, verdict, evicted.as_slice())?;
    if verdict != Verdict::Placed {
        return Ok(());
    }
    board.apply_placed(claim, evicted.as_slice(), undo);
    answers.push(' ')?;
    show_at(board, claim.machine, answers)?;
    board.undo(undo);
    Ok(())
}

/// Appends how many entries touched a machine, how many tasks run and what is free on the machine.
pub(crate) fn show_at(board: &Board, machine: u64, answers: &mut String) -> Result<(), Fault> {
    let machines = board.machines();
    write!(answers, "{} ", machines.seq(machine))?;
    write!(answers, "{} ", board.running().count())?;
    show_free(answers, machines.free(machine))
}

/// Appends the machine at a position and its tasks, or `-` where there is none.
fn show_position(
    board: &Board,
    alloc: Global,
    position: usize,
    answers: &mut String,
) -> Result<(), Fault> {
    if position >= board.machines().len() {
        answers.push('-')?;
        return Ok(());
    }
    let found = board.part(alloc, position)?;
    show_part(answers, &found)
}

/// Appends the number of the machine at a position and its attributes, or `-` where there is none.
fn show_attributes(
    machines: &MachineTable,
    position: usize,
    answers: &mut String,
) -> Result<(), Fault> {
    let Some(machine) = machines.at(position) else {
        answers.push('-')?;
        return Ok(());
    };
    write!(answers, "{}", machine.id)?;
    for attr in machine.attrs.as_slice() {
        show_attribute(answers, attr)?;
    }
    Ok(())
}

/// Appends what is used on all machines that are up, and their capacity.
pub(crate) fn show_load(machines: &MachineTable, answers: &mut String) -> Result<(), Fault> {
    show_need(answers, machines.used())?;
    answers.push(' ')?;
    show_need(answers, machines.capacity())
}
