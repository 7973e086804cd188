//! Many tasks on the machines of a board.
use crate::board::{show_at, show_load};
use omega_board::Board;
use omega_calls::{Fault, GREATEST, add, commit_claim, end};
use omega_model::{Claim, Keys, Need, Spec, TaskKey, Verdict};
use std::alloc::Global;

/// Brings the machines of a new board up, places tasks on them and ends these. Appends how many, and the load.
pub(crate) fn many(
    alloc: Global,
    machines: u64,
    tasks: u32,
    amount: Need,
    answers: &mut String,
) -> Result<(), Fault> {
    let mut board = Board::new(alloc);
    fill(&mut board, alloc, machines, tasks, amount, answers)
}

/// The same on this board.
fn fill(
    board: &mut Board,
    alloc: Global,
    machines: u64,
    tasks: u32,
    amount: Need,
    answers: &mut String,
) -> Result<(), Fault> {
    bring_up(board, alloc, machines)?;
    let placed = place_by_turns(board, alloc, machines, tasks, amount)?;
    show_and_end(
        board,
        alloc,
        placed.as_slice(),
        machines.saturating_sub(1),
        answers,
    )
}

/// Appends how many machines there are and how many of these tasks run, and the load; ends them, and appends
/// what is left.
fn show_and_end(
    board: &mut Board,
    alloc: Global,
    placed: &[TaskKey],
    last: u64,
    answers: &mut String,
) -> Result<(), Fault> {
    write!(answers, "{} {} ", board.machines().len(), placed.len())?;
    show_load(board.machines(), answers)?;
    end_all(board, alloc, placed)?;
    show_left(board, last, answers)
}

/// Brings machines up, each with the greatest amount.
fn bring_up(board: &mut Board, alloc: Global, machines: u64) -> Result<(), Fault> {
    for machine in 0..machines {
        add(board, alloc, machine, GREATEST)?;
    }
    Ok(())
}

/// Places so many tasks on each machine, on all by turns. Answers those that are placed.
fn place_by_turns(
    board: &mut Board,
    alloc: Global,
    machines: u64,
    tasks: u32,
    amount: Need,
) -> Result<Keys, Fault> {
    let mut placed = Keys::new(alloc);
    for index in 0..tasks {
        place_on_each(board, alloc, machines, index, amount, &mut placed)?;
    }
    Ok(placed)
}

/// Places a task of this index on each machine, and puts those that are placed behind the others.
fn place_on_each(
    board: &mut Board,
    alloc: Global,
    machines: u64,
    index: u32,
    amount: Need,
    placed: &mut Keys,
) -> Result<(), Fault> {
    for machine in 0..machines {
        let key = TaskKey {
            job: machine,
            index,
        };
        if place_task(board, alloc, key, machine, amount)? {
            placed.push(key)?;
        }
    }
    Ok(())
}

/// Places a task if there is room, and answers whether there is.
fn place_task(
    board: &mut Board,
    alloc: Global,
    key: TaskKey,
    machine: u64,
    amount: Need,
) -> Result<bool, Fault> {
    let claim = Claim {
        key,
        machine,
        spec: Spec {
            need: amount,
            prec: 0,
            differ: false,
        },
        victims: Keys::new(alloc),
    };
    Ok(commit_claim(board, alloc, claim)?.verdict == Verdict::Placed)
}

/// Ends tasks that run.
fn end_all(board: &mut Board, alloc: Global, keys: &[TaskKey]) -> Result<(), Fault> {
    for key in keys {
        end(board, alloc, *key)?;
    }
    Ok(())
}

/// Appends the load behind a blank, and what the last machine has.
fn show_left(board: &Board, last: u64, answers: &mut String) -> Result<(), Fault> {
    answers.push(' ')?;
    show_load(board.machines(), answers)?;
    answers.push(' ')?;
    show_at(board, last, answers)
}
