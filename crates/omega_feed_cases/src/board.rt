//! The board that a trace's rows meet.
use omega_board::Board;
use omega_calls::{Fault, apply, claim, commit_claim, text};
use omega_model::{Bytes, Verdict};
use std::alloc::Global;

/// Does a step on the board, and appends its answer: an entry, as `apply` takes it, answers `-`, and may stop no
/// task; `place` and a claim of five words places it where it may be placed without evictions, and answers
/// `placed -`.
pub(crate) fn show_step(
    board: &mut Board,
    alloc: Global,
    step: &[Bytes],
    answers: &mut String,
) -> Result<(), Fault> {
    let [call, words @ ..] = step else {
        return Err(Fault::UnknownCall);
    };
    match text(call)? {
        "place" => {
            place(board, alloc, words)?;
            answers.push_str("placed -")?;
        }
        call => {
            enter(board, alloc, call, words)?;
            answers.push('-')?;
        }
    }
    Ok(())
}

/// Places a claim without evictions.
fn place(board: &mut Board, alloc: Global, words: &[Bytes]) -> Result<(), Fault> {
    let claim = claim(alloc, words)?;
    let judgement = commit_claim(board, alloc, claim)?;
    if judgement.verdict != Verdict::Placed || !judgement.evicted.is_empty() {
        return Err(Fault::MayNot);
    }
    Ok(())
}

/// Applies an entry that stops no task.
fn enter(board: &mut Board, alloc: Global, call: &str, words: &[Bytes]) -> Result<(), Fault> {
    let stopped = apply(board, alloc, call, words)?;
    if !stopped.is_empty() {
        return Err(Fault::MayNot);
    }
    Ok(())
}
