//! What the plans of a turn may cost, before they are made.
//!
//! The unit is a look at a machine, or a claim that is made: each is some tenths of a microsecond. A wish
//! counts one. Where none of the first `LOOKS` machines with room, from where its attempt begins, suits a wish,
//! the search goes on for long, and the wish counts as `LONG` looks; one in a hundred machines suits the wish
//! then, or none.
//!
//! Threads cost the time to begin and to join them, and to tell the indexes of each further piece what the
//! entries changed that they haven't seen.

use crate::attempt::start_on;
use crate::worker::Worker;
use omega_attrs::eligible;
use omega_board::Board;
use omega_cell::Cell;
use omega_fit::FitIndex;
use omega_model::{Constraints, Need};
use omega_plan::Indexes;

/// At how many machines is looked to tell whether a search may be a long one.
const LOOKS: usize = 12;

/// How many looks a long search is counted as.
const LONG: u64 = 300;

/// Several times what threads cost, in looks: about a millisecond.
const THREADS: u64 = 4_000;

/// What an entry costs that the indexes of the further pieces haven't seen, in looks.
const UNSEEN: u64 = 4;

/// Whether it is quicker to make the next plans of these workers on threads, in pieces that use these indexes:
/// whether all of them but the longest take at least as long as threads cost.
/// No clause pins the answer: it decides what the plans cost alone, and they are the same either way.
pub fn are_worth_threads(workers: &[Worker], indexes: &[Indexes], cell: &Cell) -> bool {
    let Some((first, further)) = indexes.split_first() else {
        return false;
    };
    let mut all: u64 = 0;
    let mut longest: u64 = 0;
    for worker in workers {
        let looks = looks_of(worker, first.free(), cell.board());
        all = all.saturating_add(looks);
        longest = longest.max(looks);
    }
    let unseen = unseen_by(further, cell.history().len() as u64);
    all.saturating_sub(longest) >= unseen.saturating_mul(UNSEEN).saturating_add(THREADS)
}

/// How many of so many entries those of some indexes that have seen most haven't seen. Some of the others may be
/// used by no piece.
fn unseen_by(indexes: &[Indexes], entries: u64) -> u64 {
    let mut seen: u64 = 0;
    for one in indexes {
        seen = seen.max(one.seen());
    }
    entries.saturating_sub(seen)
}

/// About how many looks a worker's next plan takes; 0 where it makes none in this step.
fn looks_of(worker: &Worker, free: &FitIndex, board: &Board) -> u64 {
    if worker.plan.is_some() {
        return 0;
    }
    let Some((need, constraints)) = worker.desk.first_asked() else {
        return 0;
    };
    let wishes = worker.desk.wish_count() as u64;
    let start = start_on(&worker.desk, board);
    if is_long(need, constraints, start, free, board) {
        return wishes.saturating_add(LONG);
    }
    wishes
}

/// Whether none of the first machines with room for a wish that needs so much, from a position to the end of the
/// list, meets its constraints.
/// Where there are few of them the search is a short one.
fn is_long(
    need: Need,
    constraints: &Constraints,
    start: usize,
    free: &FitIndex,
    board: &Board,
) -> bool {
    if constraints.is_empty() {
        return false;
    }
    let mut from = start;
    for _ in 0..LOOKS {
        let Some(position) = free.next(from, free.len(), need) else {
            return false;
        };
        if suits(constraints, position, board) {
            return false;
        }
        from = position + 1;
    }
    true
}

/// Whether the machine at a position meets some constraints.
fn suits(constraints: &Constraints, position: usize, board: &Board) -> bool {
    match board.machines().at(position) {
        Some(machine) => eligible(constraints, &machine.attrs),
        None => false,
    }
}
