//! Laws of the free clock, on which rounds open when their rows are due and no scheduler waits for
//! another, over the definitions alone.
//!
//! Promised: the settings and the trace fix the history and the times, and every trace has one. It is legal,
//! begins each round of the trace, with the entries of its rows in one stretch and in order, and the times
//! never fall. Each commit had seen its scheduler's last one; it is what was still wanted of a plan for wishes
//! of the trace on what its scheduler had seen, each claim on a machine that met the constraints of its wish
//! there; and it comes a decision on these wishes after its sync. Where tasks end when they have run for as
//! long as they did in the trace, each end comes when the task has run so long on that machine without a break,
//! and each of a task's pieces ends once.
//!
//! The definitions give the next step after the steps before; a run is their repetition until it is
//! over. How tasks end is a reading of the trace that they are handed: by the trace's rows, or when
//! a task has run for as long as it did in the trace. No function here does anything: its contract
//! is the law, and who needs a law cites the lemma behind it.
#![tactic(auto)]

mod histories;
mod steps;

pub use histories::{free_histories, free_histories_by_lives, free_histories_by_rows};
pub use steps::{free_runs_end, schedulers_of_free_runs, steps_of_free_runs};
