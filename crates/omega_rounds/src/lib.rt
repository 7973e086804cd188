//! Rounds in which schedulers commit in an order.
//!
//! Promised: whatever steps schedulers do in whatever order over one cell, its history is lawful so far, and at
//! the end of the last round lawful, and what the world says is left then is what waits at the end of the trace
//! (`World`). A run in turns answers the one history that is lawful and in turns (`in_turns`). So does one that
//! goes on from kept lines: it refuses these only where first rounds in turns show that they depart from the
//! run, at the one place where they do (`kept_lines_depart_once`), and leaves its keeper with the lines of more
//! whole rounds, in the end of all (`resume_turns`). A run by a virtual clock answers the history that is
//! simulated, with its times (`in_time`), and a run with a thread for each scheduler a lawful one
//! (`on_threads`).
//!
//! A world is a cell that schedulers share, with a desk for each of them. Where they take steps of the
//! world, each plans on the cell's own board when it syncs; on a thread of its own it plans on a view of the
//! cell that all share. Whatever steps they do in whatever order, its history is lawful so far; `in_turns` runs it
//! to the end with the schedulers in turns, `resume_turns` does so and keeps the lines of the history,
//! `in_time` runs it by a virtual clock, `on_threads` with a thread for each.
#![tactic(auto)]

mod clock;
mod kept;
mod resume;
mod steps;
mod threads;
mod turns;
mod world;

pub use clock::in_time;
pub use kept::ResumeRefusal;
pub use omega_workers::Stepped;
pub use resume::{kept_lines_depart_once, resume_turns};
pub use steps::RoundStep;
pub use threads::on_threads;
pub use turns::in_turns;
pub use world::{Remains, World};
