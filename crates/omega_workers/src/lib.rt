//! The workers of schedulers: what each has left to do, how it plans, and what a step of it does to the cell.
//!
//! Promised: a step of a scheduler's worker rests, sees the history up to its end, or commits the attempt on
//! its first request, planned on what it had seen, and moves on by what came of it. Workers that sync at the
//! same time plan what they would one after the other.
//!
//! A worker has the desk of its scheduler and, once the scheduler has synced, its plan. A step of it syncs, which
//! plans the first request that is left on the cell's board, or commits that plan to the cell. Who lets it do so
//! lends it indexes to plan by. The next plans of several workers can be made at the same time, in pieces, each with
//! indexes of its own.
//!
//! Nothing is said here of rounds or of who comes next: a run says that.
#![tactic(auto)]

mod attempt;
mod forked;
mod plans;
mod steps;
mod worker;
mod worth;

pub use forked::sync_pieces;
pub use plans::{Plan, plan_first};
pub use steps::Stepped;
pub use worker::{Worker, first_at_work};
pub use worth::are_worth_threads;
