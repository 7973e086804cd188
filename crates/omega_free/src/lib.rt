//! Runs by the free clock, on which rounds open when their rows are due and no scheduler waits for another.
//!
//! Promised: at a sync exactly the requests leave a desk of which nothing is wanted, a pass begins exactly
//! where the definitions say, and the attempt is theirs (`Worker::sync`). A commit is exactly what is still
//! wanted of an attempt that was kept, with the reply and the times of the definitions (`Worker::commit`).
//! Whatever world tells when things are due, and does what is due as the definitions do, has at the end the
//! only history, and the only times, of the run by the free clock (`in_free_time`); a world over one cell, with
//! a worker for each scheduler, does so however tasks end (`World`). The call that runs a trace answers this
//! history with its times, what its entries did, and what waits at its end (`run_freely`). A trace within the
//! limits leads to no sum of times that 128 bits can't hold (`sums_of_free_runs`).
//!
//! A scheduler syncs, decides for a while on a plan that it keeps, and commits what is still wanted of it then. The
//! loop, `in_free_time`, lets happen what is due first of a world, and `World` is that of a trace over one cell. Tasks end
//! by the trace's rows, or of themselves, as the settings say; then `OwnEnds` knows which rows count and which end is due.
//! `run_freely` runs a whole trace so: it is what `simulate --clock free` calls. `sums_of_free_runs` says that no sum
//! over the times of such a run has more than 128 bits.
#![tactic(auto)]

mod attempts;
mod clock;
mod crew;
mod ends_by;
mod laws;
mod next_round;
mod own_ends;
mod passes;
mod planning;
mod remains;
mod run;
mod worker;
mod world;

pub use clock::{FreeWorld, NextEvent, in_free_time};
pub use crew::{commit_by, first_due, sync_by, sync_idle};
pub use laws::sums_of_free_runs;
pub use next_round::NextRound;
pub use own_ends::OwnEnds;
pub use passes::{drop_unwanted, sync_desk};
pub use planning::Attempt;
pub use remains::Remains;
pub use run::{WholeRun, run_freely};
pub use worker::Worker;
pub use world::World;
