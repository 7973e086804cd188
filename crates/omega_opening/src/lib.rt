//! How the rows of a round open: what they do to the cell, and what they ask for.
//!
//! Promised: a round that opens appends exactly its entry and those of its rows, for each trace whose rows
//! these are. What is asked follows them, and all jobs that aren't open are quiet, on the cell after the rows
//! as on the one after commits whose evicted tasks' jobs were opened again.
//!
//! A round's entry and those of its rows are appended to the cell, while what the trace asks for follows them, with
//! the jobs of which something may have to be placed. Such a job is open; the others are quiet, and nobody looks at
//! them. Since commits evict tasks, the jobs of these are opened again before the next rows. No job is closed here: a
//! scheduler's quiet ones are closed just before it is asked to place what its open ones want.
//!
//! Nothing is said here of schedulers, nor of when a round opens: a run says that.
#![tactic(auto)]

mod demand;
mod opening;
mod reopening;

pub use demand::Demand;
pub use opening::{apply_row, open_round};
pub use reopening::reopen_since;
