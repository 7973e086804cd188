//! What a virtual clock needs: when each scheduler commits next, the times of the commits that were made,
//! the first ones of jobs, and how long schedulers decided and jobs waited, as numbers and as lines of a
//! report.
//!
//! Promised: of the schedulers on an agenda the first is the one with the least time, and of several the one
//! with the least number. `time_totals` answers exactly how long each scheduler decided and its jobs waited, by
//! the definitions, for each trace of which it was handed when its jobs come, and `time_lines` exactly the
//! lines of these numbers; `first_commits` answers exactly the first commit of each job that has one, in order.
//! In a lawful history of a trace within the limits, with times of 64 bits and at most 10,000 activities for a
//! job, each decision takes less than 2^51 microseconds and begins before 2^101, and a scheduler commits for
//! fewer than 2^21 jobs (`sums_of_lawful_histories`). So all this can be added up in 128 bits.
#![tactic(auto)]

mod agenda;
mod arrivals;
mod details;
mod firsts;
mod laws;
mod lines;
mod sums;
mod timed;
mod totals;

pub use agenda::Agenda;
pub use arrivals::Arrivals;
pub use details::{FirstCommit, first_commits};
pub use laws::sums_of_lawful_histories;
pub use lines::time_lines;
pub use sums::last_time;
pub use timed::{Timed, Times};
pub use totals::{TimeTotals, time_totals};
