//! The top call: words and tables in, a report and a history out.
//!
//! Promised: the clauses of `omega`, which `docs/PROMISES.md` says one by one. Inside: the history of a run is
//! lawful, its commits in the order of its command, and except on `run` it is the only such one, or it is the
//! only one by the free clock; what is handed with it are its effects, what waits at its end, and of a
//! simulated run what is told of its times; the report is that of this run. The trace of a run is that of the
//! tables that it makes on `generate`, which are refused for nothing, and else of those that it is handed. An
//! audit answers the history of the lines that the keeper hands out, with its report, or why it stops.
#![tactic(auto)]

mod auditing;
mod done;
mod free_run;
mod replay;
mod report;
mod resuming;
mod status;
mod told;
mod top;
mod trace;

pub use done::{Done, Remains};
pub use status::{Line, exit_status, fault_line};
pub use top::{omega, omega_with};
