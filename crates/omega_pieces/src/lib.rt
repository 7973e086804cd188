//! Tasks that run for as long as they did in the trace: which rows count, and when tasks end.
//!
//! Promised: `TaskPieces` tells of each row whether it counts, hands out at each end of a task the rows that
//! count from then on, so that what is wanted then is what the rows that count ask for, and knows the life of a
//! task's piece. `EndsDue` answers the end that is due first, by the definitions, for each trace, rows, history
//! and times of which they were told.
//!
//! The rows of a task fall into pieces, and each piece but the last has a life. `TaskPieces` knows
//! the lives, tells of each row whether it counts, and holds back the rows of later pieces until
//! their task has ended. `EndsDue` knows when the tasks that run are due to end.
#![tactic(auto)]

mod ends_due;
mod held;
mod lives;
mod progress;
mod task_pieces;

pub use ends_due::{DueEnd, EndsDue};
pub use task_pieces::TaskPieces;
