//! The words of the whole program: cells, claims, histories, rows, settings and results.
//!
//! Promised: the calls of a list do what the plain list does; sums, differences and tests of needs are exact; a
//! copied value equals the first; and how many schedulers there are and how each works. Two laws over the
//! definitions alone: in every legal history the state after each number of entries is sound, and entries that
//! are no commits of a scheduler change nothing of the work that is left to it.
//!
//! The definitions that every contract cites stand in `specs/`. They speak of plain lists and
//! whole numbers, never of a counter, an index or a lock.
//!
//! What holds of the calls of all crates unless their own text says otherwise: one whose answer can't
//! be `NoMemory` takes no memory, and one that isn't said to wait waits for nobody.
#![tactic(auto)]

mod cells;
mod claims;
mod delta;
mod entries;
mod laws;
mod limits;
mod list;
mod results;
mod rows;
mod settings;
mod text;
mod wishes;

pub use cells::{Attr, Attrs, Keys, Machine, Need, Spec, Task, TaskKey, Tasks};
pub use claims::{
    Claim, Claims, Judgement, Judgements, Mode, Outcome, Outcomes, Policy, Reply, Rule, Txn,
    Verdict,
};
pub use delta::{Delta, Part, Parts};
pub use entries::{Entries, Entry};
pub use laws::{states_of_legal_histories, work_that_is_left};
pub use limits::{GREATEST_QUANTITY, LONGEST_TABLE, MOST_ACTIVITIES, MOST_MACHINES, MOST_ROWS};
pub use list::{Bytes, Copied, NoMemory, Seq};
pub use results::{Cause, Kind, Status};
pub use rows::{
    ActivityRow, AttrRow, ConstraintRow, DiskRow, MachineRow, Round, Rounds, Row, Rows, Table,
    TaskRow, TraceTables,
};
pub use settings::{Clock, Command, Ends, Extra, Format, Preempt, Settings};
pub use text::Text;
pub use wishes::{Constraint, Constraints, Op, Request, Requests, Wish, Wishes};
