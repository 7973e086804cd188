//! The running tasks of a cell, found by key, by machine and by job.
//!
//! Promised: a contract sees the tasks as one list in order of key, and with room reserved a task goes in and
//! out without memory. That the trees behind it are balanced, no clause says.
//!
//! A caller sees them as a list in order of key, and a number: for how many more there is room.
//! They are kept twice, in order of key and in order of machine and key, each time in many small
//! balanced trees: the key says in which one, or the machine and the key together. The nodes of all trees are made by
//! `reserve` and come back with `remove`, so that a task is put in and taken out without memory. A tree also keeps how
//! many extra tasks stand at and below each of its nodes, so that a job's are counted without looking at each.
#![tactic(auto)]

mod forest;
mod nodes;
mod orders;
mod standing;
mod table;

pub use orders::{FIRST_EXTRA, is_among, job_and_index, key_lt};
pub use standing::{halves, stands_in, task_in};
pub use table::{Running, keys_of};
