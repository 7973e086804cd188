//! The machines of a cell, with what is free on each and how often it was touched.
//!
//! Promised: a contract sees the table as the plain list of the machines' states, with what is free on each and
//! how often it was touched; and what is used and what there is on the machines that are up is exact.
//!
//! The states stand in a list in order of first mention, and contracts speak of that list alone. A
//! look-up by number looks at the two notes of the number, of 65,536, and where neither has its place
//! it goes through a balanced tree from numbers to places. So it is mostly
//! as quick as a hash table, and for no choice of numbers slower than the tree. What is in use on
//! all machines that are up, and their capacity, are kept as running sums.
#![tactic(auto)]

mod attrs;
mod indexes;
mod load;
mod names;
mod table;

use omega_model::{Machine, Need};
pub use table::MachineTable;

/// A machine, what is free on it (all its capacity while it is down), and its sequence number: how many
/// entries have touched it.
#[derive(Debug, Drop)]
pub struct MachineState {
    pub machine: Machine,
    pub free: Need,
    pub seq: u64,
}
