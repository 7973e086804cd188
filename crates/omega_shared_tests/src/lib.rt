//! Tests of the cell that schedulers share, step by step and on threads.
//!
//! They stand apart from `omega_shared`, since a crate with tests is proved once more with them.
#![tactic(auto)]

#[cfg(test)]
mod planning;
#[cfg(test)]
mod shared;
