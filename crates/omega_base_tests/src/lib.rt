//! Tests of the lock, of reads and writes, of tables that are read and made, and of desks and times.
//!
//! They stand apart from their crates, since a crate with tests is proved once more with them.
#![tactic(auto)]

#[cfg(test)]
mod desk;
#[cfg(test)]
mod edges;
#[cfg(test)]
mod generated;
#[cfg(test)]
mod lock;
#[cfg(test)]
mod pieces;
#[cfg(test)]
mod tables;
#[cfg(test)]
mod times;
