//! Tests of runs that are kept in a database: the machine stops at any call to its disk, and a second run goes on
//! from what is left. What keepers over a database in memory and over files do with lines is shown by
//! `omega_keeper_cases`, and what runs leave in a file by the folders of `tests/kept` at the top of the repository.
//!
//! They stand apart from `omega_sqlkeep`, since a crate with tests is proved once more with them.
#![tactic(auto)]

#[cfg(test)]
mod counted;
#[cfg(test)]
mod disks;
#[cfg(test)]
mod resumes;
