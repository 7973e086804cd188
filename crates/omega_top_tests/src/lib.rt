//! Tests of the top call: whole runs whose reads and writes are cut or fail, audits whose loading or writing
//! fails, runs that go on from kept lines, one by the free clock, and runs on threads in which schedulers are
//! held. All other runs are the folders of `tests/` at the top of the repository. And a test of the JSON of lines
//! that are given as text.
//!
//! They stand apart from `omega_top`, since a crate with tests is proved once more with them.
#![tactic(auto)]

#[cfg(test)]
mod audits;
#[cfg(test)]
mod faults;
#[cfg(test)]
mod free;
#[cfg(test)]
mod json;
#[cfg(test)]
mod on_threads;
#[cfg(test)]
mod resumes;
#[cfg(test)]
mod runs;
