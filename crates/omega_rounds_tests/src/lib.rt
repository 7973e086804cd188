//! Tests of rounds: step by step, in turns, by the virtual clock and on threads.
//!
//! They stand apart from `omega_rounds`, since a crate with tests is proved once more with them.
#![tactic(auto)]

#[cfg(test)]
mod rounds;
