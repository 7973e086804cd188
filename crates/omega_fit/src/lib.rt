//! The first machine that passes a test, round from a start.
//!
//! Promised: the first position, round from a start, that has room and passes a test; the first of a stretch
//! that has room; and what is free at a position.
//!
//! `first_fit` asks at one position after the other. `FitIndex` keeps an amount for each position:
//! what is free on a machine, or what could be made free on it. It answers the first position whose
//! amount holds a need and that passes a test, and passes over whole stretches without room. Both
//! answer the first position in the same order. The program searches by the index alone;
//! `first_fit` is a second answer to compare with, as `omega_cases` does.
#![tactic(auto)]

mod first;
mod index;
mod needs;
mod nodes;
mod searching;

pub use first::first_fit;
pub use index::FitIndex;
