//! Cases of keepers, in memory and over databases: reads lines of calls, and prints the answer of each.
//!
//! A line is words: a subject, a call of it, and what the call is given. A line that begins with `#`
//! and one without a byte are printed as they are, so that cases can have headings.
#![tactic(auto)]

mod databases;
mod files;
mod steps;

use crate::steps::take_all;
use omega_calls::{Fault, answer_lines, number, text, words_of};
use omega_keep::{MemoryKeeper, SteadyKeeper};
use omega_model::Bytes;
use std::alloc::Global;
use std::io;

fn main(rt: HostRuntime) -> io::Result<()> {
    let alloc = rt.alloc();
    answer_lines(&rt, alloc, |line| answer(&rt, line))
}

/// The answer of a line's call.
fn answer(rt: &HostRuntime, line: &str) -> Result<String, Fault> {
    let alloc = rt.alloc();
    let words = words_of(alloc, line)?;
    let mut answers = String::new(alloc);
    answer_words(rt, words.as_slice(), &mut answers)?;
    Ok(answers)
}

/// Appends the answer of a call of these words: a subject, a call of it, and what the call is given.
fn answer_words(rt: &HostRuntime, words: &[Bytes], answers: &mut String) -> Result<(), Fault> {
    let [subject, call, rest @ ..] = words else {
        return Err(Fault::UnknownCall);
    };
    match text(subject)? {
        "keeper" => answer_of_keeper(rt, text(call)?, rest, answers),
        _ => Err(Fault::UnknownCall),
    }
}

/// Each takes steps on a new keeper, which are parted by ` : `, as are the answers. `memory CALL STEPS`: one in
/// memory, of which this load or append fails, counted from 0. `steady STEPS`: one that never fails.
/// `database STATEMENTS STEPS`: one over a database in memory that these statements have made.
/// `files STEPS`: two over files.
fn answer_of_keeper(
    rt: &HostRuntime,
    call: &str,
    words: &[Bytes],
    answers: &mut String,
) -> Result<(), Fault> {
    let alloc = rt.alloc();
    match (call, words) {
        ("memory", [call, steps @ ..]) => in_memory(alloc, number(call)?, steps, answers),
        ("steady", steps) => steady(alloc, steps, answers),
        ("database", [statements, steps @ ..]) => {
            databases::answer(alloc, text(statements)?, steps, answers)
        }
        ("files", steps) => files::answer(rt, steps, answers),
        _ => Err(Fault::UnknownCall),
    }
}

/// Takes steps on a new keeper in memory, of which this load or append fails.
fn in_memory(
    alloc: Global,
    failing: u64,
    steps: &[Bytes],
    answers: &mut String,
) -> Result<(), Fault> {
    let mut keeper = MemoryKeeper::new(alloc).fail_at(failing);
    take_all(alloc, &mut keeper, steps, answers)
}

/// Takes steps on a new keeper that never fails.
fn steady(alloc: Global, steps: &[Bytes], answers: &mut String) -> Result<(), Fault> {
    let mut keeper = SteadyKeeper::new(alloc);
    take_all(alloc, &mut keeper, steps, answers)
}
