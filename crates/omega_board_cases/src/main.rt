//! Cases of running tasks, boards, cells and copies of them: reads lines of calls, and prints the answer of each.
//!
//! A line is words: a subject, a call of it, and what the call is given. A line that begins with `#`
//! and one without a byte are printed as they are, so that cases can have headings.
#![tactic(auto)]

mod board;
mod cell;
mod crowd;
mod planning;
mod running;
mod script;
mod showing;

use omega_calls::{Fault, answer_lines, text, words_of};
use omega_model::Bytes;
use std::alloc::Global;
use std::io;

fn main(rt: HostRuntime) -> io::Result<()> {
    let alloc = rt.alloc();
    answer_lines(&rt, alloc, |line| answer(alloc, line))
}

/// The answer of a line's call.
fn answer(alloc: Global, line: &str) -> Result<String, Fault> {
    let words = words_of(alloc, line)?;
    let mut answers = String::new(alloc);
    answer_words(alloc, words.as_slice(), &mut answers)?;
    Ok(answers)
}

/// Appends the answer of a call of these words: a subject, a call of it, and what the call is given.
fn answer_words(alloc: Global, words: &[Bytes], answers: &mut String) -> Result<(), Fault> {
    let [subject, call, rest @ ..] = words else {
        return Err(Fault::UnknownCall);
    };
    let call = text(call)?;
    match text(subject)? {
        "board" => board::answer(alloc, call, rest, answers),
        "cell" => cell::answer(alloc, call, rest, answers),
        "running" => running::answer(alloc, call, rest, answers),
        _ => Err(Fault::UnknownCall),
    }
}
