//! Cases of the calls that read words and lines, and compute: reads lines of calls, and prints the answer of each.
//!
//! A line is words: a subject, a call of it, and what the call is given. A line that begins with `#`
//! and one without a byte are printed as they are, so that cases can have headings.
#![tactic(auto)]

mod attrs;
mod fit;
mod keep;
mod mapreduce;
mod units;
mod words;

use omega_calls::{Fault, answer_lines, text, words_of};
use omega_model::Bytes;
use std::alloc::Global;
use std::io;

fn main(rt: HostRuntime) -> io::Result<()> {
    let alloc = rt.alloc();
    answer_lines(&rt, alloc, |line| answer(alloc, line))
}

/// The answer of a line's call.
fn answer(alloc: Global, line: &str) -> Result<String, Fault> {
    let words = words_of(alloc, line)?;
    answer_words(alloc, words.as_slice())
}

/// The answer of a call of these words: a subject, a call of it, and what the call is given.
fn answer_words(alloc: Global, words: &[Bytes]) -> Result<String, Fault> {
    let [subject, call, rest @ ..] = words else {
        return Err(Fault::UnknownCall);
    };
    let call = text(call)?;
    match text(subject)? {
        "attrs" => attrs::answer(alloc, call, rest),
        "fit" => fit::answer(alloc, call, rest),
        "keep" => keep::answer(alloc, call, rest),
        "mapreduce" => mapreduce::answer(alloc, call, rest),
        "units" => units::answer(alloc, call, rest),
        "words" => words::answer(alloc, call, rest),
        _ => Err(Fault::UnknownCall),
    }
}
