//! Cases of the calls that read tables: reads lines of calls, and prints the answer of each.
//!
//! A line is words: a subject, a call of it, and what the call is given. A line that begins with `#`
//! and one without a byte are printed as they are, so that cases can have headings.
#![tactic(auto)]

ghost use Rattle.std.specs.Thread.{IsSync};

mod tables;

use omega_calls::{Fault, answer_lines, text, words_of};
use omega_model::Bytes;
use std::alloc::Global;
use std::io;
use std::thread::Threads;

fn main(rt: HostRuntime) -> io::Result<()> {
    let alloc = rt.alloc();
    answer_lines(&rt, alloc, |line| answer(&rt, alloc, line))
}

/// The answer of a line's call.
fn answer<P: Threads + Sync>(rt: &P, alloc: Global, line: &str) -> Result<String, Fault>
    requires { IsSync P.row }
{
    let words = words_of(alloc, line)?;
    answer_words(rt, alloc, words.as_slice())
}

/// The answer of a call of these words: a subject, a call of it, and what the call is given.
fn answer_words<P: Threads + Sync>(rt: &P, alloc: Global, words: &[Bytes]) -> Result<String, Fault>
    requires { IsSync P.row }
{
    let [subject, call, rest @ ..] = words else {
        return Err(Fault::UnknownCall);
    };
    let call = text(call)?;
    match text(subject)? {
        "tables" => tables::answer(rt, alloc, call, rest),
        _ => Err(Fault::UnknownCall),
    }
}
