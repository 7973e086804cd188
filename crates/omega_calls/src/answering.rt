//! Lines in, answers out: what the programs of cases have in common.
use crate::fault::Fault;
use crate::line::is_heading;
use std::alloc::Global;
use std::io;
use std::io::{BufRead, BufReader};

/// Prints the answer to each line of the input, or why it has none, until the input ends or can't be
/// read, or the output can't be written. A heading is printed as it is.
pub fn answer_lines<R, F>(rt: &R, alloc: Global, answer: F) -> io::Result<()>
where
    R: Input + Print,
    F: Fn(&str) -> Result<String, Fault>,
    requires { F.IsAlwaysCallable answer }
{
    for line in BufReader::new(alloc, rt.reader())?.lines(alloc) {
        answer_line(rt, line?.as_str(), &answer)?;
    }
    Ok(())
}

/// Prints the answer to a line, or why it has none.
fn answer_line<R, F>(rt: &R, line: &str, answer: &F) -> io::Result<()>
where
    R: Print,
    F: Fn(&str) -> Result<String, Fault>,
    requires { F.IsAlwaysCallable answer.now }
{
    if is_heading(line) {
        return println!(rt; "{line}");
    }
    match answer(line) {
        Ok(answer) => println!(rt; "{answer}"),
        Err(fault) => println!(rt; "{fault}"),
    }
}
