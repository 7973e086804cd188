//! `omega`: replays a trace through cluster schedulers that share one cell, and prints what came of
//! it.
//!
//! A thin program over `omega_top`: it makes the real tables, the real sink, a gate that lets all pass and
//! a keeper over a file, and calls the top call with its words.
#![tactic(auto)]

use omega_io::{FolderTables, PassGate, StdoutSink};
use omega_model::{NoMemory, Status};
use omega_sqlkeep::FileKeeper;
use omega_top::{Done, exit_status, fault_line, omega};
use std::io::ErrorKind;
use std::process::ExitCode;
use std::{env, mem};

fn main(rt: HostRuntime) -> ExitCode {
    let mut tables = FolderTables::new(&rt);
    let mut out = StdoutSink::new(&rt);
    let mut keeper = FileKeeper::new(&rt);
    let status = match arguments(&rt) {
        Ok(texts) => match words_of(&rt, texts.as_slice()) {
            Ok(words) => {
                let words = words.as_slice();
                let Done {
                    status,
                    history,
                    remains,
                    ..
                } = omega(
                    &rt,
                    rt.alloc(),
                    words,
                    &mut tables,
                    &mut out,
                    &PassGate,
                    &mut keeper,
                );
                // The program ends, and the system takes its memory back sooner than it could be let go.
                mem::forget(history);
                mem::forget(remains);
                status
            }
            Err(NoMemory) => Status::NoMemory,
        },
        Err(status) => status,
    };
    // Where this fails nothing that is kept is lost: a part of it stays in the log beside the file.
    let _ = keeper.close();
    let line = fault_line(&status);
    if !line.as_bytes().is_empty() {
        // Where even this can't be written, the exit status still tells.
        let _ = eprintln!(rt; "{}", line.as_str());
    }
    ExitCode::from(exit_status(&status))
}

/// The program's name and its words. Words that can't be had as text are answered as `Usage`.
fn arguments(rt: &HostRuntime) -> Result<Vec<String>, Status> {
    let arguments = match env::args(rt) {
        Ok(arguments) => arguments,
        Err(error) if error.kind() == ErrorKind::OutOfMemory => return Err(Status::NoMemory),
        Err(_) => return Err(Status::Usage),
    };
    let mut texts = Vec::new(rt.alloc());
    for argument in arguments {
        if texts.push(argument).is_err() {
            return Err(Status::NoMemory);
        }
    }
    Ok(texts)
}

/// The words after the first.
fn words_of<'a>(rt: &HostRuntime, texts: &'a [String]) -> Result<Vec<&'a str>, NoMemory> {
    let mut words = Vec::new(rt.alloc());
    for text in texts.iter().skip(1) {
        words.push(text.as_str())?;
    }
    Ok(words)
}
