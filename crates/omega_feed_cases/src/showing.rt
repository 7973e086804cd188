//! How answers are put into words: rounds, requests, entries.
use omega_calls::{Fault, show_need, show_spec, show_task, text};
use omega_mapreduce::CountedRequest;
use omega_model::{Bytes, Entry, Need, Round, Row, Wish};
use std::alloc::Global;

/// Appends rounds, parted by blanks: `round` and the number, and for each row `machine` or `attr` and
/// the machine, or `task` and the name; `-` where there is none.
pub(crate) fn show_rounds(answers: &mut String, rounds: &[Round]) -> Result<(), Fault> {
    if rounds.is_empty() {
        answers.push('-')?;
    }
    for (place, round) in rounds.iter().enumerate() {
        if place > 0 {
            answers.push(' ')?;
        }
        write!(answers, "round {}", round.number)?;
        show_rows(answers, round.rows.as_slice())?;
    }
    Ok(())
}

/// Appends rows, each behind a blank.
fn show_rows(answers: &mut String, rows: &[Row]) -> Result<(), Fault> {
    for row in rows {
        show_row(answers, row)?;
    }
    Ok(())
}

/// Appends a row behind a blank.
fn show_row(answers: &mut String, row: &Row) -> Result<(), Fault> {
    match row {
        Row::Machine(row) => write!(answers, " machine {}", row.machine)?,
        Row::Attr(row) => write!(answers, " attr {}", row.machine)?,
        Row::Task(row) => {
            answers.push_str(" task ")?;
            show_task(answers, row.key)?;
        }
    }
    Ok(())
}

/// Appends requests, parted by blanks: `job` and the number, and its wishes; `-` where there is none.
pub(crate) fn show_requests(
    alloc: Global,
    answers: &mut String,
    requests: &[CountedRequest],
) -> Result<(), Fault> {
    if requests.is_empty() {
        answers.push('-')?;
    }
    for (place, request) in requests.iter().enumerate() {
        if place > 0 {
            answers.push(' ')?;
        }
        write!(answers, "job {}", request.job())?;
        show_listed(alloc, answers, request)?;
    }
    Ok(())
}

/// Appends the wishes of a request.
fn show_listed(alloc: Global, answers: &mut String, request: &CountedRequest) -> Result<(), Fault> {
    let listed = request.to_listed(alloc)?;
    show_wishes(answers, listed.wishes.as_slice())
}

/// Appends wishes, each behind a blank.
fn show_wishes(answers: &mut String, wishes: &[Wish]) -> Result<(), Fault> {
    for wish in wishes {
        answers.push(' ')?;
        show_wish(answers, wish)?;
    }
    Ok(())
}

/// Appends a wish: the task, the amount, the precedence, and how many constraints it has.
fn show_wish(answers: &mut String, wish: &Wish) -> Result<(), Fault> {
    show_task(answers, wish.key)?;
    answers.push(' ')?;
    show_spec(answers, wish.spec)?;
    write!(answers, " {}", wish.constraints.len())?;
    Ok(())
}

/// Appends entries, parted by blanks; `-` where there is none.
pub(crate) fn show_entries(answers: &mut String, entries: &[Entry]) -> Result<(), Fault> {
    if entries.is_empty() {
        answers.push('-')?;
    }
    for (place, entry) in entries.iter().enumerate() {
        if place > 0 {
            answers.push(' ')?;
        }
        show_entry(answers, entry)?;
    }
    Ok(())
}

/// Appends an entry: its name, the machine or the task, and the capacity or the attribute.
fn show_entry(answers: &mut String, entry: &Entry) -> Result<(), Fault> {
    match entry {
        Entry::MachineAdd { machine, cap } => show_machine(answers, "add", *machine, *cap),
        Entry::MachineUpdate { machine, cap } => show_machine(answers, "update", *machine, *cap),
        Entry::AttrSet {
            machine,
            name,
            value,
        } => {
            show_attr(answers, "set", *machine, name)?;
            answers.push(' ')?;
            answers.push_str(text(value)?)?;
            Ok(())
        }
        Entry::AttrDelete { machine, name } => show_attr(answers, "delete", *machine, name),
        Entry::MachineRemove { machine } => Ok(write!(answers, "remove {machine}")?),
        Entry::End { key, machine } => {
            Ok(write!(answers, "end {}.{} {machine}", key.job, key.index)?)
        }
        Entry::Round { number } => Ok(write!(answers, "round {number}")?),
        Entry::Commit { scheduler, .. } => Ok(write!(answers, "commit {scheduler}")?),
    }
}

/// Appends the name of an entry, its machine and the capacity.
fn show_machine(answers: &mut String, name: &str, machine: u64, cap: Need) -> Result<(), Fault> {
    write!(answers, "{name} {machine} ")?;
    show_need(answers, cap)
}

/// Appends the name of an entry, its machine and the attribute.
fn show_attr(answers: &mut String, name: &str, machine: u64, attr: &Bytes) -> Result<(), Fault> {
    write!(answers, "{name} {machine} ")?;
    answers.push_str(text(attr)?)?;
    Ok(())
}
