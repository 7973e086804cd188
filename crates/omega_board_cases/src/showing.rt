//! How answers are put into words: tasks, verdicts, machines.
use omega_calls::{Fault, show_need, show_spec, show_task, text};
use omega_model::{Attr, Need, Part, Task, TaskKey, Verdict};

/// Appends an amount, or `-` where there is none.
pub(crate) fn show_free(answers: &mut String, free: Option<Need>) -> Result<(), Fault> {
    match free {
        Some(need) => show_need(answers, need),
        None => {
            answers.push('-')?;
            Ok(())
        }
    }
}

/// Appends the names of tasks, parted by commas, or `-` where there is none.
pub(crate) fn show_tasks(answers: &mut String, keys: &[TaskKey]) -> Result<(), Fault> {
    if keys.is_empty() {
        answers.push('-')?;
    }
    for (place, key) in keys.iter().enumerate() {
        if place > 0 {
            answers.push(',')?;
        }
        show_task(answers, *key)?;
    }
    Ok(())
}

/// Appends running tasks, parted by blanks, or `-` where there is none.
pub(crate) fn show_running(answers: &mut String, tasks: &[Task]) -> Result<(), Fault> {
    if tasks.is_empty() {
        answers.push('-')?;
    }
    for (place, task) in tasks.iter().enumerate() {
        if place > 0 {
            answers.push(' ')?;
        }
        show_running_task(answers, task)?;
    }
    Ok(())
}

/// Appends a running task, or `-` where there is none.
pub(crate) fn show_found(answers: &mut String, task: Option<&Task>) -> Result<(), Fault> {
    match task {
        Some(task) => show_running_task(answers, task),
        None => {
            answers.push('-')?;
            Ok(())
        }
    }
}

/// Appends a running task: its name, the machine, the amount and the precedence.
fn show_running_task(answers: &mut String, task: &Task) -> Result<(), Fault> {
    show_task(answers, task.key)?;
    write!(answers, " {} ", task.machine)?;
    show_spec(answers, task.spec)
}

/// Appends the words of a verdict and the names of the tasks that are evicted.
pub(crate) fn show_judged(
    answers: &mut String,
    verdict: Verdict,
    evicted: &[TaskKey],
) -> Result<(), Fault> {
    show_verdict(answers, verdict)?;
    answers.push(' ')?;
    show_tasks(answers, evicted)
}

/// Appends the words of a verdict: its name, and what it says.
fn show_verdict(answers: &mut String, verdict: Verdict) -> Result<(), Fault> {
    match verdict {
        Verdict::Placed => show_name(answers, "placed"),
        Verdict::NoMachine => show_name(answers, "no-machine"),
        Verdict::AlreadyRunning(machine) => show_of_number(answers, "running", machine),
        Verdict::Changed { now, copy } => show_changed(answers, now, copy),
        Verdict::VictimRank(key) => show_of_task(answers, "victim-rank ", key),
        Verdict::SameJob(key) => show_of_task(answers, "same-job ", key),
        Verdict::Full(free) => show_full(answers, free),
        Verdict::Withdrawn(place) => show_of_number(answers, "withdrawn", u64::from(place)),
    }
}

/// Appends a verdict's name.
fn show_name(answers: &mut String, name: &str) -> Result<(), Fault> {
    answers.push_str(name)?;
    Ok(())
}

/// Appends the words of a verdict that names a machine or a claim.
fn show_of_number(answers: &mut String, name: &str, number: u64) -> Result<(), Fault> {
    write!(answers, "{name} {number}")?;
    Ok(())
}

/// Appends the words of a verdict on a machine that has changed.
fn show_changed(answers: &mut String, now: u64, copy: u64) -> Result<(), Fault> {
    write!(answers, "changed {now},{copy}")?;
    Ok(())
}

/// Appends the words of a verdict on a machine without room.
fn show_full(answers: &mut String, free: Need) -> Result<(), Fault> {
    answers.push_str("full ")?;
    show_need(answers, free)
}

/// Appends the words of a verdict that names a task.
fn show_of_task(answers: &mut String, name: &str, key: TaskKey) -> Result<(), Fault> {
    answers.push_str(name)?;
    show_task(answers, key)
}

/// Appends a machine with its tasks: its number, `up` or `down`, its capacity, how many attributes it
/// has, how many entries touched it, and the names of its tasks.
pub(crate) fn show_part(answers: &mut String, part: &Part) -> Result<(), Fault> {
    let machine = &part.machine;
    let state = if machine.up { "up" } else { "down" };
    write!(answers, "{} {state} ", machine.id)?;
    show_need(answers, machine.cap)?;
    write!(answers, " {} {} ", machine.attrs.len(), part.seq)?;
    show_names(answers, part.tasks.as_slice())
}

/// Appends the names of some tasks, parted by commas, or `-` where there is none.
pub(crate) fn show_names(answers: &mut String, tasks: &[Task]) -> Result<(), Fault> {
    if tasks.is_empty() {
        answers.push('-')?;
    }
    for (place, task) in tasks.iter().enumerate() {
        if place > 0 {
            answers.push(',')?;
        }
        show_task(answers, task.key)?;
    }
    Ok(())
}

/// Appends an attribute as `NAME=VALUE`, behind a blank.
pub(crate) fn show_attribute(answers: &mut String, attr: &Attr) -> Result<(), Fault> {
    let (name, value) = (text(&attr.name)?, text(&attr.value)?);
    write!(answers, " {name}={value}")?;
    Ok(())
}
