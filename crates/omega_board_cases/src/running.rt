//! The running tasks: the calls of `omega_running`.
ghost use Rattle.std.specs.Prelude.{◌<◌};

use crate::script::{Steps, take_all};
use crate::showing::{show_found, show_running, show_tasks};
use omega_calls::{
    Fault, byte, need, number, show_need, show_task, small, spec, task, tasks, text,
};
use omega_model::{Bytes, Need, Spec, Task, TaskKey};
use omega_running::Running;
use std::alloc::Global;

/// What each of many tasks asks for.
const SPEC: Spec = Spec {
    need: Need {
        cpu: 1,
        mem: 2,
        disk: 3,
    },
    prec: 0,
    differ: false,
};

/// `script STEP : STEP ..`: what each step answers on running tasks, of which there are none before the
/// first; the answers are parted by `:` too.
///
/// A TASK is four words: `NAME MACHINE AMOUNT PRECEDENCE`, where a precedence has `/differ` behind it if
/// the task shares its machine with none of its job. `put TASK` puts it in unless its name is there, and
/// answers whether it does. `get NAME` answers the task of this name, and `remove NAME` takes it out and
/// answers it.
///
/// `count` answers how many there are; `on_machine MACHINE` the names of a machine's tasks in order of
/// eviction, `tasks_on MACHINE` the tasks in order of name; `extras_of_job JOB` a job's tasks whose
/// index is that of an extra task, 2^31 or more, and `count_extras JOB` how many these are; `left_on MACHINE PRECEDENCE AMOUNT` what a machine's tasks of at least
/// this precedence leave of an amount; `has TASK` whether just this task is there, equal in all parts; and
/// `other_of_job JOB MACHINE NAMES` the first of a job's tasks on a machine that isn't among these.
/// Names are parted by commas, tasks by blanks, and `-` stands for none.
///
/// `many JOBS TASKS MACHINES`: how many tasks come, so many of each job, in order of name and on the
/// machines by turns; how many the machine with the fewest has then, and the one with the most; how many
/// go, in order of name; and how many are left.
pub(crate) fn answer(
    alloc: Global,
    call: &str,
    words: &[Bytes],
    answers: &mut String,
) -> Result<(), Fault> {
    match (call, words) {
        ("script", _) => take_all(Running::new(alloc), alloc, words, answers),
        ("many", [jobs, tasks, machines]) => {
            let (tasks, machines) = (small(tasks)?, number(machines)?);
            many(alloc, number(jobs)?, tasks, machines, answers)
        }
        _ => Err(Fault::UnknownCall),
    }
}

impl Steps for Running {
    fn take(&mut self, alloc: Global, step: &[Bytes], answers: &mut String) -> Result<(), Fault> {
        let [call, words @ ..] = step else {
            return Err(Fault::UnknownCall);
        };
        match (text(call)?, words) {
            ("put", _) => show_put(self, alloc, running_task(words)?, answers),
            ("remove", [name]) => show_removed(self, task(name)?, answers),
            (call, _) => ask(self, alloc, call, words, answers),
        }
    }
}

/// A running task of four words: its name, the machine, the amount and the precedence.
fn running_task(words: &[Bytes]) -> Result<Task, Fault> {
    let [key, machine, amount, prec] = words else {
        return Err(Fault::UnknownCall);
    };
    Ok(Task {
        key: task(key)?,
        machine: number(machine)?,
        spec: spec(amount, prec)?,
    })
}

/// Puts a task in unless its name is there, and appends whether it does.
fn show_put(
    running: &mut Running,
    alloc: Global,
    task: Task,
    answers: &mut String,
) -> Result<(), Fault> {
    let came = put(running, alloc, task)?;
    write!(answers, "{came}")?;
    Ok(())
}

/// Puts a task in unless its name is there, and answers whether it does.
fn put(running: &mut Running, alloc: Global, task: Task) -> Result<bool, Fault> {
    running.reserve(alloc, 1)?;
    if running.get(task.key).is_some() {
        return Ok(false);
    }
    running.insert_reserved(task);
    Ok(true)
}

/// Takes a task out, and appends it.
fn show_removed(running: &mut Running, key: TaskKey, answers: &mut String) -> Result<(), Fault> {
    let removed = running.remove(key);
    show_found(answers, removed.as_ref())
}

/// Appends a number of tasks.
fn show_count(count: usize, answers: &mut String) -> Result<(), Fault> {
    write!(answers, "{}", count)?;
    Ok(())
}

/// Appends the answer of a step that changes nothing.
fn ask(
    running: &Running,
    alloc: Global,
    call: &str,
    words: &[Bytes],
    answers: &mut String,
) -> Result<(), Fault> {
    match (call, words) {
        ("count", []) => show_count(running.count(), answers),
        ("count_extras", [job]) => show_count(running.count_extras(number(job)?), answers),
        ("get", [name]) => show_found(answers, running.get(task(name)?)),
        ("has", _) => show_has(running, &running_task(words)?, answers),
        ("left_on", [machine, prec, amount]) => {
            let (machine, prec) = (number(machine)?, byte(prec)?);
            show_need(answers, running.left_on(machine, prec, need(amount)?))
        }
        ("other_of_job", [job, machine, gone]) => {
            show_other(
                running,
                alloc,
                number(job)?,
                number(machine)?,
                gone,
                answers,
            )
        }
        (_, [word]) => list(running, alloc, call, number(word)?, answers),
        _ => Err(Fault::UnknownCall),
    }
}

/// Appends whether just this task is there, equal in all parts.
fn show_has(running: &Running, task: &Task, answers: &mut String) -> Result<(), Fault> {
    write!(answers, "{}", running.has(task))?;
    Ok(())
}

/// Appends the first of a job's tasks on a machine that isn't among these.
fn show_other(
    running: &Running,
    alloc: Global,
    job: u64,
    machine: u64,
    gone: &Bytes,
    answers: &mut String,
) -> Result<(), Fault> {
    let gone = tasks(alloc, gone)?;
    match running.other_of_job(job, machine, gone.as_slice()) {
        Some(key) => show_task(answers, key),
        None => {
            answers.push('-')?;
            Ok(())
        }
    }
}

/// Appends the tasks of a machine or of a job, or their names.
fn list(
    running: &Running,
    alloc: Global,
    call: &str,
    number: u64,
    answers: &mut String,
) -> Result<(), Fault> {
    match call {
        "on_machine" => show_tasks(answers, running.on_machine(alloc, number)?.as_slice()),
        "tasks_on" => show_running(answers, running.tasks_on(alloc, number)?.as_slice()),
        "extras_of_job" => show_running(answers, running.extras_of_job(alloc, number)?.as_slice()),
        _ => Err(Fault::UnknownCall),
    }
}

/// Tasks come and go. Appends how many, and how many a machine has meanwhile.
fn many(
    alloc: Global,
    jobs: u64,
    tasks: u32,
    machines: u64,
    answers: &mut String,
) -> Result<(), Fault> {
    if machines == 0 {
        return Err(Fault::MayNot);
    }
    let crowd = crowd(alloc, jobs, tasks, machines)?;
    come_and_go(alloc, crowd.as_slice(), machines, answers)
}

/// The same with these tasks, on new running tasks.
fn come_and_go(
    alloc: Global,
    crowd: &[Task],
    machines: u64,
    answers: &mut String,
) -> Result<(), Fault> {
    let mut running = Running::new(alloc);
    show_come_and_go(&mut running, alloc, crowd, machines, answers)
}

/// The same on these running tasks.
fn show_come_and_go(
    running: &mut Running,
    alloc: Global,
    crowd: &[Task],
    machines: u64,
    answers: &mut String,
) -> Result<(), Fault> {
    write!(answers, "{} ", come(running, alloc, crowd)?)?;
    show_spread(running, alloc, machines, answers)?;
    let gone = go(running, crowd);
    write!(answers, " {gone} {}", running.count())?;
    Ok(())
}

/// Tasks in order of name, so many of each job, on the machines by turns.
fn crowd(alloc: Global, jobs: u64, tasks: u32, machines: u64) -> Result<Vec<Task>, Fault>
    requires { 0 < machines }
{
    let mut crowd = Vec::new(alloc);
    for job in 0..jobs {
        add_job(&mut crowd, job, tasks, machines)?;
    }
    Ok(crowd)
}

/// Puts a job's tasks behind the others, each on the seventh machine after the one before it.
fn add_job(crowd: &mut Vec<Task>, job: u64, tasks: u32, machines: u64) -> Result<(), Fault>
    requires { 0 < machines }
{
    for index in 0..tasks {
        let place = crowd.len() as u64;
        crowd.push(Task {
            key: TaskKey { job, index },
            machine: place.wrapping_mul(7) % machines,
            spec: SPEC,
        })?;
    }
    Ok(())
}

/// Makes room for all tasks and puts them in, one after the other. Answers how many are new.
fn come(running: &mut Running, alloc: Global, crowd: &[Task]) -> Result<u64, Fault> {
    running.reserve(alloc, crowd.len())?;
    let mut came = 0u64;
    for task in crowd {
        came = came.saturating_add(u64::from(put(running, alloc, *task)?));
    }
    Ok(came)
}

/// Appends how many tasks the machine with the fewest has, and the one with the most.
fn show_spread(
    running: &Running,
    alloc: Global,
    machines: u64,
    answers: &mut String,
) -> Result<(), Fault> {
    let (mut fewest, mut most) = (usize::MAX, 0);
    for machine in 0..machines {
        let count = running.on_machine(alloc, machine)?.len();
        fewest = fewest.min(count);
        most = most.max(count);
    }
    write!(answers, "{fewest} {most}")?;
    Ok(())
}

/// Takes tasks out, one after the other. Answers how many were there.
fn go(running: &mut Running, crowd: &[Task]) -> u64 {
    let mut gone = 0u64;
    for task in crowd {
        gone = gone.saturating_add(u64::from(running.remove(task.key).is_some()));
    }
    gone
}
