//! The rows of jobs.
ghost use Rattle.std.specs.Prelude.{◌≡◌, ℕ, ◌+◌, ◌++◌, ◌*◌, ◌^◌, ◌<◌, IfOk, OnOk};
ghost use Rattle.std.specs.List.{flat_map, range_with_len};
ghost use Rattle.std.specs.String.{string_bytes};
ghost use Rattle.rand_core.specs.Stream.{Stream};
ghost use Rattle.omega_model.specs.Generated.{job_at, job_text, made_job, submit_time, task_text, tasks_text, thousandths};
ghost use Rattle.omega_gen.specs.Words.{left_after, word_of};

use crate::drawing::draw;
use omega_model::{Bytes, NoMemory, Seq};
use rand_core::Rng;
use std::alloc::Global;
use std::marker::Model;

/// The code of the event that submits a task.
const SUBMIT: u32 = 0;

/// The code of the event that ends a task as it should.
const FINISH: u32 = 4;

/// When a job of number 0 would come, in microseconds: a trace begins at 600 seconds. Jobs count
/// from 1.
const BEGINNING: u64 = 600_000_000;

/// From a job to the next one, in microseconds.
const BETWEEN_JOBS: u64 = 10_000_000;

/// Five minutes, in microseconds.
const FIVE_MINUTES: u64 = 300_000_000;

/// A job whose tasks are all alike.
#[derive(Drop)]
struct Job {
    /// How many tasks there are.
    tasks: u32,
    class: u32,
    priority: u32,
    /// The CPU of a task, in thousandths of that of the greatest machine.
    cpu: u32,
    /// The memory of a task, in thousandths of that of the greatest machine.
    mem: u32,
    /// How long the tasks live, in steps of five minutes.
    life: u32,
}

impl Model for Job {
    ghost use Rattle.std.specs.Prelude.{◌<◌};
    ghost use Rattle.omega_model.specs.Generated.{MadeJob};

    ghost Value = { MadeJob };

    ghost view = { λ job. record {
      tasks = job.tasks;
      class = job.class;
      priority = job.priority;
      cpu = job.cpu;
      mem = job.mem;
      life = job.life;
    } };

    ghost invariant = { λ job. (job.cpu < 100) × (job.mem < 100) };
}

impl Job {
    /// The job of the next six words.
    fn draw<R: Rng>(words: &mut R) -> Job
        ensures job { result ≡ made_job (word_of (R.stream words.old)) 0 }
        ensures left { R.stream words.new ≡ left_after 6 (R.stream words.old) }
    {
        let tasks = 1 + draw(words, 8);
        let class = draw(words, 4);
        let priority = draw(words, 12);
        let cpu = 1 + draw(words, 50);
        let mem = 1 + draw(words, 50);
        let life = 1 + draw(words, 20);
        Job {
            tasks,
            class,
            priority,
            cpu,
            mem,
            life,
        }
    }
}

/// The rows of so many jobs, with six words for each.
pub(crate) fn task_events<R: Rng>(
    alloc: Global,
    words: &mut R,
    jobs: u32,
) -> Result<Bytes, NoMemory>
    // However many words of a stream were drawn before.
    ensures rows { (stream : Stream) (first : ℕ) → R.stream words.old ≡ left_after first stream
        → IfOk result (λ bytes. bytes ≡ flat_map (job_at (word_of stream) first) (range_with_len 0 jobs)) }
    ensures left { OnOk result (R.stream words.new ≡ left_after (6 * jobs) (R.stream words.old)) }
{
    let mut out = String::new(alloc);
    for place in 0..jobs {
        let job = Job::draw(words);
        push_job(&mut out, &job, u64::from(place) + 1)?;
    }
    Ok(Seq::of(out.into_bytes()))
}

/// The rows of a job: its tasks are submitted, and finish when their life is over.
fn push_job(out: &mut String, job: &Job, number: u64) -> Result<(), NoMemory>
    requires { number < 2 ^ 33 }
    ensures { OnOk result (string_bytes out.new ≡ string_bytes out.old ++ job_text job.now number) }
{
    let submitted = BEGINNING + BETWEEN_JOBS * number;
    push_tasks(out, job, number, submitted, SUBMIT)?;
    let finished = submitted + FIVE_MINUTES * u64::from(job.life);
    push_tasks(out, job, number, finished, FINISH)?;
    Ok(())
}

/// The rows of all tasks of a job at a time, with the code of the event.
fn push_tasks(
    out: &mut String,
    job: &Job,
    number: u64,
    time: u64,
    code: u32,
) -> Result<(), NoMemory>
    ensures { OnOk result (string_bytes out.new ≡ string_bytes out.old ++ tasks_text job.now number time code) }
{
    for index in 0..job.tasks {
        push_task(out, job, number, time, code, index)?;
    }
    Ok(())
}

/// The row of a task of a job at a time, with the code of the event.
fn push_task(
    out: &mut String,
    job: &Job,
    number: u64,
    time: u64,
    code: u32,
    index: u32,
) -> Result<(), NoMemory>
    ensures { OnOk result (string_bytes out.new ≡ string_bytes out.old ++ task_text job.now number time code index) }
{
    let class = job.class;
    let priority = job.priority;
    write!(
        out,
        "{time},,{number},{index},,{code},g,{class},{priority},"
    )?;
    push_thousandths(out, job.cpu)?;
    out.push(',')?;
    push_thousandths(out, job.mem)?;
    out.push_str(",,0\n")?;
    Ok(())
}

/// Appends so many thousandths as a decimal: 7 is `0.007`.
fn push_thousandths(out: &mut String, amount: u32) -> Result<(), NoMemory>
    requires { amount < 100 }
    ensures { OnOk result (string_bytes out.new ≡ string_bytes out.old ++ thousandths amount) }
{
    let tens = amount / 10;
    let ones = amount % 10;
    write!(out, "0.0{tens}{ones}")?;
    Ok(())
}
