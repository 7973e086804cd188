//! A trace's rows and what they ask for: the calls of `omega_feed`.
ghost use Rattle.std.specs.Prelude.{◌≡◌, [], List, IfOk, OnOk, IsTrue};
ghost use Rattle.omega_model.specs.Feed.{feed};
ghost use Rattle.omega_model.specs.Ranges.{IsInRange, IsPercentage};
ghost use Rattle.omega_model.specs.declared.cells.Task.{Task};
ghost use Rattle.omega_feed.specs.Events.{HasOthers};
ghost use Rattle.omega_feed.specs.Open.{OthersAreQuiet};

use crate::board::show_step;
use crate::rows::push_row;
use crate::showing::{show_entries, show_requests, show_rounds};
use omega_board::Board;
use omega_calls::{Fault, is_colon, number, part, policy_of, small, text};
use omega_feed::{EventRounds, Events, OpenJobs, Wanted};
use omega_mapreduce::CountedRequests;
use omega_model::{Bytes, Copied, Extra, Round, Rounds, Row, Settings, TraceTables};
use std::alloc::Global;

/// A trace, how many batch schedulers there are, and how many extras MapReduce jobs get.
#[derive(Drop)]
struct Trace {
    tables: TraceTables,
    batch: u32,
    extra: Extra,
}

/// What a question is about: a trace, and the board on which it is asked.
#[derive(Clone, Copy)]
struct Scene<'a> {
    trace: &'a Trace,
    board: &'a Board,
}

/// Who is asked, and which jobs are closed before.
#[derive(Clone, Copy)]
struct Question {
    scheduler: u32,
    closed: Closed,
}

/// Which of its jobs are closed before a scheduler is asked: none, the quiet ones, or all quiet ones but this one.
#[derive(Clone, Copy)]
enum Closed {
    Nothing,
    Quiet,
    QuietBut(u64),
}

/// `script STEP : STEP ..`: what each step answers on one trace and one board, which are empty before
/// the first; the answers are parted by `:` too.
///
/// Steps that answer nothing: the rows of tables, as `push_row` says; `batch NUMBER`, so many batch
/// schedulers, else 1; `extra max`, `extra relative` and `extra PERCENTAGE`, which is the policy of
/// extras, else `max`. `board` and a step do that step on the board, and answer as `show_step` says.
///
/// Of all rows so far, in order of time: `rounds WINDOW` answers the rounds, each its number and the
/// machine or the task of each row. `ask SCHEDULER` answers what the scheduler is asked on the board
/// once the rows were taken: each job, and for each of its wishes the task, the amount, the precedence
/// and the number of constraints; `-` where it is asked nothing. `ask SCHEDULER settled` does so once
/// its quiet jobs are closed, and `ask SCHEDULER reopened JOB` once they are and this job is open again.
/// `ask-by-round WINDOW SCHEDULER` answers each round's number, and what is asked once its rows were
/// taken. `entries` answers what the rows do to the board, each once it was taken, and `entries-unwanted`
/// what each does where no task is wanted; `waiting` how many tasks are wanted in the end and don't run
/// on the board, and their jobs.
pub(crate) fn answer(
    alloc: Global,
    call: &str,
    words: &[Bytes],
    answers: &mut String,
) -> Result<(), Fault> {
    if call != "script" {
        return Err(Fault::UnknownCall);
    }
    let mut trace = Trace {
        tables: TraceTables::new(alloc),
        batch: 1,
        extra: Extra::Max,
    };
    take_all(&mut trace, &mut Board::new(alloc), alloc, words, answers)
}

/// Does all steps, and appends their answers.
fn take_all(
    trace: &mut Trace,
    board: &mut Board,
    alloc: Global,
    words: &[Bytes],
    answers: &mut String,
) -> Result<(), Fault> {
    for step in words.split(|word| is_colon(word)) {
        take(trace, board, alloc, step, answers)?;
    }
    Ok(())
}

/// Does a step, and appends its answer.
fn take(
    trace: &mut Trace,
    board: &mut Board,
    alloc: Global,
    step: &[Bytes],
    answers: &mut String,
) -> Result<(), Fault> {
    let [call, words @ ..] = step else {
        return Err(Fault::UnknownCall);
    };
    match (text(call)?, words) {
        ("board", _) => show_on_board(board, alloc, words, answers),
        ("batch", [word]) => set_batch(trace, word),
        ("extra", [word]) => set_extra(trace, word),
        (call, _) if is_question(call) => {
            show_behind(&Scene { trace, board }, alloc, call, words, answers)
        }
        (call, _) => push_row(&mut trace.tables, alloc, call, words),
    }
}

/// Does a step on the board, and appends its answer behind those before it.
fn show_on_board(
    board: &mut Board,
    alloc: Global,
    words: &[Bytes],
    answers: &mut String,
) -> Result<(), Fault> {
    part(answers)?;
    show_step(board, alloc, words, answers)
}

/// So many batch schedulers.
fn set_batch(trace: &mut Trace, word: &Bytes) -> Result<(), Fault> {
    trace.batch = small(word)?;
    Ok(())
}

/// This policy of extras.
fn set_extra(trace: &mut Trace, word: &Bytes) -> Result<(), Fault> {
    trace.extra = policy_of(word)?;
    Ok(())
}

/// Appends the answer of a question behind those before it.
fn show_behind(
    scene: &Scene,
    alloc: Global,
    call: &str,
    words: &[Bytes],
    answers: &mut String,
) -> Result<(), Fault> {
    part(answers)?;
    show(scene, alloc, call, words, answers)
}

/// Whether a step of this call asks something.
fn is_question(call: &str) -> bool {
    matches!(
        call,
        "rounds" | "ask" | "ask-by-round" | "entries" | "entries-unwanted" | "waiting"
    )
}

/// Appends the answer of a question.
fn show(
    scene: &Scene,
    alloc: Global,
    call: &str,
    words: &[Bytes],
    answers: &mut String,
) -> Result<(), Fault> {
    match (call, words) {
        ("rounds", [window]) => show_cut(scene.trace, alloc, window, answers),
        ("ask", [scheduler, closed @ ..]) => show_asked(scene, alloc, scheduler, closed, answers),
        ("ask-by-round", [window, scheduler]) => {
            show_by_round(scene, alloc, window, scheduler, answers)
        }
        ("entries", []) => show_taken(scene.trace, scene.board, alloc, answers),
        ("entries-unwanted", []) => show_unwanted(scene.trace, scene.board, alloc, answers),
        ("waiting", []) => show_waiting(scene.trace, scene.board, alloc, answers),
        _ => Err(Fault::UnknownCall),
    }
}

/// Appends the rounds of a trace.
fn show_cut(
    trace: &Trace,
    alloc: Global,
    window: &Bytes,
    answers: &mut String,
) -> Result<(), Fault> {
    let cut = rounds_of(alloc, &trace.tables, window)?;
    show_rounds(answers, cut.as_slice())
}

/// Which jobs are closed, of words.
fn closed_of(words: &[Bytes]) -> Result<Closed, Fault> {
    match words {
        [] => Ok(Closed::Nothing),
        [word] if text(word)? == "settled" => Ok(Closed::Quiet),
        [word, job] if text(word)? == "reopened" => Ok(Closed::QuietBut(number(job)?)),
        _ => Err(Fault::UnknownCall),
    }
}

/// The rounds of a trace.
fn rounds_of(alloc: Global, tables: &TraceTables, window: &Bytes) -> Result<Rounds, Fault> {
    let window = number(window)?;
    if window == 0 {
        return Err(Fault::MayNot);
    }
    let cut = EventRounds::cut(alloc, events_of(alloc, tables)?, window)?;
    collected(alloc, &cut)
}

/// These rounds as a list.
fn collected(alloc: Global, cut: &EventRounds) -> Result<Rounds, Fault> {
    let mut rounds = Rounds::new(alloc);
    for i in 0..cut.len() {
        if let Some(round) = cut.get(alloc, i)? {
            rounds.push(round)?;
        }
    }
    Ok(rounds)
}

/// The rows of the events in order of time: those of the one round that there is where the window is long enough.
fn rows_of(alloc: Global, tables: &TraceTables) -> Result<Vec<Row>, Fault> {
    let cut = EventRounds::cut(alloc, events_of(alloc, tables)?, u64::MAX)?;
    match cut.get(alloc, 0)? {
        Some(Round { number: _, rows }) => Ok(rows.into_items()),
        None => Ok(Vec::new(alloc)),
    }
}

/// The events of tables.
fn events_of(alloc: Global, tables: &TraceTables) -> Result<Events, Fault>
    ensures { IfOk result (λ events. events ≡ feed tables.now) }
{
    let mut copy = TraceTables::new(alloc);
    copy.machines = tables.machines.copy(alloc)?;
    copy.attrs = tables.attrs.copy(alloc)?;
    copy.tasks = tables.tasks.copy(alloc)?;
    Ok(Events::take(alloc, &mut copy)?)
}

/// The rows of tables that are no events.
fn others_of(alloc: Global, tables: &TraceTables) -> Result<TraceTables, Fault>
    ensures { IfOk result (HasOthers tables.now) }
{
    let mut copy = TraceTables::new(alloc);
    copy.constraints = tables.constraints.copy(alloc)?;
    copy.activities = tables.activities.copy(alloc)?;
    copy.disks = tables.disks.copy(alloc)?;
    Ok(copy)
}

/// Whether a cap is a percentage.
fn is_percentage(extra: Extra) -> bool
    ensures { IsTrue result → IsPercentage extra }
{
    match extra {
        Extra::Cap(percent) => percent <= 100,
        _ => true,
    }
}

/// The settings of so many batch schedulers and this policy of extras.
fn settings_of(batch: u32, extra: Extra) -> Result<Settings, Fault>
    ensures { IfOk result IsInRange }
{
    if batch == 0 || batch > 30 || !is_percentage(extra) {
        return Err(Fault::MayNot);
    }
    Ok(Settings {
        batch,
        extra,
        ..Settings::default()
    })
}

/// What a trace asks for before its first row.
fn at_first(trace: &Trace, alloc: Global) -> Result<Wanted, Fault>
    ensures { IfOk result (λ wanted. wanted.tasks ≡ []) }
{
    let settings = settings_of(trace.batch, trace.extra)?;
    let events = events_of(alloc, &trace.tables)?;
    let others = others_of(alloc, &trace.tables)?;
    Ok(Wanted::new(alloc, others, &events, &settings)?)
}

/// Appends what a scheduler is asked on the board once all rows were taken.
fn show_asked(
    scene: &Scene,
    alloc: Global,
    scheduler: &Bytes,
    closed: &[Bytes],
    answers: &mut String,
) -> Result<(), Fault> {
    let (scheduler, closed) = (small(scheduler)?, closed_of(closed)?);
    let rows = rows_of(alloc, &scene.trace.tables)?;
    let question = Question { scheduler, closed };
    show_asked_after(scene, alloc, &rows, question, answers)
}

/// Appends what a scheduler is asked on the board once these rows were taken.
fn show_asked_after(
    scene: &Scene,
    alloc: Global,
    rows: &[Row],
    question: Question,
    answers: &mut String,
) -> Result<(), Fault> {
    let mut wanted = at_first(scene.trace, alloc)?;
    show_asked_of(alloc, &mut wanted, rows, scene.board, question, answers)
}

/// Appends what is asked of what is wanted, once these rows were taken.
fn show_asked_of(
    alloc: Global,
    wanted: &mut Wanted,
    rows: &[Row],
    board: &Board,
    question: Question,
    answers: &mut String,
) -> Result<(), Fault>
    requires { wanted.old.tasks ≡ [] }
{
    let requests = asked(alloc, wanted, rows, board, question)?;
    show_requests(alloc, answers, requests.as_slice())
}

/// What a scheduler is asked on a board once these rows were taken.
fn asked(
    alloc: Global,
    wanted: &mut Wanted,
    rows: &[Row],
    board: &Board,
    question: Question,
) -> Result<CountedRequests, Fault>
    requires { wanted.old.tasks ≡ [] }
{
    let mut open_jobs = OpenJobs::new(alloc);
    take_rows(wanted, &mut open_jobs, rows)?;
    close(wanted, &mut open_jobs, board, question)?;
    Ok(wanted.requests(alloc, question.scheduler, board, &open_jobs)?)
}

/// Takes some rows, where no task was wanted before.
fn take_rows(wanted: &mut Wanted, open_jobs: &mut OpenJobs, rows: &[Row]) -> Result<(), Fault>
    requires { wanted.old.tasks ≡ [] }
    ensures { OnOk result ((tasks : List Task) → OthersAreQuiet open_jobs.new wanted.new tasks) }
{
    for row in rows {
        wanted.take(row, open_jobs)?;
    }
    Ok(())
}

/// Closes those of the scheduler's jobs that are to be closed.
fn close(
    wanted: &Wanted,
    open_jobs: &mut OpenJobs,
    board: &Board,
    question: Question,
) -> Result<(), Fault>
    requires { OthersAreQuiet open_jobs.old wanted.now board.now.tasks }
    ensures { OnOk result (OthersAreQuiet open_jobs.new wanted.now board.now.tasks) }
{
    let Question { scheduler, closed } = question;
    match closed {
        Closed::Nothing => Ok(()),
        Closed::Quiet => {
            open_jobs.settle(scheduler, wanted, board);
            Ok(())
        }
        Closed::QuietBut(job) => close_but_one(wanted, open_jobs, board, scheduler, job),
    }
}

/// Closes the quiet ones of a scheduler's jobs, and opens one again.
fn close_but_one(
    wanted: &Wanted,
    open_jobs: &mut OpenJobs,
    board: &Board,
    scheduler: u32,
    job: u64,
) -> Result<(), Fault>
    requires { OthersAreQuiet open_jobs.old wanted.now board.now.tasks }
    ensures { OnOk result (OthersAreQuiet open_jobs.new wanted.now board.now.tasks) }
{
    open_jobs.settle(scheduler, wanted, board);
    open_jobs.reopen(wanted, job)?;
    Ok(())
}

/// Appends the number of each round, and what a scheduler is asked once its rows were taken.
fn show_by_round(
    scene: &Scene,
    alloc: Global,
    window: &Bytes,
    scheduler: &Bytes,
    answers: &mut String,
) -> Result<(), Fault> {
    let scheduler = small(scheduler)?;
    let cut = rounds_of(alloc, &scene.trace.tables, window)?;
    show_by_round_of(scene, alloc, &cut, scheduler, answers)
}

/// The same of these rounds.
fn show_by_round_of(
    scene: &Scene,
    alloc: Global,
    cut: &Rounds,
    scheduler: u32,
    answers: &mut String,
) -> Result<(), Fault> {
    let rows = rows_of(alloc, &scene.trace.tables)?;
    show_each_round(scene, alloc, &rows, cut.as_slice(), scheduler, answers)
}

/// The same of these rounds and rows.
fn show_each_round(
    scene: &Scene,
    alloc: Global,
    rows: &[Row],
    cut: &[Round],
    scheduler: u32,
    answers: &mut String,
) -> Result<(), Fault> {
    let closed = Closed::Nothing;
    let question = Question { scheduler, closed };
    let mut count = 0usize;
    for (place, round) in cut.iter().enumerate() {
        if place > 0 {
            answers.push(' ')?;
        }
        write!(answers, "round {} ", round.number)?;
        count = count.saturating_add(round.rows.len());
        let taken = rows.get(..count).unwrap_or(rows);
        show_asked_after(scene, alloc, taken, question, answers)?;
    }
    Ok(())
}

/// Appends the entries of each row once it was taken.
fn show_taken(
    trace: &Trace,
    board: &Board,
    alloc: Global,
    answers: &mut String,
) -> Result<(), Fault> {
    let rows = rows_of(alloc, &trace.tables)?;
    show_taken_of(trace, board, alloc, rows, answers)
}

/// The same of these rows.
fn show_taken_of(
    trace: &Trace,
    board: &Board,
    alloc: Global,
    rows: Vec<Row>,
    answers: &mut String,
) -> Result<(), Fault> {
    let mut wanted = at_first(trace, alloc)?;
    show_each_taken(&mut wanted, board, alloc, rows, answers)
}

/// The same of what is wanted before the first of these rows.
fn show_each_taken(
    wanted: &mut Wanted,
    board: &Board,
    alloc: Global,
    rows: Vec<Row>,
    answers: &mut String,
) -> Result<(), Fault> {
    let mut told = Shown::Nothing;
    for row in rows {
        take_row(wanted, alloc, &row)?;
        told = show_row(wanted, board, alloc, row, told, answers)?;
    }
    show_end(told, answers)
}

/// Takes a row, whatever jobs are open.
fn take_row(wanted: &mut Wanted, alloc: Global, row: &Row) -> Result<(), Fault> {
    let mut open_jobs = OpenJobs::new(alloc);
    Ok(wanted.take(row, &mut open_jobs)?)
}

/// Appends the entries of each row where no task is wanted.
fn show_unwanted(
    trace: &Trace,
    board: &Board,
    alloc: Global,
    answers: &mut String,
) -> Result<(), Fault> {
    let rows = rows_of(alloc, &trace.tables)?;
    show_unwanted_of(trace, board, alloc, rows, answers)
}

/// The same of these rows.
fn show_unwanted_of(
    trace: &Trace,
    board: &Board,
    alloc: Global,
    rows: Vec<Row>,
    answers: &mut String,
) -> Result<(), Fault> {
    let wanted = at_first(trace, alloc)?;
    show_each(&wanted, board, alloc, rows, answers)
}

/// Appends the entries of each row, with what is wanted as it is.
fn show_each(
    wanted: &Wanted,
    board: &Board,
    alloc: Global,
    rows: Vec<Row>,
    answers: &mut String,
) -> Result<(), Fault> {
    let mut told = Shown::Nothing;
    for row in rows {
        told = show_row(wanted, board, alloc, row, told, answers)?;
    }
    show_end(told, answers)
}

/// Whether an entry has been told.
#[derive(Clone, Copy, PartialEq, Eq)]
enum Shown {
    Nothing,
    Some,
}

/// Appends the entries of a row behind those that were told before, and answers whether any has been told.
fn show_row(
    wanted: &Wanted,
    board: &Board,
    alloc: Global,
    row: Row,
    told: Shown,
    answers: &mut String,
) -> Result<Shown, Fault> {
    let entries = wanted.entries(alloc, row, board)?;
    if entries.is_empty() {
        return Ok(told);
    }
    if told == Shown::Some {
        answers.push(' ')?;
    }
    show_entries(answers, entries.as_slice())?;
    Ok(Shown::Some)
}

/// Appends `-` where nothing has been told.
fn show_end(told: Shown, answers: &mut String) -> Result<(), Fault> {
    if told == Shown::Nothing {
        answers.push('-')?;
    }
    Ok(())
}

/// Appends how many tasks are wanted in the end and don't run, and their jobs.
fn show_waiting(
    trace: &Trace,
    board: &Board,
    alloc: Global,
    answers: &mut String,
) -> Result<(), Fault> {
    let rows = rows_of(alloc, &trace.tables)?;
    show_waiting_of(trace, board, alloc, &rows, answers)
}

/// The same of these rows.
fn show_waiting_of(
    trace: &Trace,
    board: &Board,
    alloc: Global,
    rows: &[Row],
    answers: &mut String,
) -> Result<(), Fault> {
    let mut wanted = at_first(trace, alloc)?;
    take_rows(&mut wanted, &mut OpenJobs::new(alloc), rows)?;
    show_left(&wanted, board, alloc, answers)
}

/// The same of what is wanted in the end.
fn show_left(
    wanted: &Wanted,
    board: &Board,
    alloc: Global,
    answers: &mut String,
) -> Result<(), Fault> {
    let found = wanted.left(alloc, board)?;
    write!(answers, "{}", found.tasks)?;
    for job in found.jobs.as_slice() {
        write!(answers, " {job}")?;
    }
    Ok(())
}
