//! The wanted tasks.
ghost use Rattle.std.specs.Prelude.{◌≡◌, ◌↔◌, [], All, IfNone, IfOk, IfSome, IsTrue, List, MatchResult, OnErr, OnOk, length, map, not, ◌<◌};
ghost use Rattle.std.specs.List.{filter, flat_map, list_any};
ghost use Rattle.omega_model.specs.ExtraTasks.{HasLowIndex, first_extra, is_wanted, wanted_of};
ghost use Rattle.omega_model.specs.ReportCounts.{waits};
ghost use Rattle.omega_model.specs.Wanted.{wanted_after_task, with_wanted, is_named};
ghost use Rattle.omega_model.specs.declared.cells.Machine.{Machine};
ghost use Rattle.omega_feed.specs.Asked.{is_task_of};
ghost use Rattle.omega_feed.specs.Index.{changed_by, wanted_task};
ghost use Rattle.omega_feed.specs.Open.{RunsIfOf};
ghost use Rattle.omega_feed.specs.Parts.{AreParts, BelongsAt, NeverFall, StandsAt, joined, waiting_jobs};

use crate::jobs::Jobs;
use crate::notes::PlaceNotes;
use crate::task_list::TaskList;
use omega_model::{NoMemory, Spec, TaskKey, TaskRow};
use omega_running::Running;
use std::alloc::Global;
use std::marker::Model;

/// What a task row does to the wanted tasks.
#[derive(Clone, Copy, Debug, PartialEq, Eq)]
pub enum TaskChange {
    /// The row's task is wanted as the row says.
    Want,
    /// The row's task is no longer wanted.
    End,
    /// The wanted tasks stay as they are.
    Keep,
}

/// The wanted tasks in order of key, found by key and by job. They are tasks of the trace, whose
/// indexes are below those of extras.
///
/// Those of each job stand in a list of slots of their own, and the lists in order of job. A job's list is
/// mostly found at the place that is noted for its number, and a task's slot at the place of its index.
/// The slots of all tasks of a trace are made when its run begins, so that wanting one takes no memory.
/// They stand in blocks of 64, of each of which the number of wanted tasks is known: what goes over a job's
/// tasks reads one byte of a block without any.
#[derive(Drop)]
pub struct WantedTasks {
    alloc: Global,
    jobs: Vec<u64>,
    parts: Vec<TaskList>,
    notes: PlaceNotes,
}

impl Model for WantedTasks {
    ghost use Rattle.std.specs.Prelude.{List};
    ghost use Rattle.omega_model.specs.Wanted.{WantedTask};
    ghost use Rattle.omega_feed.specs.Parts.{AreParts, joined};

    ghost Value = { List WantedTask };

    ghost view = { λ tasks. joined tasks.parts.items };

    ghost invariant = { λ tasks. AreParts tasks.jobs.items tasks.parts.items };
}

impl WantedTasks {
    /// No tasks, and for each of these jobs a place with a slot for each of its tasks that these rows submit or
    /// schedule. Each row's job is one of them. Costs a look-up of the job for each such row, a sort of the jobs,
    /// and the tasks of each job, times the logarithm of their number where they don't come in order. Takes the
    /// memory of the slots, and while it runs that of a list for each job with the tasks' keys; where a job's
    /// keys don't rise, one of them may stand there once for each of its rows.
    pub fn of_rows(alloc: Global, rows: &[TaskRow], jobs: &Jobs) -> Result<WantedTasks, NoMemory>
        ensures { IfOk result (λ tasks. tasks ≡ []) }
    {
        let mut lists = keys_of_jobs(alloc, rows, jobs)?;
        lists.sort_unstable_by_key(|list| list.job);
        let mut tasks = WantedTasks::for_count(alloc, lists.len())?;
        for JobKeys { job, mut keys } in lists {
            if !keys.is_sorted() {
                keys.sort_unstable();
                keys.dedup();
            }
            tasks.make_place(job, TaskList::of_keys(alloc, &keys)?)?;
        }
        Ok(tasks)
    }

    /// No tasks, and room for the places of so many jobs.
    fn for_count(alloc: Global, count: usize) -> Result<WantedTasks, NoMemory>
        ensures { IfOk result (λ tasks. tasks ≡ []) }
    {
        Ok(WantedTasks {
            alloc,
            jobs: Vec::with_capacity(alloc, count)?,
            parts: Vec::with_capacity(alloc, count)?,
            notes: PlaceNotes::for_count(alloc, count)?,
        })
    }

    /// Makes a place with these slots for the tasks of a job, where there is none. Costs the logarithm of
    /// the number of jobs, and those of a greater number.
    fn make_place(&mut self, job: u64, slots: TaskList) -> Result<(), NoMemory>
        requires { slots ≡ [] }
        ensures { self.new ≡ self.old }
    {
        if let Err(place) = place_of(&self.jobs, self.notes.guess(job), job) {
            put_place(&mut self.jobs, &mut self.parts, place, job, slots)?;
            self.notes.note(job, place);
        }
        Ok(())
    }

    /// The tasks of a job; `None` only where it has none.
    fn find(&self, job: u64) -> Option<&TaskList>
        ensures none { IfNone result (filter (is_task_of job) self.now ≡ []) }
        ensures part { IfSome result (λ tasks. tasks.now ≡ filter (is_task_of job) self.now) }
    {
        match place_of(&self.jobs, self.notes.guess(job), job) {
            Ok(place) => Some(&self.parts[place]),
            Err(_gap) => None,
        }
    }

    /// Puts a task in, or replaces what it asks for. A refused call leaves the tasks. Costs the
    /// logarithms of the number of jobs and of the job's slots at most; a job without a place costs besides
    /// the jobs of a greater number, and a task without a slot all slots of the job.
    pub fn insert(&mut self, key: TaskKey, spec: Spec) -> Result<(), NoMemory>
        requires { key.index < first_extra }
        ensures ok { OnOk result (self.new ≡ with_wanted key spec self.old) }
        ensures err { OnErr result (self.new ≡ self.old) }
        ensures low { All HasLowIndex self.new }
    {
        let guess = self.notes.guess(key.job);
        let place = place_for(self.alloc, &mut self.jobs, &mut self.parts, guess, key.job)?;
        self.notes.note(key.job, place);
        self.parts[place].insert(key, spec)?;
        Ok(())
    }

    /// Takes a task out, if it is there. Costs the logarithms of the number of jobs and of the job's
    /// slots at most.
    pub fn remove(&mut self, key: TaskKey)
        ensures tasks { self.new ≡ filter (λ task. not (is_named key task)) self.old }
        ensures low { All HasLowIndex self.new }
    {
        match place_of(&self.jobs, self.notes.guess(key.job), key.job) {
            Ok(place) => {
                self.notes.note(key.job, place);
                self.parts[place].remove(key);
            }
            Err(_gap) => {}
        }
    }

    /// Whether a task is wanted. Costs the logarithms of the number of jobs and of the job's slots at most.
    pub fn contains(&self, key: TaskKey) -> bool
        ensures { result ≡ list_any (is_named key) self.now }
    {
        match self.find(key.job) {
            Some(tasks) => tasks.contains(key),
            None => false,
        }
    }

    /// Whether a task of a job is wanted. Costs the logarithm of the number of jobs.
    pub fn has_job(&self, job: u64) -> bool
        ensures any { result ≡ list_any (is_task_of job) self.now }
        ensures wanted { result ≡ is_wanted self.now job }
    {
        match self.find(job) {
            Some(tasks) => tasks.has_any(),
            None => false,
        }
    }

    /// How many tasks of a job are wanted. Costs the logarithm of the number of jobs.
    pub fn count_of(&self, job: u64) -> usize
        ensures { result ≡ length (wanted_of job self.now) }
    {
        match self.find(job) {
            Some(tasks) => tasks.len(),
            None => 0,
        }
    }

    /// What a row does to the tasks. Costs the logarithms of the number of jobs and of the job's slots at
    /// most.
    pub fn change_of(&self, row: &TaskRow) -> TaskChange
        ensures change { wanted_after_task self.now row.now ≡ changed_by result row.now self.now }
        ensures low { row.now.key.index < first_extra }
    {
        match row.code {
            0 | 1 => TaskChange::Want,
            3..=6 => TaskChange::End,
            7.. if self.contains(row.key) => TaskChange::Want,
            _ => TaskChange::Keep,
        }
    }

    /// The job of each task that doesn't run, in order of the tasks' keys. Costs the jobs, of each its blocks of
    /// slots and in those with a wanted task the slots, and of each wanted task the logarithm of the number of
    /// those that run.
    pub fn waiting_jobs(&self, alloc: Global, running: &Running) -> Result<Vec<u64>, NoMemory>
        ensures { IfOk result (λ jobs. (machines : List Machine) → jobs.items ≡ map (λ task. task.key.job) (filter (waits (record { machines = machines; tasks = running.now.tasks })) self.now)) }
    {
        waiting_in(alloc, &self.parts, running)
    }

    /// Whether each wanted task of a job runs. Costs the logarithm of the number of jobs; of the job the blocks
    /// of slots and in those with a wanted task the slots, up to the first task that is wanted and doesn't run;
    /// and of each wanted task the logarithm of the number of those that run.
    pub fn all_run(&self, job: u64, running: &Running) -> bool
        ensures { IsTrue result ↔ All (RunsIfOf job running.now.tasks) self.now }
    {
        match self.find(job) {
            Some(tasks) => tasks.all_run(job, running),
            None => true,
        }
    }

    /// The wanted tasks of a job, by index. Costs the logarithm of the number of jobs, of the job the blocks of
    /// slots and in those with a wanted task the slots, and the memory of the wanted tasks.
    pub fn of_job(&self, alloc: Global, job: u64) -> Result<Vec<(TaskKey, Spec)>, NoMemory>
        ensures { IfOk result (λ found. map wanted_task found.items ≡ wanted_of job self.now) }
    {
        match self.find(job) {
            Some(tasks) => tasks.of_job(alloc, job),
            None => Ok(Vec::new(alloc)),
        }
    }
}

/// The job of each task of these lists that doesn't run, in their order.
fn waiting_in(alloc: Global, parts: &[TaskList], running: &Running) -> Result<Vec<u64>, NoMemory>
    ensures { IfOk result (λ jobs. jobs.items ≡ flat_map (waiting_jobs running.now.tasks) parts.now) }
{
    let mut jobs = Vec::new(alloc);
    for tasks in parts {
        tasks.push_waiting(running, &mut jobs)?;
    }
    Ok(jobs)
}

/// Where a job stands among these, which rise, or else where it would stand. The place `guess` is
/// looked at first. Costs the logarithm of the number of jobs, if it doesn't stand there.
fn place_of(jobs: &[u64], guess: usize, job: u64) -> Result<usize, usize>
    requires { NeverFall jobs.now }
    ensures { MatchResult result (StandsAt jobs.now job) (BelongsAt jobs.now job) }
{
    if guess < jobs.len() && jobs[guess] == job {
        return Ok(guess);
    }
    jobs.binary_search(&job)
}

/// Where a job stands among these, after a place with no tasks was made for it where there was none. A refused
/// call leaves what stands there. Costs as much as to look for it, and for a new place the jobs of a
/// greater number.
fn place_for(
    alloc: Global,
    jobs: &mut Vec<u64>,
    parts: &mut Vec<TaskList>,
    guess: usize,
    job: u64,
) -> Result<usize, NoMemory>
    requires { AreParts jobs.old.items parts.old.items }
    ensures kept { AreParts jobs.new.items parts.new.items }
    ensures same { joined parts.new.items ≡ joined parts.old.items }
    ensures place { IfOk result (StandsAt jobs.new.items job) }
{
    match place_of(jobs, guess, job) {
        Ok(place) => Ok(place),
        Err(place) => {
            put_place(jobs, parts, place, job, TaskList::new(alloc))?;
            Ok(place)
        }
    }
}

/// Makes a place with these slots for the tasks of a job where it belongs. A refused call leaves what
/// stands there. Costs the jobs of a greater number.
fn put_place(
    jobs: &mut Vec<u64>,
    parts: &mut Vec<TaskList>,
    place: usize,
    job: u64,
    slots: TaskList,
) -> Result<(), NoMemory>
    requires empty { slots ≡ [] }
    requires parts { AreParts jobs.old.items parts.old.items }
    requires belongs { BelongsAt jobs.old.items job place }
    ensures kept { AreParts jobs.new.items parts.new.items }
    ensures same { joined parts.new.items ≡ joined parts.old.items }
    ensures place { OnOk result (StandsAt jobs.new.items job place) }
{
    jobs.reserve(1)?;
    parts.insert(place, slots)?;
    match jobs.insert(place, job) {
        Ok(()) => Ok(()),
        Err(_) => unreachable!(),
    }
}

/// The keys of tasks of a job.
#[derive(Drop)]
struct JobKeys {
    job: u64,
    keys: Vec<TaskKey>,
}

/// The keys of the tasks that these rows submit or schedule, in the order of the rows: a list for each of these
/// jobs, in their order. Where a job's keys come in order, each stands in its list once.
fn keys_of_jobs(alloc: Global, rows: &[TaskRow], jobs: &Jobs) -> Result<Vec<JobKeys>, NoMemory> {
    let mut lists = empty_lists(alloc, jobs)?;
    for row in rows {
        if row.code > 1 {
            continue;
        }
        let Some(place) = jobs.place(row.key.job) else {
            continue;
        };
        if let Some(list) = lists.get_mut(place) {
            take_key(&mut list.keys, row.key)?;
        }
    }
    Ok(lists)
}

/// An empty list for each of these jobs, in their order.
fn empty_lists(alloc: Global, jobs: &Jobs) -> Result<Vec<JobKeys>, NoMemory> {
    let numbers = jobs.numbers(alloc)?;
    let mut lists = Vec::with_capacity(alloc, numbers.len())?;
    for job in numbers {
        lists.push(JobKeys {
            job,
            keys: Vec::new(alloc),
        })?;
    }
    Ok(lists)
}

/// Appends a key, unless it is found among those that are there, which it is where they rise. Costs the logarithm
/// of their number where it neither stands at the place of its index nor is greater than the last one.
fn take_key(keys: &mut Vec<TaskKey>, key: TaskKey) -> Result<(), NoMemory> {
    if keys.get(key.index as usize) == Some(&key) {
        return Ok(());
    }
    if keys.last() < Some(&key) || keys.binary_search(&key).is_err() {
        keys.push(key)?;
    }
    Ok(())
}
