//! What a trace asks for, row by row.
ghost use Rattle.std.specs.Prelude.{◌≡◌, ◌<◌, ◌++◌, ◌∷◌, ◌↔◌, ◌⊎◌, ℕ, false, [], Some, None, All, List, map, not, IfOk, IsTrue, OnOk, OnErr, is_some, unwrap_or};
ghost use Rattle.std.specs.List.{filter, list_any};
ghost use Rattle.omega_model.specs.Applying.{CapacityIsInRange};
ghost use Rattle.omega_model.specs.OpenRequests.{open_requests};
ghost use Rattle.omega_model.specs.Feed.{feed};
ghost use Rattle.omega_model.specs.Ranges.{IsInRange};
ghost use Rattle.omega_model.specs.Cell.{task_at};
ghost use Rattle.omega_model.specs.ExtraTasks.{HasLowIndex, first_extra};
ghost use Rattle.omega_model.specs.RowEntries.{row_entries};
ghost use Rattle.omega_model.specs.Wanted.{is_named, wanted_after, wanted_after_task, with_wanted};
ghost use Rattle.omega_model.specs.declared.cells.Task.{Task};
ghost use Rattle.omega_model.specs.declared.rows.Row.{Row};
ghost use Rattle.omega_model.specs.declared.rows.TraceTables.{TraceTables};
ghost use Rattle.omega_model.specs.declared.settings.Settings.{Settings};
ghost use Rattle.omega_board.specs.Board.{cell_of};
ghost use Rattle.omega_running.specs.Kept.{KeysRise};
ghost use Rattle.omega_feed.specs.Asked.{activities_in, asked_after, asked_wish, asked_wishes, extras_after, is_task_of};
ghost use Rattle.omega_feed.specs.Events.{HasOthers};
ghost use Rattle.omega_feed.specs.Counted.{request_for};
ghost use Rattle.omega_feed.specs.Index.{HasLowTask, StandsAt, routed_request, wanted_task};
ghost use Rattle.omega_feed.specs.Left.{AreLeft};
ghost use Rattle.omega_feed.specs.Open.{GetsNoExtras, IsOpen, IsQuietAt, OpensAtMost, OthersAreQuiet, RowOpens, SaysWaits, StayOpen, is_missed};

use crate::activities::JobActivities;
use crate::constraints::TaskConstraints;
use crate::disks::MachineDisks;
use crate::entries::entries_of;
use crate::events::Events;
use crate::extras::{extra_count, has_all, running_indexes};
use crate::jobs::{JobPlace, Jobs, RoutedJob};
use crate::open_jobs::OpenJobs;
use crate::tasks::{TaskChange, WantedTasks};
use crate::unplaced::{WaitingTasks, each_once};
use omega_board::Board;
use omega_mapreduce::{CountedExtras, CountedRequest, CountedRequests};
use omega_model::{
    Entries, Extra, NoMemory, Row, Settings, Spec, TaskKey, TaskRow, TraceTables, Wish, Wishes,
};
use omega_running::{FIRST_EXTRA, Running};
use std::alloc::Global;
use std::marker::Model;

/// What a trace asks for after some of its rows. No wanted task has the index of an extra.
#[derive(Drop)]
pub struct Wanted {
    jobs: Jobs,
    constraints: TaskConstraints,
    disks: MachineDisks,
    activities: JobActivities,
    extra: Extra,
    tasks: WantedTasks,
}

impl Model for Wanted {
    ghost use Rattle.std.specs.Prelude.{All};
    ghost use Rattle.omega_model.specs.ExtraTasks.{HasLowIndex};
    ghost use Rattle.omega_feed.specs.Asked.{Asked};

    ghost Value = { Asked };

    ghost view = { λ wanted. record { jobs = wanted.jobs; constraints = wanted.constraints; disks = wanted.disks; activities = wanted.activities; extra = wanted.extra; tasks = wanted.tasks } };

    ghost invariant = { λ wanted. All HasLowIndex wanted.tasks };
}

impl Wanted {
    /// What a trace with these events asks for before its first row, where the tables have its other rows, of
    /// which the constraints are taken over: no task is wanted. Costs two look-ups for each task row and one for each
    /// task, five more for each job, two for each constraint, and one for each row of disks and of activities; the
    /// keys of a job's tasks are sorted where they don't come in order. Takes the memory of a slot for each task.
    pub fn new(
        alloc: Global,
        tables: TraceTables,
        events: &Events,
        settings: &Settings,
    ) -> Result<Wanted, NoMemory>
        requires { IsInRange settings.now }
        ensures { (trace : TraceTables) → events.now ≡ feed trace → HasOthers trace tables
            → IfOk result (λ wanted. wanted ≡ asked_after settings.now trace []) }
    {
        let TraceTables {
            constraints,
            activities,
            disks,
            ..
        } = tables;
        let activities = JobActivities::new(alloc, &activities)?;
        let rows = events.tasks();
        let jobs = Jobs::of(alloc, rows, settings, &activities)?;
        let tasks = WantedTasks::of_rows(alloc, rows, &jobs)?;
        Ok(Wanted {
            jobs,
            constraints: TaskConstraints::new(alloc, constraints)?,
            disks: MachineDisks::new(alloc, &disks)?,
            activities,
            extra: settings.extra,
            tasks,
        })
    }

    /// Applies a row: a task that it submits or schedules is wanted as it says, so is a wanted task that it
    /// updates, and a task that it ends is no longer wanted. The row opens its job if its task becomes wanted;
    /// of a job with activities, whenever it wants or ends a task. No other job is opened. A refused call leaves
    /// what is wanted, and may have opened the job.
    /// Costs the logarithms of the number of jobs and of the job's slots, and mostly neither: a job mostly
    /// stands where it is noted, and a task where its index says.
    pub fn take(&mut self, row: &Row, open_jobs: &mut OpenJobs) -> Result<(), NoMemory>
        ensures ok { OnOk result (self.new ≡ record self.old { tasks = wanted_after self.old.tasks row.now }) }
        ensures err { OnErr result (self.new ≡ self.old) }
        ensures asked { (settings : Settings) (trace : TraceTables) (rows : List Row)
            → self.old ≡ asked_after settings trace rows
            → OnOk result (self.new ≡ asked_after settings trace (rows ++ row.now ∷ [])) }
        ensures quiet { (tasks : List Task) → OthersAreQuiet open_jobs.old self.old tasks
            → OnOk result (OthersAreQuiet open_jobs.new self.new tasks) }
        ensures stay { StayOpen open_jobs.old open_jobs.new }
        ensures alone { RowOpens open_jobs.old open_jobs.new self.old row.now }
    {
        match row {
            Row::Task(row) => self.take_task(row, open_jobs),
            _ => Ok(()),
        }
    }

    fn take_task(&mut self, row: &TaskRow, open_jobs: &mut OpenJobs) -> Result<(), NoMemory>
        ensures ok { OnOk result (self.new ≡ record self.old { tasks = wanted_after_task self.old.tasks row.now }) }
        ensures err { OnErr result (self.new ≡ self.old) }
        ensures quiet { (tasks : List Task) → OthersAreQuiet open_jobs.old self.old tasks
            → OnOk result (OthersAreQuiet open_jobs.new self.new tasks) }
        ensures stay { StayOpen open_jobs.old open_jobs.new }
        ensures alone { OpensAtMost open_jobs.old open_jobs.new self.old row.now.key.job }
    {
        match self.tasks.change_of(row) {
            TaskChange::Want => self.want(row.key, row.spec, open_jobs),
            TaskChange::End => self.end(row.key, open_jobs),
            TaskChange::Keep => Ok(()),
        }
    }

    /// A task is no longer wanted. Its job is opened where it has activities, since it may then get other
    /// extras.
    fn end(&mut self, key: TaskKey, open_jobs: &mut OpenJobs) -> Result<(), NoMemory>
        ensures ok { OnOk result (self.new ≡ record self.old { tasks = filter (λ task. not (is_named key task)) self.old.tasks }) }
        ensures err { OnErr result (self.new ≡ self.old) }
        ensures quiet { (tasks : List Task) → OthersAreQuiet open_jobs.old self.old tasks
            → OnOk result (OthersAreQuiet open_jobs.new self.new tasks) }
        ensures stay { StayOpen open_jobs.old open_jobs.new }
        ensures alone { OpensAtMost open_jobs.old open_jobs.new self.old key.job }
    {
        self.reopen_mapreduce(key.job, open_jobs)?;
        self.tasks.remove(key);
        Ok(())
    }

    /// Opens a job if it has activities, and no other.
    fn reopen_mapreduce(&self, job: u64, open_jobs: &mut OpenJobs) -> Result<(), NoMemory>
        ensures stay { StayOpen open_jobs.old open_jobs.new }
        ensures ok { OnOk result (IsOpen open_jobs.new self.now job ⊎ (activities_in self.now.activities job ≡ None)) }
        ensures alone { OpensAtMost open_jobs.old open_jobs.new self.now job }
    {
        if self.activities.of(job).is_none() {
            return Ok(());
        }
        open_jobs.reopen(self, job)
    }

    /// A task is wanted, or a wanted task asks for something else. Its job is opened where the task wasn't
    /// wanted before or the job has activities; else the task waits as before or runs.
    fn want(&mut self, key: TaskKey, spec: Spec, open_jobs: &mut OpenJobs) -> Result<(), NoMemory>
        requires { key.index < first_extra }
        ensures ok { OnOk result (self.new ≡ record self.old { tasks = with_wanted key spec self.old.tasks }) }
        ensures err { OnErr result (self.new ≡ self.old) }
        ensures quiet { (tasks : List Task) → OthersAreQuiet open_jobs.old self.old tasks
            → OnOk result (OthersAreQuiet open_jobs.new self.new tasks) }
        ensures stay { StayOpen open_jobs.old open_jobs.new }
        ensures alone { OpensAtMost open_jobs.old open_jobs.new self.old key.job }
    {
        if self.tasks.contains(key) && self.activities.of(key.job).is_none() {
            self.tasks.insert(key, spec)?;
            return Ok(());
        }
        open_jobs.reopen(self, key.job)?;
        self.tasks.insert(key, spec)?;
        Ok(())
    }

    /// Whether the end of a task may let something of its job wait: the task is wanted, or it is an extra
    /// and a task of its job is wanted. Costs at most the logarithms of the number of jobs and of the job's
    /// slots.
    pub fn misses(&self, key: TaskKey) -> bool
        ensures { result ≡ is_missed self.now key }
    {
        self.tasks.contains(key) || (key.index >= FIRST_EXTRA && self.tasks.has_job(key.job))
    }

    /// The place of a job among all jobs of the trace, and its scheduler: the only place at which it stands,
    /// `None` exactly where there is none. Costs the logarithm of their number.
    pub(crate) fn place(&self, job: u64) -> Option<JobPlace>
        ensures { (place scheduler : ℕ) → (result ≡ Some (record { place = place; scheduler = scheduler })) ↔ StandsAt self.now.jobs place job scheduler }
    {
        self.jobs.routed(job)
    }

    /// Whether the job at a place is quiet on the cell of a board: none of its wanted tasks waits, and
    /// it gets no extras. Costs the job's blocks of slots and in those with a wanted task the slots, up to its
    /// first task that waits, and of each wanted task the logarithm of the number of those that run; of a job
    /// with activities this logarithm once more.
    fn is_quiet_at(&self, place: usize, board: &Board) -> bool
        ensures { IsTrue result ↔ IsQuietAt self.now board.now.tasks place }
    {
        let Some(RoutedJob { job, .. }) = self.jobs.at(place) else {
            return true;
        };
        if !self.tasks.all_run(job, board.running()) {
            return false;
        }
        self.gets_no_extras(job, board.running())
    }

    /// Whether the job at a place isn't quiet on the cell of a board. Costs what `is_quiet_at` costs.
    pub(crate) fn waits_at(&self, place: usize, board: &Board) -> bool
        ensures { SaysWaits self.now board.now.tasks place result }
    {
        !self.is_quiet_at(place, board)
    }

    /// Whether a job gets no extras while these tasks run: it has no activities, no task of it is wanted,
    /// or it has all that it should have.
    fn gets_no_extras(&self, job: u64, running: &Running) -> bool
        requires { KeysRise running.now.tasks }
        ensures { IsTrue result ↔ GetsNoExtras self.now running.now.tasks job }
    {
        let Some(activities) = self.activities.of(job) else {
            return true;
        };
        let wanted = self.tasks.count_of(job);
        if wanted == 0 {
            return true;
        }
        let held = running.count_extras(job);
        has_all(self.extra, activities, wanted, held)
    }

    /// The entries of the row that was taken last, on the cell of a board. Costs the logarithm of the
    /// number of tasks that are wanted or run, and of a job that the row leaves without a wanted task the
    /// running extras and few others of its running tasks.
    pub fn entries(&self, alloc: Global, row: Row, board: &Board) -> Result<Entries, NoMemory>
        ensures entries { IfOk result (λ entries. entries ≡ row_entries self.now.disks (cell_of board.now) self.now.tasks row) }
        ensures range { IfOk result (λ entries. All CapacityIsInRange entries) }
        ensures row { HasLowTask row }
    {
        entries_of(alloc, row, &self.disks, &self.tasks, board.running())
    }

    /// What a scheduler is asked to place on the cell of a board: its jobs in order of their first
    /// task row, each with its wanted tasks that don't run, by index, and then its extras. A job of which
    /// nothing is to be placed is left out; a job that is given up is not.
    ///
    /// Only its open jobs are looked at. Costs their number, their blocks of slots, in those with a wanted task the
    /// slots, and of each wanted task the logarithm of the number of those that run. A job with activities costs this logarithm once more and, where it gets extras, its running ones.
    /// The wishes for extras are counted and not listed. Each other wish costs a copy of its constraints, and so do
    /// all those for extras of a job together. The number of machines costs nothing.
    pub fn requests(
        &self,
        alloc: Global,
        scheduler: u32,
        board: &Board,
        open_jobs: &OpenJobs,
    ) -> Result<CountedRequests, NoMemory>
        requires quiet { OthersAreQuiet open_jobs.now self.now board.now.tasks }
        ensures requests { IfOk result (λ requests. (settings : Settings) (trace : TraceTables) (rows : List Row)
            → self.now ≡ asked_after settings trace rows
            → requests ≡ open_requests settings trace rows (cell_of board.now) scheduler) }
        ensures low { All HasLowIndex self.now.tasks }
    {
        let mut requests = CountedRequests::new(alloc);
        for place in open_jobs.places(scheduler).iter() {
            let job = self.jobs.at(*place);
            if let Some(request) = self.request_of(alloc, job, scheduler, board)? {
                requests.push(request)?;
            }
        }
        Ok(requests)
    }

    /// How many wanted tasks don't run on a board, and their jobs, each once. Costs of each job of the trace
    /// its blocks of slots and in those with a wanted task the slots, and for each wanted task the logarithm of
    /// the number of those that run or wait.
    pub fn left(&self, alloc: Global, board: &Board) -> Result<WaitingTasks, NoMemory>
        ensures { IfOk result (AreLeft self.now.tasks (cell_of board.now)) }
    {
        let jobs = self.tasks.waiting_jobs(alloc, board.running())?;
        Ok(WaitingTasks {
            tasks: jobs.len() as u64,
            jobs: each_once(alloc, &jobs)?,
        })
    }

    /// The request of a job, if the job is this scheduler's and something of it is to be placed.
    fn request_of(
        &self,
        alloc: Global,
        job: Option<RoutedJob>,
        scheduler: u32,
        board: &Board,
    ) -> Result<Option<CountedRequest>, NoMemory>
        ensures { IfOk result (λ request. request ≡ routed_request self.now (cell_of board.now) scheduler job) }
    {
        let Some(
            RoutedJob {
                job,
                scheduler: home,
            },
        ) = job
        else {
            return Ok(None);
        };
        if home != scheduler {
            return Ok(None);
        }
        let request = self.counted_of(alloc, job, board)?;
        if request.is_empty() {
            return Ok(None);
        }
        Ok(Some(request))
    }

    /// What is wished for of a job: its wanted tasks that don't run, by index, and then its extras.
    fn counted_of(&self, alloc: Global, job: u64, board: &Board) -> Result<CountedRequest, NoMemory>
        ensures { IfOk result (λ request. request ≡ request_for job (asked_wishes self.now (cell_of board.now) job)) }
    {
        let wanted = self.tasks.of_job(alloc, job)?;
        let wishes = self.waiting(alloc, &wanted, board.running())?;
        let extras = self.extras_of(alloc, job, &wanted, board)?;
        Ok(CountedRequest::new(job, wishes, extras))
    }

    /// The wishes for those of some wanted tasks that don't run.
    fn waiting(
        &self,
        alloc: Global,
        wanted: &[(TaskKey, Spec)],
        running: &Running,
    ) -> Result<Wishes, NoMemory>
        ensures { IfOk result (λ wishes. wishes ≡ map (asked_wish self.now.constraints) (filter (λ task. not (is_some (task_at running.now.tasks task.key))) (map wanted_task wanted.now))) }
    {
        let mut wishes = Wishes::new(alloc);
        for (key, spec) in wanted {
            if running.get(*key).is_none() {
                wishes.push(Wish {
                    key: *key,
                    spec: *spec,
                    constraints: self.constraints.of(alloc, *key)?,
                })?;
            }
        }
        Ok(wishes)
    }

    /// The wishes for the extras of a job of which these tasks are wanted, if it gets any: each needs what the
    /// first of these tasks needs and has its constraints.
    fn extras_of(
        &self,
        alloc: Global,
        job: u64,
        wanted: &[(TaskKey, Spec)],
        board: &Board,
    ) -> Result<Option<CountedExtras>, NoMemory>
        ensures { IfOk result (λ extras. unwrap_or extras [] ≡ extras_after self.now (cell_of board.now) job (activities_in self.now.activities job) (map wanted_task wanted.now)) }
    {
        let Some(activities) = self.activities.of(job) else {
            return Ok(None);
        };
        let Some(model) = wanted.first() else {
            return Ok(None);
        };
        let held = board.running().count_extras(job);
        let need = model.1.need;
        let count = extra_count(self.extra, activities, wanted.len(), held, need, board);
        if count == 0 {
            return Ok(None);
        }
        let running = running_indexes(alloc, board.running(), job)?;
        let constraints = self.constraints.of(alloc, model.0)?;
        Ok(Some(CountedExtras::new(model.0.job, need, constraints, running, count)))
    }
}
