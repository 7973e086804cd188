//! The jobs of a trace in order of their first task row.
ghost use Rattle.std.specs.Prelude.{◌≡◌, ◌↔◌, [], ℕ, false, Some, map, slice_get, OnOk, OnErr, IfOk, IsTrue};
ghost use Rattle.std.specs.List.{list_any};
ghost use Rattle.omega_model.specs.Feed.{feed};
ghost use Rattle.omega_model.specs.Ranges.{IsInRange};
ghost use Rattle.omega_model.specs.Requests.{jobs_in_order};
ghost use Rattle.omega_model.specs.Routing.{scheduler_for};
ghost use Rattle.omega_model.specs.declared.rows.TraceTables.{TraceTables};
ghost use Rattle.omega_feed.specs.Asked.{home, is_job, routed, with_job};
ghost use Rattle.omega_feed.specs.Events.{task_rows};
ghost use Rattle.omega_feed.specs.Index.{StandsAt, job_at};

use crate::activities::JobActivities;
use crate::notes::PlaceNotes;
use omega_model::{NoMemory, Settings, TaskRow};
use std::alloc::Global;
use std::collections::BTreeMap;
use std::marker::Model;

/// A job and the scheduler that works on it.
#[derive(Clone, Copy, Debug, PartialEq, Eq)]
pub struct RoutedJob {
    /// The job's number.
    pub job: u64,
    /// The scheduler's number, from 0: 0 for services, the last one for MapReduce jobs.
    pub scheduler: u32,
}

/// Where a job stands among all jobs, and the scheduler that works on it.
#[derive(Clone, Copy, Debug, PartialEq, Eq)]
pub struct JobPlace {
    /// The place, from 0.
    pub place: usize,
    /// The scheduler's number, from 0.
    pub scheduler: u32,
}

/// Jobs in an order, found by place and by number. A job mostly stands at the place that is noted for
/// its number; else a balanced tree has its place.
#[derive(Drop)]
pub struct Jobs {
    list: Vec<RoutedJob>,
    places: BTreeMap<u64, usize>,
    notes: PlaceNotes,
}

impl Model for Jobs {
    ghost use Rattle.std.specs.Prelude.{List};
    ghost use Rattle.omega_feed.specs.declared.jobs.RoutedJob.{RoutedJob};

    ghost Value = { List RoutedJob };

    ghost use Rattle.omega_feed.specs.Index.{AreFound};

    ghost view = { λ jobs. jobs.list.items };

    ghost invariant = { λ jobs. AreFound jobs.places jobs.list.items };
}

impl Jobs {
    /// No jobs.
    pub fn new(alloc: Global) -> Jobs
        ensures { result ≡ [] }
    {
        Jobs {
            list: Vec::new(alloc),
            places: BTreeMap::new(alloc),
            notes: PlaceNotes::none(alloc),
        }
    }

    /// The jobs of a trace in order of their first task row, each with its scheduler, where these are
    /// its task rows in order of time and its activities. Costs a look-up for each row, and two more for each
    /// job.
    pub fn of(
        alloc: Global,
        rows: &[TaskRow],
        settings: &Settings,
        activities: &JobActivities,
    ) -> Result<Jobs, NoMemory>
        requires { IsInRange settings.now }
        ensures { (trace : TraceTables) → rows.now ≡ task_rows (feed trace) → activities.now ≡ trace.activities
            → IfOk result (λ jobs. jobs ≡ map (routed settings.now trace) (jobs_in_order (feed trace))) }
    {
        let mut jobs = Jobs::new(alloc);
        jobs.notes = PlaceNotes::for_count(alloc, rows.len())?;
        for row in rows {
            jobs.note(settings, activities, row)?;
        }
        Ok(jobs)
    }

    /// Appends the job of a task row with its scheduler, unless it is there.
    fn note(
        &mut self,
        settings: &Settings,
        activities: &JobActivities,
        row: &TaskRow,
    ) -> Result<(), NoMemory>
        requires { IsInRange settings.now }
        ensures { OnOk result (self.new ≡ with_job self.old (record { job = row.now.key.job; scheduler = home settings.now activities.now (Some row.now.class) row.now.key.job })) }
    {
        let job = row.key.job;
        if self.has(job) {
            return Ok(());
        }
        let scheduler = home(settings, activities, row.class, job);
        self.add(RoutedJob { job, scheduler })
    }

    /// Whether a job is there.
    fn has(&self, job: u64) -> bool
        ensures { result ≡ list_any (is_job job) self.now }
    {
        self.place(job).is_some()
    }

    /// Appends a job that isn't there. A refused call leaves the jobs.
    fn add(&mut self, job: RoutedJob) -> Result<(), NoMemory>
        requires { list_any (is_job job.job) self.old ≡ false }
        ensures ok { OnOk result (self.new ≡ with_job self.old job) }
        ensures err { OnErr result (self.new ≡ self.old) }
    {
        let place = self.list.len();
        self.places.insert(job.job, place)?;
        if self.list.push(job).is_err() {
            self.places.remove(&job.job);
            return Err(NoMemory);
        }
        self.notes.note(job.job, place);
        Ok(())
    }

    /// The numbers of the jobs, in their order.
    pub fn numbers(&self, alloc: Global) -> Result<Vec<u64>, NoMemory>
        ensures { IfOk result (λ numbers. numbers.items ≡ map (λ job. job.job) self.now) }
    {
        numbers_of(alloc, &self.list)
    }

    /// The place of a job: the only one at which it stands, `None` exactly where there is none. Costs
    /// the logarithm of their number.
    pub fn place(&self, job: u64) -> Option<usize>
        ensures { (place : ℕ) → (result ≡ Some place) ↔ (job_at self.now place ≡ Some job) }
    {
        let guess = self.notes.guess(job);
        if stands_at(&self.list, guess, job) {
            return Some(guess);
        }
        self.places.get(&job).copied()
    }

    /// The place of a job and its scheduler: the only place at which it stands, `None` exactly where there is
    /// none. Costs the logarithm of their number.
    pub fn routed(&self, job: u64) -> Option<JobPlace>
        ensures { (place scheduler : ℕ) → (result ≡ Some (record { place = place; scheduler = scheduler })) ↔ StandsAt self.now place job scheduler }
    {
        let Some(place) = self.place(job) else {
            return None;
        };
        match self.at(place) {
            Some(RoutedJob { scheduler, .. }) => Some(JobPlace { place, scheduler }),
            None => None,
        }
    }

    /// The job at a place, counted from 0. `None` exactly where there is none.
    pub fn at(&self, place: usize) -> Option<RoutedJob>
        ensures { result ≡ slice_get self.now place }
    {
        self.list.get(place).copied()
    }
}

/// Whether a job stands at a place.
fn stands_at(jobs: &[RoutedJob], place: usize, job: u64) -> bool
    ensures { IsTrue result → job_at jobs.now place ≡ Some job }
{
    match jobs.get(place) {
        Some(routed) => routed.job == job,
        None => false,
    }
}

/// The numbers of some jobs, in their order.
fn numbers_of(alloc: Global, jobs: &[RoutedJob]) -> Result<Vec<u64>, NoMemory>
    ensures { IfOk result (λ numbers. numbers.items ≡ map (λ job. job.job) jobs.now) }
{
    let mut numbers = Vec::with_capacity(alloc, jobs.len())?;
    for job in jobs {
        numbers.push(job.job)?;
    }
    Ok(numbers)
}

/// The scheduler of a job with a task of this class: the last one where it has activities, else that
/// for the class.
fn home(settings: &Settings, activities: &JobActivities, class: u8, job: u64) -> u32
    requires { IsInRange settings.now }
    ensures { result ≡ home settings.now activities.now (Some class) job }
{
    match activities.of(job) {
        Some(_) => settings.batch + 1,
        None => scheduler_for(settings, class, job),
    }
}

/// The scheduler for jobs of a class: 0 for services, whose class is 2 or 3, else one of the batch
/// schedulers from 1 on, by the job's number.
fn scheduler_for(settings: &Settings, class: u8, job: u64) -> u32
    requires { IsInRange settings.now }
    ensures { result ≡ scheduler_for settings.now (Some class) job }
{
    match class {
        2 | 3 => 0,
        _ => 1 + (job % u64::from(settings.batch)) as u32,
    }
}
