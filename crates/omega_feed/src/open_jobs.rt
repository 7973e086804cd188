//! The jobs of which something may have to be placed.
ghost use Rattle.std.specs.Prelude.{◌≡◌, ◌<◌, ◌⊎◌, ℕ, [], true, length, OnErr, OnOk};
ghost use Rattle.std.specs.BTreeSet.{contains};
ghost use Rattle.std.specs.Ordering.{nat_cmp};
ghost use Rattle.omega_feed.specs.Open.{IsOpen, IsSettled, NoneIsQuiet, OpensAtMost, OthersAreQuiet, SameIsOpen, SameIsOpenForOthers, StayOpen, is_open};

use crate::jobs::JobPlace;
use crate::wanted::Wanted;
use omega_board::Board;
use omega_model::NoMemory;
use std::alloc::Global;
use std::collections::BTreeSet;
use std::marker::Model;

/// The jobs of which something may have to be placed, for each scheduler its own, by their places among all jobs,
/// from 0. Whenever requests are made, all other jobs are quiet: each of their wanted tasks runs, and they get no
/// extras.
#[derive(Drop)]
pub struct OpenJobs {
    alloc: Global,
    /// The places of each scheduler's jobs, from scheduler 0 on, up to the last one of which a job was opened.
    places: Vec<BTreeSet<usize>>,
    /// The places of a scheduler behind that one: none.
    none: BTreeSet<usize>,
    /// The place that was opened last, while it is open: rows that follow one another are mostly of one job.
    latest: Option<JobPlace>,
}

impl Model for OpenJobs {
    ghost use Rattle.std.specs.Prelude.{◌≡◌, []};
    ghost use Rattle.omega_feed.specs.Open.{LatestIsOpen, OpenPlaces};

    ghost Value = { OpenPlaces };

    ghost view = { λ jobs. jobs.places.items };

    ghost invariant = { λ jobs. (jobs.none.keys ≡ []) × LatestIsOpen jobs.places.items jobs.latest };
}

impl OpenJobs {
    /// None is open.
    pub fn new(alloc: Global) -> OpenJobs
        ensures { result ≡ [] }
    {
        OpenJobs {
            alloc,
            places: Vec::new(alloc),
            none: BTreeSet::new(alloc),
            latest: None,
        }
    }

    /// Opens a job for its scheduler, if the trace has it, and no other. A refused call leaves what is open. Costs the
    /// logarithm of the number of jobs; for the job that was opened last, to look up its place and no more. The first
    /// job that is opened of a scheduler costs a look at the schedulers before it.
    pub fn reopen(&mut self, wanted: &Wanted, job: u64) -> Result<(), NoMemory>
        ensures stay { StayOpen self.old self.new }
        ensures ok { OnOk result (IsOpen self.new wanted.now job) }
        ensures alone { OpensAtMost self.old self.new wanted.now job }
        ensures err { OnErr result (SameIsOpen self.old self.new) }
    {
        let Some(place) = wanted.place(job) else {
            return Ok(());
        };
        if self.latest == Some(place) {
            return Ok(());
        }
        open_at(self.alloc, &mut self.places, place)?;
        self.latest = Some(place);
        Ok(())
    }

    /// Closes each job of a scheduler that is quiet on the cell of a board, and no other: one of which no wanted
    /// task waits, and that gets no extras, since it has no activities, no wanted task, or all its extras.
    /// Costs of each open job of the scheduler its blocks of slots and in those with a wanted task the slots, up to its
    /// first task that waits, and of each wanted task the logarithm of the number of those that run; of a job
    /// with activities this logarithm once more. Other schedulers' jobs cost nothing.
    pub fn settle(&mut self, scheduler: u32, wanted: &Wanted, board: &Board)
        requires { OthersAreQuiet self.old wanted.now board.now.tasks }
        ensures quiet { OthersAreQuiet self.new wanted.now board.now.tasks }
        ensures closed { NoneIsQuiet self.new scheduler wanted.now board.now.tasks }
        ensures fewer { StayOpen self.new self.old }
        ensures others { SameIsOpenForOthers scheduler self.old self.new }
    {
        let scheduler = scheduler as usize;
        self.latest = None;
        if scheduler < self.places.len() {
            close_quiet(&mut self.places[scheduler], wanted, board);
        }
    }

    /// The places that are open for a scheduler, in order.
    pub(crate) fn places(&self, scheduler: u32) -> &BTreeSet<usize>
        ensures { (place : ℕ) → contains nat_cmp result.now place ≡ is_open self.now scheduler place }
    {
        match self.places.get(scheduler as usize) {
            Some(own) => own,
            None => &self.none,
        }
    }
}

/// Opens a place for a scheduler. A refused call leaves what is open.
fn open_at(alloc: Global, places: &mut Vec<BTreeSet<usize>>, new: JobPlace) -> Result<(), NoMemory>
    ensures stay { StayOpen places.old.items places.new.items }
    ensures ok { OnOk result (is_open places.new.items new.scheduler new.place ≡ true) }
    ensures alone { (scheduler place : ℕ) → is_open places.new.items scheduler place ≡ true
        → (is_open places.old.items scheduler place ≡ true) ⊎ ((scheduler ≡ new.scheduler) × (place ≡ new.place)) }
    ensures err { OnErr result (SameIsOpen places.old.items places.new.items) }
{
    let scheduler = new.scheduler as usize;
    make_sets(alloc, places, scheduler)?;
    places[scheduler].insert(new.place)?;
    Ok(())
}

/// Adds sets with nothing in them until a scheduler has one.
fn make_sets(
    alloc: Global,
    places: &mut Vec<BTreeSet<usize>>,
    scheduler: usize,
) -> Result<(), NoMemory>
    ensures same { SameIsOpen places.old.items places.new.items }
    ensures there { OnOk result (scheduler < length places.new.items) }
{
    while places.len() <= scheduler {
        places.push(BTreeSet::new(alloc))?;
    }
    Ok(())
}

/// Takes out the places of jobs that are quiet on the cell of a board.
fn close_quiet(places: &mut BTreeSet<usize>, wanted: &Wanted, board: &Board)
    ensures { IsSettled wanted.now board.now.tasks places.old places.new }
{
    places.retain(|place| wanted.waits_at(*place, board));
}
