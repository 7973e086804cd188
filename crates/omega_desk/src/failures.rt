//! How many commits in a row placed nothing of each job.
ghost use Rattle.std.specs.Prelude.{◌≡◌, ◌<◌, ◌+◌, ◌^◌, [], OnOk};
ghost use Rattle.omega_desk.specs.Counts.{count_of, IsCounted, KeepsCounts, KeepsRoom, Notes};

use omega_model::NoMemory;
use std::alloc::Global;
use std::collections::BTreeMap;
use std::marker::Model;

/// For each job, how many commits in a row up to its last one placed nothing; 0 for a job that isn't
/// known. A look-up costs the logarithm of the jobs. A contract sees the jobs that there is room for,
/// each with its count.
#[derive(Debug, Drop)]
pub struct Failures {
    counts: BTreeMap<u64, u64>,
}

impl Model for Failures {
    ghost use Rattle.std.specs.Prelude.{ℕ, List};

    ghost Value = { List (ℕ × ℕ) };

    ghost view = { λ failures. failures.counts.entries };
}

impl Failures {
    /// No job has failed, and there is room for none.
    pub fn new(alloc: Global) -> Failures
        ensures { result ≡ [] }
    {
        Failures {
            counts: BTreeMap::new(alloc),
        }
    }

    /// The count of a job.
    pub fn of(&self, job: u64) -> u64
        ensures { result ≡ count_of self.now job }
    {
        self.counts.get(&job).copied().unwrap_or(0)
    }

    /// Makes room for the count of a job, so that `note` can't fail. Where memory runs out all counts
    /// are as they were.
    pub fn reserve(&mut self, job: u64) -> Result<(), NoMemory>
        ensures counts { KeepsCounts self.old self.new }
        ensures room { OnOk result (IsCounted self.new job) }
        ensures others { KeepsRoom self.old self.new }
    {
        if !self.counts.contains_key(&job) {
            self.counts.insert(job, 0)?;
        }
        Ok(())
    }

    /// Counts one more commit for a job: where it placed something the count is 0 again, else one
    /// more. Answers the job's count after it.
    pub fn note(&mut self, job: u64, placed: bool) -> u64
        requires room { IsCounted self.old job }
        requires few { count_of self.old job + 1 < 2 ^ 64 }
        ensures count { result ≡ count_of self.new job }
        ensures counts { Notes self.old self.new job placed }
        ensures others { KeepsRoom self.old self.new }
    {
        let count = if placed { 0 } else { self.of(job) + 1 };
        if let Some(kept) = self.counts.get_mut(&job) {
            *kept = count;
        }
        count
    }
}
