//! The first time of each job.
ghost use Rattle.std.specs.Prelude.{◌≡◌, ◌==◌, ℕ, None, Some, OnOk, if◌then◌else◌};
ghost use Rattle.std.specs.Option.{option_or};
ghost use Rattle.omega_sim.specs.Firsts.{time_at};

use omega_model::NoMemory;
use std::alloc::Global;
use std::collections::BTreeMap;

/// For each job the first time in microseconds that was noted for it. A look-up costs the logarithm of
/// the jobs.
#[derive(Drop)]
pub struct FirstTimes {
    times: BTreeMap<u64, u128>,
}

impl FirstTimes {
    /// No time is noted.
    pub fn new(alloc: Global) -> FirstTimes
        ensures { (job : ℕ) → time_at result job ≡ None }
    {
        FirstTimes {
            times: BTreeMap::new(alloc),
        }
    }

    /// The first time of a job, if one was noted.
    pub fn of(&self, job: u64) -> Option<u128>
        ensures { result ≡ time_at self.now job }
    {
        self.times.get(&job).copied()
    }

    /// Notes a time of a job in microseconds, unless one is noted for it already, whatever that is.
    pub fn note(&mut self, job: u64, time: u128) -> Result<(), NoMemory>
        ensures { OnOk result ((other : ℕ) → time_at self.new other ≡ option_or (time_at self.old other) (if job == other then Some time else None)) }
    {
        if self.times.contains_key(&job) {
            return Ok(());
        }
        self.times.insert(job, time)?;
        Ok(())
    }
}
