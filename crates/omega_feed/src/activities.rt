//! The activities of MapReduce jobs.
ghost use Rattle.std.specs.Prelude.{◌≡◌, ◌≤◌, IfOk, IfSome};
ghost use Rattle.omega_model.specs.Fields.{most_activities};
ghost use Rattle.omega_feed.specs.Asked.{activities_in};

use crate::last::LastAmounts;
use omega_model::{ActivityRow, NoMemory, Seq};
use std::alloc::Global;
use std::marker::Model;

/// The activities of the last row for each job. A contract sees the rows, in the order of their file.
#[derive(Drop)]
pub struct JobActivities {
    last: LastAmounts<ActivityRow>,
}

impl Model for JobActivities {
    ghost use Rattle.std.specs.Prelude.{List};
    ghost use Rattle.omega_model.specs.Fields.{ActivityFields};

    ghost Value = { List ActivityFields };

    ghost view = { λ activities. activities.last };
}

impl JobActivities {
    /// The activities that these rows say. Costs the logarithm of the number of jobs that have any, for each row.
    pub fn new(alloc: Global, rows: &Seq<ActivityRow>) -> Result<JobActivities, NoMemory>
        ensures { IfOk result (λ activities. activities ≡ rows.now) }
    {
        let last = LastAmounts::new(alloc, rows)?;
        Ok(JobActivities { last })
    }

    /// The activities of a job: those of the last row for it. `None` exactly where it has none, and
    /// so is no MapReduce job. Costs the logarithm of the number of jobs that have any, and for a job without,
    /// while few have any, mostly a look at its mark.
    pub fn of(&self, job: u64) -> Option<u32>
        ensures activities { result ≡ activities_in self.now job }
        ensures range { IfSome result (λ activities. activities ≤ most_activities) }
    {
        let activities = self.last.of(job)?;
        Some(activities as u32)
    }
}
