//! The counts of all schedulers.
ghost use Rattle.std.specs.Prelude.{◌≡◌, ◌∷◌, ◌++◌, ℕ, List, [], IfOk, OnOk, map};
ghost use Rattle.omega_model.specs.declared.entries.Entry.{Entry};
ghost use Rattle.omega_report.specs.Counted.{counts_in};
ghost use Rattle.omega_report.specs.Tallies.{added_at, tallies};

use crate::counts::Counts;
use omega_model::{Entry, NoMemory};
use std::alloc::Global;
use std::marker::Model;

/// The counts of each scheduler, from scheduler 0. A contract sees their list.
#[derive(Drop)]
pub struct Tally {
    counts: Vec<Counts>,
}

impl Model for Tally {
    ghost use Rattle.std.specs.Prelude.{List, map};
    ghost use Rattle.omega_model.specs.ReportCounts.{Counts};
    ghost use Rattle.omega_report.specs.Counted.{counts_in};

    ghost Value = { List Counts };

    ghost view = { λ t. map counts_in t.counts.items };
}

impl Tally {
    /// The counts of so many schedulers before the first entry.
    pub fn new(alloc: Global, schedulers: u32) -> Result<Tally, NoMemory>
        ensures { IfOk result (λ tally. tally ≡ tallies schedulers []) }
    {
        let counts = vec![in alloc; Counts::NONE; schedulers as usize]?;
        Ok(Tally { counts })
    }

    /// The counts, in the order of the schedulers' numbers.
    pub fn counts(&self) -> &[Counts]
        ensures { map counts_in result.now ≡ self.now }
    {
        self.counts.as_slice()
    }

    /// Counts the next entry: a commit for its scheduler, and nothing of any other entry. Costs its
    /// claims.
    pub fn note(&mut self, entry: &Entry) -> Result<(), NoMemory>
        ensures { OnOk result ((schedulers : ℕ) (history : List Entry) → self.old ≡ tallies schedulers history → self.new ≡ tallies schedulers (history ++ entry.now ∷ [])) }
    {
        match entry {
            Entry::Commit {
                scheduler,
                txn,
                reply,
                ..
            } => {
                let more = Counts::of_commit(txn, reply.as_slice())?;
                self.add(*scheduler as usize, &more)?;
                Ok(())
            }
            _ => Ok(()),
        }
    }

    /// Adds counts to those of a scheduler, if it is known.
    fn add(&mut self, scheduler: usize, more: &Counts) -> Result<(), NoMemory>
        ensures { OnOk result (self.new ≡ added_at scheduler (counts_in more.now) self.old) }
    {
        if scheduler < self.counts.len() {
            self.counts[scheduler] = self.counts[scheduler].plus(more)?;
        }
        Ok(())
    }
}
