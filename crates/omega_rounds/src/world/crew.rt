//! The schedulers of a world, with the cell on which they work.
ghost use Rattle.std.specs.Prelude.{◌≡◌, ◌<◌, ◌^◌, ℕ, IfOk, Some, length, slice_get};
ghost use Rattle.std.specs.Thread.{IsSync};
ghost use Rattle.omega_model.specs.Policy.{schedulers};
ghost use Rattle.omega_model.specs.Ranges.{IsInRange};
ghost use Rattle.omega_rounds.specs.Closed.{AreBack};
ghost use Rattle.omega_rounds.specs.Keeping.{AreIndexesFor};
ghost use Rattle.omega_workers.specs.Workers.{IsWorker};
ghost use Rattle.omega_workers.specs.declared.worker.Worker.{Worker};

use crate::threads::play_shared;
use omega_cell::Cell;
use omega_io::Gate;
use omega_model::{NoMemory, Settings};
use omega_plan::Indexes;
use omega_workers::Worker;
use std::alloc::Global;
use std::sync::Wait;
use std::thread::Threads;

/// A cell and a worker for each scheduler.
///
/// It writes its `Drop` out, so that whoever lets it go cites one function.
pub(crate) struct Crew {
    pub cell: Cell,
    pub workers: Vec<Worker>,
    /// What the workers plan by: indexes for each of them, so that all may plan at the same time. On threads
    /// each plans by its own; else all plan by the first, or each piece of them by one.
    pub indexes: Vec<Indexes>,
    /// In how many pieces plans are made; `None` before anybody has asked.
    pub pieces: Option<usize>,
}

impl Drop for Crew {
    fn drop(self) {
        let Crew {
            cell: _,
            workers: _,
            indexes: _,
            pieces: _,
        } = self;
    }
}

impl Crew {
    /// The cell itself, the workers, and what they plan by.
    pub fn into_parts(self) -> (Cell, Vec<Worker>, Vec<Indexes>)
        ensures cell { result.0 ≡ self.cell }
        ensures workers { result.1 ≡ self.workers }
        ensures indexes { result.2 ≡ self.indexes }
    {
        let Crew {
            cell,
            workers,
            indexes,
            pieces: _,
        } = self;
        (cell, workers, indexes)
    }

    /// Lets the schedulers work until nothing is left at any desk, each on a thread of its own. A history
    /// of 2^63 entries, which no memory holds, is answered as want of memory. Where memory runs out the crew
    /// is gone. May wait.
    pub fn play_on_threads<R: Threads + Wait + Sync, G: Gate + Sync>(
        self,
        rt: &R,
        alloc: Global,
        settings: &Settings,
        gate: &G,
    ) -> Result<Crew, NoMemory>
        requires sync { IsSync R.row × IsSync G.row }
        requires range { IsInRange settings.now }
        requires count { length self.workers.items ≡ schedulers settings.now }
        requires each { (number : ℕ) (worker : Worker) → slice_get self.workers.items number ≡ Some worker
            → IsWorker settings.now self.cell.history number worker }
        requires indexes { AreIndexesFor (schedulers settings.now) self.cell.history self.indexes.items }
        ensures back { IfOk result (λ crew.
            AreBack settings.now self.cell.history crew.cell.history self.workers.items crew.workers.items) }
        ensures indexes { IfOk result (λ crew. AreIndexesFor (schedulers settings.now) crew.cell.history crew.indexes.items) }
    {
        if self.cell.history().len() as u64 >= 1 << 63 {
            return Err(NoMemory);
        }
        let Crew {
            cell,
            workers,
            indexes,
            pieces,
        } = self;
        let (cell, workers, indexes) = play_shared(
            rt, alloc, settings, cell, workers, indexes, gate,
        )?;
        Ok(Crew {
            cell,
            workers,
            indexes,
            pieces,
        })
    }
}
