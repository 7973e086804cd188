//! The rows of a trace in the order in which they happen, and what they ask for.
//!
//! Promised: `Events` are the trace's rows in order of time, and `EventRounds` the rounds that such rows make.
//! `Wanted` answers what is asked after some rows, for all settings, traces and rows that it stands for: the
//! entries of a row on a board, with the ends of a job's extra tasks, and the requests of a scheduler, with the
//! extra tasks of MapReduce jobs, found among open jobs alone, where all others are quiet. A row that is taken
//! and a settling keep that they are; a settling leaves none of its scheduler's open that is quiet, and other
//! schedulers' as they were. And which wanted tasks don't run, counted, with their jobs.
//!
//! `Events` are the rows of the events in order of time, and `EventRounds` cuts them into windows. `Wanted`
//! takes them one by one, knows which tasks are to run, and says what each row does to the cell and
//! what a scheduler is asked to place, the extra tasks of MapReduce jobs among it, and in the end what
//! is wanted and doesn't run. `OpenJobs` are the jobs of which something may have to be placed, by scheduler; only
//! those are looked at.
#![tactic(auto)]

mod activities;
mod constraints;
mod disks;
mod entries;
mod events;
mod extras;
mod jobs;
mod last;
mod marks;
mod notes;
mod open_jobs;
mod rounds;
mod task_list;
mod tasks;
mod unplaced;
mod wanted;

pub use events::{Events, time_of};
pub use open_jobs::OpenJobs;
pub use rounds::EventRounds;
pub use unplaced::{WaitingTasks, each_once};
pub use wanted::Wanted;
