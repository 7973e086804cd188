//! The pieces of a trace's tasks, and which rows count.
ghost use Rattle.std.specs.Prelude.{◌≡◌, ◌<◌, ◌+◌, ◌++◌, ◌∷◌, [], ℕ, List, map, slice_get, IfOk, OnOk};
ghost use Rattle.omega_free_laws.specs.Lives.{counting, counts, ended, lives_of};
ghost use Rattle.omega_model.specs.ExtraTasks.{first_extra};
ghost use Rattle.omega_model.specs.Feed.{feed};
ghost use Rattle.omega_model.specs.Fields.{TaskFields};
ghost use Rattle.omega_model.specs.Lawful.{rows_of};
ghost use Rattle.omega_model.specs.Wanted.{wanted};
ghost use Rattle.omega_model.specs.declared.entries.Entry.{Entry};
ghost use Rattle.omega_model.specs.declared.entries.Entry.TheVariants.{End};
ghost use Rattle.omega_model.specs.declared.rows.Row.{Row};
ghost use Rattle.omega_model.specs.declared.rows.Row.TheVariants.{Task as TaskEvent};
ghost use Rattle.omega_model.specs.declared.rows.TraceTables.{TraceTables};
ghost use Rattle.omega_pieces.specs.Kept.{KeepsPieces};
ghost use Rattle.omega_pieces.specs.PieceRows.{piece_rows};

use crate::held::{HeldRows, hold_early};
use crate::lives::{ByTask, Lives, lives_of};
use crate::progress::{Progress, counts_at, one_more, progress_at, with_row};
use omega_feed::EventRounds;
use omega_model::{NoMemory, Seq, TaskKey, TaskRow};
use std::alloc::Global;
use std::collections::BTreeMap;

/// The pieces of a trace's tasks: the lives of all of them, how far each task is by the rows that were applied and by its
/// ends, and the applied rows that wait for their task to end.
///
/// Of rows and ends it is told one by one. A contract says so of every trace, the rows that were applied and the history,
/// of which it keeps the pieces.
#[derive(Drop)]
pub struct TaskPieces {
    lives: Lives,
    by_task: ByTask,
    held: HeldRows,
}

impl TaskPieces {
    /// The pieces of the tasks of a trace with these rounds, where no row was applied and no task has ended. Costs a copy of
    /// each row, and for each task row the logarithm of the number of tasks; keeps the memory of the lives.
    pub fn new(alloc: Global, rounds: &EventRounds) -> Result<TaskPieces, NoMemory>
        ensures { (trace : TraceTables) → rows_of rounds.now ≡ feed trace → IfOk result (KeepsPieces trace [] []) }
    {
        let lives = lives_of(alloc, rounds)?;
        Ok(TaskPieces {
            lives,
            by_task: BTreeMap::new(alloc),
            held: BTreeMap::new(alloc),
        })
    }

    /// Applies one more task row, and answers whether it counts. Where its task hasn't ended often enough the row is held
    /// until it has; where it has ended more often the row is dropped. A row that ends a task never counts, and may begin the
    /// task's next piece. After a refused call nothing is said of the pieces.
    /// Costs the logarithms of the number of tasks and of the number of pieces of which rows are held.
    pub fn take(&mut self, alloc: Global, row: &TaskRow) -> Result<bool, NoMemory>
        ensures counts { (trace : TraceTables) (rows : List Row) (history : List Entry) → KeepsPieces trace rows history self.old
            → IfOk result (λ counted. counted ≡ counts history rows (TaskEvent row.now)) }
        ensures kept { (trace : TraceTables) (rows : List Row) (history : List Entry) → KeepsPieces trace rows history self.old
            → OnOk result (KeepsPieces trace (rows ++ TaskEvent row.now ∷ []) history self.new) }
    {
        let progress = progress_at(&self.by_task, row.key);
        hold_early(alloc, &mut self.held, progress, row)?;
        let moved = with_row(progress, row)?;
        self.by_task.insert(row.key, moved)?;
        Ok(counts_at(progress, row))
    }

    /// A task of the trace has ended once more. Answers the rows that were held of the piece that begins with this, which
    /// count from now on, in the order in which they were applied: what is wanted then is what a row that ends the task
    /// leaves, and what these rows make of that. After a refused call nothing is said of the pieces.
    /// Costs the logarithms of the number of tasks and of the number of pieces of which rows are held.
    pub fn end(&mut self, alloc: Global, key: TaskKey) -> Result<Seq<TaskRow>, NoMemory>
        ensures held { (trace : TraceTables) (rows : List Row) (history : List Entry) → KeepsPieces trace rows history self.old → key.index < first_extra
            → IfOk result (λ held. map (λ row. TaskEvent row) held ≡ piece_rows key (ended history key + 1) rows) }
        ensures wanted { (trace : TraceTables) (rows : List Row) (history : List Entry) → KeepsPieces trace rows history self.old → key.index < first_extra
            → (machine : ℕ) (end : TaskFields) → end.key ≡ key → end.code ≡ 4
            → IfOk result (λ held. wanted (counting rows (history ++ End key machine ∷ []))
            ≡ wanted (counting rows history ++ TaskEvent end ∷ map (λ row. TaskEvent row) held)) }
        ensures kept { (trace : TraceTables) (rows : List Row) (history : List Entry) → KeepsPieces trace rows history self.old → key.index < first_extra
            → (machine : ℕ) → OnOk result (KeepsPieces trace rows (history ++ End key machine ∷ []) self.new) }
    {
        let progress = progress_at(&self.by_task, key);
        let ended = one_more(progress.ended)?;
        self.by_task.insert(key, Progress { ended, ..progress })?;
        Ok(self.held.remove(&(key, ended)).unwrap_or(Seq::new(alloc)))
    }

    /// The life of the piece of a task of the trace that is under way, in microseconds; `None` exactly where no row of the trace ends that
    /// piece. Costs the logarithms of the number of tasks and of that of lives.
    pub fn life(&self, key: TaskKey) -> Option<u64>
        ensures { (trace : TraceTables) (rows : List Row) (history : List Entry) → KeepsPieces trace rows history self.now
            → key.index < first_extra → result ≡ slice_get (lives_of trace key) (ended history key) }
    {
        let progress = progress_at(&self.by_task, key);
        self.lives.get(&(key, progress.ended)).copied()
    }
}
