//! How far a task is.
ghost use Rattle.std.specs.Prelude.{◌≡◌, ◌<◌, ◌+◌, ℕ, List, IfOk};
ghost use Rattle.omega_free_laws.specs.Lives.{Pieces, counts, ended, pieces_of, with_own_row};
ghost use Rattle.omega_model.specs.ExtraTasks.{first_extra};
ghost use Rattle.omega_model.specs.Wanted.{ends};
ghost use Rattle.omega_model.specs.declared.entries.Entry.{Entry};
ghost use Rattle.omega_model.specs.declared.rows.Row.{Row};
ghost use Rattle.omega_model.specs.declared.rows.Row.TheVariants.{Task as TaskEvent};
ghost use Rattle.omega_pieces.specs.HowFar.{IsProgress, progress_at, life_ended};

use omega_model::{NoMemory, TaskKey, TaskRow};
use std::collections::BTreeMap;

/// How far a task is by the rows that were applied, and how often it has ended.
#[derive(Clone, Copy, Debug)]
pub(crate) struct Progress {
    /// Since when the life of its last piece counts, in microseconds, if a row of that has asked for the task.
    pub since: Option<u64>,
    /// How many of its pieces its rows have ended.
    pub cuts: u64,
    /// How often it has ended.
    pub ended: u64,
}

/// How far a task is among these. Costs the logarithm of their number.
pub(crate) fn progress_at(by_task: &BTreeMap<TaskKey, Progress>, key: TaskKey) -> Progress
    ensures { result ≡ progress_at by_task.now key }
{
    match by_task.get(&key) {
        Some(progress) => *progress,
        None => Progress {
            since: None,
            cuts: 0,
            ended: 0,
        },
    }
}

/// How far a task is after one more row of its own. 2^64 pieces, which no memory holds, are answered as want of
/// memory.
pub(crate) fn with_row(progress: Progress, row: &TaskRow) -> Result<Progress, NoMemory>
    ensures { (pieces : Pieces) (often : ℕ) → IsProgress pieces often progress → IfOk result (IsProgress (with_own_row pieces row.now) often) }
{
    match row.code {
        0 => Ok(Progress {
            since: Some(progress.since.unwrap_or(row.time)),
            ..progress
        }),
        1 => Ok(Progress {
            since: Some(row.time),
            ..progress
        }),
        _ if life_ended(progress.since, row).is_some() => Ok(Progress {
            since: None,
            cuts: one_more(progress.cuts)?,
            ended: progress.ended,
        }),
        _ => Ok(progress),
    }
}

/// The life of the piece that a row of a task ends, in microseconds, if it ends one, where the piece's life counts since
/// then.
pub(crate) fn life_ended(since: Option<u64>, row: &TaskRow) -> Option<u64>
    ensures { result ≡ life_ended since row.now }
{
    if !ends(row) {
        return None;
    }
    Some(row.time.saturating_sub(since?))
}

/// Whether a row ends its task.
pub(crate) fn ends(row: &TaskRow) -> bool
    ensures ends { result ≡ ends row.now.code }
    ensures low { row.now.key.index < first_extra }
{
    3 <= row.code && row.code <= 6
}

/// Whether a row counts of a task that is so far.
pub(crate) fn counts_at(progress: Progress, row: &TaskRow) -> bool
    ensures counts { (rows : List Row) (history : List Entry) → IsProgress (pieces_of row.now.key rows) (ended history row.now.key) progress
        → result ≡ counts history rows (TaskEvent row.now) }
    ensures low { row.now.key.index < first_extra }
{
    !ends(row) && progress.cuts == progress.ended
}

/// A count with one more; 2^64, which no memory holds, is answered as want of memory.
pub(crate) fn one_more(count: u64) -> Result<u64, NoMemory>
    ensures { IfOk result (λ more. more ≡ count + 1) }
{
    count.checked_add(1).ok_or(NoMemory)
}
