//! Rows that are held until their task has ended.
ghost use Rattle.std.specs.Prelude.{◌≡◌, ◌++◌, ◌∷◌, [], ℕ, List, Some, OnOk, if◌then◌else◌};
ghost use Rattle.std.specs.BTreeMap as tree;
ghost use Rattle.omega_free_laws.specs.Lives.{pieces_of};
ghost use Rattle.omega_model.specs.declared.cells.TaskKey.{TaskKey};
ghost use Rattle.omega_model.specs.declared.rows.Row.{Row};
ghost use Rattle.omega_model.specs.declared.rows.Row.TheVariants.{Task as TaskEvent};
ghost use Rattle.omega_pieces.specs.HowFar.{IsProgress, piece_cmp};
ghost use Rattle.omega_pieces.specs.Held.{AreHeld, held_rows};

use crate::progress::{Progress, ends};
use omega_model::{NoMemory, Seq, TaskKey, TaskRow};
use std::alloc::Global;
use std::collections::BTreeMap;

/// The rows that are held of pieces, each by its task and its number, from 0, in the order in which they were applied.
pub(crate) type HeldRows = BTreeMap<(TaskKey, u64), Seq<TaskRow>>;

/// Holds a row of a task that is so far, where it is of a piece that is to come and ends none.
pub(crate) fn hold_early(
    alloc: Global,
    held: &mut HeldRows,
    progress: Progress,
    row: &TaskRow,
) -> Result<(), NoMemory>
    ensures { (rows : List Row) (often : TaskKey → ℕ) → IsProgress (pieces_of row.now.key rows) (often row.now.key) progress
        → AreHeld rows often held.old → OnOk result (AreHeld (rows ++ TaskEvent row.now ∷ []) often held.new) }
{
    if ends(row) {
        return Ok(());
    }
    if progress.cuts <= progress.ended {
        return Ok(());
    }
    hold(alloc, held, progress.cuts, row)?;
    Ok(())
}

/// Holds one more row of the piece of its task that has this number. Costs the logarithm of the number of pieces of
/// which rows are held, and the memory of the row.
fn hold(alloc: Global, held: &mut HeldRows, number: u64, row: &TaskRow) -> Result<(), NoMemory>
    ensures { (other : TaskKey × ℕ) → OnOk result (tree.get piece_cmp held.new other
        ≡ (if tree.is_at (piece_cmp (row.now.key, number)) other then Some (held_rows held.old row.now.key number ++ row.now ∷ []) else tree.get piece_cmp held.old other)) }
{
    let piece = (row.key, number);
    let mut rows = held.remove(&piece).unwrap_or(Seq::new(alloc));
    rows.push(*row)?;
    held.insert(piece, rows)?;
    Ok(())
}
