//! The lives of a trace's tasks.
ghost use Rattle.std.specs.Prelude.{◌≡◌, ◌<◌, ◌+◌, ◌++◌, ◌∷◌, [], ℕ, List, IfOk, OnOk, length, take};
ghost use Rattle.std.specs.BTreeMap as tree;
ghost use Rattle.omega_model.specs.Lawful.{rows_of};
ghost use Rattle.omega_model.specs.declared.rows.Row.{Row};
ghost use Rattle.omega_model.specs.declared.rows.Row.TheVariants.{Task as TaskEvent};
ghost use Rattle.omega_model.specs.declared.cells.TaskKey.{TaskKey};
ghost use Rattle.omega_pieces.specs.HowFar.{AreLives, KeepsLives, lives_with, piece_cmp};

use crate::progress::{Progress, life_ended, progress_at, with_row};
use omega_feed::EventRounds;
use omega_model::{NoMemory, Row, TaskKey, TaskRow};
use std::alloc::Global;
use std::collections::BTreeMap;

/// Lives in microseconds, each by its task and the number of its piece, from 0.
pub(crate) type Lives = BTreeMap<(TaskKey, u64), u64>;

/// How far each task is, by its name.
pub(crate) type ByTask = BTreeMap<TaskKey, Progress>;

/// The lives of the pieces that the rows of these rounds end. Costs a copy of each row, and for each task row the
/// logarithm of the number of tasks; of the memory only that of the lives stays.
pub(crate) fn lives_of(alloc: Global, rounds: &EventRounds) -> Result<Lives, NoMemory>
    ensures { IfOk result (AreLives (rows_of rounds.now)) }
{
    let mut by_task = BTreeMap::new(alloc);
    let mut lives = BTreeMap::new(alloc);
    for place in 0..rounds.len() {
        note_round(alloc, &mut by_task, &mut lives, rounds, place)?;
    }
    Ok(lives)
}

/// Notes the lives of the pieces that the rows of the round at a place end, and how far their tasks are then.
fn note_round(
    alloc: Global,
    by_task: &mut ByTask,
    lives: &mut Lives,
    rounds: &EventRounds,
    place: usize,
) -> Result<(), NoMemory>
    requires { place < length rounds.now }
    ensures { KeepsLives (rows_of (take place rounds.now)) by_task.old lives.old
        → OnOk result (KeepsLives (rows_of (take (place + 1) rounds.now)) by_task.new lives.new) }
{
    let Some(round) = rounds.get(alloc, place)? else {
        unreachable!()
    };
    note_rows(by_task, lives, round.rows.as_slice())?;
    Ok(())
}

/// Notes the lives of the pieces that some more rows end, and how far their tasks are then.
fn note_rows(by_task: &mut ByTask, lives: &mut Lives, rows: &[Row]) -> Result<(), NoMemory>
    ensures { (before : List Row) → KeepsLives before by_task.old lives.old → OnOk result (KeepsLives (before ++ rows.now) by_task.new lives.new) }
{
    for row in rows {
        note_row(by_task, lives, row)?;
    }
    Ok(())
}

/// Notes the life of the piece that a row ends, if it ends one, and how far its task is then.
fn note_row(by_task: &mut ByTask, lives: &mut Lives, row: &Row) -> Result<(), NoMemory>
    ensures { (before : List Row) → KeepsLives before by_task.old lives.old → OnOk result (KeepsLives (before ++ row.now ∷ []) by_task.new lives.new) }
{
    match row {
        Row::Machine(_) => Ok(()),
        Row::Attr(_) => Ok(()),
        Row::Task(row) => {
            note_task_row(by_task, lives, row)?;
            Ok(())
        }
    }
}

/// The same of a task row.
fn note_task_row(by_task: &mut ByTask, lives: &mut Lives, row: &TaskRow) -> Result<(), NoMemory>
    ensures { (before : List Row) → KeepsLives before by_task.old lives.old
        → OnOk result (KeepsLives (before ++ TaskEvent row.now ∷ []) by_task.new lives.new) }
{
    let progress = progress_at(by_task, row.key);
    let life = life_ended(progress.since, row);
    note_life(lives, (row.key, progress.cuts), life)?;
    let moved = with_row(progress, row)?;
    by_task.insert(row.key, moved)?;
    Ok(())
}

/// Notes the life of a piece, if there is one.
fn note_life(lives: &mut Lives, piece: (TaskKey, u64), life: Option<u64>) -> Result<(), NoMemory>
    ensures { (other : TaskKey × ℕ) → OnOk result (tree.get piece_cmp lives.new other ≡ lives_with (tree.get piece_cmp lives.old) piece life other) }
{
    if let Some(life) = life {
        lives.insert(piece, life)?;
    }
    Ok(())
}
