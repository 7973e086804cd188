//! The constraints of all tasks.
ghost use Rattle.std.specs.Prelude.{◌≡◌, map, slice_get, IfOk};
ghost use Rattle.std.specs.List.{filter_map};
ghost use Rattle.omega_feed.specs.Asked.{constraints_for};
ghost use Rattle.omega_feed.specs.Listed.{AreListed};
ghost use Rattle.omega_feed.specs.Marks.{AreMarkedTasks};

use crate::marks::Marks;
use omega_model::{ConstraintRow, Constraints, Copied, NoMemory, Seq, TaskKey};
use omega_running::job_and_index;
use std::alloc::Global;
use std::collections::BTreeMap;
use std::marker::Model;

/// The rows of constraints in the order of their file, found by task.
#[derive(Drop)]
pub struct TaskConstraints {
    rows: Seq<ConstraintRow>,
    places: BTreeMap<TaskKey, Seq<usize>>,
    /// The tasks that have any are marked, by their job and index together.
    marks: Marks,
}

impl Model for TaskConstraints {
    ghost use Rattle.std.specs.Prelude.{List};
    ghost use Rattle.omega_model.specs.Fields.{ConstraintFields};

    ghost Value = { List ConstraintFields };

    ghost use Rattle.omega_feed.specs.Listed.{AreListed};

    ghost view = { λ constraints. constraints.rows };

    ghost use Rattle.omega_feed.specs.Marks.{AreMarkedTasks};

    ghost invariant = { λ constraints. AreListed constraints.places constraints.rows × AreMarkedTasks constraints.marks constraints.rows };
}

impl TaskConstraints {
    /// Takes these rows over. Costs the logarithm of the number of tasks for each row.
    pub fn new(alloc: Global, rows: Seq<ConstraintRow>) -> Result<TaskConstraints, NoMemory>
        ensures { IfOk result (λ constraints. constraints ≡ rows) }
    {
        let places = places_of(alloc, rows.as_slice())?;
        let marks = marked(alloc, rows.as_slice())?;
        Ok(TaskConstraints {
            rows,
            places,
            marks,
        })
    }

    /// The constraints of a task in the order of the file. Costs what they are, and the logarithm of
    /// the number of tasks that have any; for a task without, while few have any, mostly a look at its mark.
    pub fn of(&self, alloc: Global, key: TaskKey) -> Result<Constraints, NoMemory>
        ensures { IfOk result (λ constraints. constraints ≡ constraints_for self.now key) }
    {
        if !self.marks.has(job_and_index(key)) {
            return Ok(Constraints::new(alloc));
        }
        match self.places.get(&key) {
            Some(places) => copied(alloc, &self.rows, places.as_slice()),
            None => Ok(Constraints::new(alloc)),
        }
    }
}

/// Marks of the tasks that these rows name.
fn marked(alloc: Global, rows: &[ConstraintRow]) -> Result<Marks, NoMemory>
    ensures { IfOk result (λ marks. AreMarkedTasks marks rows.now) }
{
    let mut marks = Marks::none(alloc);
    for row in rows {
        marks.mark(job_and_index(row.key))?;
    }
    Ok(marks)
}

/// The constraints of the rows at these places.
fn copied(
    alloc: Global,
    rows: &Seq<ConstraintRow>,
    places: &[usize],
) -> Result<Constraints, NoMemory>
    ensures { IfOk result (λ constraints. constraints ≡ map (λ row. row.constraint) (filter_map (slice_get rows.now) places.now)) }
{
    let mut found = Constraints::new(alloc);
    for place in places {
        if let Some(row) = rows.get(*place) {
            found.push(row.constraint.copy(alloc)?)?;
        }
    }
    Ok(found)
}

/// The places of each task's rows.
fn places_of(
    alloc: Global,
    rows: &[ConstraintRow],
) -> Result<BTreeMap<TaskKey, Seq<usize>>, NoMemory>
    ensures { IfOk result (λ places. AreListed places rows.now) }
{
    let mut places = BTreeMap::new(alloc);
    for (place, row) in rows.iter().enumerate() {
        let mut list = places.remove(&row.key).unwrap_or(Seq::new(alloc));
        list.push(place)?;
        places.insert(row.key, list)?;
    }
    Ok(places)
}
