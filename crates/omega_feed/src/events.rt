//! The rows of the three tables of events in order of time.
ghost use Rattle.std.specs.Prelude.{◌≡◌, ◌++◌, [], map, IfOk, IsTrue, OnOk};
ghost use Rattle.std.specs.List.{filter};
ghost use Rattle.omega_model.specs.Feed.{by_time, feed, time_of};
ghost use Rattle.omega_model.specs.declared.rows.Row.TheVariants.{Attr, Machine, Task};
ghost use Rattle.omega_model.specs.declared.rows.TraceTables.{TraceTables};
ghost use Rattle.omega_feed.specs.Events.{Rise, has_time, merged, task_rows};

use omega_model::{AttrRow, Copied, MachineRow, NoMemory, Row, Rows, Seq, TaskRow, TraceTables};
use std::alloc::Global;
use std::marker::Model;
use std::mem;

/// A row with a time.
pub(crate) trait HasTime {
    ghost use Rattle.std.specs.Prelude.{◌≡◌, ℕ};

    ghost time: { Self → ℕ };

    /// Its time, in microseconds.
    fn time(&self) -> u64
        ensures { result ≡ time self.now };
}

impl HasTime for MachineRow {
    ghost time = { λ row. row.time };

    fn time(&self) -> u64 {
        self.time
    }
}

impl HasTime for AttrRow {
    ghost time = { λ row. row.time };

    fn time(&self) -> u64 {
        self.time
    }
}

impl HasTime for TaskRow {
    ghost time = { λ row. row.time };

    fn time(&self) -> u64 {
        self.time
    }
}

/// The rows of the three tables of events, each table in order of time.
///
/// A contract sees all of them in order of time, then of table, then of row.
#[derive(Drop)]
pub struct Events {
    pub(crate) machines: Vec<MachineRow>,
    pub(crate) attrs: Vec<AttrRow>,
    pub(crate) tasks: Vec<TaskRow>,
}

impl Model for Events {
    ghost use Rattle.std.specs.Prelude.{List};
    ghost use Rattle.omega_model.specs.declared.rows.Row.{Row};
    ghost use Rattle.omega_feed.specs.Events.{AreInOrder, merged};

    ghost Value = { List Row };

    ghost view = { λ events. merged events.machines.items events.attrs.items events.tasks.items };

    ghost invariant = { λ events. AreInOrder events.machines.items events.attrs.items events.tasks.items };
}

impl Events {
    /// Takes the rows of the events out of the tables, which keep the others. A refused call leaves the tables
    /// without the rows of their events, which are gone. Costs a look at each row, and for a table that isn't in
    /// order of time a sort, which takes the memory of its rows once more.
    pub fn take(alloc: Global, tables: &mut TraceTables) -> Result<Events, NoMemory>
        ensures events { IfOk result (λ events. events ≡ feed tables.old) }
        ensures others { OnOk result (tables.new ≡ record tables.old { machines = []; attrs = []; tasks = [] }) }
    {
        let machines = mem::replace(&mut tables.machines, Seq::new(alloc));
        let attrs = mem::replace(&mut tables.attrs, Seq::new(alloc));
        let tasks = mem::replace(&mut tables.tasks, Seq::new(alloc));
        Ok(Events {
            machines: in_order(machines.into_items())?,
            attrs: in_order(attrs.into_items())?,
            tasks: in_order(tasks.into_items())?,
        })
    }

    /// The task rows in order of time.
    pub(crate) fn tasks(&self) -> &[TaskRow]
        ensures { result.now ≡ task_rows self.now }
    {
        &self.tasks
    }
}

/// Rows in order of time; those of one time stay in the order in which they stand.
fn in_order<R: HasTime + Drop>(mut rows: Vec<R>) -> Result<Vec<R>, NoMemory>
    ensures rise { IfOk result (λ sorted. Rise R.time sorted.items) }
    ensures same { IfOk result (λ sorted. (row : R) → filter (has_time R.time (R.time row)) sorted.items
        ≡ filter (has_time R.time (R.time row)) rows.items) }
{
    if are_in_order(&rows) {
        return Ok(rows);
    }
    rows.sort_by_key(|row| row.time())?;
    Ok(rows)
}

/// Whether rows are in order of time.
fn are_in_order<R: HasTime>(rows: &[R]) -> bool
    ensures { IsTrue result → Rise R.time rows.now }
{
    let mut last = 0;
    for row in rows {
        let time = row.time();
        if time < last {
            return false;
        }
        last = time;
    }
    true
}

/// The rows of three tables in order of time, then of table, then of row. Copies each row, and sorts them where
/// they aren't in order table by table.
pub(crate) fn merged(
    alloc: Global,
    machines: &[MachineRow],
    attrs: &[AttrRow],
    tasks: &[TaskRow],
) -> Result<Rows, NoMemory>
    ensures { IfOk result (λ rows. rows ≡ merged machines.now attrs.now tasks.now) }
{
    let count = machines
        .len()
        .saturating_add(attrs.len())
        .saturating_add(tasks.len());
    let mut rows = Vec::with_capacity(alloc, count)?;
    push_machines(&mut rows, machines)?;
    push_attrs(alloc, &mut rows, attrs)?;
    push_tasks(&mut rows, tasks)?;
    Ok(Seq::of(by_time(rows)?))
}

/// These rows in order of time; those of one time stay in the order in which they stand.
fn by_time(rows: Vec<Row>) -> Result<Vec<Row>, NoMemory>
    ensures { IfOk result (λ sorted. sorted.items ≡ by_time rows.items) }
{
    let sorted = in_order(rows)?;
    Ok(sorted)
}

fn push_machines(rows: &mut Vec<Row>, machines: &[MachineRow]) -> Result<(), NoMemory>
    ensures { OnOk result (rows.new.items ≡ rows.old.items ++ map (λ row. Machine row) machines.now) }
{
    for row in machines {
        rows.push(Row::Machine(*row))?;
    }
    Ok(())
}

fn push_attrs(alloc: Global, rows: &mut Vec<Row>, attrs: &[AttrRow]) -> Result<(), NoMemory>
    ensures { OnOk result (rows.new.items ≡ rows.old.items ++ map (λ row. Attr row) attrs.now) }
{
    for row in attrs {
        rows.push(Row::Attr(row.copy(alloc)?))?;
    }
    Ok(())
}

fn push_tasks(rows: &mut Vec<Row>, tasks: &[TaskRow]) -> Result<(), NoMemory>
    ensures { OnOk result (rows.new.items ≡ rows.old.items ++ map (λ row. Task row) tasks.now) }
{
    for row in tasks {
        rows.push(Row::Task(*row))?;
    }
    Ok(())
}

impl HasTime for Row {
    ghost use Rattle.omega_model.specs.Feed.{time_of};

    ghost time = { time_of };

    fn time(&self) -> u64 {
        time_of(self)
    }
}

/// The time of a row, in microseconds.
pub fn time_of(row: &Row) -> u64
    ensures { result ≡ time_of row.now }
{
    match row {
        Row::Machine(row) => row.time,
        Row::Attr(row) => row.time,
        Row::Task(row) => row.time,
    }
}
