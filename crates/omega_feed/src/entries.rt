//! What a row does to the cell.
ghost use Rattle.std.specs.Prelude.{◌≡◌, ◌<◌, ◌++◌, All, List, IfOk, IfSome, OnOk, map};
ghost use Rattle.std.specs.List.{filter};
ghost use Rattle.omega_model.specs.Applying.{CapacityIsInRange};
ghost use Rattle.omega_model.specs.Cell.{task_at};
ghost use Rattle.omega_model.specs.ExtraTasks.{first_extra, is_extra_of};
ghost use Rattle.omega_model.specs.RowEntries.{row_entries, task_entries};
ghost use Rattle.omega_model.specs.Wanted.{attr_entry, end_of, machine_entry};
ghost use Rattle.omega_model.specs.declared.cells.Machine.{Machine};
ghost use Rattle.omega_model.specs.declared.entries.Entry.TheVariants.{End};
ghost use Rattle.omega_feed.specs.Index.{HasLowTask};

use crate::disks::MachineDisks;
use crate::tasks::WantedTasks;
use omega_model::{
    AttrRow, Entries, Entry, MachineRow, Need, NoMemory, Row, Task, TaskKey, TaskRow,
};
use omega_running::Running;
use std::alloc::Global;

/// The entries of a row, where the tasks `left` are wanted after it and the tasks `running` run before it.
/// Costs the logarithm of their numbers, and of a job that the row leaves without a wanted task the running
/// extras and few others of its running tasks.
pub fn entries_of(
    alloc: Global,
    row: Row,
    disks: &MachineDisks,
    left: &WantedTasks,
    running: &Running,
) -> Result<Entries, NoMemory>
    ensures entries { IfOk result (λ entries. (machines : List Machine)
        → entries ≡ row_entries disks.now (record { machines = machines; tasks = running.now.tasks }) left.now row) }
    ensures range { IfOk result (λ entries. All CapacityIsInRange entries) }
    ensures row { HasLowTask row }
{
    let mut entries = Entries::new(alloc);
    match row {
        Row::Machine(row) => entries.push(machine_entry(&row, disks))?,
        Row::Attr(row) => entries.push(attr_entry(row))?,
        Row::Task(row) => return task_entries(alloc, &row, left, running),
    }
    Ok(entries)
}

/// The entry of a machine row, by its code, with the disk of its machine.
fn machine_entry(row: &MachineRow, disks: &MachineDisks) -> Entry
    ensures entry { result ≡ machine_entry disks.now row.now }
    ensures range { CapacityIsInRange result }
{
    let machine = row.machine;
    let cap = Need {
        disk: disks.of(machine),
        ..row.cap
    };
    match row.code {
        0 => Entry::MachineAdd { machine, cap },
        1 => Entry::MachineRemove { machine },
        _ => Entry::MachineUpdate { machine, cap },
    }
}

/// The entry of an attribute row: the attribute is set, or deleted. Takes the row's text over.
fn attr_entry(row: AttrRow) -> Entry
    ensures entry { result ≡ attr_entry row }
    ensures range { CapacityIsInRange result }
{
    let AttrRow {
        machine,
        name,
        value,
        deleted,
        ..
    } = row;
    if deleted {
        return Entry::AttrDelete { machine, name };
    }
    Entry::AttrSet {
        machine,
        name,
        value,
    }
}

/// The entries of a task row: the end of its task, if it runs, and then those of its job's running
/// extras, if no task is wanted of the job any more.
fn task_entries(
    alloc: Global,
    row: &TaskRow,
    left: &WantedTasks,
    running: &Running,
) -> Result<Entries, NoMemory>
    ensures entries { IfOk result (λ entries. (machines : List Machine) → entries ≡ task_entries (record { machines = machines; tasks = running.now.tasks }) left.now row.now) }
    ensures range { IfOk result (λ entries. All CapacityIsInRange entries) }
    ensures low { row.now.key.index < first_extra }
{
    let mut entries = Entries::new(alloc);
    if !matches!(row.code, 3..=6) {
        return Ok(entries);
    }
    push_end(&mut entries, row.key, running)?;
    if !left.has_job(row.key.job) {
        push_extra_ends(&mut entries, alloc, row.key.job, running)?;
    }
    Ok(entries)
}

/// Appends the end of a task, if it runs.
fn push_end(entries: &mut Entries, key: TaskKey, running: &Running) -> Result<(), NoMemory>
    ensures entries { OnOk result (entries.new ≡ entries.old ++ end_of (task_at running.now.tasks key)) }
    ensures range { All CapacityIsInRange entries.old → OnOk result (All CapacityIsInRange entries.new) }
{
    match running.get(key) {
        Some(task) => entries.push(Entry::End {
            key: task.key,
            machine: task.machine,
        }),
        None => Ok(()),
    }
}

/// Appends the ends of a job's running extras, by index.
fn push_extra_ends(
    entries: &mut Entries,
    alloc: Global,
    job: u64,
    running: &Running,
) -> Result<(), NoMemory>
    ensures entries { OnOk result (entries.new ≡ entries.old ++ map (λ task. End task.key task.machine) (filter (is_extra_of job) running.now.tasks)) }
    ensures range { All CapacityIsInRange entries.old → OnOk result (All CapacityIsInRange entries.new) }
{
    let extras = running.extras_of_job(alloc, job)?;
    push_ends(entries, extras.as_slice())
}

/// Appends the ends of some tasks.
fn push_ends(entries: &mut Entries, tasks: &[Task]) -> Result<(), NoMemory>
    ensures entries { OnOk result (entries.new ≡ entries.old ++ map (λ task. End task.key task.machine) tasks.now) }
    ensures range { All CapacityIsInRange entries.old → OnOk result (All CapacityIsInRange entries.new) }
{
    for task in tasks {
        entries.push(Entry::End {
            key: task.key,
            machine: task.machine,
        })?;
    }
    Ok(())
}
