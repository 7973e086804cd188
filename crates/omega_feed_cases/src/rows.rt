//! Rows of a trace's tables.
use omega_calls::{Fault, GREATEST, byte, constraint_of, need, number, small, spec, task};
use omega_model::{
    ActivityRow, AttrRow, Bytes, ConstraintRow, Copied, DiskRow, GREATEST_QUANTITY,
    MOST_ACTIVITIES, MachineRow, Need, NoMemory, Seq, Spec, TaskKey, TaskRow, TraceTables,
};
use omega_running::FIRST_EXTRA;
use std::alloc::Global;

/// The times of all rows are below this one, in microseconds.
const END_OF_TIME: u64 = 9_223_372_036_854_775_808;

/// Puts a row behind those of its table: `machine TIME MACHINE CODE AMOUNT`, where there is no disk in
/// the amount; `attr TIME MACHINE NAME VALUE`, which sets an attribute, and `attr TIME MACHINE NAME`,
/// which deletes it; `task TIME TASK CODE AMOUNT PRECEDENCE CLASS`; `constraint TASK NAME OPERATOR
/// VALUE`; `activities JOB COUNT`; `disk MACHINE DISK`.
pub(crate) fn push_row(
    tables: &mut TraceTables,
    alloc: Global,
    call: &str,
    words: &[Bytes],
) -> Result<(), Fault> {
    match call {
        "machine" => tables.machines.push(machine_row(words)?)?,
        "attr" => tables.attrs.push(attr_row(alloc, words)?)?,
        "task" => tables.tasks.push(task_row(words)?)?,
        "constraint" => tables.constraints.push(constraint_row(alloc, words)?)?,
        "activities" => tables.activities.push(activity_row(words)?)?,
        "disk" => tables.disks.push(disk_row(words)?)?,
        _ => return Err(Fault::UnknownCall),
    }
    Ok(())
}

/// A row of machines.
fn machine_row(words: &[Bytes]) -> Result<MachineRow, Fault> {
    let [time, machine, code, cap] = words else {
        return Err(Fault::UnknownCall);
    };
    let (time, machine, code, cap) = (number(time)?, number(machine)?, byte(code)?, need(cap)?);
    if time >= END_OF_TIME || code > 2 || !cap.fits(GREATEST) || cap.disk != 0 {
        return Err(Fault::MayNot);
    }
    Ok(MachineRow {
        time,
        machine,
        code,
        cap,
    })
}

/// A row of attributes.
fn attr_row(alloc: Global, words: &[Bytes]) -> Result<AttrRow, Fault> {
    match words {
        [time, machine, name, value] => attr_row_of(alloc, time, machine, name, Some(value)),
        [time, machine, name] => attr_row_of(alloc, time, machine, name, None),
        _ => Err(Fault::UnknownCall),
    }
}

/// A row that sets an attribute, or deletes it where there is no value.
fn attr_row_of(
    alloc: Global,
    time: &Bytes,
    machine: &Bytes,
    name: &Bytes,
    value: Option<&Bytes>,
) -> Result<AttrRow, Fault> {
    let (time, machine) = (number(time)?, number(machine)?);
    if time >= END_OF_TIME {
        return Err(Fault::MayNot);
    }
    Ok(AttrRow {
        time,
        machine,
        name: name.copy(alloc)?,
        value: copied(alloc, value)?,
        deleted: value.is_none(),
    })
}

/// A copy of a value, or no byte where there is none.
fn copied(alloc: Global, value: Option<&Bytes>) -> Result<Bytes, NoMemory> {
    match value {
        Some(value) => value.copy(alloc),
        None => Ok(Seq::new(alloc)),
    }
}

/// A row of tasks.
fn task_row(words: &[Bytes]) -> Result<TaskRow, Fault> {
    let [time, key, code, amount, prec, class] = words else {
        return Err(Fault::UnknownCall);
    };
    let (time, code, class) = (number(time)?, byte(code)?, byte(class)?);
    task_row_of(time, task(key)?, code, class, spec(amount, prec)?)
}

/// A row of tasks, if its columns are in range.
fn task_row_of(time: u64, key: TaskKey, code: u8, class: u8, spec: Spec) -> Result<TaskRow, Fault> {
    if time >= END_OF_TIME || key.index >= FIRST_EXTRA || code > 8 {
        return Err(Fault::MayNot);
    }
    if class > 3 || !spec.need.fits(GREATEST) {
        return Err(Fault::MayNot);
    }
    Ok(TaskRow {
        time,
        key,
        code,
        class,
        spec,
    })
}

/// A row of constraints.
fn constraint_row(alloc: Global, words: &[Bytes]) -> Result<ConstraintRow, Fault> {
    let [key, name, op, value] = words else {
        return Err(Fault::UnknownCall);
    };
    let key = task(key)?;
    if key.index >= FIRST_EXTRA {
        return Err(Fault::MayNot);
    }
    Ok(ConstraintRow {
        key,
        constraint: constraint_of(alloc, name, op, value)?,
    })
}

/// A row of activities.
fn activity_row(words: &[Bytes]) -> Result<ActivityRow, Fault> {
    let [job, count] = words else {
        return Err(Fault::UnknownCall);
    };
    let (job, activities) = (number(job)?, small(count)?);
    if activities > MOST_ACTIVITIES {
        return Err(Fault::MayNot);
    }
    Ok(ActivityRow { job, activities })
}

/// A row of disks.
fn disk_row(words: &[Bytes]) -> Result<DiskRow, Fault> {
    let [machine, disk] = words else {
        return Err(Fault::UnknownCall);
    };
    let (machine, disk) = (number(machine)?, number(disk)?);
    if disk > GREATEST_QUANTITY {
        return Err(Fault::MayNot);
    }
    Ok(DiskRow { machine, disk })
}
