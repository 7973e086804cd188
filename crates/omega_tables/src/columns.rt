//! The columns of a record, and the typed row that they make.
ghost use Rattle.std.specs.Prelude.{◌≡◌, ◌^◌, ◌<◌, ◌≤◌, IfOk};
ghost use Rattle.csv.specs.Records.{fields_of};
ghost use Rattle.omega_model.specs.Fields.{greatest as most_units, greatest_quantity};
ghost use Rattle.omega_model.specs.Need.{Fits};
ghost use Rattle.omega_model.specs.Rows.{column};
ghost use Rattle.omega_model.specs.Columns.{bounded, number_in, number_or_blank_in, time_in, id_in, amount_down_in, amount_up_in, capacity_in, need_in, key_in, spec_of, operator, machine_row, attr_row, task_row, constraint_row, activity_row, disk_row};
ghost use Rattle.omega_tables.specs.Checking.{has_fields, attr_numbers, constraint_numbers};

use csv::ByteRecord;
use omega_model::{
    ActivityRow, AttrRow, Bytes, Cause, Constraint, ConstraintRow, DiskRow, MOST_ACTIVITIES,
    MachineRow, Need, NoMemory, Op, Seq, Spec, TaskKey, TaskRow,
};
use omega_units::{Rounding, read_quantity, read_u64};
use std::alloc::Global;

/// The number of the first bad column, from 1, and what is wrong with it. Column 0 says that the
/// record has a wrong number of fields.
pub type BadColumn = (u32, Cause);

/// The greatest time, in microseconds: 2^63 - 1.
const LAST_TIME: u64 = 9_223_372_036_854_775_807;

/// The greatest index of a task: 2^31 - 1.
const LAST_INDEX: u64 = 2_147_483_647;

/// The field in a column, counted from 1; empty where there is no such column.
fn column(fields: &ByteRecord, number: u32) -> &[u8]
    requires { 0 < number }
    ensures { result.now ≡ column (fields_of fields.now) number }
{
    fields.get(number as usize - 1).unwrap_or(&[])
}

/// The whole number that a text writes, if it is at most `greatest`.
fn bounded(greatest: u64, text: &[u8]) -> Result<u64, Cause>
    ensures value { result ≡ bounded greatest text.now }
    ensures most { IfOk result (λ number. number ≤ greatest) }
{
    let Ok(number) = read_u64(text) else {
        return Err(Cause::Number);
    };
    if number > greatest {
        return Err(Cause::Range);
    }
    Ok(number)
}

/// The whole number in a column, if it is at most `greatest`.
fn number_in(greatest: u64, number: u32, fields: &ByteRecord) -> Result<u64, BadColumn>
    requires { 0 < number }
    ensures value { result ≡ number_in greatest number (fields_of fields.now) }
    ensures most { IfOk result (λ value. value ≤ greatest) }
{
    match bounded(greatest, column(fields, number)) {
        Ok(value) => Ok(value),
        Err(cause) => Err((number, cause)),
    }
}

/// The same for a column that may be empty, which stands for 0.
fn number_or_blank_in(greatest: u64, number: u32, fields: &ByteRecord) -> Result<u64, BadColumn>
    requires { 0 < number }
    ensures value { result ≡ number_or_blank_in greatest number (fields_of fields.now) }
    ensures most { IfOk result (λ value. value ≤ greatest) }
{
    if column(fields, number).is_empty() {
        return Ok(0);
    }
    number_in(greatest, number, fields)
}

/// The time in a column, in microseconds.
fn time_in(number: u32, fields: &ByteRecord) -> Result<u64, BadColumn>
    requires { 0 < number }
    ensures value { result ≡ time_in number (fields_of fields.now) }
    ensures most { IfOk result (λ time. time < 2 ^ 63) }
{
    number_in(LAST_TIME, number, fields)
}

/// The number of a machine or of a job.
fn id_in(number: u32, fields: &ByteRecord) -> Result<u64, BadColumn>
    requires { 0 < number }
    ensures { result ≡ id_in number (fields_of fields.now) }
{
    number_in(u64::MAX, number, fields)
}

/// One amount of a capacity in a column, in units of 10^-9, rounded down.
fn amount_down_in(number: u32, fields: &ByteRecord) -> Result<u64, BadColumn>
    requires { 0 < number }
    ensures value { result ≡ amount_down_in number (fields_of fields.now) }
    ensures most { IfOk result (λ units. units ≤ greatest_quantity) }
{
    match read_quantity(column(fields, number), Rounding::Down) {
        Ok(units) => Ok(units),
        Err(_) => Err((number, Cause::Quantity)),
    }
}

/// One amount of a need in a column, in units of 10^-9, rounded up.
fn amount_up_in(number: u32, fields: &ByteRecord) -> Result<u64, BadColumn>
    requires { 0 < number }
    ensures value { result ≡ amount_up_in number (fields_of fields.now) }
    ensures most { IfOk result (λ units. units ≤ greatest_quantity) }
{
    match read_quantity(column(fields, number), Rounding::Up) {
        Ok(units) => Ok(units),
        Err(_) => Err((number, Cause::Quantity)),
    }
}

/// The CPU and memory of a machine, in a column and the next. Its table says nothing of disk.
fn capacity_in(number: u32, fields: &ByteRecord) -> Result<Need, BadColumn>
    requires first { 0 < number }
    requires last { number < 100 }
    ensures value { result ≡ capacity_in number (fields_of fields.now) }
    ensures most { IfOk result (λ need. Fits need most_units) }
    ensures disk { IfOk result (λ need. need.disk ≡ 0) }
{
    Ok(Need {
        cpu: amount_down_in(number, fields)?,
        mem: amount_down_in(number + 1, fields)?,
        disk: 0,
    })
}

/// The CPU, memory and disk that a task asks for, in a column and the next two.
fn need_in(number: u32, fields: &ByteRecord) -> Result<Need, BadColumn>
    requires first { 0 < number }
    requires last { number < 100 }
    ensures value { result ≡ need_in number (fields_of fields.now) }
    ensures most { IfOk result (λ need. Fits need most_units) }
{
    Ok(Need {
        cpu: amount_up_in(number, fields)?,
        mem: amount_up_in(number + 1, fields)?,
        disk: amount_up_in(number + 2, fields)?,
    })
}

/// The name of a task, in a column and the next.
fn key_in(number: u32, fields: &ByteRecord) -> Result<TaskKey, BadColumn>
    requires first { 0 < number }
    requires last { number < 100 }
    ensures value { result ≡ key_in number (fields_of fields.now) }
    ensures index { IfOk result (λ key. key.index < 2 ^ 31) }
{
    Ok(TaskKey {
        job: id_in(number, fields)?,
        index: number_in(LAST_INDEX, number + 1, fields)? as u32,
    })
}

/// The specification in a record of `task_events`. An empty priority is 0, and an empty flag for
/// different machines says no.
fn spec_of(fields: &ByteRecord) -> Result<Spec, BadColumn>
    ensures value { result ≡ spec_of (fields_of fields.now) }
    ensures most { IfOk result (λ spec. Fits spec.need most_units) }
{
    let prec = number_or_blank_in(255, 9, fields)? as u8;
    let need = need_in(10, fields)?;
    let differ = number_or_blank_in(1, 13, fields)? == 1;
    Ok(Spec { need, prec, differ })
}

/// Refuses a record that has another number of fields than this.
fn has_fields(number: usize, fields: &ByteRecord) -> Result<(), BadColumn>
    ensures { result ≡ has_fields number (fields_of fields.now) }
{
    if fields.len() != number {
        return Err((0, Cause::Fields(fields.len() as u64)));
    }
    Ok(())
}

/// The row of a record of `machine_events`, or its first bad column.
pub fn machine_row(fields: &ByteRecord) -> Result<MachineRow, BadColumn>
    ensures { result ≡ machine_row (fields_of fields.now) }
{
    has_fields(6, fields)?;
    Ok(MachineRow {
        time: time_in(1, fields)?,
        machine: id_in(2, fields)?,
        code: number_in(2, 3, fields)? as u8,
        cap: capacity_in(5, fields)?,
    })
}

/// The row of a record of `task_events`, or its first bad column.
pub fn task_row(fields: &ByteRecord) -> Result<TaskRow, BadColumn>
    ensures { result ≡ task_row (fields_of fields.now) }
{
    has_fields(13, fields)?;
    Ok(TaskRow {
        time: time_in(1, fields)?,
        key: key_in(3, fields)?,
        code: number_in(8, 6, fields)? as u8,
        class: number_or_blank_in(3, 8, fields)? as u8,
        spec: spec_of(fields)?,
    })
}

/// The row of a record of `mapreduce_jobs`, or its first bad column.
pub fn activity_row(fields: &ByteRecord) -> Result<ActivityRow, BadColumn>
    ensures { result ≡ activity_row (fields_of fields.now) }
{
    has_fields(2, fields)?;
    Ok(ActivityRow {
        job: id_in(1, fields)?,
        activities: number_in(u64::from(MOST_ACTIVITIES), 2, fields)? as u32,
    })
}

/// The row of a record of `machine_disk`, or its first bad column.
pub fn disk_row(fields: &ByteRecord) -> Result<DiskRow, BadColumn>
    ensures { result ≡ disk_row (fields_of fields.now) }
{
    has_fields(2, fields)?;
    Ok(DiskRow {
        machine: id_in(1, fields)?,
        disk: amount_down_in(2, fields)?,
    })
}

/// A copy of the field in a column.
fn bytes_in(alloc: Global, number: u32, fields: &ByteRecord) -> Result<Bytes, NoMemory>
    requires { 0 < number }
    ensures { IfOk result (λ bytes. bytes ≡ column (fields_of fields.now) number) }
{
    Ok(Seq::of(Vec::from_slice(alloc, column(fields, number))?))
}

/// The time, the machine and whether the attribute is deleted.
fn attr_numbers(fields: &ByteRecord) -> Result<(u64, u64, bool), BadColumn>
    ensures value { result ≡ attr_numbers (fields_of fields.now) }
    ensures time { IfOk result (λ (time, machine, deleted). time < 2 ^ 63) }
{
    has_fields(5, fields)?;
    let time = time_in(1, fields)?;
    let machine = id_in(2, fields)?;
    let deleted = number_in(1, 5, fields)? == 1;
    Ok((time, machine, deleted))
}

/// The row of a record of `machine_attributes`, or its first bad column. `NoMemory`, the outer error,
/// where there is no memory for name and value.
pub fn attr_row(alloc: Global, fields: &ByteRecord) -> Result<Result<AttrRow, BadColumn>, NoMemory>
    ensures { IfOk result (λ row. row ≡ attr_row (fields_of fields.now)) }
{
    let (time, machine, deleted) = match attr_numbers(fields) {
        Ok(numbers) => numbers,
        Err(bad) => return Ok(Err(bad)),
    };
    let name = bytes_in(alloc, 3, fields)?;
    let value = bytes_in(alloc, 4, fields)?;
    Ok(Ok(AttrRow {
        time,
        machine,
        name,
        value,
        deleted,
    }))
}

/// The operator with a number from 0 to 3.
fn operator(number: u64) -> Op
    ensures { result ≡ operator number }
{
    match number {
        0 => Op::Equal,
        1 => Op::NotEqual,
        2 => Op::Less,
        _ => Op::Greater,
    }
}

/// The task and the operator of a constraint. The time is checked, and not kept.
fn constraint_numbers(fields: &ByteRecord) -> Result<(TaskKey, Op), BadColumn>
    ensures value { result ≡ constraint_numbers (fields_of fields.now) }
    ensures index { IfOk result (λ (key, op). key.index < 2 ^ 31) }
{
    has_fields(6, fields)?;
    time_in(1, fields)?;
    let key = key_in(2, fields)?;
    let op = operator(number_in(3, 4, fields)?);
    Ok((key, op))
}

/// The row of a record of `task_constraints`, or its first bad column. `NoMemory`, the outer error,
/// where there is no memory for name and value.
pub fn constraint_row(
    alloc: Global,
    fields: &ByteRecord,
) -> Result<Result<ConstraintRow, BadColumn>, NoMemory>
    ensures { IfOk result (λ row. row ≡ constraint_row (fields_of fields.now)) }
{
    let (key, op) = match constraint_numbers(fields) {
        Ok(numbers) => numbers,
        Err(bad) => return Ok(Err(bad)),
    };
    let name = bytes_in(alloc, 5, fields)?;
    let value = bytes_in(alloc, 6, fields)?;
    Ok(Ok(ConstraintRow {
        key,
        constraint: Constraint { op, name, value },
    }))
}
