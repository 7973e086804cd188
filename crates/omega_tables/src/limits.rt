//! The limits of a table and of all six.
ghost use Rattle.std.specs.Prelude.{◌≡◌, ◌≤◌, ◌↔◌, ◌++◌, ℕ, List, map, None, IfOk, OnOk, IfErr};
ghost use Rattle.omega_model.specs.Limits.{row_count, machine_count, limit_passed, IsWithinLimits};
ghost use Rattle.omega_model.specs.Refusals.{trace_refusal};
ghost use Rattle.omega_tables.specs.Checking.{Holds};
ghost use Rattle.omega_tables.specs.Reading.{StopsRows};

use crate::refusal::ReadRefusal;
use omega_model::{AttrRow, Kind, MOST_MACHINES, MOST_ROWS, MachineRow, NoMemory, TraceTables};
use std::alloc::Global;
use std::collections::BTreeSet;

/// How many rows the six tables have.
fn row_count(tables: &TraceTables) -> usize
    ensures { result ≡ row_count tables.now }
{
    tables.machines.as_slice().len()
        + tables.attrs.as_slice().len()
        + tables.tasks.as_slice().len()
        + tables.constraints.as_slice().len()
        + tables.activities.as_slice().len()
        + tables.disks.as_slice().len()
}

/// Adds the machines of some rows to those that were named before.
fn add_machines(rows: &[MachineRow], named: &mut BTreeSet<u64>) -> Result<(), NoMemory>
    ensures { (before : List ℕ) → Holds named.old before → OnOk result (Holds named.new (before ++ map (λ row. row.machine) rows.now)) }
{
    for row in rows.iter() {
        named.insert(row.machine)?;
    }
    Ok(())
}

/// Adds the machines of some rows of attributes to those that were named before.
fn add_attr_machines(rows: &[AttrRow], named: &mut BTreeSet<u64>) -> Result<(), NoMemory>
    ensures { (before : List ℕ) → Holds named.old before → OnOk result (Holds named.new (before ++ map (λ row. row.machine) rows.now)) }
{
    for row in rows.iter() {
        named.insert(row.machine)?;
    }
    Ok(())
}

/// How many different machines the rows of machines and of attributes name.
fn machine_count(alloc: Global, tables: &TraceTables) -> Result<usize, NoMemory>
    ensures { IfOk result (λ number. number ≡ machine_count tables.now) }
{
    let mut named = BTreeSet::new(alloc);
    add_machines(tables.machines.as_slice(), &mut named)?;
    add_attr_machines(tables.attrs.as_slice(), &mut named)?;
    Ok(named.len())
}

/// The number of the rows that name a machine: there are no more different machines than these.
fn naming_rows(tables: &TraceTables) -> usize
    ensures { machine_count tables.now ≤ result }
{
    tables.machines.as_slice().len() + tables.attrs.as_slice().len()
}

/// The first number that passes its limit: the rows of all six tables above `MOST_ROWS`, then the
/// different machines in the rows of machines and of attributes above `MOST_MACHINES`. `None`
/// exactly where both limits are kept. Where there are more rows of machines and of attributes than there
/// may be machines, it costs n log m for n such rows and m machines.
pub fn over_limit(alloc: Global, tables: &TraceTables) -> Result<Option<(Kind, u64)>, NoMemory>
    ensures number { IfOk result (λ number. number ≡ limit_passed tables.now) }
    ensures within { IfOk result (λ number. (number ≡ None) ↔ IsWithinLimits tables.now) }
{
    let rows = row_count(tables);
    if rows > MOST_ROWS {
        return Ok(Some((Kind::Rows, rows as u64)));
    }
    if naming_rows(tables) <= MOST_MACHINES {
        return Ok(None);
    }
    let machines = machine_count(alloc, tables)?;
    if machines > MOST_MACHINES {
        return Ok(Some((Kind::Machines, machines as u64)));
    }
    Ok(None)
}

/// Refuses rows that pass a limit: too many rows, or else too many different machines.
pub fn check_rows(alloc: Global, tables: &TraceTables) -> Result<(), ReadRefusal>
    ensures none { OnOk result (trace_refusal tables.now ≡ None) }
    ensures within { OnOk result (IsWithinLimits tables.now) }
    ensures refusal { IfErr result (λ refusal. StopsRows tables.now refusal) }
{
    match over_limit(alloc, tables)? {
        Some((kind, number)) => Err(ReadRefusal::TooMany(kind, number)),
        None => Ok(()),
    }
}
