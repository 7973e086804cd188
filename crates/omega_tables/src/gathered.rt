//! The rows of the tables that were read so far, or their number where there are too many to hold.
ghost use Rattle.std.specs.Prelude.{◌≡◌, None, IfErr, OnOk};
ghost use Rattle.std.specs.Thread.{IsSync};
ghost use Rattle.omega_model.specs.Limits.{IsWithinLimits};
ghost use Rattle.omega_model.specs.Trace.{no_rows, with_rows};
ghost use Rattle.omega_model.specs.Refusals.{row_refusal, trace_refusal};
ghost use Rattle.omega_model.specs.declared.rows.TraceTables.{TraceTables};
ghost use Rattle.omega_tables.specs.Reading.{Stands, StopsRows};
ghost use Rattle.omega_tables.specs.Taking.{Gathers, IsOfAll};

use crate::limits::check_rows;
use crate::parsing::append_table;
use crate::refusal::ReadRefusal;
use omega_model::{Kind, MOST_ROWS, Table, TraceTables};
use std::alloc::Global;
use std::thread::Threads;

/// The rows that were read so far, as long as all tables may have so many, and how many there are.
#[derive(Drop)]
pub(crate) struct Gathered {
    /// None once there are too many.
    pub(crate) trace: TraceTables,
    pub(crate) number: u64,
}

/// No rows.
pub(crate) fn nothing(alloc: Global) -> Gathered
    ensures { Gathers result no_rows }
{
    Gathered {
        trace: TraceTables::new(alloc),
        number: 0,
    }
}

/// Adds the rows of a table's text. Once there are more than all tables may have they are let go, and from then on
/// they are only counted and looked through for a bad one.
pub(crate) fn gather<P: Threads + Sync>(
    rt: &P,
    alloc: Global,
    table: Table,
    text: &[u8],
    into: &mut Gathered,
) -> Result<(), ReadRefusal>
    requires sync { IsSync P.row }
    ensures rows { (trace : TraceTables) → Gathers into.old trace → OnOk result (Gathers into.new (with_rows table text.now trace)) }
    ensures none { OnOk result (row_refusal table text.now ≡ None) }
    ensures refusal { IfErr result (λ refusal. Stands (row_refusal table text.now) refusal) }
{
    let most = (MOST_ROWS as u64).saturating_sub(into.number);
    let more = append_table(rt, alloc, table, text, most, &mut into.trace)?;
    let Some(number) = into.number.checked_add(more) else {
        return Err(ReadRefusal::NoMemory);
    };
    into.number = number;
    if number <= MOST_ROWS as u64 {
        return Ok(());
    }
    into.trace = TraceTables::new(alloc);
    Ok(())
}

/// Refuses rows that pass a limit: too many rows, or else too many different machines.
pub(crate) fn check_gathered(alloc: Global, gathered: &Gathered) -> Result<(), ReadRefusal>
    ensures rows { (trace : TraceTables) → Gathers gathered.now trace → OnOk result (gathered.now.trace ≡ trace) }
    ensures none { (trace : TraceTables) → Gathers gathered.now trace → OnOk result (trace_refusal trace ≡ None) }
    ensures within { OnOk result (IsWithinLimits gathered.now.trace) }
    ensures refusal { (trace : TraceTables) → Gathers gathered.now trace → IfErr result (λ refusal. StopsRows trace refusal) }
    ensures of_all { IfErr result IsOfAll }
{
    if gathered.number > MOST_ROWS as u64 {
        return Err(ReadRefusal::TooMany(Kind::Rows, gathered.number));
    }
    check_rows(alloc, &gathered.trace)
}
