//! The table of kept lines, and what is asked of a database that has it.
ghost use Rattle.std.specs.Prelude.{OnErr};
ghost use Rattle.sqlite.specs.Held.{state};
ghost use Rattle.sqlite.specs.State.{HasCleanDisk};
ghost use Rattle.omega_sqlkeep.specs.Appends.{IsAsBefore};

use omega_keep::Lines;
use omega_model::{Bytes, Seq};
use sqlite::{Alter, Connection, Error, ErrorCode, Row, params};
use sqlite_schema::names::same_name;
use sqlite_schema::schema::{Schema, Table};
use std::alloc::Global;

/// The name of the table.
const NAME: &[u8] = b"kept";

/// The column that has the places of the lines, and is the integer key.
const PLACE: &[u8] = b"place";

/// The column that has the lines.
const LINE: &[u8] = b"line";

/// Makes the table where it is absent. Its places rise from 1, and a line is bytes.
const TABLE: &str =
    "CREATE TABLE IF NOT EXISTS kept (place INTEGER PRIMARY KEY, line BLOB NOT NULL) STRICT";

/// All lines, in order.
const LINES: &str = "SELECT line FROM kept ORDER BY place";

/// Puts a line at the next place, which is one more than the greatest.
const PUT: &str = "INSERT INTO kept (line) VALUES (?1)";

/// Is refused where the table has a row, since the place of that one is taken, and puts nothing where it has none.
const SEE_NO_ROWS: &str = "INSERT INTO kept (place, line) SELECT place, line FROM kept LIMIT 1";

/// What an append may find in the table.
#[derive(Clone, Copy, Debug, PartialEq, Eq)]
pub enum Expected {
    /// Whatever stands there.
    AnyRows,
    /// No rows, since there was no table when the lines were loaded.
    NoRows,
}

/// Whether a table has lines with their places as its integer key. Other columns aren't looked at.
fn has_lines(table: &Table) -> bool {
    let columns = table.columns.as_slice();
    let has_places = table
        .key
        .and_then(|key| columns.get(key))
        .is_some_and(|column| same_name(column.name.as_slice(), PLACE));
    has_places
        && columns
            .iter()
            .any(|column| same_name(column.name.as_slice(), LINE))
}

/// Whether a schema has a view of the table's name, or a table of it that the crate `sqlite` can't read.
fn has_other(schema: &Schema) -> bool {
    schema
        .views
        .as_slice()
        .iter()
        .any(|view| same_name(view.name.as_slice(), NAME))
}

/// Whether a database has the table. Whatever else has its name is refused, before any statement runs.
fn has_table<S: Alter>(connection: &Connection<S>) -> Result<bool, Error> {
    let schema = connection.schema();
    let found = schema
        .tables
        .as_slice()
        .iter()
        .find(|table| same_name(table.name.as_slice(), NAME));
    match found {
        Some(table) if has_lines(table) => Ok(true),
        None if !has_other(schema) => Ok(false),
        _ => Err(Error::SqliteFailure(ErrorCode::NameTaken)),
    }
}

/// Makes the table where it is absent.
fn make_table<S: Alter>(connection: &mut Connection<S>) -> Result<(), Error> {
    connection.execute(TABLE, &[])?;
    Ok(())
}

/// The line of a row, refused where it isn't bytes.
fn line_of(row: &Row) -> Result<Bytes, Error> {
    let line: Vec<u8> = row.get(0)?;
    Ok(Seq::of(line))
}

/// The lines of a table that is there, row by row, so that none is held twice.
fn lines_of<S: Alter>(alloc: Global, connection: &mut Connection<S>) -> Result<Lines, Error> {
    let mut lines = Vec::new(alloc);
    let mut rows = connection.query(LINES, &[])?;
    for _ in 0..u64::MAX {
        let Some(row) = rows.next()? else {
            return Ok(Seq::of(lines));
        };
        lines.push(line_of(row)?)?;
    }
    Err(Error::SqliteFailure(ErrorCode::TooBig))
}

/// The lines of the table, which is made where it is absent. Whatever else has the table's name is refused.
pub fn load_from<S: Alter>(alloc: Global, connection: &mut Connection<S>) -> Result<Lines, Error> {
    has_table(connection)?;
    make_table(connection)?;
    lines_of(alloc, connection)
}

/// The lines of the table, where it is there. Nothing is written. Whatever else has the table's name is refused.
pub fn look_into<S: Alter>(
    alloc: Global,
    connection: &mut Connection<S>,
) -> Result<Option<Lines>, Error> {
    if !has_table(connection)? {
        return Ok(None);
    }
    Ok(Some(lines_of(alloc, connection)?))
}

/// Puts all lines at the end of the table in one transaction, which makes the table where it is absent.
/// Where anything is refused the transaction is rolled back, so that nothing has changed, as long as the
/// disk tells no lie. A connection that is in a transaction already is refused, and so are whatever else has
/// the table's name, and a table with rows where none are expected.
pub fn append_to<S: Alter>(
    connection: &mut Connection<S>,
    lines: &Lines,
    expected: Expected,
) -> Result<(), Error>
    ensures none { HasCleanDisk (state S.Store connection.new) → OnErr result (IsAsBefore (state S.Store connection.old) (state S.Store connection.new)) }
{
    if !connection.is_autocommit() {
        return Err(Error::SqliteFailure(ErrorCode::TransactionState));
    }
    has_table(connection)?;
    let mut work = connection.transaction();
    work.execute(TABLE, &[])?;
    if expected == Expected::NoRows {
        work.execute(SEE_NO_ROWS, &[])?;
    }
    for line in lines.as_slice() {
        work.execute(PUT, params![line.as_slice()])?;
    }
    work.commit()
}
