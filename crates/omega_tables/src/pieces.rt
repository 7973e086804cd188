//! Rows of a long text, of which several pieces are read at the same time.
ghost use Rattle.std.specs.Prelude.{◌≡◌, ◌++◌, ◌∷◌, List, ℕ, IfSome, IfOk, IfErr, Err};
ghost use Rattle.std.specs.Thread.{IsSync};
ghost use Rattle.omega_model.specs.Rows.{rows_by, rows_in};
ghost use Rattle.omega_model.specs.Refusals.{bad_row};
ghost use Rattle.omega_model.specs.declared.results.Cause.TheVariants.{Fields};
ghost use Rattle.omega_model.specs.declared.rows.Table.{Table};
ghost use Rattle.omega_tables.specs.Cutting.{MayCut};
ghost use Rattle.omega_tables.specs.Reading.{Stands};
ghost use Rattle.omega_tables.specs.Taking.{Takes};

use crate::long::long_line;
use crate::parsing::{FromRecord, read_rows};
use crate::refusal::ReadRefusal;
use crate::taken::{Taken, joined, number_of};
use memchr::memchr;
use omega_io::pieces_on;
use omega_model::{Cause, Table};
use std::alloc::Global;
use std::thread::{Threads, join};

/// A text of fewer bytes is read in one piece: to begin a thread for it would cost more than it saves.
const SHORTEST_CUT: usize = 1 << 17;

/// A front that is made of whole lines, and the back behind it, which begins behind the first end of a line in
/// the second half. `None` where no line ends there or where the text may not be cut there: a field between
/// quotes may have commas and ends of lines, so a front with a quote is no front. A clause says that the text may
/// be cut where it is cut; whether and where it is costs time alone.
fn cut(text: &[u8]) -> Option<(&[u8], &[u8])>
    ensures { IfSome result (λ parts. (text.now ≡ parts.0.now ++ parts.1.now) × MayCut parts.0.now parts.1.now) }
{
    let (_, second) = text.split_at(text.len() / 2);
    let end = text.len() / 2 + memchr(b'\n', second)?;
    let (front, back) = text.split_at(end + 1);
    let marked = back.first().copied() == Some(0xEF);
    if front.len() < 4 || marked || memchr(b'"', front).is_some() {
        return None;
    }
    Some((front, back))
}

/// The refusal of a text that stands behind so many rows: a bad row counts from the first of all.
fn behind<R: FromRecord>(front: &Taken<R>, refusal: ReadRefusal) -> ReadRefusal
    ensures { (most : ℕ) (table : Table) (first second : List (List (List ℕ))) → Takes most (rows_by R.row_of first) front.now
        → Stands (bad_row table (rows_by R.row_of second)) refusal → Stands (bad_row table (rows_by R.row_of (first ++ second))) result }
{
    match refusal {
        ReadRefusal::BadRow {
            table,
            row,
            column,
            cause,
        } => match row.checked_add(number_of(front)) {
            Some(row) => ReadRefusal::BadRow {
                table,
                row,
                column,
                cause,
            },
            None => ReadRefusal::NoMemory,
        },
        other => other,
    }
}

/// The rows of a front, and those of the back behind them; or the refusal that comes first.
fn together<R: FromRecord + Drop>(
    front: Result<Taken<R>, ReadRefusal>,
    back: Result<Taken<R>, ReadRefusal>,
) -> Result<Taken<R>, ReadRefusal>
    ensures rows { (most : ℕ) (first second : List (List (List ℕ))) → IfOk front (Takes most (rows_by R.row_of first))
        → IfOk back (Takes most (rows_by R.row_of second))
        → IfOk result (Takes most (rows_by R.row_of (first ++ second))) }
    ensures refusal { (most : ℕ) (table : Table) (first second : List (List (List ℕ))) → IfOk front (Takes most (rows_by R.row_of first))
        → IfErr front (λ refusal. Stands (bad_row table (rows_by R.row_of first)) refusal)
        → IfErr back (λ refusal. Stands (bad_row table (rows_by R.row_of second)) refusal)
        → IfErr result (λ refusal. Stands (bad_row table (rows_by R.row_of (first ++ second))) refusal) }
{
    let rows = match front {
        Ok(rows) => rows,
        Err(refusal) => return Err(refusal),
    };
    match back {
        Ok(more) => Ok(joined(rows, more)?),
        Err(refusal) => Err(behind(&rows, refusal)),
    }
}

/// How many rows each of so many pieces may hold where all together may have `most`: half more than its part.
fn share(most: u64, pieces: usize) -> u64 {
    let part = most / (pieces as u64).max(1);
    part.saturating_add(part / 2)
}

/// The refusal of a record with a wrong number of fields behind some text; or that of the text.
fn refused_line<R: FromRecord + Drop>(
    front: Result<Taken<R>, ReadRefusal>,
    table: Table,
    number: u64,
) -> ReadRefusal
    ensures { (most : ℕ) (first others : List (List (List ℕ))) (fields : List (List ℕ))
        → IfOk front (Takes most (rows_by R.row_of first))
        → IfErr front (λ refusal. Stands (bad_row table (rows_by R.row_of first)) refusal)
        → R.row_of fields ≡ Err (0, Fields number)
        → Stands (bad_row table (rows_by R.row_of (first ++ fields ∷ others))) result }
{
    match front {
        Ok(rows) => behind(
            &rows,
            ReadRefusal::BadRow {
                table,
                row: 1,
                column: 0,
                cause: Cause::Fields(number),
            },
        ),
        Err(refusal) => refusal,
    }
}

/// The rows of a table's text, or the first bad record, as `read_rows` answers them. A line that is long and has a
/// wrong number of fields isn't cut into fields: their number is told, where none before it is bad.
pub(crate) fn read_text<P: Threads + Sync, R: FromRecord + Drop + Send>(
    rt: &P,
    alloc: Global,
    table: Table,
    text: &[u8],
    most: u64,
) -> Result<Taken<R>, ReadRefusal>
    requires sync { IsSync P.row }
    ensures rows { IfOk result (Takes most (rows_in R.row_of text.now)) }
    ensures refusal { IfErr result (λ refusal. Stands (bad_row table (rows_in R.row_of text.now)) refusal) }
{
    let Some((front, number)) = long_line(text, R::columns()) else {
        return read_lines(rt, alloc, table, text, most);
    };
    let rows: Result<Taken<R>, ReadRefusal> = read_lines(rt, alloc, table, front, 0);
    Err(refused_line(rows, table, number))
}

/// The rows of a table's text, or the first bad record, as `read_rows` answers them. A long text is cut in at
/// most as many pieces as there are processors, and eight, which are read at the same time, as `read_pieces` does.
/// A piece may hold half more rows than its part of `most`. Where one has more, though all have no more than
/// `most`, the text is read once more, in one piece.
fn read_lines<P: Threads + Sync, R: FromRecord + Drop + Send>(
    rt: &P,
    alloc: Global,
    table: Table,
    text: &[u8],
    most: u64,
) -> Result<Taken<R>, ReadRefusal>
    requires sync { IsSync P.row }
    ensures rows { IfOk result (Takes most (rows_in R.row_of text.now)) }
    ensures refusal { IfErr result (λ refusal. Stands (bad_row table (rows_in R.row_of text.now)) refusal) }
{
    if text.len() < SHORTEST_CUT {
        return read_rows(alloc, table, text, most);
    }
    let pieces = pieces_on(rt);
    match read_pieces(rt, alloc, table, text, pieces, share(most, pieces))? {
        Taken::All(rows) => Ok(Taken::All(rows)),
        Taken::Number(number) if number > most => Ok(Taken::Number(number)),
        Taken::Number(_) => read_rows(alloc, table, text, most),
    }
}

/// The same, in at most so many pieces, each on a thread of its own where one can be made, and none of which holds
/// more than `most` rows. A text with a quote in its first half is read in one piece; where quotes stand only
/// behind that, the front is cut off. A bad row in one piece doesn't stop the others. Waits only for the threads
/// that it has begun; they wait for nobody. While two pieces are joined the rows of the second one are held twice,
/// and those of the first one too where their list has to move.
fn read_pieces<P: Threads + Sync, R: FromRecord + Drop + Send>(
    rt: &P,
    alloc: Global,
    table: Table,
    text: &[u8],
    pieces: usize,
    most: u64,
) -> Result<Taken<R>, ReadRefusal>
    requires sync { IsSync P.row }
    ensures rows { IfOk result (Takes most (rows_in R.row_of text.now)) }
    ensures refusal { IfErr result (λ refusal. Stands (bad_row table (rows_in R.row_of text.now)) refusal) }
{
    if pieces < 2 || text.len() < SHORTEST_CUT {
        return read_rows(alloc, table, text, most);
    }
    let Some((front, back)) = cut(text) else {
        return read_rows(alloc, table, text, most);
    };
    let half = pieces / 2;
    let rest = pieces - half;
    let (one, two) = join(
        rt,
        || -> Result<Taken<R>, ReadRefusal>
            requires sync { IsSync P.row }
            ensures rows { IfOk result (Takes most (rows_in R.row_of front.entry.now)) }
            ensures refusal { IfErr result (λ refusal. Stands (bad_row table (rows_in R.row_of front.entry.now)) refusal) }
        { read_pieces(rt, alloc, table, front, half, most) },
        || -> Result<Taken<R>, ReadRefusal>
            requires sync { IsSync P.row }
            ensures rows { IfOk result (Takes most (rows_in R.row_of back.entry.now)) }
            ensures refusal { IfErr result (λ refusal. Stands (bad_row table (rows_in R.row_of back.entry.now)) refusal) }
        { read_pieces(rt, alloc, table, back, rest, most) },
    );
    together(one, two)
}
