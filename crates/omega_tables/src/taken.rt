//! The rows of a text, or their number where there are too many to hold.
ghost use Rattle.std.specs.Prelude.{◌≡◌, ◌++◌, List, ℕ, IfOk, Some};
ghost use Rattle.omega_model.specs.Rows.{rows_by};
ghost use Rattle.omega_tables.specs.Taking.{count_of, held_count, Takes};

use crate::parsing::FromRecord;
use omega_model::NoMemory;

/// What is taken of the rows of a text.
#[derive(Drop)]
pub(crate) enum Taken<R> {
    /// All of them.
    All(Vec<R>),
    /// There are so many, more than may be held.
    Number(u64),
}

/// How many rows there are.
pub(crate) fn number_of<R>(taken: &Taken<R>) -> u64
    ensures { result ≡ held_count taken.now }
{
    match taken {
        Taken::All(rows) => rows.len() as u64,
        Taken::Number(number) => *number,
    }
}

/// The rows of a front, and those of the back behind them. Only their number where that of one part alone is
/// known.
pub(crate) fn joined<R: FromRecord + Drop>(
    front: Taken<R>,
    back: Taken<R>,
) -> Result<Taken<R>, NoMemory>
    ensures { (most : ℕ) (first second : List (List (List ℕ))) → Takes most (rows_by R.row_of first) front
        → Takes most (rows_by R.row_of second) back
        → IfOk result (Takes most (rows_by R.row_of (first ++ second))) }
{
    let Some(number) = number_of(&front).checked_add(number_of(&back)) else {
        return Err(NoMemory);
    };
    match front {
        Taken::All(mut rows) => match back {
            Taken::All(mut more) => {
                rows.append(&mut more)?;
                Ok(Taken::All(rows))
            }
            Taken::Number(_) => Ok(Taken::Number(number)),
        },
        Taken::Number(_) => Ok(Taken::Number(number)),
    }
}
