//! A keeper over a database in memory.
use crate::steps::{is_word, show_done, taken};
use omega_calls::{Fault, is_colon, part};
use omega_keep::Keeper;
use omega_model::Bytes;
use omega_sqlkeep::SqlKeeper;
use sqlite::{Alter, Connection};
use std::alloc::Global;

/// A keeper over a connection. Functions take it as a value of a type parameter, since lending one whose type is
/// known costs the caller minutes of proof.
trait Kept: Keeper + Drop {
    /// A new keeper over the same connection.
    fn again(self, alloc: Global) -> Self;
}

impl<S: Alter + Drop> Kept for SqlKeeper<S> {
    fn again(self, alloc: Global) -> SqlKeeper<S> {
        SqlKeeper::over(alloc, self.into_connection())
    }
}

/// What each step answers on a keeper over a database that these statements have made. Besides the steps of every
/// keeper there is `again`, which puts a new keeper over the same connection and answers `ok`.
pub(crate) fn answer(
    alloc: Global,
    statements: &str,
    words: &[Bytes],
    answers: &mut String,
) -> Result<(), Fault> {
    let connection = made(Connection::open_in_memory(alloc)?, statements)?;
    take_all(alloc, SqlKeeper::over(alloc, connection), words, answers)
}

/// A database that these statements have made.
fn made<S: Alter + Drop>(
    connection: Connection<S>,
    statements: &str,
) -> Result<Connection<S>, Fault> {
    let mut connection = connection;
    match connection.execute_batch(statements) {
        Ok(()) => Ok(connection),
        Err(_) => Err(Fault::MayNot),
    }
}

/// Takes all steps.
fn take_all<K: Kept>(
    alloc: Global,
    keeper: K,
    words: &[Bytes],
    answers: &mut String,
) -> Result<(), Fault> {
    let mut keeper = keeper;
    for step in words.split(|word| is_colon(word)) {
        part(answers)?;
        keeper = taken_here(alloc, keeper, step, answers)?;
    }
    Ok(())
}

/// Takes a step, and answers the keeper after it.
fn taken_here<K: Kept>(
    alloc: Global,
    keeper: K,
    step: &[Bytes],
    answers: &mut String,
) -> Result<K, Fault> {
    if is_word(step, "again")? {
        show_done(answers, true)?;
        return Ok(keeper.again(alloc));
    }
    taken(alloc, keeper, step, answers)
}
