//! A keeper over a connection to a database.
ghost use Rattle.std.specs.Prelude.{◌≡◌, ◌≤◌, IfErr, OnErr};
ghost use Rattle.omega_keep.specs.Keeping.{FailsFor};
ghost use Rattle.sqlite.specs.Held.{state};
ghost use Rattle.sqlite.specs.State.{HasCleanDisk};
ghost use Rattle.omega_sqlkeep.specs.Appends.{IsAsBefore};

use crate::database::{Expected, append_to, load_from};
use crate::refusals::counted;
use omega_keep::{KeepRefusal, Keeper, Lines};
use omega_model::NoMemory;
use sqlite::{Alter, Connection};
use std::alloc::Global;

/// A keeper of the lines in the table `kept` of a database.
///
/// A load makes the table where it is absent, and answers the lines in the order of their places. An
/// append puts all lines at the end in one transaction; where anything is refused the transaction is
/// rolled back, so that none is added and, as long as the disk tells no lie, the database shows and has
/// committed what it did before. It tells neither its list nor a path, and a path that is entered means
/// nothing to it.
///
/// Each statement that is refused, and each row that isn't bytes, is a fault. So is something else that has
/// the table's name: a view, or a table without a column `line` or whose integer key isn't `place`. It is
/// looked at in the schema, before any statement runs. Want of memory is no
/// fault, and is answered as `NoMemory`. The count of faults stops at 2^64 - 1.
pub struct SqlKeeper<S: Alter + Drop> {
    alloc: Global,
    connection: Connection<S>,
    faults: u64,
}

// It is written out, so that who lets a keeper go doesn't prove again how each part is dropped.
impl<S: Alter + Drop> Drop for SqlKeeper<S> {
    fn drop(self) {
        let SqlKeeper {
            alloc: _,
            connection: _,
            faults: _,
        } = self;
    }
}

impl<S: Alter + Drop> SqlKeeper<S> {
    ghost use Rattle.omega_sqlkeep.specs.Connections.{connection_of};

    /// A keeper over this connection, with no fault so far. While the connection is in a transaction of
    /// the caller's, each append is refused.
    pub fn over(alloc: Global, connection: Connection<S>) -> SqlKeeper<S>
        ensures connection { connection_of result ≡ connection }
        ensures count { ⟦<SqlKeeper<S> as Keeper>⟧.faults result ≡ 0 }
    {
        SqlKeeper {
            alloc,
            connection,
            faults: 0,
        }
    }

    /// Hands the connection back.
    pub fn into_connection(self) -> Connection<S>
        ensures { result ≡ connection_of self }
    {
        let SqlKeeper {
            alloc: _,
            connection,
            faults: _,
        } = self;
        connection
    }
}

impl<S: Alter + Drop> Keeper for SqlKeeper<S> {
    ghost use Rattle.std.specs.Prelude.{None};
    ghost use Rattle.omega_sqlkeep.specs.Connections.{connection_of, faults_of};

    ghost entered = { λ _. None };

    ghost kept = { λ _. None };

    ghost faults = { λ k. k.faults };

    fn enter(&mut self, _path: &str) -> Result<(), NoMemory> {
        Ok(())
    }

    fn load(&mut self) -> Result<Lines, KeepRefusal> {
        match load_from(self.alloc, &mut self.connection) {
            Ok(lines) => Ok(lines),
            Err(error) => Err(counted(error, &mut self.faults)),
        }
    }

    fn append(&mut self, lines: &Lines) -> Result<(), KeepRefusal>
        ensures none { HasCleanDisk (state S.Store (connection_of self.new)) → OnErr result (IsAsBefore (state S.Store (connection_of self.old)) (state S.Store (connection_of self.new))) }
        ensures cause { IfErr result (FailsFor (faults_of self.old) (faults_of self.new)) }
        ensures later { faults_of self.old ≤ faults_of self.new }
    {
        match append_to(&mut self.connection, lines, Expected::AnyRows) {
            Ok(()) => Ok(()),
            Err(error) => Err(counted(error, &mut self.faults)),
        }
    }

    fn faults(&self) -> u64 {
        self.faults
    }
}
