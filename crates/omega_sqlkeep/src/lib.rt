//! Keepers of lines over a database of SQLite's format, so that a history outlives the program.
//!
//! Promised: both keepers meet all that is asked of a keeper. Each call ends; a call fails only where the count
//! of faults rose, and the count never falls; entering a path leaves the count, and the file's keeper tells
//! that path. A connection that was handed in is handed back. Over a connection an append that is refused
//! leaves what the database shows and has committed as it was, as long as the disk told no lie and the database
//! is open (`none`). What a database holds isn't said: that lines come back as they were put, and that a disk
//! which stops at any call leaves all of an append or none, is tested (`omega_keeper_cases` and
//! `omega_sqlkeep_tests`).
//!
//! The lines stand in one table, `kept`, a row for each. Lines are appended in one transaction, so that
//! a crash leaves all of them or none. `SqlKeeper` works over a connection that the caller has made,
//! `FileKeeper` over the file at the path that it enters.
//!
//! What stands on a disk no contract can say, so neither tells its list. A contract knows their counts of
//! faults: a call answers that the keeper failed only where the database refused it something or no path
//! was entered, and never for want of memory.
#![tactic(auto)]

mod database;
mod file;
mod paths;
mod refusals;
mod sql;

pub use file::FileKeeper;
pub use sql::SqlKeeper;
