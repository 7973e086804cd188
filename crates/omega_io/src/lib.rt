//! The edges of the program: tables that are read, a sink that is written, and a gate.
//!
//! Promised: a read hands over the next bytes and a write appends bytes, in pieces of any size. A failed call
//! takes and writes nothing and comes only with a count of faults that rose. The folder that is entered stays.
//! `write_all` writes all, or a part and says so. Work is cut in one to eight pieces.
//!
//! The three traits say what a read, a write and a gate may do. The objects in memory serve
//! tests, the steady tables never fail, and the real objects read a folder and write to standard
//! output. Of the gates one returns at once, and one holds schedulers in an order. `pieces_on` says in how many
//! pieces work is cut that is done at the same time.
#![tactic(auto)]

mod by_table;
mod calls;
mod edges;
mod folder;
mod held_gate;
mod memory;
mod processors;
mod stdout;
mod steady;
mod unread;
mod writing;

pub use edges::{Failed, Gate, PassGate, Point, Sink, Tables};
pub use folder::FolderTables;
pub use held_gate::HeldGate;
pub use memory::{MemorySink, MemoryTables};
pub use processors::pieces_on;
pub use stdout::StdoutSink;
pub use steady::SteadyTables;
pub use writing::write_all;
