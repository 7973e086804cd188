//! The board: the machines of a cell and its running tasks, on which claims are judged and entries
//! are applied.
//!
//! Promised: machines and tasks together are a cell that is sound by its type: no machine is used beyond its
//! capacity and no task runs twice. `judge` is the definition of a verdict and of what is evicted with it,
//! `apply_entry` one step of the definition of state, and `undo` gives back the board of the reserve.
//!
//! A board is sound at every moment: each task runs once, on a machine that is up, and no machine
//! has more in use than its capacity. Claims are judged and placed without memory and without a
//! walk over all tasks.
#![tactic(auto)]

mod board;
mod changes;
mod entries;
mod judging;
mod naming;
mod placing;
mod putting;
mod touching;
mod undo;

pub use board::Board;
pub use naming::touched;
pub use undo::Undo;
