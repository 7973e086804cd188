//! A scheduler's private copy of the cell, for a caller of a shared cell who wants one of its own.
//!
//! Promised: a private copy follows a part of a history that it is lent, catches up by a delta that brings the
//! machines that changed, and is taken apart into its board and its indexes, and put together of them.
//!
//! A copy follows the history of the cell that all schedulers share: entry by entry, or by a delta that has what
//! changed. It keeps indexes beside its board, as plans need them, and every change of the board is told to them.
//!
//! No command of the program keeps a private copy: its schedulers plan on the cell's own board, or on a view
//! of the cell that all share.
#![tactic(auto)]

mod copy;

pub use copy::PrivateCopy;
