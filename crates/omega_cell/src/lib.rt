//! The cell that all schedulers share: one history, and the board after it.
//!
//! Promised: by its type the board is the state of the history and the history is legal. `commit` appends
//! exactly one entry with the reply that is due, which names what is really evicted, and takes no memory.
//! `copy` answers a cell with the same history. `into_run` answers with the history its effects (`AreEffects`):
//! what is in use where each round begins and at the end, and the tasks that each entry of a machine displaces.
//! In every legal history no gang is split, and each evicted task ran on the claim's machine with lower
//! precedence and had to go.
//!
//! The board is the state of the history at every moment, and the history is legal. What is fed to
//! the cell is appended, and a commit is judged and appended in one step that takes no memory: all
//! that it needs was made room for before. No call looks through the history.
//!
//! The cell also notes what its entries do that doesn't stand in them: what is in use where a round
//! begins, and which tasks an entry of a machine displaces.
#![tactic(auto)]

mod cell;
mod copying;
mod deciding;
mod effects;
mod laws;
mod prepared;
mod room;
mod touched;

pub use cell::Cell;
pub use effects::{Effects, Usage};
pub use laws::commits_of_legal_histories;
pub use prepared::Prepared;
