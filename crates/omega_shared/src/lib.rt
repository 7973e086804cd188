//! A cell that schedulers share on threads of their own.
//!
//! The cell lies behind a lock whose turns go by tickets. Each scheduler has a pass. With it a
//! scheduler syncs, which takes a copy of its own up to the history, or looks at the cell itself, in a
//! view that all who look share; and it commits a transaction that it has planned on its copy or its
//! view. The program's schedulers look; copies, of whatever kind, are for other callers.
//!
//! Each sync, look and commit takes one turn. Under the turn a sync only puts together what is new, and
//! the copy takes it in after the turn; a look only gives out the view; a commit waits a while for those
//! that look and, if one of them still does, goes on with a copy of the cell; then it makes room, is
//! judged and appended. Nothing is planned under a turn.
//!
//! Promised, whatever the order of turns: what a pass has seen goes on from all that it had seen, its own
//! commits stand in it, each once and in order, and each of them, be it of what was planned on a copy or
//! on a view, is one entry of the pass's scheduler with the reply that is due on exactly the entries
//! before it. After a sync a copy stands for all that its pass has seen, and a view that a pass takes has
//! that history. In the end the cell's history goes on from what every pass had seen, with no other commit
//! of its number.
//!
//! Nothing is said of time: not who comes first, nor that a turn comes soon, nor that it comes.
#![tactic(auto)]

mod copies;
mod held;
mod pass;
mod planned;
mod shared;
mod view;

pub use copies::CellCopy;
pub use pass::Pass;
pub use shared::SharedCell;
pub use view::CellView;
