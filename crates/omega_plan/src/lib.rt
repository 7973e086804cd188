//! Where a scheduler would put the tasks of a request, and what that stands on.
//!
//! Promised: the plan of a request on a board, whose indexes tell of it as before afterwards: each wish on the
//! first machine that suits and takes it, with as few victims as make room where the policy preempts, and a
//! gang whole or not at all. Indexes tell what is free on each machine of a board, go on to the board after a
//! whole history by what changed since they were last used, and lend for each precedence at which evictions
//! were tried another index, of what they could free. An overlay places claims beside a board and answers what
//! the board would with them, tells the indexes of each, and takes all back.
//!
//! A plan reads a board and changes nothing of it: each wish is planned on the cell after the claims
//! before it, which stand beside the board. A wish gets the first machine that suits it and takes it as
//! it is, or else, where the policy preempts, the first on which evictions make room.
//!
//! The claims are tried in an overlay, which answers what the board would with the claims placed. Indexes
//! say what is free on each machine, and for precedences at which evictions were tried what these could
//! free; they are told of the claims, and told again when the claims are taken back, the index of a precedence
//! only when it is asked for next. They stand beside the board too: whoever plans has some, and brings them up to
//! the board by what changed since.
#![tactic(auto)]

mod evicting;
mod indexes;
mod levels;
mod overlay;
mod placed;
mod planning;
mod progress;
mod seqs;
mod telling;
mod tenants;
mod trying;

pub use evicting::victims;
pub use indexes::Indexes;
pub use levels::Level;
pub use overlay::Overlay;
pub use planning::plan;
pub use seqs::seqs_on;
