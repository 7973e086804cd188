//! Laws over the definitions alone, of what may stand in the history of a run.
//!
//! Promised: in turns, by a virtual clock, and in any other one order the entries so far fix the next commit,
//! and a lawful history in such an order is the only one for its settings and trace; so is that of any number
//! of first rounds in turns, which begins that of more. Settings that differ in the command alone have the same
//! lawful histories, and `resume` prints of each what `replay` prints. In every history that is lawful so far
//! each commit is an attempt on a request of the trace: each claim is on a machine that meets the constraints
//! of its wish, as its scheduler had seen it and in the state at the commit; a gang claims all of its request
//! or nothing; and no transaction evicts a task of its own job. What is planned under constraints meets them.
//!
//! What comes next in a round where the schedulers take turns, where they go by a virtual clock, or in
//! any order that is given by tests, and that nothing else could; what the first rounds in turns leave;
//! that the command of the settings changes nothing of it; that what is placed is on machines that meet
//! its constraints; and that a gang claims all of its request or nothing. No function here does
//! anything: its contract is the law, and who needs a law cites the lemma behind it.
#![tactic(auto)]

mod commands;
mod commits;
mod constraints;
mod time;
mod turns;

pub use commands::resumed_runs_are_replays;
pub use commits::commits_of_lawful_histories;
pub use constraints::claims_meet_constraints;
pub use time::{
    next_commits_in_time, one_more_round_in_time, rounds_by_the_clock, simulated_histories,
    times_of_lawful_histories,
};
pub use turns::{
    first_rounds_in_turns, lawful_histories_in_turns, next_commits_in_turns, rounds_in_any_order,
};
