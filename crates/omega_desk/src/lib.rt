//! A scheduler's desk: what is left of its work, and where its present attempt begins.
//!
//! Promised: what is left of a scheduler's requests in a round, and where its present attempt begins. How many
//! commits in a row placed nothing is exact for each job, where room for a job's count is made before it is
//! counted. The present request is answered with all its wishes, also where some are counted, and one that is
//! skipped leaves without an attempt.
//!
//! A desk takes a round's requests in order. It hands out the first one with the wishes that aren't
//! placed yet, and takes what came of an attempt on it, until nothing is left. How many commits in a row
//! placed nothing of a job is counted by `Failures`, which the report uses too.
//!
//! Wishes for extra tasks are counted until their request is tried: whoever plans an attempt has them listed, and
//! hands the list back with the reply.
#![tactic(auto)]

mod desk;
mod failures;
mod first;
mod walk;

pub use desk::Desk;
pub use failures::Failures;
