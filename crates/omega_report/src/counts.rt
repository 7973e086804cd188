//! What is counted of a scheduler.

/// What is counted of a scheduler's commits, and of the claims in them. A commit may be both `placing`
/// and `conflicted`.
#[derive(Clone, Copy, Debug, PartialEq, Eq)]
pub struct Counts {
    /// How many commits there are.
    pub commits: u64,
    /// How many of them have no claim.
    pub empty: u64,
    /// How many of them have a claim that is placed.
    pub placing: u64,
    /// How many of them are in conflict: a claim of theirs isn't placed.
    pub conflicted: u64,
    /// How many claims are placed.
    pub placed: u64,
    /// How many claims are neither placed nor withdrawn.
    pub refused: u64,
    /// How many claims are withdrawn with their gang.
    pub withdrawn: u64,
    /// How many tasks the placed claims evicted.
    pub evicted: u64,
}
