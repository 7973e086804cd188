//! How much of everything there may be.

/// The greatest quantity: 1000 times the trace's normalised amount, in units of 10^-9 of it.
pub const GREATEST_QUANTITY: u64 = 1_000_000_000_000;

/// How many activities a MapReduce job may have.
pub const MOST_ACTIVITIES: u32 = 10_000;

/// How many bytes a table may have.
pub const LONGEST_TABLE: usize = 268_435_456;

/// How many rows all tables together may have.
pub const MOST_ROWS: usize = 2_000_000;

/// How many different machines there may be.
pub const MOST_MACHINES: usize = 65_536;
