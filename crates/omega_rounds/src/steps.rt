//! What a world answers when it is let go on to the next round.

/// How a world goes on after a round.
#[derive(Clone, Copy, Debug, PartialEq, Eq)]
pub enum RoundStep {
    /// The round of this number begins, and its rows are applied.
    Begun(u64),
    /// This scheduler has work, and none with a lower number has.
    Unfinished(u32),
    /// Nobody has work, and there is no further round.
    Over,
}
