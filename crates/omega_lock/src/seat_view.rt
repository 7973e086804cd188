//! What a seat knows.
use std::collections::LinkedList;

/// What a seat knows. It is spoken of in proofs alone, and no value of it is made.
pub struct SeatView<E> {
    /// Whether it has a number yet, and which.
    pub has_number: bool,
    pub number: u64,
    /// How long the list was when the lock began.
    pub first_length: u64,
    /// How many turns a number comes with, and how many the seat has left.
    pub allotted: u64,
    pub turns: u64,
    /// Whether it has a ticket, and which.
    pub has_ticket: bool,
    pub ticket: u64,
    /// Whether it holds the turn; in that turn, whether it has read the length, and whether it has
    /// told of an entry.
    pub holds: bool,
    pub read: bool,
    pub told: bool,
    /// The list behind the value, while it holds the turn.
    pub held: LinkedList<E>,
    /// The list as far as it has seen it.
    pub seen: LinkedList<E>,
    /// Its own entries since the lock began.
    pub own: LinkedList<E>,
    /// The numbers of the seats that were joined to it, each with its own entries.
    pub kept: LinkedList<(u64, LinkedList<E>)>,
    /// What it and each of these had seen before they were joined.
    pub also_seen: LinkedList<LinkedList<E>>,
    /// How long each of these knew the first list to be.
    pub also_first: LinkedList<u64>,
}
