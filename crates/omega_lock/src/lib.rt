//! A lock whose turns go by tickets, around a value with a list behind it.
//!
//! Promised: each caller has a seat. `Lock::turn` hands the value out to a seat, and `Lock::release` takes
//! it back, with the list as it was or with one more entry, which has the seat's number. Whatever the
//! other callers do on their threads, the list that a turn hands out goes on from all that its seat
//! had seen, and a seat's own entries stand in it, each once and in order. `Lock::close` takes the
//! seats back and hands out the value, whose list goes on from what each of them had seen and has
//! no other entry since the lock began than theirs.
//!
//! Nothing is said of time: not who comes first, nor that a turn comes soon, nor that it comes.
//!
//! # How it works
//!
//! The lock is a table with four words and one slot (`atomic_table`). A word changes in single
//! steps; the slot is plain memory, which only the seat that has it may touch.
//!
//! | Word | Holds |
//! |---|---|
//! | 0 | how many numbers were given to seats |
//! | 1 | the ticket that is drawn next |
//! | 2 | the ticket that is served |
//! | 3 | the length of the list |
//!
//! A turn draws a ticket from word 1, looks at word 2 until its ticket is served, reads word 3 and
//! takes the value out of the slot. A release puts the value back, raises word 3 where the list has
//! one more entry, and raises word 2.
//!
//! Who has looked often enough sleeps between two looks, at the bell of its ticket (`bells`): a word of
//! a second table, which has no rule and says nothing of the lock. A release that has raised word 2
//! rings the bell of the next ticket, if that was drawn, and so wakes the one caller whose turn it is.
//! Whoever wakes looks again. That nobody sleeps for ever is not proved; `wait` says why it is so.
//!
//! What each seat knows is its view, which exists in proofs alone (`view`). `LockRule` (in
//! `specs/Rule.antt`) ties words, slot and views together and holds between any two steps. Each kind
//! of step has one lemma in `proofs/` that it keeps the rule: `Splitting`, `Numbering`, `Drawing`,
//! `Looking`, `Reading`, `Publishing`, `Passing`, `Joining`. What a step tells its caller is in
//! `specs/Steps.antt`.
#![tactic(auto)]

mod bells;
mod counted;
mod gathering;
mod lock;
mod rule;
mod seat;
mod seat_view;
mod seating;
mod taking;

pub use counted::Counted;
pub use lock::{Lock, NoMemory};
pub use seat::Seat;
