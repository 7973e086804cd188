//! A caller's seat.
ghost use Rattle.std.specs.Prelude.{◌≡◌};
ghost use Rattle.omega_lock.specs.Seats.{OwnIsSeen};

use crate::counted::Counted;
use crate::seat_view::SeatView;
use atomic_table::Seat as Token;
use std::marker::Model;

/// A caller's seat at a lock. One is made for each caller when the lock begins, and no other.
///
/// A contract sees the lock that it is of, its number, how long the list was when the lock began,
/// whether it holds the turn, how many turns it has left, the list that it has seen, and its own
/// entries since the lock began.
#[derive(Drop)]
pub struct Seat<T: Counted> {
    pub(crate) token: Token<Option<T>, SeatView<T::Entry>>,
    pub(crate) number: u32,
    pub(crate) turns: u32,
    // How long the list was when it was handed out last.
    pub(crate) count: u64,
}

impl<T: Counted> Model for Seat<T> {
    ghost use Rattle.std.specs.Prelude.{◌≡◌};
    ghost use Rattle.omega_lock.specs.Seats.{SeatState, seat_state, IsSeat};

    ghost Value = { SeatState T.Entry };

    ghost view = { λ s. seat_state s.token.table_id s.token.me.0 };

    ghost invariant = { λ s. IsSeat T.number s.token.me s.count × (s.token.me.0.number ≡ s.number) × (s.token.me.0.turns ≡ s.turns) };
}

impl<T: Counted> Seat<T> {
    /// Its number, counted from 0.
    pub fn number(&self) -> u32
        ensures number { result ≡ self.now.number }
        ensures own { OwnIsSeen T.number self.now }
    {
        self.number
    }

    /// How many turns it has left.
    pub fn turns_left(&self) -> u32
        ensures turns { result ≡ self.now.turns }
        ensures own { OwnIsSeen T.number self.now }
    {
        self.turns
    }
}
