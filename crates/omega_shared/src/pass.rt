//! A scheduler's pass.
ghost use Rattle.std.specs.Prelude.{◌≡◌};
ghost use Rattle.omega_shared.specs.Passes.{HasSeenFirst, OwnIsSeen};

use crate::held::Held;
use omega_lock::Seat;
use std::marker::Model;

/// A scheduler's pass to a shared cell. One is made for each caller when the cell is shared, and no
/// other.
///
/// A contract sees the shared cell that it is of, its number, how long the history was when the cell
/// was shared, how many turns it has left, the history that it has seen, and its own commits since.
#[derive(Drop)]
pub struct Pass {
    pub(crate) seat: Seat<Held>,
}

impl Model for Pass {
    ghost use Rattle.omega_shared.specs.Passes.{PassState, IsPassSeat, pass_at};

    ghost Value = { PassState };

    ghost view = { λ p. pass_at p.seat };

    ghost invariant = { λ p. IsPassSeat p.seat };
}

impl Pass {
    /// Its number, counted from 0: that of the scheduler whose commits it makes. What it has seen of that number
    /// since the cell was shared are its own commits.
    pub fn number(&self) -> u32
        ensures number { result ≡ self.now.number }
        ensures own { OwnIsSeen self.now }
        ensures first { HasSeenFirst self.now }
    {
        self.seat.number()
    }

    /// How many turns it has left.
    pub fn turns_left(&self) -> u32
        ensures { result ≡ self.now.turns }
    {
        self.seat.turns_left()
    }
}
