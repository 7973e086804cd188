//! The end of a lock: its seats are joined to one, and the value is taken back.
ghost use Rattle.std.specs.Prelude.{◌≡◌, ◌≤◌, ◌+◌, true, false, List, [], ◌∷◌, ◌++◌, length, drop, map, All};
ghost use Rattle.omega_lock.specs.Gathering.{Has, HasAll, EachIsKnown, pair_of};
ghost use Rattle.omega_lock.specs.Lists.{StartsWith, entries_since};
ghost use Rattle.omega_lock.specs.Seats.{SeatState};
ghost use Rattle.omega_lock.specs.Views.{Rests, lists};

use crate::counted::Counted;
use crate::lock::Lock;
use crate::rule::{Together, VALUE};
use crate::seat::Seat;
use crate::seat_view::SeatView;
use atomic_table::Seat as Token;

impl<T: Counted> Lock<T> {
    /// Joins all seats to one.
    pub(crate) fn gather(
        &self,
        first: Seat<T>,
        seats: Vec<Seat<T>>,
    ) -> Token<Option<T>, SeatView<T::Entry>>
        requires first { (first.of ≡ self.now.of) × (first.holds ≡ false) }
        requires of { All (λ seat. seat.of ≡ self.now.of) seats.items }
        requires free { All (λ seat. seat.holds ≡ false) seats.items }
        ensures of { result.table_id ≡ self.now.of }
        ensures rest { (result.me.0.has_number ≡ true) × Rests result.me.0 × (result.me.1 ≡ []) }
        ensures count { length (lists result.me.0) ≡ length seats.items + 1 }
        ensures pairs { lists result.me.0 ≡ map pair_of (first ∷ seats.items) }
        ensures has { HasAll result.me.0 (first ∷ seats.items) }
    {
        let mut all = first.token;
        for seat in seats {
            self.take_in(&mut all, seat);
        }
        all
    }

    /// Joins a seat to another.
    fn take_in(&self, all: &mut Token<Option<T>, SeatView<T::Entry>>, seat: Seat<T>)
        requires of { (all.old.table_id ≡ self.now.of) × (seat.of ≡ self.now.of) }
        requires rest { (all.old.me.0.has_number ≡ true) × Rests all.old.me.0 × (all.old.me.1 ≡ []) }
        requires free { seat.holds ≡ false }
        ensures of { all.new.table_id ≡ all.old.table_id }
        ensures rest { (all.new.me.0.has_number ≡ true) × Rests all.new.me.0 × (all.new.me.1 ≡ []) }
        ensures count { length (lists all.new.me.0) ≡ length (lists all.old.me.0) + 1 }
        ensures pairs { lists all.new.me.0 ≡ lists all.old.me.0 ++ pair_of seat ∷ [] }
        ensures has { Has all.new.me.0 seat }
        ensures kept { (seats : List (SeatState T.Entry)) → HasAll all.old.me.0 seats
            → HasAll all.new.me.0 seats }
    {
        self.table.shared.join_seat::<Together>(all, seat.token);
    }

    /// Closes the table with the seat that all others were joined to, and takes the value out.
    pub(crate) fn end(self, all: Token<Option<T>, SeatView<T::Entry>>) -> T
        requires of { all.table_id ≡ self.of }
        requires rest { (all.me.0.has_number ≡ true) × Rests all.me.0 × (all.me.1 ≡ []) }
        requires all { self.callers ≤ length (lists all.me.0) }
        ensures known { EachIsKnown T.number (lists all.me.0)
            (drop (length self.first) (T.entries result)) }
        ensures begins { StartsWith (T.entries result) self.first }
        ensures each { (seat : SeatState T.Entry) → Has all.me.0 seat
            → StartsWith (T.entries result) seat.seen
            × (seat.first_length ≡ length self.first)
            × (seat.own ≡ entries_since T.number (length self.first) seat.number (T.entries result)) }
    {
        let Lock { table, .. } = self;
        let mut closed = table.close_with(all);
        let value = closed.take(VALUE);
        closed.free();
        match value {
            Some(value) => value,
            None => unreachable!(),
        }
    }
}
