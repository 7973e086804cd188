//! The seats of a new lock.
ghost use Rattle.std.specs.Prelude.{◌≡◌, ◌<◌, ◌≤◌, [], true, vec_capacity};
ghost use Rattle.omega_lock.specs.Seats.{new_seat, new_seats};
ghost use Rattle.omega_lock.specs.Views.{first_view};

use crate::counted::Counted;
use crate::lock::Lock;
use crate::rule::{NUMBERS, Number, SplitOff};
use crate::seat::Seat;
use crate::seat_view::SeatView;
use atomic_table::Seat as Token;
use std::sync::Wait;

impl<T: Counted> Lock<T> {
    /// Makes a seat for each caller, by number. There is room for them. May wait.
    pub(crate) fn seats<R: Wait>(
        &self,
        rt: &R,
        mut first: Token<Option<T>, SeatView<T::Entry>>,
        mut seats: Vec<Seat<T>>,
        callers: u32,
        turns: u32,
    ) -> Vec<Seat<T>>
        requires of { first.table_id ≡ self.now.of }
        requires first { first.me ≡ (first_view self.now.turns self.now.first, []) }
        requires callers { callers ≡ self.now.callers }
        requires turns { turns ≡ self.now.turns }
        requires room { (seats.items ≡ []) × (callers ≤ vec_capacity seats) }
        ensures { result.items ≡ new_seats self.now.of turns self.now.first callers }
    {
        for number in 0..callers {
            let seat = self.seat(rt, &mut first, number, turns);
            seats.push_reserved(seat);
        }
        seats
    }

    /// Makes the seat of this number. May wait.
    fn seat<R: Wait>(
        &self,
        rt: &R,
        first: &mut Token<Option<T>, SeatView<T::Entry>>,
        number: u32,
        turns: u32,
    ) -> Seat<T>
        requires of { first.old.table_id ≡ self.now.of }
        requires first { first.old.me ≡ (first_view self.now.turns self.now.first, []) }
        requires number { number < self.now.callers }
        requires turns { turns ≡ self.now.turns }
        ensures of { first.new.table_id ≡ first.old.table_id }
        ensures first { first.new.me ≡ first.old.me }
        ensures seat { result ≡ new_seat self.now.of turns self.now.first number }
    {
        let mut token = self.table.shared.split_seat::<SplitOff>(first);
        self.name(rt, &mut token, number);
        Seat {
            token,
            number,
            turns,
            count: 0,
        }
    }

    /// Gives a seat that was split off its number, once the word says that this number is the next.
    /// No other thread gives numbers, so the first try succeeds, which no clause says.
    fn name<R: Wait>(&self, rt: &R, token: &mut Token<Option<T>, SeatView<T::Entry>>, number: u32)
        requires of { token.old.table_id ≡ self.now.of }
        requires first { token.old.me ≡ (first_view self.now.turns self.now.first, []) }
        requires number { number < self.now.callers }
        ensures of { token.new.table_id ≡ token.old.table_id }
        ensures now { token.new.me ≡ (
          record (first_view self.now.turns self.now.first) {
            has_number = true;
            number = number;
            turns = self.now.turns;
          },
          [],
        ) }
    {
        let shared = &self.table.shared;
        let number = u64::from(number);
        for _ in rt.forever() {
            if shared.compare_exchange::<Number>(token, NUMBERS, number, number + 1) == number {
                return;
            }
        }
        unreachable!()
    }
}
