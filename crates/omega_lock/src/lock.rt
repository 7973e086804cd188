//! The lock.
ghost use Rattle.std.specs.Prelude.{◌≡◌, ℕ, ◌+◌, ◌^◌, ◌<◌, ◌≤◌, List, [], ◌∷◌, ◌++◌, true, false, length, Some, IfOk, IfErr, All, Any, drop, slice_get};
ghost use Rattle.omega_lock.specs.Lists.{StartsWith, entries_since};
ghost use Rattle.omega_lock.specs.Seats.{IsSameSeat, OwnIsSeen, AddsAtMostOne, new_seat, new_seats};

use crate::bells::Bells;
use crate::counted::Counted;
use crate::rule::{Draw, LENGTH, Read, TICKETS, Terms, Turns, VALUE};
use crate::seat::Seat;
use crate::seat_view::SeatView;
use atomic_table::Table;
use std::alloc::Global;
use std::marker::Model;
use std::snapshot::Snapshot;
use std::sync::Wait;

/// There was no memory.
#[derive(Debug, Drop)]
pub struct NoMemory;

/// A lock around a value, which its callers get in turn.
///
/// A contract sees which lock it is, for how many callers, how many turns each was given, and the
/// value's list when it began.
#[derive(Drop)]
pub struct Lock<T: Counted> {
    pub(crate) table: Table<Option<T>, SeatView<T::Entry>, Terms<T>, Turns<T>, Global>,
    // Where callers sleep whose turn isn't near.
    pub(crate) bells: Bells,
}

impl<T: Counted> Model for Lock<T> {
    ghost use Rattle.omega_lock.specs.Seats.{LockState, lock_state, IsLock};

    ghost Value = { LockState T.Entry };

    ghost view = { λ l. lock_state T.entries l.table.shared.table_id l.table.shared.key };

    ghost invariant = { λ l. IsLock T.entries l.table.shared.table_id l.table.shared.key };
}

impl<T: Counted> Lock<T> {
    /// Makes a lock around a value, and a seat for each of 1 to 32 callers, which has so many turns. The
    /// seat at place `i` has the number `i`. The value's list is shorter than 2^63 entries. Where memory runs
    /// out the value is handed back. May wait.
    ///
    /// That the seats are `new_seats` says how many there are and which stands at a place too; both
    /// have clauses of their own for callers that know nothing of that definition.
    #[tactic(auto, using(crate::proofs::NewSeats::seats_at, crate::proofs::NewSeats::seats_count))]
    pub fn begin<R: Wait>(
        rt: &R,
        alloc: Global,
        value: T,
        callers: u32,
        turns: u32,
    ) -> Result<(Lock<T>, Vec<Seat<T>>), (T, NoMemory)>
        requires callers { (1 ≤ callers) × (callers ≤ 32) }
        requires short { length (T.entries value) < 2 ^ 63 }
        ensures callers { IfOk result (λ made. made.0.callers ≡ callers) }
        ensures turns { IfOk result (λ made. made.0.turns ≡ turns) }
        ensures first { IfOk result (λ made. made.0.first ≡ T.entries value) }
        ensures count { IfOk result (λ made. length made.1.items ≡ callers) }
        ensures seat { IfOk result (λ made. (i : ℕ) → i < callers
            → slice_get made.1.items i ≡ Some (new_seat made.0.of turns (T.entries value) i)) }
        ensures seats { IfOk result (λ made.
            made.1.items ≡ new_seats made.0.of turns (T.entries value) callers) }
        ensures back { IfErr result (λ refused. refused.0 ≡ value) }
    {
        let Ok(seats) = Vec::with_capacity(alloc, callers as usize) else {
            return Err((value, NoMemory));
        };
        let Ok(mut slots) = Vec::with_capacity(alloc, 1) else {
            return Err((value, NoMemory));
        };
        let Some(bells) = Bells::new(alloc) else {
            slots.destroy_empty();
            return Err((value, NoMemory));
        };
        let terms = Terms {
            callers: u64::from(callers),
            turns: u64::from(turns),
            first: Snapshot::of(&value),
        };
        let words = [0, 0, 0, value.count()];
        slots.push_reserved(Some(value));
        match Table::new(alloc, &words, slots, &terms) {
            Ok((table, first)) => {
                let lock = Lock { table, bells };
                let seats = lock.seats(rt, first, seats, callers, turns);
                Ok((lock, seats))
            }
            Err(refused) => {
                let mut slots = refused.slots;
                let value = slots.pop();
                slots.destroy_empty();
                match value {
                    Some(Some(value)) => Err((value, NoMemory)),
                    _ => unreachable!(),
                }
            }
        }
    }

    /// Waits until it is the seat's turn, and hands out the value. The seat has then seen the value's
    /// whole list, and has one turn less. Before, it doesn't hold the turn, and has one left. May wait.
    pub fn turn<R: Wait>(&self, rt: &R, seat: &mut Seat<T>) -> T
        requires of { seat.old.of ≡ self.now.of }
        requires free { seat.old.holds ≡ false }
        requires left { 0 < seat.old.turns }
        ensures seat { IsSameSeat seat.old seat.new }
        ensures holds { seat.new.holds ≡ true }
        ensures turns { seat.new.turns + 1 ≡ seat.old.turns }
        ensures seen { seat.new.seen ≡ T.entries result }
        ensures extends { StartsWith seat.new.seen seat.old.seen }
        ensures own { seat.new.own ≡ seat.old.own }
        ensures own_seen { OwnIsSeen T.number seat.new }
    {
        let shared = &self.table.shared;
        let ticket = shared.fetch_add::<Draw>(&mut seat.token, TICKETS, 1);
        self.wait(rt, &mut seat.token, ticket);
        seat.count = shared.load::<Read>(&mut seat.token, LENGTH);
        seat.turns -= 1;
        match shared.exchange(&mut seat.token, VALUE, None) {
            Some(value) => value,
            None => unreachable!(),
        }
    }

    /// Takes the value back from the seat that holds the turn, and passes the turn on. The list is
    /// the one that was handed out, or that and one entry of the seat's number.
    pub fn release(&self, seat: &mut Seat<T>, value: T)
        requires of { seat.old.of ≡ self.now.of }
        requires holds { seat.old.holds ≡ true }
        requires list { AddsAtMostOne T.number seat.old.number seat.old.seen (T.entries value) }
        ensures seat { IsSameSeat seat.old seat.new }
        ensures free { seat.new.holds ≡ false }
        ensures turns { seat.new.turns ≡ seat.old.turns }
        ensures seen { seat.new.seen ≡ T.entries value }
        ensures same { T.entries value ≡ seat.old.seen → seat.new.own ≡ seat.old.own }
        ensures more { (e : T.Entry) → T.entries value ≡ seat.old.seen ++ e ∷ []
            → seat.new.own ≡ seat.old.own ++ e ∷ [] }
        ensures own_seen { OwnIsSeen T.number seat.new }
    {
        self.put_back(&mut seat.token, value, seat.count);
        self.pass(&mut seat.token);
    }

    /// Takes all seats back, and hands out the value. Its list goes on from what each seat had seen.
    /// Every entry since the lock began has the number of one of the seats, and those of a seat's
    /// number are its own entries, in order. Each seat knows how long the list was when the lock
    /// began.
    pub fn close(self, mut seats: Vec<Seat<T>>) -> T
        requires all { length seats.items ≡ self.callers }
        requires of { All (λ seat. seat.of ≡ self.of) seats.items }
        requires free { All (λ seat. seat.holds ≡ false) seats.items }
        ensures begins { StartsWith (T.entries result) self.first }
        ensures seen { All (λ seat. StartsWith (T.entries result) seat.seen) seats.items }
        ensures first { All (λ seat. seat.first_length ≡ length self.first) seats.items }
        ensures given { All (λ e. Any (λ seat. T.number e ≡ Some seat.number) seats.items)
            (drop (length self.first) (T.entries result)) }
        ensures own { All (λ seat. seat.own
            ≡ entries_since T.number (length self.first) seat.number (T.entries result)) seats.items }
    {
        let Some(first) = seats.pop() else {
            unreachable!();
        };
        let all = self.gather(first, seats);
        self.end(all)
    }
}
