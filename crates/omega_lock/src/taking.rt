//! The parts of a turn: waiting for it, and giving it back.
ghost use Rattle.std.specs.Prelude.{◌≡◌, true, false, [], ◌∷◌, ◌++◌, None, Some};
ghost use Rattle.omega_lock.specs.Lists.{entries_since};
ghost use Rattle.omega_lock.specs.Seats.{AddsAtMostOne, IsSeat};
ghost use Rattle.omega_lock.specs.Steps.{turned_over, HasPublished};

use crate::counted::Counted;
use crate::lock::Lock;
use crate::rule::{HandOn, LENGTH, Look, Publish, SERVED, TICKETS, VALUE};
use crate::seat_view::SeatView;
use atomic_table::Seat as Token;
use std::hint::spin_loop;
use std::sync::Wait;

/// How often a waiting thread looks again before it sleeps between two looks.
const LOOKS: u32 = 100;

impl<T: Counted> Lock<T> {
    /// Waits until the seat's ticket is served. The turn is then the seat's, and the slot with it.
    ///
    /// The bell is read before the served ticket, and a release raises the served ticket before it rings. So
    /// if the look found another ticket, the release to come rings after the bell was read: a thread that
    /// isn't asleep by then doesn't fall asleep, since the bell is no longer as it was read, and one that is
    /// asleep wakes. Whoever wakes looks again, whatever woke it.
    pub(crate) fn wait<R: Wait>(
        &self,
        rt: &R,
        token: &mut Token<Option<T>, SeatView<T::Entry>>,
        ticket: u64,
    )
        requires of { token.old.table_id ≡ self.now.of }
        requires ticket { (token.old.me.0.has_ticket ≡ true) × (token.old.me.0.ticket ≡ ticket) }
        requires no_turn { (token.old.me.0.holds ≡ false) × (token.old.me.0.read ≡ false) }
        requires no_slot { token.old.me.1 ≡ [] }
        ensures of { token.new.table_id ≡ token.old.table_id }
        ensures turn { (y : T) × (token.new.me
            ≡ (record token.old.me.0 { holds = true; held = T.entries y }, (0, Some y) ∷ [])) }
    {
        let shared = &self.table.shared;
        let mut looks = 0;
        for _ in rt.forever() {
            let rung = self.bells.rung(ticket);
            if shared.load::<Look>(token, SERVED) == ticket {
                return;
            }
            self.pause(rt, looks, ticket, rung);
            looks = looks.saturating_add(1);
        }
        unreachable!()
    }

    /// Puts the value back into the slot, and tells of its new entry where it has one. The seat has then
    /// seen the whole list, and its own list is what that has of its number.
    pub(crate) fn put_back(
        &self,
        token: &mut Token<Option<T>, SeatView<T::Entry>>,
        value: T,
        count: u64,
    )
        requires of { token.old.table_id ≡ self.now.of }
        requires seat { IsSeat T.number token.old.me count }
        requires holds { token.old.me.0.holds ≡ true }
        requires list { AddsAtMostOne T.number token.old.me.0.number token.old.me.0.seen
            (T.entries value) }
        ensures of { token.new.table_id ≡ token.old.table_id }
        ensures now { token.new.me ≡ (
          record token.old.me.0 {
            told = token.new.me.0.told;
            held = T.entries value;
            seen = T.entries value;
            own = entries_since T.number token.old.me.0.first_length token.old.me.0.number
                (T.entries value);
          },
          (0, Some value) ∷ [],
        ) }
        ensures more { (e : T.Entry) → T.entries value ≡ token.old.me.0.seen ++ e ∷ []
            → token.new.me.0.own ≡ token.old.me.0.own ++ e ∷ [] }
    {
        let grown = value.count() != count;
        self.put(token, value);
        if grown {
            self.publish(token);
        }
    }

    /// Puts the value into the slot, which is plain memory.
    fn put(&self, token: &mut Token<Option<T>, SeatView<T::Entry>>, value: T)
        requires of { token.old.table_id ≡ self.now.of }
        requires slot { token.old.me.1 ≡ (0, None) ∷ [] }
        ensures of { token.new.table_id ≡ token.old.table_id }
        ensures now { token.new.me ≡ (token.old.me.0, (0, Some value) ∷ []) }
    {
        match self.table.shared.exchange(token, VALUE, Some(value)) {
            None => {}
            Some(_) => unreachable!(),
        }
    }

    /// Tells of the one entry that the value in the slot has more.
    fn publish(&self, token: &mut Token<Option<T>, SeatView<T::Entry>>)
        requires of { token.old.table_id ≡ self.now.of }
        requires turn { (token.old.me.0.has_number ≡ true) × (token.old.me.0.holds ≡ true) }
        requires once { (token.old.me.0.read ≡ true) × (token.old.me.0.told ≡ false) }
        requires slot { (y : T) × (e : T.Entry) × (token.old.me.1 ≡ (0, Some y) ∷ [])
            × (T.entries y ≡ token.old.me.0.held ++ e ∷ [])
            × (T.number e ≡ Some token.old.me.0.number) }
        ensures of { token.new.table_id ≡ token.old.table_id }
        ensures now { HasPublished T.entries T.number token.old.me token.new.me }
    {
        self.table.shared.fetch_add::<Publish>(token, LENGTH, 1);
    }

    /// Passes the turn on to the next ticket, and gives the slot back.
    pub(crate) fn pass(&self, token: &mut Token<Option<T>, SeatView<T::Entry>>)
        requires of { token.old.table_id ≡ self.now.of }
        requires turn { (token.old.me.0.has_number ≡ true) × (token.old.me.0.holds ≡ true) }
        requires slot { (y : T) × (token.old.me.1 ≡ (0, Some y) ∷ [])
            × (T.entries y ≡ token.old.me.0.held) }
        ensures of { token.new.table_id ≡ token.old.table_id }
        ensures now { token.new.me ≡ (turned_over token.old.me.0, []) }
    {
        let shared = &self.table.shared;
        let next = shared.fetch_add::<HandOn>(token, SERVED, 1).wrapping_add(1);
        if shared.peek(TICKETS) != next {
            self.bells.ring(next);
        }
    }

    /// What a thread does between two looks at the served ticket, after so many of them. `rung` is how often
    /// the bell of its ticket had been rung before the last look.
    fn pause<R: Wait>(&self, rt: &R, looks: u32, ticket: u64, rung: u64) {
        if looks < LOOKS {
            spin_loop();
        } else {
            self.bells.sleep(rt, ticket, rung);
        }
    }
}
