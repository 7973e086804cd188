//! The rule of the lock, and the kinds of step under it.
use crate::counted::Counted;
use crate::seat_view::SeatView;
use atomic_table::{Join, Play, Split, TableRule};
use std::marker::PhantomData;
use std::snapshot::Snapshot;

/// The word of the table that says how many numbers were given to seats.
pub(crate) const NUMBERS: usize = 0;

/// The word with the ticket that is drawn next.
pub(crate) const TICKETS: usize = 1;

/// The word with the ticket that is served.
pub(crate) const SERVED: usize = 2;

/// The word with the length of the list.
pub(crate) const LENGTH: usize = 3;

/// The table's one slot, which has the value.
pub(crate) const VALUE: usize = 0;

/// What a lock was made with: for how many callers, how many turns each has, and the value.
#[derive(Drop)]
pub struct Terms<T> {
    pub callers: u64,
    pub turns: u64,
    pub first: Snapshot<T>,
}

/// The rule of a lock around a `T`.
pub struct Turns<T> {
    of: PhantomData<T>,
}

impl<T: Counted> TableRule<Option<T>, SeatView<T::Entry>, Terms<T>> for Turns<T> {
    ghost use Rattle.omega_lock.specs.Rule.{LockRule};
    ghost use Rattle.omega_lock.specs.Views.{first_view};

    ghost holds = { LockRule T.entries T.number };

    ghost first = { λ terms. first_view terms.turns (T.entries terms.first.value) };
}

/// A seat is split off another.
pub(crate) struct SplitOff;

impl<E> Split<SeatView<E>> for SplitOff {
    ghost use Rattle.omega_lock.specs.Views.{split_off};

    ghost left = { λ v. v };

    ghost right = { split_off };
}

/// A seat asks for a number: word 0 goes from that number to the next, if it is that number.
pub(crate) struct Number;

impl<T: Counted> Play<Option<T>, SeatView<T::Entry>> for Number {
    ghost use Rattle.omega_lock.specs.Steps.{Numbers};

    ghost then = { Numbers };
}

/// A seat draws a ticket: word 1 is raised.
pub(crate) struct Draw;

impl<T: Counted> Play<Option<T>, SeatView<T::Entry>> for Draw {
    ghost use Rattle.omega_lock.specs.Steps.{Draws};

    ghost then = { Draws };
}

/// A seat looks at word 2 whether its ticket is served.
pub(crate) struct Look;

impl<T: Counted> Play<Option<T>, SeatView<T::Entry>> for Look {
    ghost use Rattle.omega_lock.specs.Steps.{Looks};

    ghost then = { Looks T.entries };
}

/// The seat that holds the turn reads the length in word 3.
pub(crate) struct Read;

impl<T: Counted> Play<Option<T>, SeatView<T::Entry>> for Read {
    ghost use Rattle.omega_lock.specs.Steps.{Reads};

    ghost then = { Reads T.number };
}

/// The seat that holds the turn tells of one more entry: word 3 is raised.
pub(crate) struct Publish;

impl<T: Counted> Play<Option<T>, SeatView<T::Entry>> for Publish {
    ghost use Rattle.omega_lock.specs.Steps.{Publishes};

    ghost then = { Publishes T.entries T.number };
}

/// The seat that holds the turn passes it on: word 2 is raised.
pub(crate) struct HandOn;

impl<T: Counted> Play<Option<T>, SeatView<T::Entry>> for HandOn {
    ghost use Rattle.omega_lock.specs.Steps.{Passes};

    ghost then = { Passes };
}

/// A seat is joined to another.
pub(crate) struct Together;

impl<E> Join<SeatView<E>> for Together {
    ghost use Rattle.omega_lock.specs.Views.{joined, spent};

    ghost both = { joined };

    ghost spent = { spent };
}
