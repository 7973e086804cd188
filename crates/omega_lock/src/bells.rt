//! Bells, at which callers sleep until their turn comes.
ghost use Rattle.std.specs.Prelude.{◌≡◌, ◌<◌};
ghost use Rattle.omega_lock.specs.declared.bells.TheConstants.{BELLS};

use atomic_table::{Play, Seat as Hand, Table, TableRule};
use std::alloc::Global;
use std::sync::Wait;

/// How many there are: as many as there may be callers, so that no two tickets that wait share one.
const BELLS: u64 = 32;

/// What is known of the bells: nothing. They tell whoever wakes to look again, and no more.
pub(crate) struct Unruled;

impl TableRule<(), (), ()> for Unruled {
    ghost holds = { λ _ _. Unit {0} };

    ghost first = { λ _. tt };
}

/// A step on a bell, which tells nothing.
pub(crate) struct Touch;

impl Play<(), ()> for Touch {
    ghost then = { λ _ _ _ _. Unit {0} };
}

/// A row of bells. Each counts how often it was rung.
#[derive(Drop)]
pub(crate) struct Bells {
    table: Table<(), (), (), Unruled, Global>,
    ghost row: { table.shared.table_id.words ≡ BELLS },
}

impl Bells {
    /// Bells that nobody has rung. `None` where memory runs out.
    pub fn new(alloc: Global) -> Option<Bells> {
        match Table::of_words(alloc, &[0; BELLS as usize], &()) {
            Ok((table, _)) => Some(Bells { table }),
            Err(_) => None,
        }
    }

    /// How often the bell of a ticket was rung.
    pub fn rung(&self, ticket: u64) -> u64 {
        self.table.shared.peek(bell_of(ticket))
    }

    /// Sleeps until the bell of a ticket is rung, or not at all if it has been rung more often than `rung`
    /// says. It may also return for no reason.
    pub fn sleep<R: Wait>(&self, rt: &R, ticket: u64, rung: u64) {
        self.table
            .shared
            .park(rt, bell_of(ticket), (rung % 4_294_967_296) as u32);
    }

    /// Rings the bell of a ticket, and wakes who sleeps at it.
    pub fn ring(&self, ticket: u64) {
        let bells = &self.table.shared;
        let bell = bell_of(ticket);
        let (_, mut hand): (u64, Hand<(), ()>) = bells.load_new_seat::<Touch>(bell);
        bells.fetch_add::<Touch>(&mut hand, bell, 1);
        bells.wake_all(bell);
    }
}

/// The bell of a ticket.
fn bell_of(ticket: u64) -> usize
    ensures { result < BELLS }
{
    (ticket % BELLS) as usize
}
