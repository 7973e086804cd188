//! Callers on threads of their own: what they did to the value, whatever their order.
ghost use Rattle.std.specs.Prelude.{◌≡◌, ◌≤◌, false, Some};

use omega_lock::{Counted, Lock, Seat};
use std::alloc::Global;
use std::hint::spin_loop;
use std::sync::Wait;
use std::thread;
use std::thread::Threads;

/// A list of the numbers of seats, and how often it was added to.
#[derive(Drop)]
struct Tally {
    entries: Vec<u32>,
    raised: u64,
}

impl Counted for Tally {
    type Entry = u32;

    ghost use Rattle.std.specs.Prelude.{Some};

    ghost entries = { λ t. t.entries.items };

    ghost number = { λ n. Some n };

    fn count(&self) -> u64 {
        self.entries.len() as u64
    }
}

/// Takes so many turns of a seat, if it has them, and adds an entry in each. Those who wait have time to fall
/// asleep.
fn take_turns<R: Wait>(rt: &R, lock: &Lock<Tally>, mut seat: Seat<Tally>, most: u32) -> Seat<Tally>
    requires { (seat.of ≡ lock.now.of) × (seat.holds ≡ false) }
    ensures { (result.of ≡ lock.now.of) × (result.holds ≡ false) }
{
    for _ in 0..seat.turns_left().min(most) {
        let mut tally = lock.turn(rt, &mut seat);
        if tally.entries.push(seat.number()).is_ok() {
            tally.raised = tally.raised.wrapping_add(1);
        }
        for _ in 0..500 {
            spin_loop();
        }
        lock.release(&mut seat, tally);
    }
    seat
}

/// What is left where each caller takes all its turns on a thread of its own, but for the first `first` callers,
/// which end after `few` turns. `None` where memory runs out; then the lock is dropped.
fn count_turns<R: Threads + Wait + Sync>(
    rt: &R,
    alloc: Global,
    callers: u32,
    turns: u32,
    first: u32,
    few: u32,
) -> Option<Tally>
    requires { (1 ≤ callers) × (callers ≤ 32) }
{
    let tally = Tally {
        entries: Vec::new(alloc),
        raised: 0,
    };
    let Ok((lock, seats)) = Lock::begin(rt, alloc, tally, callers, turns) else {
        return None;
    };
    let seats = thread::map_vec(
        rt,
        seats,
        &|seat: Seat<Tally>| -> Seat<Tally>
            requires { (seat.of ≡ lock.of) × (seat.holds ≡ false) }
            ensures { (result.of ≡ lock.of) × (result.holds ≡ false) }
        {
            let most = if seat.number() < first { few } else { turns };
            take_turns(rt, &lock, seat, most)
        },
    );
    Some(lock.close(seats.ok()?))
}

/// How many entries of a number there are.
fn entries_of(tally: &Tally, number: u32) -> usize {
    tally.entries.iter().filter(|n| **n == number).count()
}

#[test]
fn two_callers(rt: HostRuntime) {
    let tally = count_turns(&rt, rt.alloc(), 2, 1000, 0, 0).expect(&rt, "memory");
    assert_eq!(rt; tally.raised, 2000);
    assert_eq!(rt; entries_of(&tally, 0), 1000);
    assert_eq!(rt; entries_of(&tally, 1), 1000);
}

#[test]
fn as_many_callers_as_can_be(rt: HostRuntime) {
    let tally = count_turns(&rt, rt.alloc(), 32, 100, 0, 0).expect(&rt, "memory");
    assert_eq!(rt; tally.raised, 3200);
    for number in 0..32 {
        assert_eq!(rt; entries_of(&tally, number), 100);
    }
}

#[test]
fn a_caller_that_does_nothing(rt: HostRuntime) {
    let tally = count_turns(&rt, rt.alloc(), 3, 1000, 1, 0).expect(&rt, "memory");
    assert_eq!(rt; tally.raised, 2000);
    assert_eq!(rt; entries_of(&tally, 0), 0);
    assert_eq!(rt; entries_of(&tally, 1), 1000);
    assert_eq!(rt; entries_of(&tally, 2), 1000);
}

/// The last caller finds nobody to wake in most of its turns.
#[test]
fn all_callers_but_one_end_early(rt: HostRuntime) {
    let tally = count_turns(&rt, rt.alloc(), 32, 500, 31, 2).expect(&rt, "memory");
    assert_eq!(rt; tally.raised, 562);
    assert_eq!(rt; entries_of(&tally, 0), 2);
    assert_eq!(rt; entries_of(&tally, 31), 500);
}

/// Those who sleep are woken by others than the one that ended.
#[test]
fn one_caller_ends_early(rt: HostRuntime) {
    let tally = count_turns(&rt, rt.alloc(), 16, 200, 1, 1).expect(&rt, "memory");
    assert_eq!(rt; tally.raised, 3001);
    assert_eq!(rt; entries_of(&tally, 0), 1);
    assert_eq!(rt; entries_of(&tally, 15), 200);
}
