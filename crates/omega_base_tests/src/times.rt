//! An agenda with two equal times, and the lines of time of a run without a round.
use omega_feed::{EventRounds, Events};
use omega_model::{NoMemory, Settings, TraceTables};
use omega_sim::{Agenda, Arrivals, time_lines};
use std::alloc::Global;
use std::test::Fail;

/// The lines of three schedulers that never commit.
const IDLE: &str = "\
busy 0 0 0
wait 0 0 0
busy 1 0 0
wait 1 0 0
busy 2 0 0
wait 2 0 0
";

#[test]
fn of_equal_times_the_lower_number_goes_first(rt: HostRuntime) -> Result<(), Fail> {
    let mut agenda = Agenda::new(rt.alloc(), 3)?;
    agenda.set(2, 5);
    agenda.set(1, 5);
    assert!(rt; agenda.first() == Some((1, 5)));
    Ok(())
}

#[test]
fn nothing_happens_without_a_round(rt: HostRuntime) -> Result<(), Fail> {
    let settings = Settings::default();
    let arrivals = Arrivals::of(rt.alloc(), &no_rounds(rt.alloc())?)?;
    let lines = time_lines(rt.alloc(), &settings, &arrivals, &[], &[])?;
    assert!(rt; lines.as_slice() == IDLE.as_bytes());
    Ok(())
}

/// The rounds of a trace without rows.
fn no_rounds(alloc: Global) -> Result<EventRounds, NoMemory> {
    let events = Events::take(alloc, &mut TraceTables::new(alloc))?;
    EventRounds::cut(alloc, events, 1)
}
