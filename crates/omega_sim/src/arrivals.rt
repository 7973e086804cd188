//! What the lines of time need of a trace.
ghost use Rattle.std.specs.Prelude.{◌≡◌, ◌∷◌, ◌++◌, [], ◌<◌, ◌^◌, ◌+◌, List, All, IfOk, OnOk, length, take};
ghost use Rattle.omega_model.specs.Feed.{time_of};
ghost use Rattle.omega_model.specs.Lawful.{rows_of};
ghost use Rattle.omega_model.specs.Requests.{job_of_row};
ghost use Rattle.omega_model.specs.declared.rows.Row.{Row};
ghost use Rattle.omega_sim.specs.Arriving.{AreArrivals, Arrive, span_from, with_row_time};
ghost use Rattle.omega_sim.specs.Firsts.{time_at};
ghost use Rattle.omega_laws.specs.Simulated.{greatest_time};

use crate::firsts::FirstTimes;
use omega_feed::{EventRounds, time_of};
use omega_model::{NoMemory, Row};
use std::alloc::Global;

/// When each job of a trace comes first, and the greatest times of the rows of its first and its last round,
/// in microseconds. It takes memory for the jobs alone, and outlives the rounds of which it is made.
#[derive(Drop)]
pub struct Arrivals {
    /// For each job the time of its first task row.
    pub first_times: FirstTimes,
    /// The greatest time of the first round's rows, and that of the last one's, if there is a round.
    row_times: Option<(u64, u64)>,
}

impl Arrivals {
    /// The arrivals of the trace with these rounds. Costs a copy of each row, and a look-up for each task row.
    pub fn of(alloc: Global, rounds: &EventRounds) -> Result<Arrivals, NoMemory>
        ensures arrivals { IfOk result (AreArrivals rounds.now) }
        ensures early { OnOk result (All (λ row. time_of row < 2 ^ 64) (rows_of rounds.now)) }
    {
        let mut arrivals = Arrivals {
            first_times: FirstTimes::new(alloc),
            row_times: None,
        };
        for i in 0..rounds.len() {
            arrivals.note_round(alloc, rounds, i)?;
        }
        Ok(arrivals)
    }

    /// Notes the rows of the round at a place, where those of all before it are noted.
    fn note_round(
        &mut self,
        alloc: Global,
        rounds: &EventRounds,
        place: usize,
    ) -> Result<(), NoMemory>
        requires within { place < length rounds.now }
        requires arrivals { AreArrivals (take place rounds.now) self.old }
        requires early { All (λ row. time_of row < 2 ^ 64) (rows_of (take place rounds.now)) }
        ensures arrivals { OnOk result (AreArrivals (take (place + 1) rounds.now) self.new) }
        ensures early { OnOk result (All (λ row. time_of row < 2 ^ 64) (rows_of (take (place + 1) rounds.now))) }
    {
        let Some(round) = rounds.get(alloc, place)? else {
            unreachable!()
        };
        note_rows(&mut self.first_times, round.rows.as_slice())?;
        self.row_times = with_row_time(self.row_times, greatest_time(round.rows.as_slice()));
        Ok(())
    }

    /// How long it is, in microseconds, from the first round's time to the last round's, or to `until`, if
    /// that is later. 0 where there is no round.
    pub fn span(&self, until: u128) -> u128
        ensures { result ≡ span_from self.now.row_times until }
    {
        match self.row_times {
            None => 0,
            Some((first, last)) => u128::from(last)
                .max(until)
                .saturating_sub(u128::from(first)),
        }
    }
}

/// The greatest times of the rows of the first and the last round, with that of one more at the end.
fn with_row_time(row_times: Option<(u64, u64)>, time: u64) -> Option<(u64, u64)>
    ensures { result ≡ with_row_time row_times time }
{
    match row_times {
        None => Some((time, time)),
        Some((first, _)) => Some((first, time)),
    }
}

/// The greatest time of some rows, in microseconds, or 0 where there is none. Costs a look at each row.
fn greatest_time(rows: &[Row]) -> u64
    ensures { result ≡ greatest_time rows.now }
{
    let mut greatest = 0;
    for row in rows {
        greatest = time_of(row).max(greatest);
    }
    greatest
}

/// Notes the jobs of some rows, each with its first time.
fn note_rows(first_times: &mut FirstTimes, rows: &[Row]) -> Result<(), NoMemory>
    ensures arrive { OnOk result ((before : List Row) → Arrive before first_times.old → Arrive (before ++ rows.now) first_times.new) }
    ensures early { OnOk result (All (λ row. time_of row < 2 ^ 64) rows.now) }
{
    for row in rows {
        note_row(first_times, row)?;
    }
    Ok(())
}

/// Notes the job of a row, if it has one.
fn note_row(first_times: &mut FirstTimes, row: &Row) -> Result<(), NoMemory>
    ensures arrive { OnOk result ((before : List Row) → Arrive before first_times.old → Arrive (before ++ row.now ∷ []) first_times.new) }
    ensures early { time_of row.now < 2 ^ 64 }
{
    let time = time_of(row);
    let Some(job) = job_of(row) else {
        return Ok(());
    };
    first_times.note(job, u128::from(time))?;
    Ok(())
}

/// The job of a task row.
fn job_of(row: &Row) -> Option<u64>
    ensures { result ≡ job_of_row row.now }
{
    match row {
        Row::Task(task) => Some(task.key.job),
        Row::Machine(_) | Row::Attr(_) => None,
    }
}
