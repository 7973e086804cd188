//! The rounds of a trace, each of which is a piece of each table of events.
ghost use Rattle.std.specs.Prelude.{◌≡◌, ◌≤◌, ◌<◌, ◌/◌, ◌++◌, drop, length, map, option_map, slice_get, take, None, IfOk};
ghost use Rattle.std.specs.List.{AllByRecursion as Each};
ghost use Rattle.omega_feed.specs.Events.{AreInOrder, Rise, merged};
ghost use Rattle.omega_feed.specs.Rounds.{HavePart, first_time, gathered, last_time, least, next_number, part_round};
ghost use Rattle.omega_laws.specs.Simulated.{greatest_time};

use crate::events::{Events, HasTime, merged};
use omega_model::{AttrRow, MachineRow, NoMemory, Round, TaskRow};
use std::alloc::Global;
use std::marker::Model;

/// A place in the three tables of events: how many rows of each stand before it.
#[derive(Clone, Copy, Debug)]
pub(crate) struct Place {
    machines: usize,
    attrs: usize,
    tasks: usize,
}

/// A round as a part of the tables: its number, and the places at which it begins and ends.
#[derive(Clone, Copy, Debug)]
pub(crate) struct RoundPart {
    number: u64,
    from: Place,
    to: Place,
}

/// The rounds of a trace, over the tables of its events, each of which is in order of time: a round's rows are put
/// in one order when it is asked for. So each row is kept once.
#[derive(Drop)]
pub struct EventRounds {
    machines: Vec<MachineRow>,
    attrs: Vec<AttrRow>,
    tasks: Vec<TaskRow>,
    parts: Vec<RoundPart>,
}

impl Model for EventRounds {
    ghost use Rattle.std.specs.Prelude.{List, map};
    ghost use Rattle.std.specs.List.{AllByRecursion as Each};
    ghost use Rattle.omega_model.specs.declared.rows.Round.{Round};
    ghost use Rattle.omega_feed.specs.Events.{AreInOrder};
    ghost use Rattle.omega_feed.specs.Rounds.{HavePart, part_round};

    ghost Value = { List Round };

    ghost view = { λ rounds. map (part_round rounds.machines.items rounds.attrs.items rounds.tasks.items) rounds.parts.items };

    ghost invariant = { λ rounds. AreInOrder rounds.machines.items rounds.attrs.items rounds.tasks.items
        × Each (HavePart rounds.machines.items rounds.attrs.items rounds.tasks.items) rounds.parts.items };
}

impl EventRounds {
    /// The rounds of these events. A row belongs to the round whose number is the row's time divided by the
    /// window, rounded down; a window without a row is no round. The window is in microseconds. Costs a look at
    /// each row.
    pub fn cut(alloc: Global, events: Events, window: u64) -> Result<EventRounds, NoMemory>
        requires { 0 < window }
        ensures { IfOk result (λ rounds. rounds ≡ gathered window events) }
    {
        let Events {
            machines,
            attrs,
            tasks,
        } = events;
        let parts = parts_of(alloc, &machines, &attrs, &tasks, window)?;
        Ok(EventRounds {
            machines,
            attrs,
            tasks,
            parts,
        })
    }

    /// How many rounds there are.
    pub fn len(&self) -> usize
        ensures { result ≡ length self.now }
    {
        self.parts.len()
    }

    /// The round at place `i`, counted from 0; `None` exactly where `i` isn't below their number. Copies its
    /// rows.
    pub fn get(&self, alloc: Global, i: usize) -> Result<Option<Round>, NoMemory>
        ensures { IfOk result (λ round. round ≡ slice_get self.now i) }
    {
        let Some(part) = self.parts.get(i) else {
            return Ok(None);
        };
        let RoundPart { number, from, to } = *part;
        let rows = merged(
            alloc,
            &self.machines[from.machines..to.machines],
            &self.attrs[from.attrs..to.attrs],
            &self.tasks[from.tasks..to.tasks],
        )?;
        Ok(Some(Round { number, rows }))
    }

    /// The greatest time of the rows of the round at place `i`, counted from 0, in microseconds; `None` exactly
    /// where `i` isn't below their number. Costs a look at the last row of the round in each table.
    pub fn rows_time(&self, i: usize) -> Option<u64>
        ensures time { result ≡ option_map (λ round. greatest_time round.rows) (slice_get self.now i) }
        ensures none { result ≡ None → length self.now ≤ i }
    {
        let RoundPart { from, to, .. } = *self.parts.get(i)?;
        Some(greatest_time(
            &self.machines[from.machines..to.machines],
            &self.attrs[from.attrs..to.attrs],
            &self.tasks[from.tasks..to.tasks],
        ))
    }
}

/// The greatest time of the rows of three tables that are in order of time, in microseconds; 0 where there is none.
fn greatest_time(machines: &[MachineRow], attrs: &[AttrRow], tasks: &[TaskRow]) -> u64
    requires { AreInOrder machines.now attrs.now tasks.now }
    ensures { result ≡ greatest_time (merged machines.now attrs.now tasks.now) }
{
    last_time(machines)
        .max(last_time(attrs))
        .max(last_time(tasks))
}

/// The parts that are the rounds of these tables, in order.
fn parts_of(
    alloc: Global,
    mut machines: &[MachineRow],
    mut attrs: &[AttrRow],
    mut tasks: &[TaskRow],
    window: u64,
) -> Result<Vec<RoundPart>, NoMemory>
    requires window { 0 < window }
    requires order { AreInOrder machines.now attrs.now tasks.now }
    ensures rounds { IfOk result (λ parts. map (part_round machines.now attrs.now tasks.now) parts.items
        ≡ gathered window (merged machines.now attrs.now tasks.now)) }
    ensures within { IfOk result (λ parts. Each (HavePart machines.now attrs.now tasks.now) parts.items) }
{
    let mut parts = Vec::new(alloc);
    let mut from = Place {
        machines: 0,
        attrs: 0,
        tasks: 0,
    };
    while let Some(number) = next_number(machines, attrs, tasks, window) {
        let (own_machines, later_machines) = split_round(machines, number, window);
        let (own_attrs, later_attrs) = split_round(attrs, number, window);
        let (own_tasks, later_tasks) = split_round(tasks, number, window);
        let to = Place {
            machines: from.machines + own_machines.len(),
            attrs: from.attrs + own_attrs.len(),
            tasks: from.tasks + own_tasks.len(),
        };
        parts.push(RoundPart { number, from, to })?;
        from = to;
        machines = later_machines;
        attrs = later_attrs;
        tasks = later_tasks;
    }
    Ok(parts)
}

/// The number of the round of the first row of three tables that are in order of time.
fn next_number(
    machines: &[MachineRow],
    attrs: &[AttrRow],
    tasks: &[TaskRow],
    window: u64,
) -> Option<u64>
    requires { 0 < window }
    ensures { result ≡ next_number window machines.now attrs.now tasks.now }
{
    let time = least(
        least(first_time(machines), first_time(attrs)),
        first_time(tasks),
    )?;
    Some(time / window)
}

/// The time of the first row, in microseconds.
fn first_time<R: HasTime>(rows: &[R]) -> Option<u64>
    ensures { result ≡ first_time R.time rows.now }
{
    rows.first().map(|row| row.time())
}

/// The time of the last row, in microseconds; 0 where there is none.
fn last_time<R: HasTime>(rows: &[R]) -> u64
    ensures { result ≡ last_time R.time rows.now }
{
    match rows.last() {
        Some(row) => row.time(),
        None => 0,
    }
}

/// The lesser of two numbers, where both are there.
fn least(one: Option<u64>, other: Option<u64>) -> Option<u64>
    ensures { result ≡ least one other }
{
    match (one, other) {
        (Some(one), Some(other)) => Some(one.min(other)),
        (Some(one), None) => Some(one),
        (None, other) => other,
    }
}

/// The rows of the round of this number, and the later ones, where none is of an earlier round.
fn split_round<R: HasTime>(rows: &[R], number: u64, window: u64) -> (&[R], &[R])
    requires window { 0 < window }
    requires order { Rise R.time rows.now }
    requires reached { Each (λ row. number ≤ R.time row / window) rows.now }
    ensures all { result.0.now ++ result.1.now ≡ rows.now }
    ensures own { Each (λ row. R.time row / window ≡ number) result.0.now }
    ensures later { Each (λ row. number < R.time row / window) result.1.now }
{
    rows.split_at(count_round(rows, number, window))
}

/// How many rows from the front are of the round of this number, where none is of an earlier one.
fn count_round<R: HasTime>(rows: &[R], number: u64, window: u64) -> usize
    requires window { 0 < window }
    requires order { Rise R.time rows.now }
    requires reached { Each (λ row. number ≤ R.time row / window) rows.now }
    ensures within { result ≤ length rows.now }
    ensures own { Each (λ row. R.time row / window ≡ number) (take result rows.now) }
    ensures later { Each (λ row. number < R.time row / window) (drop result rows.now) }
{
    let mut count = 0;
    for row in rows {
        if row.time() / window != number {
            return count;
        }
        count += 1;
    }
    count
}
