//! The indexes of what evictions could free, one for each precedence that has asked for such room.
//!
//! A level is told what changed when it is asked for. Until then the machines that changed are noted in one list for
//! all levels, and each level keeps how many of them it was told. List and levels are bounded: where there would be
//! too many, levels are let go, since one is made anew when it is asked for next.
ghost use Rattle.std.specs.Prelude.{◌≡◌, ◌≤◌, ◌<◌, ◌-◌, ◌∷◌, ℕ, Bool, [], Some, IfOk, IfSome, OnOk, drop, length, slice_get};
ghost use Rattle.std.specs.List.{filter, zip};
ghost use Rattle.omega_model.specs.Cell.{Cell, total};
ghost use Rattle.omega_model.specs.Need.{minus};
ghost use Rattle.omega_model.specs.declared.cells.Machine.{Machine};
ghost use Rattle.omega_running.specs.Staying.{stays_against};
ghost use Rattle.omega_machines.specs.Table.{machines_of};
ghost use Rattle.omega_model.specs.Touches.{is_claimed, is_touched_by};
ghost use Rattle.omega_board.specs.Numbers.{is_among};
ghost use Rattle.omega_plan.specs.Levels.{AreFound, IsLevelAt, LevelsTell, LevelsTellBut, Tells, TellsLate, no_number};
ghost use Rattle.omega_plan.specs.Overlays.{cell_after, tasks_claimed};
ghost use Rattle.omega_plan.specs.Telling.{TellsBut, freed_beside, freed_of, is_found, is_this_or};

use crate::overlay::Overlay;
use crate::telling::grow_to;
use omega_board::Board;
use omega_fit::FitIndex;
use omega_model::{Claim, Entry, Judgement, Need, NoMemory, Task, Tasks};
use std::alloc::Global;

/// How many places levels have together at most, unless one alone has more: those of 16 levels over 65,536 machines,
/// in some 60 MB. A world or a replay has such levels for each of its schedulers or pieces.
const MOST_PLACES: usize = 1 << 20;

/// So many changes are noted in any case, even if the machines are fewer: then a level that is made anew costs much
/// more than its machines.
const LEAST_NOTED: usize = 1 << 12;

/// The tasks on a machine, in any order.
#[derive(Drop)]
pub(crate) struct Found {
    pub machine: u64,
    pub tasks: Tasks,
}

/// What is free on each machine of a board once all tasks of a lower precedence than this one are off it,
/// in order of the board's list; `None` where the machine isn't up. While it is lent it has the tasks of the
/// machine that it was told of last, if it was told of one.
#[derive(Drop)]
pub struct Level {
    pub(crate) prec: u8,
    pub(crate) index: FitIndex,
    pub(crate) told: usize,
    pub(crate) found: Option<Found>,
}

impl Level {
    /// What is free on each machine, in order of the board's list, once all tasks of a lower precedence are
    /// off it.
    pub fn freed(&self) -> &FitIndex
        ensures { result.now ≡ self.now.index }
    {
        &self.index
    }

    /// The level on the cell after the claims of an overlay, with the machines noted that it wasn't told yet. Costs
    /// these and the tasks on them, each machine once, and for each a pass over the claims, unless they are ready
    /// for machines.
    fn brought_up(
        self,
        alloc: Global,
        overlay: &Overlay,
        changed: &[u64],
    ) -> Result<Level, NoMemory>
        requires { TellsLate no_number (cell_after overlay.now) changed.now self }
        ensures tells { IfOk result (λ level. Tells (cell_after overlay.now) level) }
        ensures prec { IfOk result (λ level. level.prec ≡ self.prec) }
        ensures found { IfOk result (λ level. AreFound (tasks_claimed overlay.now) level.found) }
    {
        let Level {
            prec,
            mut index,
            told,
            ..
        } = self;
        let late = each_once(alloc, &changed[told..])?;
        let board = overlay.board();
        index.reserve(board.machines().len().saturating_sub(index.len()))?;
        grow_to(&mut index, board);
        let found = tell_late(alloc, &mut index, prec, overlay, &late)?;
        Ok(Level {
            prec,
            index,
            told,
            found,
        })
    }
}

/// The levels that stand, in order of when each was lent last, and the machines that changed while they stood, in
/// order of the changes. Each level was told of the first so many of these.
#[derive(Drop)]
pub(crate) struct Levels {
    pub(crate) standing: Vec<Level>,
    pub(crate) changed: Vec<u64>,
}

impl Levels {
    /// No level.
    pub(crate) fn new(alloc: Global) -> Levels
        ensures { (cell : Cell) → LevelsTell cell result }
    {
        Levels {
            standing: Vec::new(alloc),
            changed: Vec::new(alloc),
        }
    }

    /// Takes out the level of a precedence on the cell after the claims of an overlay. Where one stands, it is told
    /// what changed; else it is made.
    pub(crate) fn lend(
        &mut self,
        alloc: Global,
        overlay: &Overlay,
        prec: u8,
    ) -> Result<Level, NoMemory>
        requires { LevelsTell (cell_after overlay.now) self.old }
        ensures kept { LevelsTell (cell_after overlay.now) self.new }
        ensures tells { IfOk result (λ level. Tells (cell_after overlay.now) level) }
        ensures prec { IfOk result (λ level. level.prec ≡ prec) }
        ensures found { IfOk result (λ level. AreFound (tasks_claimed overlay.now) level.found) }
    {
        match self.take_out(prec) {
            Some(level) => level.brought_up(alloc, overlay, &self.changed),
            None => level_of(alloc, overlay, prec),
        }
    }

    /// Takes out the level of a precedence as it is; `None` where there is none. Costs the levels.
    fn take_out(&mut self, prec: u8) -> Option<Level>
        ensures kept { (cell : Cell) → LevelsTell cell self.old → LevelsTell cell self.new }
        ensures tells { (cell : Cell) → LevelsTell cell self.old → IfSome result (λ level. TellsLate no_number cell self.new.changed.items level) }
        ensures prec { IfSome result (λ level. level.prec ≡ prec) }
    {
        let place = place_of(&self.standing, prec)?;
        Some(self.standing.remove(place))
    }

    /// Puts a level behind the others that tells of the cell as it is now, over so many machines. Where there would be
    /// too many, those are let go that weren't lent for longest. Where there is no memory for it, it goes too.
    pub(crate) fn take_back(&mut self, level: Level, machines: usize)
        ensures { (cell : Cell) → LevelsTell cell self.old → Tells cell level → LevelsTell cell self.new }
    {
        self.make_way(most_levels(machines));
        self.forget();
        let told = self.changed.len();
        let Level { prec, index, .. } = level;
        let _ = self.standing.push(Level {
            prec,
            index,
            told,
            found: None,
        });
    }

    /// Lets levels go until there are fewer than so many.
    fn make_way(&mut self, most: usize)
        requires { 0 < most }
        ensures tell { (cell : Cell) → LevelsTell cell self.old → LevelsTell cell self.new }
        ensures few { length self.new.standing.items < most }
    {
        while self.standing.len() >= most {
            self.standing.remove(0);
        }
    }

    /// Forgets what is noted where no level stands.
    fn forget(&mut self)
        ensures { (cell : Cell) → LevelsTell cell self.old → LevelsTell cell self.new }
    {
        if self.standing.is_empty() {
            self.changed.clear();
        }
    }

    /// Lets all levels go.
    fn let_go(&mut self)
        ensures { self.new.standing.items ≡ [] }
    {
        self.standing.clear();
        self.changed.clear();
    }

    /// Notes that a machine changed, where a level stands, on a list of so many machines. Where too many are noted,
    /// or there is no memory, all levels are let go instead.
    pub(crate) fn note(&mut self, machine: u64, machines: usize)
        ensures { (cell : Cell) (stale : ℕ → Bool) → LevelsTellBut (is_this_or machine stale) cell self.old → LevelsTellBut stale cell self.new }
    {
        if self.standing.is_empty() {
            return;
        }
        if self.changed.len() >= machines.max(LEAST_NOTED) || self.changed.push(machine).is_err() {
            self.let_go();
        }
    }

    /// Notes these machines.
    pub(crate) fn note_all(&mut self, changed: &[u64], machines: usize)
        ensures { (cell : Cell) → LevelsTellBut (is_among changed.now) cell self.old → LevelsTell cell self.new }
    {
        for machine in changed {
            self.note(*machine, machines);
        }
    }

    /// Notes the machines that an entry touches.
    pub(crate) fn note_entry(&mut self, entry: &Entry, machines: usize)
        ensures { (cell : Cell) → LevelsTellBut (is_touched_by entry.now) cell self.old → LevelsTell cell self.new }
    {
        match entry {
            Entry::Commit { txn, reply, .. } => {
                self.note_placed(txn.claims.as_slice(), reply.as_slice(), machines);
            }
            _ => self.note_found(entry.machine(), machines),
        }
    }

    /// Notes a machine, if there is one.
    fn note_found(&mut self, machine: Option<u64>, machines: usize)
        ensures { (cell : Cell) → LevelsTellBut (is_found machine) cell self.old → LevelsTell cell self.new }
    {
        if let Some(machine) = machine {
            self.note(machine, machines);
        }
    }

    /// Notes the machines of the placed claims.
    fn note_placed(&mut self, claims: &[Claim], reply: &[Judgement], machines: usize)
        ensures { (cell : Cell) → LevelsTellBut (is_claimed (zip claims.now reply.now)) cell self.old → LevelsTell cell self.new }
    {
        for (claim, judgement) in claims.iter().zip(reply) {
            if judgement.verdict.is_placed() {
                self.note(claim.machine, machines);
            }
        }
    }
}

/// How many levels may stand over so many machines.
fn most_levels(machines: usize) -> usize
    ensures { 0 < result }
{
    (MOST_PLACES / machines.max(1)).max(1)
}

/// The level of a precedence on the cell after the claims of an overlay. Costs the machines and the tasks
/// on them, and for each machine a pass over the claims, unless they are ready for machines.
fn level_of(alloc: Global, overlay: &Overlay, prec: u8) -> Result<Level, NoMemory>
    ensures tells { IfOk result (λ level. Tells (cell_after overlay.now) level) }
    ensures prec { IfOk result (λ level. level.prec ≡ prec) }
    ensures found { IfOk result (λ level. AreFound (tasks_claimed overlay.now) level.found) }
{
    let count = overlay.board().machines().len();
    let mut freed = Vec::with_capacity(alloc, count)?;
    for position in 0..count {
        freed.push_reserved(overlay.freed_at(prec, position));
    }
    let index = FitIndex::build(alloc, &freed)?;
    Ok(Level {
        prec,
        index,
        told: 0,
        found: None,
    })
}

/// Where the level of a precedence is, if there is one.
fn place_of(levels: &[Level], prec: u8) -> Option<usize>
    ensures below { IfSome result (λ place. place < length levels.now) }
    ensures prec { IfSome result (λ place. IsLevelAt levels.now prec place) }
{
    levels.iter().position(|level| level.prec == prec)
}

/// The same numbers, each once.
fn each_once(alloc: Global, numbers: &[u64]) -> Result<Vec<u64>, NoMemory>
    ensures { IfOk result (λ once. (id : ℕ) → is_among once.items id ≡ is_among numbers.now id) }
{
    let mut once = Vec::new(alloc);
    once.extend_from_slice(numbers)?;
    once.sort_unstable();
    once.dedup();
    Ok(once)
}

/// Tells an index what evictions for its precedence could free on these machines after the claims of an overlay; it
/// has told all else. Answers the tasks of the last one, which are collected for that.
fn tell_late(
    alloc: Global,
    index: &mut FitIndex,
    prec: u8,
    overlay: &Overlay,
    machines: &[u64],
) -> Result<Option<Found>, NoMemory>
    requires { TellsBut (is_among machines.now) prec (tasks_claimed overlay.now) index.old.free (machines_of overlay.now.board.table) }
    ensures told { OnOk result (index.new.free ≡ freed_of prec (cell_after overlay.now)) }
    ensures found { IfOk result (λ found. AreFound (tasks_claimed overlay.now) found) }
{
    if machines.is_empty() {
        return Ok(None);
    }
    let last = machines.len() - 1;
    tell_first(index, prec, overlay, machines, last);
    tell_last(alloc, index, prec, overlay, machines[last])
}

/// The same of so many machines from the first one on.
fn tell_first(index: &mut FitIndex, prec: u8, overlay: &Overlay, machines: &[u64], count: usize)
    requires within { count ≤ length machines.now }
    requires told { TellsBut (is_among machines.now) prec (tasks_claimed overlay.now) index.old.free (machines_of overlay.now.board.table) }
    ensures { TellsBut (is_among (drop count machines.now)) prec (tasks_claimed overlay.now) index.new.free (machines_of overlay.now.board.table) }
{
    for place in 0..count {
        tell_of(index, prec, overlay, machines[place]);
    }
}

/// The same of one machine, if it is in the list.
fn tell_of(index: &mut FitIndex, prec: u8, overlay: &Overlay, machine: u64)
    requires { length index.old.free ≡ length overlay.now.board.table }
    ensures { (stale : ℕ → Bool) → TellsBut (is_this_or machine stale) prec (tasks_claimed overlay.now) index.old.free (machines_of overlay.now.board.table)
        → TellsBut stale prec (tasks_claimed overlay.now) index.new.free (machines_of overlay.now.board.table) }
{
    if let Some(position) = overlay.board().machines().position(machine) {
        index.put(position, overlay.freed_at(prec, position));
    }
}

/// The same, with the machine's tasks as the answer.
fn tell_last(
    alloc: Global,
    index: &mut FitIndex,
    prec: u8,
    overlay: &Overlay,
    machine: u64,
) -> Result<Option<Found>, NoMemory>
    requires { length index.old.free ≡ length overlay.now.board.table }
    ensures told { OnOk result ((stale : ℕ → Bool) → TellsBut (is_this_or machine stale) prec (tasks_claimed overlay.now) index.old.free (machines_of overlay.now.board.table)
        → TellsBut stale prec (tasks_claimed overlay.now) index.new.free (machines_of overlay.now.board.table)) }
    ensures found { IfOk result (λ found. AreFound (tasks_claimed overlay.now) found) }
{
    let board = overlay.board();
    let Some(position) = board.machines().position(machine) else {
        return Ok(None);
    };
    let tasks = overlay.tasks_on(alloc, machine)?;
    index.put(position, freed_by(board, prec, position, tasks.as_slice()));
    Ok(Some(Found { machine, tasks }))
}

/// What is free on the machine at a position, on which these tasks run, once those of a lower precedence are off it;
/// `None` where it isn't up.
fn freed_by(board: &Board, prec: u8, position: usize, tasks: &[Task]) -> Option<Need>
    ensures { (machine : Machine) → slice_get (machines_of board.now.table) position ≡ Some machine → result ≡ freed_beside prec tasks.now machine }
{
    let machine = board.machines().at(position)?;
    if !machine.up {
        return None;
    }
    Some(left_against(prec, tasks, machine.cap))
}

/// What is left of an amount when each of some tasks that has at least this precedence has taken its need.
fn left_against(prec: u8, tasks: &[Task], amount: Need) -> Need
    ensures { result ≡ minus amount (total (filter (stays_against prec) tasks.now)) }
{
    let mut left = amount;
    for task in tasks {
        left = left_beside(prec, task, left);
    }
    left
}

/// What is left of an amount when a task, if it has at least this precedence, has taken its need.
fn left_beside(prec: u8, task: &Task, amount: Need) -> Need
    ensures { result ≡ minus amount (total (filter (stays_against prec) (task.now ∷ []))) }
{
    if task.spec.prec < prec {
        return amount;
    }
    amount.minus(task.spec.need)
}
