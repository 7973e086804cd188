//! What changed on a board, told to the index of what is free on its machines.
ghost use Rattle.std.specs.Prelude.{◌≡◌, ◌≤◌, ◌<◌, ◌+◌, ℕ, Bool, List, Some, None, IfSome, length, option_map, slice_get};
ghost use Rattle.std.specs.List.{zip};
ghost use Rattle.omega_machines.specs.Table.{machines_of};
ghost use Rattle.omega_model.specs.declared.cells.Machine.{Machine};
ghost use Rattle.omega_model.specs.declared.cells.Task.{Task};
ghost use Rattle.omega_board.specs.Board.{cell_of};
ghost use Rattle.omega_model.specs.Touches.{is_claimed, is_touched_by};
ghost use Rattle.omega_plan.specs.Levels.{Near, NearEntry, NearParts};
ghost use Rattle.omega_plan.specs.Beside.{IsPlacedBeside};
ghost use Rattle.omega_plan.specs.Overlays.{tasks_with};
ghost use Rattle.omega_plan.specs.Telling.{TellsBut, TellsOf, freed_of, freed_on, is_found, is_this_or, placed, taken_by};

use crate::tenants::Tenants;
use omega_board::Board;
use omega_fit::FitIndex;
use omega_model::{Claim, Entry, Judgement, Need, Spec};

/// Tells the index what an entry changed that was applied to the board. It has told all before it, and
/// has room for a machine that is new. Costs a look-up for each machine that the entry touches.
pub(crate) fn tell_entry(index: &mut FitIndex, board: &Board, entry: &Entry)
    requires { NearEntry board.now entry.now index.old }
    ensures { index.new.free ≡ freed_of 0 (cell_of board.now) }
{
    grow_to(index, board);
    tell_touched(index, board, entry);
}

/// Tells the index what changed on these machines of the board. It has told all else, and has room for the
/// machines that are new.
pub(crate) fn tell_parts(index: &mut FitIndex, board: &Board, machines: &[u64])
    requires { NearParts board.now machines.now index.old }
    ensures { index.new.free ≡ freed_of 0 (cell_of board.now) }
{
    grow_to(index, board);
    tell_all(index, board, machines);
}

/// Tells the index what is free on these machines; it has told all else.
fn tell_all(index: &mut FitIndex, board: &Board, machines: &[u64])
    requires { Near board.now machines.now index.old }
    ensures { index.new.free ≡ freed_of 0 (cell_of board.now) }
{
    let mut last = None;
    for machine in machines {
        tell_next(index, board, *machine, last);
        last = Some(*machine);
    }
}

/// Tells the index of a claim that was placed beside the board, with these tenants after it; it has told all
/// before that. Where the claim has victims, it is told what runs on the machine now; else the claim's need
/// is taken off what it told, and nothing on the machine is looked at.
pub(crate) fn tell_claim(index: &mut FitIndex, board: &Board, tenants: &Tenants, claim: &Claim)
    requires { length index.old.free ≡ length board.now.table }
    ensures { (tasks : List Task) → IsPlacedBeside board.now tenants.now claim.now tasks
        → index.old.free ≡ freed_of 0 (record { machines = machines_of board.now.table; tasks = tasks })
        → index.new.free ≡ freed_of 0 (record { machines = machines_of board.now.table; tasks = tasks_with tasks claim.now }) }
{
    if let Some(position) = board.machines().position(claim.machine) {
        let free = free_then(index, board, tenants, claim, position);
        index.put(position, free);
    }
}

/// What is free on the machine of a claim, at this position, once it was placed.
fn free_then(
    index: &FitIndex,
    board: &Board,
    tenants: &Tenants,
    claim: &Claim,
    position: usize,
) -> Option<Need>
    requires { position < length index.now.free }
    ensures { (tasks : List Task) → IsPlacedBeside board.now tenants.now claim.now tasks
        → index.now.free ≡ freed_of 0 (record { machines = machines_of board.now.table; tasks = tasks })
        → (machine : Machine) → slice_get (machines_of board.now.table) position ≡ Some machine → machine.id ≡ claim.now.machine
        → result ≡ freed_on 0 (tasks_with tasks claim.now) machine }
{
    if claim.victims.is_empty() {
        return taken(index.at(position), &claim.spec);
    }
    tenants.freed_at(board, 0, position)
}

/// What is free once a task like this one runs too: as much less as it needs.
fn taken(free: Option<Need>, spec: &Spec) -> Option<Need>
    ensures { result ≡ option_map (taken_by spec.now) free }
{
    let amount = free?;
    Some(amount.minus(spec.need))
}

/// What is free on the machine at a position; `None` where it isn't up. Costs a look-up.
fn free_at(board: &Board, position: usize) -> Option<Need>
    ensures { (machine : Machine) → slice_get (machines_of board.now.table) position ≡ Some machine → result ≡ freed_on 0 board.now.tasks machine }
{
    let machines = board.machines();
    let machine = machines.at(position)?;
    machines.free(machine.id)
}

/// Puts a place behind the others for each further machine that the board has, for which room was made.
pub(crate) fn grow_to(index: &mut FitIndex, board: &Board)
    requires { length (machines_of board.now.table) ≤ length index.old.free + index.old.spare }
    ensures { index.new.free ≡ placed (machines_of board.now.table) index.old.free }
{
    while index.len() < board.machines().len() {
        index.push_reserved(None);
    }
}

/// Tells the index what is free on the machines that an entry touches; it has told all else.
fn tell_touched(index: &mut FitIndex, board: &Board, entry: &Entry)
    requires { TellsBut (is_touched_by entry.now) 0 board.now.tasks index.old.free (machines_of board.now.table) }
    ensures { index.new.free ≡ freed_of 0 (cell_of board.now) }
{
    match entry {
        Entry::Commit { txn, reply, .. } => {
            tell_placed(index, board, txn.claims.as_slice(), reply.as_slice());
        }
        _ => tell_found(index, board, entry.machine()),
    }
}

/// Tells the index what is free on a machine, if there is one; it has told all else.
fn tell_found(index: &mut FitIndex, board: &Board, machine: Option<u64>)
    requires { TellsBut (is_found machine) 0 board.now.tasks index.old.free (machines_of board.now.table) }
    ensures { index.new.free ≡ freed_of 0 (cell_of board.now) }
{
    if let Some(machine) = machine {
        tell(index, board, machine);
    }
}

/// The same for the machines of the placed claims.
fn tell_placed(index: &mut FitIndex, board: &Board, claims: &[Claim], reply: &[Judgement])
    requires { TellsBut (is_claimed (zip claims.now reply.now)) 0 board.now.tasks index.old.free (machines_of board.now.table) }
    ensures { index.new.free ≡ freed_of 0 (cell_of board.now) }
{
    let mut last = None;
    for (claim, judgement) in claims.iter().zip(reply) {
        if judgement.verdict.is_placed() {
            tell_next(index, board, claim.machine, last);
            last = Some(claim.machine);
        }
    }
}

/// The same where this machine was told last, if one was: the same one in a row costs nothing.
fn tell_next(index: &mut FitIndex, board: &Board, machine: u64, last: Option<u64>)
    requires long { length index.old.free ≡ length board.now.table }
    requires last { IfSome last (λ told. TellsOf told 0 board.now.tasks index.old.free (machines_of board.now.table)) }
    ensures tells { (stale : ℕ → Bool) → TellsBut (is_this_or machine stale) 0 board.now.tasks index.old.free (machines_of board.now.table) → TellsBut stale 0 board.now.tasks index.new.free (machines_of board.now.table) }
    ensures own { TellsOf machine 0 board.now.tasks index.new.free (machines_of board.now.table) }
{
    if last == Some(machine) {
        return;
    }
    tell(index, board, machine);
}

/// Tells the index what is free on a machine, if it is in the list.
fn tell(index: &mut FitIndex, board: &Board, machine: u64)
    requires { length index.old.free ≡ length board.now.table }
    ensures { (stale : ℕ → Bool) → TellsBut (is_this_or machine stale) 0 board.now.tasks index.old.free (machines_of board.now.table) → TellsBut stale 0 board.now.tasks index.new.free (machines_of board.now.table) }
{
    if let Some(position) = board.machines().position(machine) {
        index.put(position, free_at(board, position));
    }
}
