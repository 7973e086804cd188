//! The machines that entries touch.
ghost use Rattle.std.specs.Prelude.{◌≡◌, ◌<◌, nat_eq, length, map, Some, IfOk, OnOk};
ghost use Rattle.std.specs.List.{All, IsDistinct};
ghost use Rattle.std.specs.List.Sorted.{IsStrictlyIncreasing};
ghost use Rattle.omega_machines.specs.Table.{machines_of};
ghost use Rattle.omega_model.specs.Machines.{numbers_of};
ghost use Rattle.omega_board.specs.Parts.{part_at};
ghost use Rattle.omega_cell.specs.Touched.{Adds, touched_places};
ghost use Rattle.omega_model.specs.Touches.{is_number};

use omega_board::{Board, touched};
use omega_machines::MachineTable;
use omega_model::{Entry, NoMemory, Parts, Seq};
use std::alloc::Global;

/// The positions of the machines that entries touch, each once, in order. Costs the entries and their
/// claims, which are sorted.
pub(crate) fn touched_positions(
    alloc: Global,
    machines: &MachineTable,
    entries: &[Entry],
) -> Result<Vec<usize>, NoMemory>
    requires { IsDistinct nat_eq (numbers_of (machines_of machines.now)) }
    ensures places { IfOk result (λ positions. positions.items ≡ touched_places (machines_of machines.now) entries.now) }
    ensures rises { IfOk result (λ positions. IsStrictlyIncreasing positions.items) }
{
    let numbers = touched(alloc, entries)?;
    let mut positions = Vec::new(alloc);
    for number in &numbers {
        note(machines, *number, &mut positions)?;
    }
    positions.sort_unstable();
    positions.dedup();
    Ok(positions)
}

/// The parts of a board at some positions. Costs the machines there and their tasks.
pub(crate) fn parts_at(alloc: Global, board: &Board, positions: &[usize]) -> Result<Parts, NoMemory>
    requires { All (λ place. place < length board.now.table) positions.now }
    ensures { IfOk result (λ parts. map Some parts ≡ map (part_at board.now) positions.now) }
{
    let mut parts = Vec::new(alloc);
    for position in positions {
        parts.push(board.part(alloc, *position)?)?;
    }
    Ok(Seq::of(parts))
}

/// Notes the position of a machine, if it is in the list.
fn note(machines: &MachineTable, machine: u64, positions: &mut Vec<usize>) -> Result<(), NoMemory>
    requires { IsDistinct nat_eq (numbers_of (machines_of machines.now)) }
    ensures { OnOk result (Adds (is_number machine) (machines_of machines.now) positions.old.items positions.new.items) }
{
    if let Some(position) = machines.position(machine) {
        positions.push(position)?;
    }
    Ok(())
}
