//! Whether an entry that is no commit is possible.
ghost use Rattle.std.specs.Prelude.{◌≡◌, ◌↔◌, false, option_map, IfSome, IsTrue};
ghost use Rattle.omega_model.specs.Applying.{capacity_in, machine_in, CapacityIsInRange, EndsRunning, ListsOrHasRoom};
ghost use Rattle.omega_model.specs.Fields.{greatest};
ghost use Rattle.omega_model.specs.State.{state};
ghost use Rattle.omega_model.specs.Touches.{is_commit};
ghost use Rattle.omega_keep.specs.Audited.{IsPossible};

use omega_cell::Cell;
use omega_model::{Entry, GREATEST_QUANTITY, MOST_MACHINES, Need};

/// Whether an entry that is no commit is possible on the history of a cell. Costs a look-up of its machine
/// or of its task.
pub fn is_possible(cell: &Cell, entry: &Entry) -> bool
    requires { is_commit entry.now ≡ false }
    ensures { IsTrue result ↔ IsPossible cell.now.history entry.now }
{
    has_capacity(entry) && has_room(cell, entry) && ends_running(cell, entry)
}

/// The greatest capacity.
const GREATEST: Need = Need {
    cpu: GREATEST_QUANTITY,
    mem: GREATEST_QUANTITY,
    disk: GREATEST_QUANTITY,
};

/// Whether the capacity of an entry, if it has one, is at most the greatest one.
fn has_capacity(entry: &Entry) -> bool
    ensures { IsTrue result ↔ CapacityIsInRange entry.now }
{
    match entry {
        Entry::MachineAdd { cap, .. } | Entry::MachineUpdate { cap, .. } => cap.fits(GREATEST),
        _ => true,
    }
}

/// The machine that an entry puts into the list.
fn machine_in(entry: &Entry) -> Option<u64>
    ensures { result ≡ machine_in entry.now }
{
    match entry {
        Entry::MachineAdd { machine, .. }
        | Entry::MachineUpdate { machine, .. }
        | Entry::MachineRemove { machine }
        | Entry::AttrSet { machine, .. }
        | Entry::AttrDelete { machine, .. } => Some(*machine),
        Entry::Round { .. } | Entry::End { .. } | Entry::Commit { .. } => None,
    }
}

/// Whether the list has the machine of an entry, if it has one, or room for it.
fn has_room(cell: &Cell, entry: &Entry) -> bool
    ensures { IsTrue result ↔ IfSome (machine_in entry.now) (ListsOrHasRoom (state cell.now.history).machines) }
{
    match machine_in(entry) {
        Some(machine) => lists_or_has_room(cell, machine),
        None => true,
    }
}

/// Whether the list has a machine or room for one more.
fn lists_or_has_room(cell: &Cell, machine: u64) -> bool
    ensures { IsTrue result ↔ ListsOrHasRoom (state cell.now.history).machines machine }
{
    let machines = cell.board().machines();
    machines.len() < MOST_MACHINES || machines.position(machine).is_some()
}

/// Whether an entry ends no task, or one that runs on its machine.
fn ends_running(cell: &Cell, entry: &Entry) -> bool
    ensures { IsTrue result ↔ EndsRunning (state cell.now.history).tasks entry.now }
{
    match entry {
        Entry::End { key, machine } => match cell.board().running().get(*key) {
            Some(task) => task.machine == *machine,
            None => false,
        },
        _ => true,
    }
}
