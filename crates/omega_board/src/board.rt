//! The board.
ghost use Rattle.std.specs.Prelude.{◌≡◌, []};
ghost use Rattle.omega_model.specs.Legal.{Sound};
ghost use Rattle.omega_running.specs.Kept.{KeysRise};
ghost use Rattle.std.specs.List.{AllByRecursion as Each};
ghost use Rattle.omega_board.specs.Board.{cell_of, IsCounted};

use omega_machines::MachineTable;
use omega_running::Running;
use std::alloc::Global;
use std::marker::Model;

/// The machines of a cell and its running tasks.
///
/// A contract sees the states of the machines, the running tasks in order of key, and for how many
/// more tasks there is room. Each task is on a machine that is up, and on each machine what is free
/// and what its tasks use are its capacity.
#[derive(Drop)]
pub struct Board {
    pub(crate) table: MachineTable,
    pub(crate) running: Running,
}

impl Model for Board {
    ghost use Rattle.omega_board.specs.Board.{BoardState, IsBoard};

    ghost Value = { BoardState };

    ghost view = { λ b. record { table = b.table; tasks = b.running.tasks; spare = b.running.spare } };

    ghost invariant = { λ b. IsBoard b.table b.running.tasks };
}

impl Board {
    /// The board without machines and tasks.
    pub fn new(alloc: Global) -> Board
        ensures { result ≡ record { table = []; tasks = []; spare = 0 } }
    {
        Board {
            table: MachineTable::new(alloc),
            running: Running::new(alloc),
        }
    }

    /// The machines, with what is free on each and how often each was touched.
    pub fn machines(&self) -> &MachineTable
        ensures table { result.now ≡ self.now.table }
        ensures sound { Sound (cell_of self.now) }
        ensures counted { Each (IsCounted self.now.tasks) self.now.table }
    {
        &self.table
    }

    /// The running tasks, and for how many more there is room.
    pub fn running(&self) -> &Running
        ensures tasks { result.now.tasks ≡ self.now.tasks }
        ensures spare { result.now.spare ≡ self.now.spare }
        ensures sound { Sound (cell_of self.now) }
        ensures ordered { KeysRise self.now.tasks }
    {
        &self.running
    }
}
