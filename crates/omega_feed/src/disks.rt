//! The disks of machines.
ghost use Rattle.std.specs.Prelude.{◌≡◌, ◌≤◌, IfOk};
ghost use Rattle.omega_model.specs.Fields.{greatest_quantity};
ghost use Rattle.omega_model.specs.Wanted.{disk_of};

use crate::last::LastAmounts;
use omega_model::{DiskRow, GREATEST_QUANTITY, NoMemory, Seq};
use std::alloc::Global;
use std::marker::Model;

/// The disk of the last row for each machine. A contract sees the rows, in the order of their file.
#[derive(Drop)]
pub struct MachineDisks {
    last: LastAmounts<DiskRow>,
}

impl Model for MachineDisks {
    ghost use Rattle.std.specs.Prelude.{List};
    ghost use Rattle.omega_model.specs.Fields.{DiskFields};

    ghost Value = { List DiskFields };

    ghost view = { λ disks. disks.last };
}

impl MachineDisks {
    /// The disks that these rows say. Costs the logarithm of the number of machines for each row.
    pub fn new(alloc: Global, rows: &Seq<DiskRow>) -> Result<MachineDisks, NoMemory>
        ensures { IfOk result (λ disks. disks ≡ rows.now) }
    {
        let last = LastAmounts::new(alloc, rows)?;
        Ok(MachineDisks { last })
    }

    /// The disk of a machine, in units of 10^-9 of the trace's normalised amount: that of the last
    /// row for it, and the greatest quantity where it has none. Costs the logarithm of the number of
    /// machines that have one, and for a machine without, while few have one, mostly a look at its mark.
    pub fn of(&self, machine: u64) -> u64
        ensures disk { result ≡ disk_of self.now machine }
        ensures range { result ≤ greatest_quantity }
    {
        match self.last.of(machine) {
            Some(disk) => disk,
            None => GREATEST_QUANTITY,
        }
    }
}
