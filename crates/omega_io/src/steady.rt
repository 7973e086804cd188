//! Tables that never fail.
ghost use Rattle.std.specs.Prelude.{◌≡◌, None, Some};
ghost use Rattle.omega_io.specs.ByTable.{bytes_of};
ghost use Rattle.omega_model.specs.declared.rows.Table.{Table};

use crate::by_table::ByTable;
use crate::edges::{Failed, Tables};
use crate::unread::Unread;
use omega_model::{Bytes, NoMemory, Table, Text};
use std::alloc::Global;

/// Six tables in memory, none of whose reads fails: their counts of faults are always 0. A contract
/// knows their rests and the folder entered last. A read takes no memory.
#[derive(Drop)]
pub struct SteadyTables {
    alloc: Global,
    folder: Option<Text>,
    unread: ByTable<Unread>,
}

impl SteadyTables {
    /// Tables of these bytes, in the order of `Table`. No folder is entered.
    pub fn new(alloc: Global, tables: [Bytes; 6]) -> SteadyTables
        ensures rests { (t : Table) → ⟦<SteadyTables as Tables>⟧.rest result t ≡ Some (bytes_of tables t) }
        ensures folder { ⟦<SteadyTables as Tables>⟧.entered result ≡ Some None }
    {
        let [machines, attributes, tasks, constraints, jobs, disks] = tables;
        SteadyTables {
            alloc,
            folder: None,
            unread: ByTable {
                machine_events: Unread::new(machines),
                machine_attributes: Unread::new(attributes),
                task_events: Unread::new(tasks),
                task_constraints: Unread::new(constraints),
                mapreduce_jobs: Unread::new(jobs),
                machine_disk: Unread::new(disks),
            },
        }
    }
}

impl Tables for SteadyTables {
    ghost use Rattle.std.specs.Prelude.{Some};
    ghost use Rattle.omega_io.specs.ByTable.{at};

    ghost rest = { λ s t. Some (at s.unread t) };

    ghost entered = { λ s. Some s.folder };

    ghost faults = { λ _ _. 0 };

    fn enter(&mut self, folder: &str) -> Result<(), NoMemory> {
        let path = String::from_str(self.alloc, folder)?;
        self.folder = Some(Text::of(path));
        Ok(())
    }

    fn read(&mut self, table: Table, piece: &mut [u8]) -> Result<usize, Failed> {
        Ok(self.unread.get_mut(table).hand_over(piece.len(), piece))
    }

    fn faults(&self, _table: Table) -> u64 {
        0
    }
}
