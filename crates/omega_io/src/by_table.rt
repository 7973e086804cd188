//! One thing for each of the six tables.
ghost use Rattle.std.specs.Prelude.{◌≡◌};
ghost use Rattle.std.specs.Borrow.{sem};
ghost use Rattle.omega_io.specs.ByTable.{at};
ghost use Rattle.omega_io.specs.Lends.{lends_one};

use omega_model::Table;

/// One thing for each table.
#[derive(Drop)]
pub struct ByTable<T> {
    pub machine_events: T,
    pub machine_attributes: T,
    pub task_events: T,
    pub task_constraints: T,
    pub mapreduce_jobs: T,
    pub machine_disk: T,
}

impl<T> ByTable<T> {
    /// The one of a table.
    pub fn get(&self, table: Table) -> &T
        ensures { result.now ≡ at self.now table }
    {
        match table {
            Table::MachineEvents => &self.machine_events,
            Table::MachineAttributes => &self.machine_attributes,
            Table::TaskEvents => &self.task_events,
            Table::TaskConstraints => &self.task_constraints,
            Table::MapreduceJobs => &self.mapreduce_jobs,
            Table::MachineDisk => &self.machine_disk,
        }
    }

    /// The one of a table, to be changed. The others stay.
    pub fn get_mut(&mut self, table: Table) -> &mut T
        ensures* writes_back { sem 𝓛 (lends_one T.row self.entry table result) }
        ensures value { result.now ≡ at self.old table }
    {
        match table {
            Table::MachineEvents => &mut self.machine_events,
            Table::MachineAttributes => &mut self.machine_attributes,
            Table::TaskEvents => &mut self.task_events,
            Table::TaskConstraints => &mut self.task_constraints,
            Table::MapreduceJobs => &mut self.mapreduce_jobs,
            Table::MachineDisk => &mut self.machine_disk,
        }
    }
}
