//! Typed rows of the six tables of a trace.
//!
//! Each row type keeps the ranges of its columns. A contract sees a row as its fields.
ghost use Rattle.std.specs.Prelude.{◌≡◌, []};

use crate::cells::{Need, Spec, TaskKey};
use crate::list::{Bytes, Copied, NoMemory, Seq};
use crate::wishes::Constraint;
use std::alloc::Global;
use std::marker::Model;

/// A table of a trace.
#[derive(Clone, Copy, Debug, PartialEq, Eq)]
pub enum Table {
    MachineEvents,
    MachineAttributes,
    TaskEvents,
    TaskConstraints,
    MapreduceJobs,
    MachineDisk,
}

/// A row of `machine_events`. The time is in microseconds, below 2^63. The code is 0 (add),
/// 1 (remove) or 2 (update). CPU and memory are at most 10^12 units each; the disk is 0 here, since
/// it stands in a table of its own.
#[derive(Clone, Copy, Debug)]
pub struct MachineRow {
    pub time: u64,
    pub machine: u64,
    pub code: u8,
    pub cap: Need,
}

impl Model for MachineRow {
    ghost use Rattle.omega_model.specs.Fields.{MachineFields, IsMachineRow};

    ghost Value = { MachineFields };

    ghost view = { λ r. record { time = r.time; machine = r.machine; code = r.code; cap = r.cap } };

    ghost invariant = { λ r. IsMachineRow r.time r.code r.cap };

    ghost inverse = { λ v. record { time = v.time; machine = v.machine; code = v.code; cap = v.cap } };
}

/// A row of `machine_attributes`. The time is in microseconds, below 2^63.
#[derive(Debug, Drop)]
pub struct AttrRow {
    pub time: u64,
    pub machine: u64,
    pub name: Bytes,
    pub value: Bytes,
    pub deleted: bool,
}

impl Model for AttrRow {
    ghost use Rattle.std.specs.Prelude.{◌<◌, ◌^◌};
    ghost use Rattle.omega_model.specs.Fields.{AttrFields};

    ghost Value = { AttrFields };

    ghost view = { λ r. record { time = r.time; machine = r.machine; name = r.name; value = r.value; deleted = r.deleted } };

    ghost invariant = { λ r. r.time < 2 ^ 63 };
}

/// A row of `task_events`. The time is in microseconds, below 2^63, the index below 2^31. The code is 0 or 1
/// where the task is wanted from now on, 3 to 6 where it ends, 7 or 8 where what it asks for changes, and 2
/// where it was evicted in the trace, which changes nothing. The class is at most 3; 2 and 3 are services.
/// Each component of the need is at most 10^12 units.
#[derive(Clone, Copy, Debug)]
pub struct TaskRow {
    pub time: u64,
    pub key: TaskKey,
    pub code: u8,
    pub class: u8,
    pub spec: Spec,
}

impl Model for TaskRow {
    ghost use Rattle.omega_model.specs.Fields.{TaskFields, IsTaskRow};

    ghost Value = { TaskFields };

    ghost view = { λ r. record { time = r.time; key = r.key; code = r.code; class = r.class; spec = r.spec } };

    ghost invariant = { λ r. IsTaskRow r.time r.key r.code r.class r.spec };

    ghost inverse = { λ v. record { time = v.time; key = v.key; code = v.code; class = v.class; spec = v.spec } };
}

/// A row of `task_constraints`. The index of the key is below 2^31.
#[derive(Debug, Drop)]
pub struct ConstraintRow {
    pub key: TaskKey,
    pub constraint: Constraint,
}

impl Model for ConstraintRow {
    ghost use Rattle.std.specs.Prelude.{◌<◌, ◌^◌};
    ghost use Rattle.omega_model.specs.Fields.{ConstraintFields};

    ghost Value = { ConstraintFields };

    ghost view = { λ r. record { key = r.key; constraint = r.constraint } };

    ghost invariant = { λ r. r.key.index < 2 ^ 31 };
}

/// A row of `mapreduce_jobs`. There are at most `MOST_ACTIVITIES` activities.
#[derive(Clone, Copy, Debug)]
pub struct ActivityRow {
    pub job: u64,
    pub activities: u32,
}

impl Model for ActivityRow {
    ghost use Rattle.std.specs.Prelude.{◌≤◌};
    ghost use Rattle.omega_model.specs.Fields.{ActivityFields, most_activities};

    ghost Value = { ActivityFields };

    ghost view = { λ r. record { job = r.job; activities = r.activities } };

    ghost invariant = { λ r. r.activities ≤ most_activities };

    ghost inverse = { λ v. record { job = v.job; activities = v.activities } };
}

/// A row of `machine_disk`. There are at most 10^12 units of disk.
#[derive(Clone, Copy, Debug)]
pub struct DiskRow {
    pub machine: u64,
    pub disk: u64,
}

impl Model for DiskRow {
    ghost use Rattle.std.specs.Prelude.{◌≤◌};
    ghost use Rattle.omega_model.specs.Fields.{DiskFields, greatest_quantity};

    ghost Value = { DiskFields };

    ghost view = { λ r. record { machine = r.machine; disk = r.disk } };

    ghost invariant = { λ r. r.disk ≤ greatest_quantity };

    ghost inverse = { λ v. record { machine = v.machine; disk = v.disk } };
}

/// The rows of the six tables, each list in the order of its file.
#[derive(Debug, Drop)]
pub struct TraceTables {
    pub machines: Seq<MachineRow>,
    pub attrs: Seq<AttrRow>,
    pub tasks: Seq<TaskRow>,
    pub constraints: Seq<ConstraintRow>,
    pub activities: Seq<ActivityRow>,
    pub disks: Seq<DiskRow>,
}

impl TraceTables {
    /// Tables without rows.
    pub fn new(alloc: Global) -> TraceTables
        ensures { result ≡ record { machines = []; attrs = []; tasks = []; constraints = []; activities = []; disks = [] } }
    {
        TraceTables {
            machines: Seq::new(alloc),
            attrs: Seq::new(alloc),
            tasks: Seq::new(alloc),
            constraints: Seq::new(alloc),
            activities: Seq::new(alloc),
            disks: Seq::new(alloc),
        }
    }
}

/// A row of one of the three tables of events.
#[derive(Debug, Drop)]
pub enum Row {
    Machine(MachineRow),
    Attr(AttrRow),
    Task(TaskRow),
}

/// The rows of one window of time, in order. `number` is their time divided by the window, rounded down.
#[derive(Debug, Drop)]
pub struct Round {
    pub number: u64,
    pub rows: Rows,
}

pub type Rows = Seq<Row>;

pub type Rounds = Seq<Round>;

impl Copied for MachineRow {
    fn copy(&self, _alloc: Global) -> Result<MachineRow, NoMemory> {
        Ok(*self)
    }
}

impl Copied for AttrRow {
    fn copy(&self, alloc: Global) -> Result<AttrRow, NoMemory> {
        Ok(AttrRow {
            time: self.time,
            machine: self.machine,
            name: self.name.copy(alloc)?,
            value: self.value.copy(alloc)?,
            deleted: self.deleted,
        })
    }
}

impl Copied for TaskRow {
    fn copy(&self, _alloc: Global) -> Result<TaskRow, NoMemory> {
        Ok(*self)
    }
}

impl Copied for ConstraintRow {
    fn copy(&self, alloc: Global) -> Result<ConstraintRow, NoMemory> {
        Ok(ConstraintRow {
            key: self.key,
            constraint: self.constraint.copy(alloc)?,
        })
    }
}

impl Copied for ActivityRow {
    fn copy(&self, _alloc: Global) -> Result<ActivityRow, NoMemory> {
        Ok(*self)
    }
}

impl Copied for DiskRow {
    fn copy(&self, _alloc: Global) -> Result<DiskRow, NoMemory> {
        Ok(*self)
    }
}
