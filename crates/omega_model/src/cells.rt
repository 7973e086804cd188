//! Machines and running tasks, of which a cell is made.
ghost use Rattle.std.specs.Prelude.{◌≡◌, ◌+◌, ◌<◌, ◌^◌, ◌↔◌, IsTrue};
ghost use Rattle.omega_model.specs.Need.{Fits, minus, plus};

use crate::list::{Bytes, Copied, NoMemory, Seq};
use std::alloc::Global;

/// An amount of CPU, of memory and of disk, each in units of 10^-9 of the trace's normalised amount.
#[derive(Clone, Copy, Debug, PartialEq, Eq)]
pub struct Need {
    pub cpu: u64,
    pub mem: u64,
    pub disk: u64,
}

impl Need {
    /// Nothing of any component.
    pub const NOTHING: Need = Need {
        cpu: 0,
        mem: 0,
        disk: 0,
    };

    /// The sum, component by component.
    pub fn plus(self, other: Need) -> Need
        requires cpu { self.cpu + other.cpu < 2 ^ 64 }
        requires mem { self.mem + other.mem < 2 ^ 64 }
        requires disk { self.disk + other.disk < 2 ^ 64 }
        ensures { result ≡ plus self other }
    {
        Need {
            cpu: self.cpu + other.cpu,
            mem: self.mem + other.mem,
            disk: self.disk + other.disk,
        }
    }

    /// What is left when `other` is taken off; a component stops at 0.
    pub fn minus(self, other: Need) -> Need
        ensures { result ≡ minus self other }
    {
        Need {
            cpu: self.cpu.saturating_sub(other.cpu),
            mem: self.mem.saturating_sub(other.mem),
            disk: self.disk.saturating_sub(other.disk),
        }
    }

    /// Whether each component is at most that of `free`.
    pub fn fits(self, free: Need) -> bool
        ensures { IsTrue result ↔ Fits self free }
    {
        self.cpu <= free.cpu && self.mem <= free.mem && self.disk <= free.disk
    }
}

/// The name of a task: its job, and its index within the job. Tasks of the trace have an index below
/// 2^31, extra tasks one from 2^31 on.
#[derive(Clone, Copy, Debug, PartialEq, Eq, PartialOrd, Ord, Hash)]
pub struct TaskKey {
    pub job: u64,
    pub index: u32,
}

/// What a task asks for.
#[derive(Clone, Copy, Debug, PartialEq, Eq)]
pub struct Spec {
    pub need: Need,
    /// The precedence: a claim may evict tasks of a lower one. That of an extra task is 0.
    pub prec: u8,
    /// The different-machines flag: the task is placed only where no other task of its job stays; one
    /// that comes later without the flag may join it.
    pub differ: bool,
}

/// An attribute of a machine. Both parts are bytes and need not be text.
#[derive(Debug, Drop)]
pub struct Attr {
    pub name: Bytes,
    pub value: Bytes,
}

/// A machine of a cell. While it is down it keeps its capacity and its attributes.
#[derive(Debug, Drop)]
pub struct Machine {
    pub id: u64,
    pub up: bool,
    pub cap: Need,
    pub attrs: Attrs,
}

/// A running task.
#[derive(Clone, Copy, Debug, PartialEq, Eq)]
pub struct Task {
    pub key: TaskKey,
    pub machine: u64,
    pub spec: Spec,
}

pub type Attrs = Seq<Attr>;

pub type Keys = Seq<TaskKey>;

pub type Tasks = Seq<Task>;

impl Copied for TaskKey {
    fn copy(&self, _alloc: Global) -> Result<TaskKey, NoMemory> {
        Ok(*self)
    }
}

impl Copied for Attr {
    fn copy(&self, alloc: Global) -> Result<Attr, NoMemory> {
        Ok(Attr {
            name: self.name.copy(alloc)?,
            value: self.value.copy(alloc)?,
        })
    }
}

impl Copied for Machine {
    fn copy(&self, alloc: Global) -> Result<Machine, NoMemory> {
        Ok(Machine {
            id: self.id,
            up: self.up,
            cap: self.cap,
            attrs: self.attrs.copy(alloc)?,
        })
    }
}
