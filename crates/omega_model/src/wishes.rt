//! What a scheduler is asked to place.
use crate::cells::{Spec, TaskKey};
use crate::list::{Bytes, Copied, NoMemory, Seq};
use std::alloc::Global;

/// How a constraint compares an attribute with its value. An attribute that isn't set counts as empty.
#[derive(Clone, Copy, Debug, PartialEq, Eq)]
pub enum Op {
    /// The same bytes.
    Equal,
    /// Other bytes.
    NotEqual,
    /// Both are whole numbers, and the attribute is less.
    Less,
    /// Both are whole numbers, and the attribute is greater.
    Greater,
}

/// A condition on an attribute of the machine on which a task may be placed.
#[derive(Debug, Drop)]
pub struct Constraint {
    pub op: Op,
    pub name: Bytes,
    pub value: Bytes,
}

/// A task to be placed: a wanted one that doesn't run, or an extra one of a MapReduce job.
#[derive(Debug, Drop)]
pub struct Wish {
    pub key: TaskKey,
    pub spec: Spec,
    pub constraints: Constraints,
}

/// The wishes of one job in one round.
#[derive(Debug, Drop)]
pub struct Request {
    pub job: u64,
    pub wishes: Wishes,
}

pub type Constraints = Seq<Constraint>;

pub type Wishes = Seq<Wish>;

pub type Requests = Seq<Request>;

impl Copied for Constraint {
    fn copy(&self, alloc: Global) -> Result<Constraint, NoMemory> {
        Ok(Constraint {
            op: self.op,
            name: self.name.copy(alloc)?,
            value: self.value.copy(alloc)?,
        })
    }
}
