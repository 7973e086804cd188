//! What a history is made of.
ghost use Rattle.std.specs.Prelude.{◌≡◌, ◌==◌, ℕ, true, false, None};
ghost use Rattle.std.specs.Option.{option_map_or};
ghost use Rattle.omega_model.specs.Touches.{is_commit, touches};

use crate::cells::{Need, TaskKey};
use crate::claims::{Judgements, Txn};
use crate::list::{Bytes, Copied, NoMemory, Seq};
use std::alloc::Global;

/// One step of the cell. An entry of a machine or of an attribute first puts the machine at the end of the
/// list where it isn't there: down, without capacity and attributes.
#[derive(Debug, Drop)]
pub enum Entry {
    /// A round begins; `number` is the round's.
    Round {
        number: u64,
    },
    /// The machine comes up with this capacity, or has it from now on where it is up. Tasks stop until the
    /// others fit.
    MachineAdd {
        machine: u64,
        cap: Need,
    },
    /// The machine has this capacity, and stays up or down. Tasks stop until the others fit.
    MachineUpdate {
        machine: u64,
        cap: Need,
    },
    /// The machine goes down, and all its tasks stop.
    MachineRemove {
        machine: u64,
    },
    AttrSet {
        machine: u64,
        name: Bytes,
        value: Bytes,
    },
    AttrDelete {
        machine: u64,
        name: Bytes,
    },
    /// The task ends, which runs on this machine.
    End {
        key: TaskKey,
        machine: u64,
    },
    /// A transaction and what was answered to it: `reply` has a judgement for each claim, in order. `seen` is
    /// the number of entries that the scheduler had seen when it planned.
    Commit {
        scheduler: u32,
        seen: u64,
        txn: Txn,
        reply: Judgements,
    },
}

impl Entry {
    /// The number of the one machine that an entry of a machine, of an attribute or of an end touches.
    /// `None` for a round, which touches no machine, and for a commit, which touches those on which it
    /// placed claims.
    pub fn machine(&self) -> Option<u64>
        ensures touched { is_commit self.now ≡ false → (id : ℕ) → touches id self.now ≡ option_map_or (λ machine. machine == id) result false }
        ensures commit { is_commit self.now ≡ true → result ≡ None }
    {
        match self {
            Entry::MachineAdd { machine, .. }
            | Entry::MachineUpdate { machine, .. }
            | Entry::MachineRemove { machine }
            | Entry::AttrSet { machine, .. }
            | Entry::AttrDelete { machine, .. }
            | Entry::End { machine, .. } => Some(*machine),
            Entry::Round { .. } | Entry::Commit { .. } => None,
        }
    }
}

pub type Entries = Seq<Entry>;

impl Copied for Entry {
    fn copy(&self, alloc: Global) -> Result<Entry, NoMemory> {
        Ok(match self {
            Entry::Round { number } => Entry::Round { number: *number },
            Entry::MachineAdd { machine, cap } => Entry::MachineAdd {
                machine: *machine,
                cap: *cap,
            },
            Entry::MachineUpdate { machine, cap } => Entry::MachineUpdate {
                machine: *machine,
                cap: *cap,
            },
            Entry::MachineRemove { machine } => Entry::MachineRemove { machine: *machine },
            Entry::AttrSet {
                machine,
                name,
                value,
            } => Entry::AttrSet {
                machine: *machine,
                name: name.copy(alloc)?,
                value: value.copy(alloc)?,
            },
            Entry::AttrDelete { machine, name } => Entry::AttrDelete {
                machine: *machine,
                name: name.copy(alloc)?,
            },
            Entry::End { key, machine } => Entry::End {
                key: *key,
                machine: *machine,
            },
            Entry::Commit {
                scheduler,
                seen,
                txn,
                reply,
            } => Entry::Commit {
                scheduler: *scheduler,
                seen: *seen,
                txn: txn.copy(alloc)?,
                reply: reply.copy(alloc)?,
            },
        })
    }
}
