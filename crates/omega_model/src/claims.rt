//! Transactions of schedulers, and what is answered to them.
ghost use Rattle.std.specs.Prelude.{◌≡◌};
ghost use Rattle.omega_model.specs.Touches.{is_placed};

use crate::cells::{Keys, Need, Spec, TaskKey};
use crate::list::{Copied, NoMemory, Seq};
use std::alloc::Global;

/// Puts one task on one machine, and takes victims off it as far as that is needed.
#[derive(Debug, Drop)]
pub struct Claim {
    pub key: TaskKey,
    pub machine: u64,
    pub spec: Spec,
    /// The tasks that may be evicted: from the first on, as many as have to go. Those that don't run on
    /// the machine are passed over.
    pub victims: Keys,
}

/// Whether a claim is refused because its machine changed after the scheduler saw it.
#[derive(Clone, Copy, Debug, PartialEq, Eq)]
pub enum Rule {
    /// It isn't: the claim is judged by the machine as it is now.
    Fine,
    /// It is, even where the machine has room for the task.
    Coarse,
}

/// Whether a transaction keeps what could be placed, or is all or nothing.
#[derive(Clone, Copy, Debug, PartialEq, Eq)]
pub enum Mode {
    Incremental,
    Gang,
}

/// How a scheduler plans and commits: by which rule and mode, and whether it may evict tasks.
#[derive(Clone, Copy, Debug, PartialEq, Eq)]
pub struct Policy {
    pub rule: Rule,
    pub mode: Mode,
    pub preempt: bool,
}

/// The claims that a scheduler commits in one atomic step.
#[derive(Debug, Drop)]
pub struct Txn {
    pub job: u64,
    pub rule: Rule,
    pub mode: Mode,
    pub claims: Claims,
}

/// What is answered to one claim. Where several refusals apply, it is the first of them in the order of the
/// variants.
#[derive(Clone, Copy, Debug, PartialEq, Eq)]
pub enum Verdict {
    Placed,
    /// The machine isn't in the list or isn't up.
    NoMachine,
    /// The task runs already, on this machine.
    AlreadyRunning(u64),
    /// By the coarse rule alone: the machine changed after the scheduler saw it. `now` is its sequence
    /// number now, `copy` the one that it had in what the scheduler had seen.
    Changed { now: u64, copy: u64 },
    /// The first victim on the machine whose precedence isn't lower than the claim's.
    VictimRank(TaskKey),
    /// The claim has the different-machines flag, and this task of the same job stays on the machine.
    SameJob(TaskKey),
    /// What is free on the machine once the claim's victims that run there are off it, in units of
    /// 10^-9; it is too little.
    Full(Need),
    /// The claim would be placed, but its gang is refused for the claim at this place of the
    /// transaction, from 0.
    Withdrawn(u32),
}

impl Verdict {
    /// Whether the claim is placed.
    pub fn is_placed(self) -> bool
        ensures { result ≡ is_placed self }
    {
        matches!(self, Verdict::Placed)
    }
}

/// The verdict on a claim, and the tasks that it evicts, in order. It evicts nothing where the claim
/// isn't placed.
#[derive(Debug, Drop)]
pub struct Judgement {
    pub verdict: Verdict,
    pub evicted: Keys,
}

/// A task, the verdict on its claim, and the tasks that were evicted for it.
#[derive(Debug, Drop)]
pub struct Outcome {
    pub key: TaskKey,
    pub verdict: Verdict,
    pub evicted: Keys,
}

/// The answer to a commit. `place` is that of its entry in the history, from 0, and `outcomes` has one for
/// each claim, in order.
#[derive(Debug, Drop)]
pub struct Reply {
    pub place: u64,
    pub outcomes: Outcomes,
}

pub type Claims = Seq<Claim>;

pub type Judgements = Seq<Judgement>;

pub type Outcomes = Seq<Outcome>;

impl Copied for Claim {
    fn copy(&self, alloc: Global) -> Result<Claim, NoMemory> {
        Ok(Claim {
            key: self.key,
            machine: self.machine,
            spec: self.spec,
            victims: self.victims.copy(alloc)?,
        })
    }
}

impl Copied for Judgement {
    fn copy(&self, alloc: Global) -> Result<Judgement, NoMemory> {
        Ok(Judgement {
            verdict: self.verdict,
            evicted: self.evicted.copy(alloc)?,
        })
    }
}

impl Copied for Txn {
    fn copy(&self, alloc: Global) -> Result<Txn, NoMemory> {
        Ok(Txn {
            job: self.job,
            rule: self.rule,
            mode: self.mode,
            claims: self.claims.copy(alloc)?,
        })
    }
}
