//! What the words of the command line choose.
ghost use Rattle.std.specs.Prelude.{◌≡◌, ◌<◌, ◌≤◌};
ghost use Rattle.omega_model.specs.Policy.{policy_of, schedulers};

use crate::claims::{Mode, Policy, Rule};

/// What the program does.
#[derive(Clone, Copy, Debug, PartialEq, Eq)]
pub enum Command {
    /// The tables of a folder, the schedulers in fixed turns.
    Replay,
    /// The same with a thread for each scheduler.
    Run,
    /// Turns on tables that are made of a seed; prints a summary.
    Generate,
    /// The tables of a folder by a virtual clock: decisions take time.
    Simulate,
    /// A replay whose history is kept, and that goes on from what was kept.
    Resume,
    /// What was kept is replayed alone, without tables.
    Audit,
}

/// Which schedulers may evict tasks of lower precedence.
#[derive(Clone, Copy, Debug, PartialEq, Eq)]
pub enum Preempt {
    Nobody,
    Service,
    All,
}

/// How far a MapReduce job is filled up with extra tasks: at most until its wanted and its extra tasks together
/// are as many as its activities.
#[derive(Clone, Copy, Debug, PartialEq, Eq)]
pub enum Extra {
    /// As far as that.
    Max,
    /// As far as the cell's use of each kind stays within this percentage of its capacity.
    Cap(u32),
    /// Until they are together four times as many as its wanted tasks.
    Relative,
}

/// By which clock decisions take time on `simulate`.
#[derive(Clone, Copy, Debug, PartialEq, Eq)]
pub enum Clock {
    /// A round opens when all schedulers have decided on the round before.
    Rounds,
    /// A round opens when its rows are due, whoever is deciding.
    Free,
}

/// When tasks end on `simulate` by the free clock.
#[derive(Clone, Copy, Debug, PartialEq, Eq)]
pub enum Ends {
    /// By the trace's rows.
    Trace,
    /// When they have run for as long as they did in the trace.
    Own,
}

/// The form of the report.
#[derive(Clone, Copy, Debug, PartialEq, Eq)]
pub enum Format {
    Text,
    Json,
}

/// Everything that a run depends on beside its tables. The type allows any number; the ranges below
/// are those that the words can say.
#[derive(Clone, Copy, Debug, PartialEq, Eq)]
pub struct Settings {
    pub command: Command,
    /// The seed of the schedulers' starts, and of the tables that `generate` makes.
    pub seed: u64,
    /// How many batch schedulers there are: from 1 to 30.
    pub batch: u32,
    pub rule: Rule,
    pub mode: Mode,
    pub preempt: Preempt,
    /// A percentage is at most 100.
    pub extra: Extra,
    /// How many attempts a request has in a round: from 1 to 100.
    pub tries: u32,
    /// After how many commits in a row that place nothing a job is given up: from 1 to 1000.
    pub give_up: u32,
    /// The length of a round in microseconds of the trace: from 1 to 2^40.
    pub window: u64,
    pub format: Format,
    /// How many machines are generated: at most 4096.
    pub machines: u32,
    /// How many jobs are generated: at most 20,000.
    pub jobs: u32,
    /// How long a scheduler decides on an attempt, in microseconds: at most 1,000,000,000.
    pub t_job: u64,
    /// How much longer for each task that is still to be placed, in microseconds: at most 1,000,000,000.
    pub t_task: u64,
    /// What `t_job` is for the others, for the scheduler of services.
    pub service_t_job: u64,
    /// What `t_task` is for the others, for the scheduler of services.
    pub service_t_task: u64,
    pub clock: Clock,
    /// Whether the report tells the times of each commit, and of each job's first one.
    pub times: bool,
    pub ends: Ends,
}

impl Default for Settings {
    ghost use Rattle.omega_model.specs.WordSettings.{default_settings};

    /// The settings where no option is given.
    fn default() -> Settings
        ensures { result ≡ default_settings }
    {
        Settings {
            command: Command::Replay,
            seed: 0,
            batch: 1,
            rule: Rule::Fine,
            mode: Mode::Incremental,
            preempt: Preempt::Nobody,
            extra: Extra::Relative,
            tries: 5,
            give_up: 1_000,
            window: 300_000_000,
            format: Format::Text,
            machines: 64,
            jobs: 500,
            t_job: 100_000,
            t_task: 5_000,
            service_t_job: 100_000,
            service_t_task: 5_000,
            clock: Clock::Rounds,
            times: false,
            ends: Ends::Trace,
        }
    }
}

impl Settings {
    /// How many schedulers there are: one for services, the batch ones, one for MapReduce.
    pub fn schedulers(&self) -> u32
        requires { self.now.batch ≤ 30 }
        ensures { result ≡ schedulers self.now }
    {
        self.batch + 2
    }

    /// How the scheduler of this number plans and commits: 0 is that of services, the last one that of
    /// MapReduce, which is incremental always.
    pub fn policy(&self, scheduler: u32) -> Policy
        requires batch { self.now.batch ≤ 30 }
        requires scheduler { scheduler < schedulers self.now }
        ensures { result ≡ policy_of self.now scheduler }
    {
        let mode = if scheduler == self.batch + 1 {
            Mode::Incremental
        } else {
            self.mode
        };
        let preempt = match self.preempt {
            Preempt::Nobody => false,
            Preempt::Service => scheduler == 0,
            Preempt::All => true,
        };
        Policy {
            rule: self.rule,
            mode,
            preempt,
        }
    }
}
