//! What a scheduler's step answers.
ghost use Rattle.std.specs.Prelude.{◌≡◌};

/// What a scheduler did in its step.
#[derive(Clone, Copy, Debug, PartialEq, Eq)]
pub enum Stepped {
    /// It has seen the whole history, and its plan is made.
    Synced,
    /// It committed its plan, and the commit stands at this place of the history, counted from 0.
    Committed(u64),
    /// It has no work.
    Idle,
}

impl Stepped {
    ghost use Rattle.omega_workers.specs.WorkerSteps.{is_committed};

    /// Whether the scheduler committed.
    pub fn is_committed(self) -> bool
        ensures { result ≡ is_committed self }
    {
        matches!(self, Stepped::Committed(_))
    }
}
