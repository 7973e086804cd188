//! Why an entry isn't taken.
ghost use Rattle.std.specs.Prelude.{◌≡◌};
ghost use Rattle.omega_keep.specs.declared.stop.Stop.TheVariants.{OutOfMemory};

use omega_model::NoMemory;

/// Why an entry isn't taken.
#[derive(Clone, Copy, Debug, Drop)]
pub enum Stop {
    /// It isn't possible.
    Refused,
    OutOfMemory,
}

impl From<NoMemory> for Stop {
    ghost from_gives = { λ _ e. e ≡ OutOfMemory };

    fn from(_error: NoMemory) -> Stop {
        Stop::OutOfMemory
    }
}
