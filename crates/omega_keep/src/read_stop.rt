//! Why no entry was read.
ghost use Rattle.std.specs.Prelude.{◌≡◌};
ghost use Rattle.omega_keep.specs.declared.read_stop.ReadStop.TheVariants.{OutOfMemory};

use omega_model::NoMemory;

/// Why no entry was read.
#[derive(Clone, Copy, Debug, Drop)]
pub enum ReadStop {
    /// The words are those of no entry.
    NoLine,
    OutOfMemory,
}

impl From<NoMemory> for ReadStop {
    ghost from_gives = { λ _ e. e ≡ OutOfMemory };

    fn from(_error: NoMemory) -> ReadStop {
        ReadStop::OutOfMemory
    }
}
