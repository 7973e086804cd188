//! What is in use on machines that are up, and their capacity.
ghost use Rattle.std.specs.Prelude.{◌≡◌};
ghost use Rattle.omega_machines.specs.Load.{load_of, less, replaced, IsInWords};

use crate::MachineState;
use omega_model::Need;

/// What is in use, and the capacity: of one machine or of several. A machine that isn't up adds
/// nothing to either.
#[derive(Clone, Copy, Debug, PartialEq, Eq)]
pub(crate) struct Load {
    pub used: Need,
    pub capacity: Need,
}

impl Load {
    /// The load of no machine, and of one that isn't up.
    pub const NONE: Load = Load {
        used: Need::NOTHING,
        capacity: Need::NOTHING,
    };

    /// The load of one machine.
    pub fn of(state: &MachineState) -> Load
        ensures { result ≡ load_of state.now }
    {
        if !state.machine.up {
            return Load::NONE;
        }
        Load {
            used: state.machine.cap.minus(state.free),
            capacity: state.machine.cap,
        }
    }

    /// What is left of a sum when one of its terms goes.
    pub fn less(self, other: Load) -> Load
        ensures { result ≡ less self other }
    {
        Load {
            used: self.used.minus(other.used),
            capacity: self.capacity.minus(other.capacity),
        }
    }

    /// A sum in which one term comes in the place of another.
    pub fn replaced(self, old: Load, new: Load) -> Load
        requires { IsInWords (replaced self old new) }
        ensures { result ≡ replaced self old new }
    {
        let rest = self.less(old);
        Load {
            used: rest.used.plus(new.used),
            capacity: rest.capacity.plus(new.capacity),
        }
    }
}
