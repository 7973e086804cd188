//! What keeps a history outside the program.
use omega_model::{Bytes, NoMemory, Seq};

/// Lines in order, each without a line feed.
pub type Lines = Seq<Bytes>;

/// Why a keeper's call is refused.
#[derive(Clone, Copy, Debug, Drop, PartialEq, Eq)]
pub enum KeepRefusal {
    /// The keeper failed, and counts that as a fault.
    Failed,
    /// Memory ran out.
    NoMemory,
}

impl From<NoMemory> for KeepRefusal {
    ghost use Rattle.std.specs.Prelude.{◌≡◌};
    ghost use Rattle.omega_keep.specs.declared.keeper.KeepRefusal.TheVariants as refusal;

    ghost from_gives = { λ _ e. e ≡ refusal.NoMemory };

    fn from(_error: NoMemory) -> KeepRefusal {
        KeepRefusal::NoMemory
    }
}

/// A list of lines at a path, which outlives the program.
///
/// A contract knows the list, where the keeper tells it, the path entered last, where the keeper tells
/// that, and a count of faults that never falls. A keeper that tells a path tells it always: `entered`
/// is `None` for one that never does, and `Some None` for one that does and has entered no path yet.
pub trait Keeper {
    ghost use Rattle.std.specs.Prelude.{◌≡◌, ◌≤◌, ℕ, List, Option, IfOk, IfErr, IfSome, OnOk, OnErr};
    ghost use Rattle.omega_keep.specs.Keeping.{Adds, Enters, FailsFor};

    ghost entered: { Self → Option (Option (List ℕ)) };

    ghost kept: { Self → Option (List (List ℕ)) };

    ghost faults: { Self → ℕ };

    /// Enters a path. The list and the count stay. `NoMemory` changes nothing.
    fn enter(&mut self, path: &str) -> Result<(), NoMemory>
        ensures enters { OnOk result (Enters path.now (entered self.old) (entered self.new)) }
        ensures stays { OnErr result (entered self.new ≡ entered self.old) }
        ensures list { kept self.new ≡ kept self.old }
        ensures count { faults self.new ≡ faults self.old };

    /// The whole list. It stays, and so does the path. `Failed` comes only where the count rose or can
    /// rise no further.
    fn load(&mut self) -> Result<Lines, KeepRefusal>
        ensures lines { IfOk result (λ lines. IfSome (kept self.old) (λ list. lines ≡ list)) }
        ensures list { kept self.new ≡ kept self.old }
        ensures path { entered self.new ≡ entered self.old }
        ensures cause { IfErr result (FailsFor (faults self.old) (faults self.new)) }
        ensures later { faults self.old ≤ faults self.new };

    /// Puts all the lines at the end of the list, or none where it is refused. The path stays. `Failed`
    /// comes only where the count rose or can rise no further.
    fn append(&mut self, lines: &Lines) -> Result<(), KeepRefusal>
        ensures adds { OnOk result (Adds lines.now (kept self.old) (kept self.new)) }
        ensures stays { OnErr result (kept self.new ≡ kept self.old) }
        ensures path { entered self.new ≡ entered self.old }
        ensures cause { IfErr result (FailsFor (faults self.old) (faults self.new)) }
        ensures later { faults self.old ≤ faults self.new };

    /// How many calls have answered `Failed`, up to 2^64 - 1.
    fn faults(&self) -> u64
        ensures { result ≡ faults self.now };
}
