//! What a database refuses, as the refusal of a keeper.
ghost use Rattle.std.specs.Prelude.{◌≡◌, ◌≤◌, ◌↔◌};
ghost use Rattle.omega_keep.specs.Keeping.{FailsFor};
ghost use Rattle.omega_keep.specs.declared.keeper.KeepRefusal.TheVariants.{NoMemory as OutOfMemory};
ghost use Rattle.omega_sqlkeep.specs.Refusals.{out_of_memory};

use omega_keep::KeepRefusal;
use sqlite::{Error, ErrorCode};

/// The refusal for an error of a database: `NoMemory` where memory ran out, and `Failed` else.
pub fn refusal_of(error: Error) -> KeepRefusal
    ensures { (result ≡ OutOfMemory) ↔ (error ≡ out_of_memory) }
{
    match error {
        Error::SqliteFailure(ErrorCode::OutOfMemory) => KeepRefusal::NoMemory,
        _ => KeepRefusal::Failed,
    }
}

/// The same, and a failure is counted in `faults`, up to 2^64 - 1.
pub fn counted(error: Error, faults: &mut u64) -> KeepRefusal
    ensures memory { (result ≡ OutOfMemory) ↔ (error ≡ out_of_memory) }
    ensures quiet { result ≡ OutOfMemory → faults.new ≡ faults.old }
    ensures cause { FailsFor faults.old faults.new result }
    ensures later { faults.old ≤ faults.new }
{
    let refusal = refusal_of(error);
    if refusal == KeepRefusal::Failed {
        *faults = faults.saturating_add(1);
    }
    refusal
}
