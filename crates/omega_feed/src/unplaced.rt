//! What is wanted and doesn't run.
ghost use Rattle.std.specs.Prelude.{◌≡◌, IfOk};
ghost use Rattle.omega_model.specs.Feed.{each_once};

use omega_model::{NoMemory, Seq};
use std::alloc::Global;
use std::collections::BTreeSet;

/// Wanted tasks that don't run.
#[derive(Debug, Drop)]
pub struct WaitingTasks {
    /// How many there are.
    pub tasks: u64,
    /// Their jobs, each once.
    pub jobs: Seq<u64>,
}

/// Some numbers, each once, in the order in which they come first. Costs the logarithm of how many
/// there are for each.
pub fn each_once(alloc: Global, numbers: &[u64]) -> Result<Seq<u64>, NoMemory>
    ensures { IfOk result (λ once. once ≡ each_once numbers.now) }
{
    let mut seen = BTreeSet::new(alloc);
    let mut once = Vec::new(alloc);
    for number in numbers {
        if seen.insert(*number)? {
            once.push(*number)?;
        }
    }
    Ok(Seq::of(once))
}
