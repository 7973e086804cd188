//! A keeper that never fails.
ghost use Rattle.std.specs.Prelude.{◌≡◌, [], Some, None};

use crate::keeper::{KeepRefusal, Keeper, Lines};
use crate::listed::Listed;
use omega_model::{NoMemory, Seq};
use std::alloc::Global;

/// A keeper in memory that never answers `Failed`: its count of faults is always 0. Where memory runs
/// out it answers `NoMemory`. A contract knows its list and the path entered last.
#[derive(Drop)]
pub struct SteadyKeeper {
    listed: Listed,
}

impl SteadyKeeper {
    /// A keeper of no lines. No path is entered.
    pub fn new(alloc: Global) -> SteadyKeeper
        ensures list { ⟦<SteadyKeeper as Keeper>⟧.kept result ≡ Some [] }
        ensures path { ⟦<SteadyKeeper as Keeper>⟧.entered result ≡ Some None }
    {
        SteadyKeeper::holding(alloc, Seq::new(alloc))
    }

    /// A keeper of these lines. No path is entered.
    pub fn holding(alloc: Global, lines: Lines) -> SteadyKeeper
        ensures list { ⟦<SteadyKeeper as Keeper>⟧.kept result ≡ Some lines }
        ensures path { ⟦<SteadyKeeper as Keeper>⟧.entered result ≡ Some None }
    {
        SteadyKeeper {
            listed: Listed::new(alloc, lines),
        }
    }

    /// The lines that are kept.
    pub fn lines(&self) -> &Lines
        ensures { ⟦<SteadyKeeper as Keeper>⟧.kept self.now ≡ Some result.now }
    {
        &self.listed.lines
    }
}

impl Keeper for SteadyKeeper {
    ghost use Rattle.std.specs.Prelude.{Some};

    ghost entered = { λ k. Some k.listed.path };

    ghost kept = { λ k. Some k.listed.lines };

    ghost faults = { λ _. 0 };

    fn enter(&mut self, path: &str) -> Result<(), NoMemory> {
        self.listed.enter(path)
    }

    fn load(&mut self) -> Result<Lines, KeepRefusal> {
        Ok(self.listed.copied()?)
    }

    fn append(&mut self, lines: &Lines) -> Result<(), KeepRefusal> {
        Ok(self.listed.append(lines)?)
    }

    fn faults(&self) -> u64 {
        0
    }
}
