//! A keeper in memory, of which a call can be made to fail.
ghost use Rattle.std.specs.Prelude.{◌≡◌, ◌≤◌, ◌↔◌, [], Some, None, IsErr, OnErr};
ghost use Rattle.omega_keep.specs.Keeping.{Rose};

use crate::keeper::{KeepRefusal, Keeper, Lines};
use crate::listed::Listed;
use omega_model::{NoMemory, Seq};
use std::alloc::Global;

/// How many loads and appends were made, and which of them fails, counted from 0.
#[derive(Clone, Copy)]
pub struct KeeperCalls {
    made: u64,
    failing: Option<u64>,
    faults: u64,
}

impl KeeperCalls {
    /// No call was made and none fails.
    fn new() -> KeeperCalls
        ensures failing { result.failing ≡ None }
        ensures faults { result.faults ≡ 0 }
    {
        KeeperCalls {
            made: 0,
            failing: None,
            faults: 0,
        }
    }

    /// Counts a call, and fails where it is the one that is to fail. A count stops at 2^64 - 1.
    fn next(&mut self) -> Result<(), KeepRefusal>
        ensures fails { IsErr result ↔ (self.old.failing ≡ Some self.old.made) }
        ensures failing { self.new.failing ≡ self.old.failing }
        ensures cause { OnErr result (Rose self.old.faults self.new.faults) }
        ensures later { self.old.faults ≤ self.new.faults }
    {
        let fails = self.failing == Some(self.made);
        self.made = self.made.saturating_add(1);
        if fails {
            self.faults = self.faults.saturating_add(1);
            return Err(KeepRefusal::Failed);
        }
        Ok(())
    }
}

/// A keeper in memory. A contract knows its list and the path entered last.
#[derive(Drop)]
pub struct MemoryKeeper {
    listed: Listed,
    calls: KeeperCalls,
}

impl MemoryKeeper {
    /// A keeper of no lines. No path is entered and no call fails.
    pub fn new(alloc: Global) -> MemoryKeeper
        ensures list { ⟦<MemoryKeeper as Keeper>⟧.kept result ≡ Some [] }
        ensures path { ⟦<MemoryKeeper as Keeper>⟧.entered result ≡ Some None }
        ensures count { ⟦<MemoryKeeper as Keeper>⟧.faults result ≡ 0 }
    {
        MemoryKeeper::holding(alloc, Seq::new(alloc))
    }

    /// A keeper of these lines. No path is entered and no call fails.
    pub fn holding(alloc: Global, lines: Lines) -> MemoryKeeper
        ensures list { ⟦<MemoryKeeper as Keeper>⟧.kept result ≡ Some lines }
        ensures path { ⟦<MemoryKeeper as Keeper>⟧.entered result ≡ Some None }
        ensures count { ⟦<MemoryKeeper as Keeper>⟧.faults result ≡ 0 }
    {
        MemoryKeeper {
            listed: Listed::new(alloc, lines),
            calls: KeeperCalls::new(),
        }
    }

    /// The same keeper, of which the load or append number `call` fails, both counted together from 0.
    /// A second `fail_at` takes the place of the first.
    pub fn fail_at(self, call: u64) -> MemoryKeeper
        ensures all { result ≡ record self { calls = record self.calls { failing = Some call } } }
        ensures failing { result.calls.failing ≡ Some call }
        ensures list { ⟦<MemoryKeeper as Keeper>⟧.kept result ≡ ⟦<MemoryKeeper as Keeper>⟧.kept self }
        ensures path { ⟦<MemoryKeeper as Keeper>⟧.entered result ≡ ⟦<MemoryKeeper as Keeper>⟧.entered self }
        ensures count { ⟦<MemoryKeeper as Keeper>⟧.faults result ≡ ⟦<MemoryKeeper as Keeper>⟧.faults self }
    {
        let mut keeper = self;
        keeper.calls.failing = Some(call);
        keeper
    }

    /// The lines that are kept.
    pub fn lines(&self) -> &Lines
        ensures { ⟦<MemoryKeeper as Keeper>⟧.kept self.now ≡ Some result.now }
    {
        &self.listed.lines
    }
}

impl Keeper for MemoryKeeper {
    ghost use Rattle.std.specs.Prelude.{Some};

    ghost entered = { λ k. Some k.listed.path };

    ghost kept = { λ k. Some k.listed.lines };

    ghost faults = { λ k. k.calls.faults };

    fn enter(&mut self, path: &str) -> Result<(), NoMemory> {
        self.listed.enter(path)
    }

    fn load(&mut self) -> Result<Lines, KeepRefusal> {
        self.calls.next()?;
        Ok(self.listed.copied()?)
    }

    fn append(&mut self, lines: &Lines) -> Result<(), KeepRefusal> {
        self.calls.next()?;
        Ok(self.listed.append(lines)?)
    }

    fn faults(&self) -> u64 {
        self.calls.faults
    }
}
