//! A keeper that tells how many appends it has done.

use omega_keep::{KeepRefusal, Keeper, Lines};
use omega_model::NoMemory;

/// Another keeper, of which each append that is answered as done is counted.
#[derive(Drop)]
pub struct Counted<K: Keeper> {
    keeper: K,
    appended: usize,
}

impl<K: Keeper> Counted<K> {
    /// No append is done yet.
    pub fn over(keeper: K) -> Counted<K> {
        Counted {
            keeper,
            appended: 0,
        }
    }

    /// How many appends were done.
    pub fn appended(&self) -> usize {
        self.appended
    }

    /// Hands the keeper back.
    pub fn into_keeper(self) -> K {
        let Counted {
            keeper,
            appended: _,
        } = self;
        keeper
    }
}

impl<K: Keeper> Keeper for Counted<K> {
    ghost entered = { λ k. K.Keeper.entered k.keeper };

    ghost kept = { λ k. K.Keeper.kept k.keeper };

    ghost faults = { λ k. K.Keeper.faults k.keeper };

    fn enter(&mut self, path: &str) -> Result<(), NoMemory> {
        self.keeper.enter(path)
    }

    fn load(&mut self) -> Result<Lines, KeepRefusal> {
        self.keeper.load()
    }

    fn append(&mut self, lines: &Lines) -> Result<(), KeepRefusal> {
        self.keeper.append(lines)?;
        self.appended = self.appended.saturating_add(1);
        Ok(())
    }

    fn faults(&self) -> u64 {
        self.keeper.faults()
    }
}
