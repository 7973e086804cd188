//! Marks by which a number that isn't among some is mostly known without a search.
ghost use Rattle.std.specs.Prelude.{◌≡◌, ◌≤◌, ℕ, [], length, true, OnOk};
ghost use Rattle.omega_feed.specs.Marks.{is_marked};

use omega_model::NoMemory;
use std::alloc::Global;
use std::marker::Model;

/// How many marks there are: they take 64 KiB, so that they mostly are in a processor's cache.
const MARKS: usize = 65_536;

/// Marks of numbers. Numbers may share a mark, so one that wasn't marked may have one.
#[derive(Drop)]
pub(crate) struct Marks {
    marks: Vec<bool>,
}

impl Model for Marks {
    ghost use Rattle.std.specs.Prelude.{List, Bool};

    ghost Value = { List Bool };

    ghost view = { λ marks. marks.marks.items };
}

impl Marks {
    /// No number is marked.
    pub fn none(alloc: Global) -> Marks
        ensures { result ≡ [] }
    {
        Marks {
            marks: Vec::new(alloc),
        }
    }

    /// Marks a number. The first call takes the memory of all marks.
    pub fn mark(&mut self, number: u64) -> Result<(), NoMemory>
        ensures own { OnOk result (is_marked self.new number ≡ true) }
        ensures others { (other : ℕ) → is_marked self.old other ≡ true → is_marked self.new other ≡ true }
    {
        self.make()?;
        self.marks[number as usize % MARKS] = true;
        Ok(())
    }

    /// Makes all marks, unless they are there.
    fn make(&mut self) -> Result<(), NoMemory>
        ensures all { OnOk result (65536 ≤ length self.new) }
        ensures others { (other : ℕ) → is_marked self.old other ≡ true → is_marked self.new other ≡ true }
    {
        if self.marks.len() < MARKS {
            self.marks.resize(MARKS, false)?;
        }
        Ok(())
    }

    /// Whether a number has a mark, which each number that was marked has. Takes the same time for any number of
    /// them.
    pub fn has(&self, number: u64) -> bool
        ensures { result ≡ is_marked self.now number }
    {
        match self.marks.get(number as usize % MARKS) {
            Some(mark) => *mark,
            None => false,
        }
    }
}
