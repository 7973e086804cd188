//! A list of lines that grows by all of some lines or by none.
ghost use Rattle.std.specs.Prelude.{◌≡◌, ◌++◌, [], Some, None, IfOk, OnOk, OnErr};

use crate::keeper::Lines;
use omega_model::{Copied, NoMemory, Seq, Text};
use std::alloc::Global;
use std::mem;

/// A path and a list of lines in memory.
#[derive(Drop)]
pub struct Listed {
    pub alloc: Global,
    pub path: Option<Text>,
    pub lines: Lines,
}

impl Listed {
    /// These lines, and no path yet.
    pub fn new(alloc: Global, lines: Lines) -> Listed
        ensures lines { result.lines ≡ lines }
        ensures path { result.path ≡ None }
    {
        Listed {
            alloc,
            path: None,
            lines,
        }
    }

    /// Takes another path.
    pub fn enter(&mut self, path: &str) -> Result<(), NoMemory>
        ensures enters { OnOk result (self.new.path ≡ Some path.now) }
        ensures stays { OnErr result (self.new.path ≡ self.old.path) }
        ensures lines { self.new.lines ≡ self.old.lines }
    {
        let path = String::from_str(self.alloc, path)?;
        self.path = Some(Text::of(path));
        Ok(())
    }

    /// A copy of the list.
    pub fn copied(&self) -> Result<Lines, NoMemory>
        ensures { IfOk result (λ lines. lines ≡ self.now.lines) }
    {
        self.lines.copy(self.alloc)
    }

    /// Puts a copy of all the lines at the end, or of none where memory runs out.
    pub fn append(&mut self, lines: &Lines) -> Result<(), NoMemory>
        ensures adds { OnOk result (self.new.lines ≡ self.old.lines ++ lines.now) }
        ensures stays { OnErr result (self.new.lines ≡ self.old.lines) }
        ensures path { self.new.path ≡ self.old.path }
    {
        let mut more = lines.copy(self.alloc)?.into_items();
        let mut held = mem::replace(&mut self.lines, Seq::new(self.alloc)).into_items();
        let answer = held.append(&mut more);
        self.lines = Seq::of(held);
        answer?;
        Ok(())
    }
}
