//! What is noted of the entries that a walk has before it.
ghost use Rattle.std.specs.Prelude.{◌≡◌, ◌∷◌, List, IsTrue, slice_get};
ghost use Rattle.omega_cell.specs.Effects.{AreEffects, usage_in};
ghost use Rattle.omega_model.specs.Cell.{Cell, empty_cell, keys_of};
ghost use Rattle.omega_model.specs.ReportLines.{is_round_end};
ghost use Rattle.omega_model.specs.State.{displaced, step};
ghost use Rattle.omega_model.specs.declared.cells.TaskKey.{TaskKey};
ghost use Rattle.omega_model.specs.declared.entries.Entry.{Entry};
ghost use Rattle.omega_cell.specs.declared.effects.Usage.{Usage};
ghost use Rattle.omega_report.specs.Noted.{IsAhead};

use omega_cell::{Effects, Usage};
use omega_model::{Entry, Keys, TaskKey};

/// What is noted of the entries that are ahead: the usage where each round begins, and at the end, and
/// the names of the tasks that each entry of a machine displaces.
#[derive(Clone, Copy, Drop)]
pub struct Ahead<'a> {
    pub usages: &'a [Usage],
    pub displaced: &'a [Keys],
    pub last: Usage,
}

impl<'a> Ahead<'a> {
    /// What is noted of a whole history with these effects.
    pub fn of(effects: &'a Effects) -> Ahead<'a>
        ensures { (history : List Entry) → AreEffects history effects.now → IsAhead empty_cell history result }
    {
        Ahead {
            usages: effects.usages.as_slice(),
            displaced: effects.displaced.as_slice(),
            last: effects.last,
        }
    }

    /// The usage before the next entry, where a round ends there.
    pub fn usage(self) -> Usage
        ensures { (cell : Cell) (later : List Entry) → IsAhead cell later self.entry → IsTrue (is_round_end (slice_get later 0)) → result ≡ usage_in cell }
    {
        match self.usages.first() {
            Some(usage) => *usage,
            None => self.last,
        }
    }

    /// The names of the tasks that the next entry displaces, in order of eviction, and what is noted of
    /// the entries behind it.
    pub fn past(self, entry: &Entry) -> (&'a [TaskKey], Ahead<'a>)
        ensures stopped { (cell : Cell) (later : List Entry) → IsAhead cell (entry.now ∷ later) self.entry → result.0.now ≡ keys_of (displaced cell.tasks entry.now) }
        ensures ahead { (cell : Cell) (later : List Entry) → IsAhead cell (entry.now ∷ later) self.entry → IsAhead (step cell entry.now) later result.1 }
    {
        match entry {
            Entry::Round { .. } => (&[], self.past_round()),
            Entry::MachineAdd { .. } => self.past_machine(),
            Entry::MachineUpdate { .. } => self.past_machine(),
            Entry::MachineRemove { .. } => self.past_machine(),
            Entry::AttrSet { .. }
            | Entry::AttrDelete { .. }
            | Entry::End { .. }
            | Entry::Commit { .. } => (&[], self),
        }
    }

    /// What is noted behind the beginning of a round.
    fn past_round(self) -> Ahead<'a>
        ensures usages { (first : Usage) (rest : List Usage) → self.entry.usages.now ≡ first ∷ rest → result.usages.now ≡ rest }
        ensures displaced { result.displaced.now ≡ self.entry.displaced.now }
        ensures last { result.last ≡ self.entry.last }
    {
        match self.usages.split_first() {
            Some((_, usages)) => Ahead { usages, ..self },
            None => self,
        }
    }

    /// What is noted at an entry of a machine, and behind it.
    fn past_machine(self) -> (&'a [TaskKey], Ahead<'a>)
        ensures stopped { (keys : List TaskKey) (rest : List (List TaskKey)) → self.entry.displaced.now ≡ keys ∷ rest → result.0.now ≡ keys }
        ensures displaced { (keys : List TaskKey) (rest : List (List TaskKey)) → self.entry.displaced.now ≡ keys ∷ rest → result.1.displaced.now ≡ rest }
        ensures usages { result.1.usages.now ≡ self.entry.usages.now }
        ensures last { result.1.last ≡ self.entry.last }
    {
        match self.displaced.split_first() {
            Some((keys, displaced)) => (keys.as_slice(), Ahead { displaced, ..self }),
            None => (&[], self),
        }
    }
}
