//! The log by which placed claims are taken back.
ghost use Rattle.std.specs.Prelude.{◌≡◌, ◌+◌, ◌<◌, ◌≤◌, [], ◌∷◌, IfOk, OnOk, MatchOption};
ghost use Rattle.omega_board.specs.Undo.{UndoState};

use omega_model::{NoMemory, Task, TaskKey};
use std::alloc::Global;
use std::marker::Model;

/// A change of the running tasks.
#[derive(Clone, Copy, Debug)]
pub enum Change {
    /// This task stopped.
    Stopped(Task),
    /// The task of this name started.
    Started(TaskKey),
}

/// What takes placed claims back: the changes since a reserve, the latest first, and for how many
/// more claims and victims there is room.
#[derive(Debug, Drop)]
pub struct Undo {
    log: Vec<Change>,
    claims: usize,
    victims: usize,
}

impl Model for Undo {
    ghost use Rattle.std.specs.Prelude.{◌+◌, ◌≤◌, reverse, vec_len, vec_capacity};
    ghost use Rattle.omega_board.specs.Undo.{UndoState};

    ghost Value = { UndoState };

    ghost view = { λ u. record { log = reverse u.log.items; claims = u.claims; victims = u.victims } };

    ghost invariant = { λ u. vec_len u.log + u.claims + u.victims ≤ vec_capacity u.log };
}

impl Undo {
    /// No change, and room for so many claims and victims.
    pub(crate) fn with_room(alloc: Global, claims: usize, victims: usize) -> Result<Undo, NoMemory>
        ensures { IfOk result (λ undo. undo ≡ record { log = []; claims = claims; victims = victims }) }
    {
        let Some(room) = claims.checked_add(victims) else {
            return Err(NoMemory);
        };
        let log = Vec::with_capacity(alloc, room)?;
        Ok(Undo {
            log,
            claims,
            victims,
        })
    }

    /// Makes room for at least so many victims. The changes and the room for claims stay, also where
    /// memory runs out, and no room is lost then. Takes no memory where there is enough room.
    pub fn reserve_victims(&mut self, n: usize) -> Result<(), NoMemory>
        ensures log { self.new.log ≡ self.old.log }
        ensures claims { self.new.claims ≡ self.old.claims }
        ensures kept { self.old.victims ≤ self.new.victims }
        ensures room { OnOk result (n ≤ self.new.victims) }
    {
        if n <= self.victims {
            return Ok(());
        }
        let Some(room) = self.claims.checked_add(n) else {
            return Err(NoMemory);
        };
        self.log.reserve(room)?;
        self.victims = n;
        Ok(())
    }

    /// Notes that a task stopped.
    pub(crate) fn note_stopped(&mut self, task: Task)
        requires { 0 < self.old.victims }
        ensures log { self.new.log ≡ Change.Stopped task ∷ self.old.log }
        ensures claims { self.new.claims ≡ self.old.claims }
        ensures victims { self.new.victims + 1 ≡ self.old.victims }
    {
        self.log.push_reserved(Change::Stopped(task));
        self.victims -= 1;
    }

    /// Notes that a task started.
    pub(crate) fn note_started(&mut self, key: TaskKey)
        requires { 0 < self.old.claims }
        ensures log { self.new.log ≡ Change.Started key ∷ self.old.log }
        ensures claims { self.new.claims + 1 ≡ self.old.claims }
        ensures victims { self.new.victims ≡ self.old.victims }
    {
        self.log.push_reserved(Change::Started(key));
        self.claims -= 1;
    }

    /// Takes off the room for so many victims, which isn't needed.
    pub(crate) fn give_up(&mut self, victims: usize)
        requires { victims ≤ self.old.victims }
        ensures log { self.new.log ≡ self.old.log }
        ensures claims { self.new.claims ≡ self.old.claims }
        ensures victims { self.new.victims + victims ≡ self.old.victims }
    {
        self.victims -= victims;
    }

    /// Takes the latest change off the log. Gives no room back.
    pub(crate) fn pop(&mut self) -> Option<Change>
        ensures log { MatchOption result ((self.old.log ≡ []) × (self.new.log ≡ [])) (λ change. self.old.log ≡ change ∷ self.new.log) }
        ensures claims { self.new.claims ≡ self.old.claims }
        ensures victims { self.new.victims ≡ self.old.victims }
    {
        self.log.pop()
    }
}
