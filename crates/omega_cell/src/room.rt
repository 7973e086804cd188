//! Room for answers to claims, made before they are judged.
ghost use Rattle.std.specs.Prelude.{◌≡◌, ◌≤◌, [], length, IfOk, vec_capacity};
ghost use Rattle.omega_cell.specs.Rooms.{victim_counts};

use omega_model::{Claim, Keys, NoMemory, Seq, TaskKey};
use std::alloc::Global;
use std::marker::Model;

/// Room for the names of some tasks. A contract sees for how many.
#[derive(Drop)]
pub struct KeyRoom {
    keys: Vec<TaskKey>,
}

impl Model for KeyRoom {
    ghost use Rattle.std.specs.Prelude.{◌≡◌, ℕ, [], vec_capacity};

    ghost Value = { ℕ };

    ghost view = { λ r. vec_capacity r.keys };

    ghost invariant = { λ r. r.keys.items ≡ [] };
}

impl KeyRoom {
    /// Room for so many names.
    fn of(alloc: Global, count: usize) -> Result<KeyRoom, NoMemory>
        ensures { IfOk result (λ room. room ≡ count) }
    {
        let keys = Vec::with_capacity(alloc, count)?;
        Ok(KeyRoom { keys })
    }

    /// The vector, in which there is no name yet.
    pub fn into_keys(self) -> Vec<TaskKey>
        ensures none { result.items ≡ [] }
        ensures room { vec_capacity result ≡ self }
    {
        let KeyRoom { keys } = self;
        keys
    }

    /// A list of these names, for which there is room.
    pub fn fill(self, names: &[TaskKey]) -> Keys
        requires { length names.now ≤ self }
        ensures { result ≡ names.now }
    {
        let mut keys = self.into_keys();
        for name in names {
            keys.push_reserved(*name);
        }
        Seq::of(keys)
    }
}

/// Room for an answer to each of some claims, and for the names of the tasks that it evicts.
///
/// A contract sees for how many names there is room at each claim.
#[derive(Drop)]
pub struct AnswerRoom<T> {
    pub(crate) answers: Vec<T>,
    pub(crate) rooms: Vec<KeyRoom>,
}

impl<T> Model for AnswerRoom<T> {
    ghost use Rattle.std.specs.Prelude.{ℕ, List, vec_capacity};
    ghost use Rattle.omega_cell.specs.Rooms.{IsAnswerRoom};

    ghost Value = { List ℕ };

    ghost view = { λ r. r.rooms.items };

    ghost invariant = { λ r. IsAnswerRoom r.answers.items (vec_capacity r.answers) r.rooms.items };
}

impl<T: Drop> AnswerRoom<T> {
    /// Room for answers to these claims, each with room for as many names as it has victims.
    pub fn of(alloc: Global, claims: &[Claim]) -> Result<AnswerRoom<T>, NoMemory>
        ensures { IfOk result (λ room. room ≡ victim_counts claims.now) }
    {
        let answers = Vec::with_capacity(alloc, claims.len())?;
        let rooms = rooms_of(alloc, claims)?;
        Ok(AnswerRoom { answers, rooms })
    }
}

/// For each claim, room for as many names as it has victims.
fn rooms_of(alloc: Global, claims: &[Claim]) -> Result<Vec<KeyRoom>, NoMemory>
    ensures { IfOk result (λ rooms. rooms.items ≡ victim_counts claims.now) }
{
    let mut rooms = Vec::with_capacity(alloc, claims.len())?;
    for claim in claims {
        rooms.push(KeyRoom::of(alloc, claim.victims.len())?)?;
    }
    Ok(rooms)
}
