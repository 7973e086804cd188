//! How far the machines are known to fail for wishes of one kind.
ghost use Rattle.std.specs.Prelude.{◌≡◌, ◌≤◌, ◌↔◌, Some, None, length, IsTrue};
ghost use Rattle.omega_model.specs.Cell.{Cell};
ghost use Rattle.omega_model.specs.declared.wishes.Wish.{Wish};
ghost use Rattle.omega_plan.specs.Kinds.{Serves, kind_of};

use omega_model::{Claim, Constraint, Wish};

/// Where searches for one more wish of a kind begin. Most wishes of a job are of one kind.
///
/// Within a plan machines only get fuller, but for evictions on the machine of a claim. So a machine
/// that had no room for a wish needn't be looked at again for the next one of its kind.
#[derive(Clone, Copy, Debug)]
pub(crate) struct Progress {
    /// Where the plan starts.
    pub start: usize,
    /// Where to look for a machine that takes a wish as it is; `None` where none does.
    pub as_is: Option<usize>,
    /// Where to look for a machine on which evictions make room; `None` where they do on none.
    pub evicting: Option<usize>,
}

impl Progress {
    /// Nothing is known yet.
    pub fn at(start: usize) -> Progress
        ensures serves { (cell : Cell) (wish : Wish) → start ≤ length cell.machines → Serves cell wish result }
        ensures start { result.start ≡ start }
    {
        Progress {
            start,
            as_is: Some(start),
            evicting: Some(start),
        }
    }

    /// Turns from a wish to the next one: what is known stays only if they are of one kind.
    pub fn advance(self, from: &Wish, to: &Wish) -> Progress
        ensures serves { (cell : Cell) → Serves cell from.now self → Serves cell to.now result }
        ensures start { result.start ≡ self.start }
    {
        if are_alike(from, to) {
            self
        } else {
            Progress::at(self.start)
        }
    }

    /// A wish was placed as it is at this position.
    pub fn found(self, position: usize) -> Progress
        ensures { result ≡ record self { as_is = Some position } }
    {
        Progress {
            as_is: Some(position),
            ..self
        }
    }

    /// No machine takes such a wish as it is.
    pub fn full(self) -> Progress
        ensures { result ≡ record self { as_is = None } }
    {
        Progress {
            as_is: None,
            ..self
        }
    }

    /// A wish was placed at this position with victims.
    pub fn evicted(self, position: usize) -> Progress
        ensures { result ≡ record self { as_is = Some position; evicting = Some position } }
    {
        Progress {
            as_is: Some(position),
            evicting: Some(position),
            ..self
        }
    }

    /// Evictions make room for such a wish on no machine.
    pub fn stays_full(self) -> Progress
        ensures { result ≡ record self { evicting = None } }
    {
        Progress {
            evicting: None,
            ..self
        }
    }
}

/// What comes of a wish: its claim, if there is one, and how far the machines are known to fail once
/// that is placed.
#[derive(Debug, Drop)]
pub(crate) struct Step {
    pub claim: Option<Claim>,
    pub progress: Progress,
}

/// Whether two wishes are of one kind.
fn are_alike(a: &Wish, b: &Wish) -> bool
    ensures { IsTrue result ↔ (kind_of a.now ≡ kind_of b.now) }
{
    a.key.job == b.key.job
        && a.spec == b.spec
        && are_equal(a.constraints.as_slice(), b.constraints.as_slice())
}

/// Whether two lists of constraints are equal.
fn are_equal(a: &[Constraint], b: &[Constraint]) -> bool
    ensures { IsTrue result ↔ (a.now ≡ b.now) }
{
    if a.len() != b.len() {
        return false;
    }
    for (i, constraint) in a.iter().enumerate() {
        if !is_equal(constraint, &b[i]) {
            return false;
        }
    }
    true
}

fn is_equal(a: &Constraint, b: &Constraint) -> bool
    ensures { IsTrue result ↔ (a.now ≡ b.now) }
{
    a.op == b.op
        && a.name.as_slice() == b.name.as_slice()
        && a.value.as_slice() == b.value.as_slice()
}
