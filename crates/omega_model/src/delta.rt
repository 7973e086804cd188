//! What a copy needs to catch up with a history.
ghost use Rattle.std.specs.Prelude.{◌≡◌, ◌≤◌, length, option_map, slice_get};
ghost use Rattle.omega_model.specs.Parts.{PositionsRise};

use crate::cells::{Machine, Tasks};
use crate::list::Seq;
use std::marker::Model;

/// A machine of a cell as it is now: its position in the list from 0, its row, how many entries
/// touched it, and its running tasks in order of key.
#[derive(Debug, Drop)]
pub struct Part {
    pub position: u64,
    pub machine: Machine,
    pub seq: u64,
    pub tasks: Tasks,
}

pub type Parts = Seq<Part>;

/// The machines that changed between two places of a history, each as it is at the later one, in
/// order of position.
#[derive(Debug, Drop)]
pub struct Delta {
    from: u64,
    to: u64,
    parts: Parts,
}

impl Model for Delta {
    ghost use Rattle.omega_model.specs.Parts.{DeltaState, IsDelta};

    ghost Value = { DeltaState };

    ghost view = { λ d. record { from = d.from; to = d.to; parts = d.parts } };

    ghost invariant = { λ d. IsDelta d.from d.to d.parts };
}

impl Delta {
    /// The delta from one place to another with these parts.
    pub fn of(from: u64, to: u64, parts: Parts) -> Delta
        requires order { from ≤ to }
        requires positions { PositionsRise parts }
        ensures { result ≡ record { from = from; to = to; parts = parts } }
    {
        Delta { from, to, parts }
    }

    /// The place to which it leads: a copy that it brought up to date has seen so many entries.
    pub fn to(&self) -> u64
        ensures { result ≡ self.now.to }
    {
        self.to
    }

    /// How many machines changed.
    pub fn touched(&self) -> u64
        ensures { result ≡ length self.now.parts }
    {
        self.parts.len() as u64
    }

    /// The part at place `i` in order of position. `None` exactly where `i` isn't below `touched`.
    pub fn part(&self, i: u64) -> Option<&Part>
        ensures { option_map (λ part. part.now) result ≡ slice_get self.now.parts i }
    {
        self.parts.get(i as usize)
    }

    /// The parts in order of position.
    pub fn into_parts(self) -> Parts
        ensures { result ≡ self.parts }
    {
        let Delta { parts, .. } = self;
        parts
    }
}
