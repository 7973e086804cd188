//! The times of commits.
use omega_model::Seq;
use std::marker::Model;

/// A commit of a history: its place there, from 0, its scheduler's number, when the scheduler synced for it,
/// and when it committed, both in microseconds of the virtual clock.
#[derive(Clone, Copy, Debug)]
pub struct Timed {
    pub place: u64,
    pub scheduler: u32,
    pub sync: u128,
    pub time: u128,
}

impl Model for Timed {
    ghost use Rattle.omega_laws.specs.VirtualTime.{Timed as CommitTime};

    ghost Value = { CommitTime };

    ghost view = { λ t. record { place = t.place; scheduler = t.scheduler; sync = t.sync; time = t.time } };

    ghost inverse = { λ v. record { place = v.place; scheduler = v.scheduler; sync = v.sync; time = v.time } };
}

/// The commits of a history with their times, in order.
pub type Times = Seq<Timed>;
