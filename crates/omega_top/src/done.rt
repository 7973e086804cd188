//! What the top call answers.
use omega_free::Remains as FreeRemains;
use omega_model::{Entries, Settings, Status};
use omega_rounds::Remains as RoundsRemains;

/// The answer of the top call.
#[derive(Drop)]
pub struct Done {
    pub status: Status,
    /// The settings of the words. `None` where the words weren't read: they were refused, or memory ran out.
    pub settings: Option<Settings>,
    /// The history whose report was made, or the empty one where none was.
    pub history: Entries,
    /// What is left of the world in which a trace ran, for nothing but to be let go: that takes time, which a
    /// program that ends afterwards can leave to the system. No clause speaks of it.
    pub remains: Option<Remains>,
}

/// What is left of the world in which a trace ran.
#[derive(Drop)]
pub enum Remains {
    /// Of a world whose rounds wait for all schedulers.
    OfRounds(RoundsRemains),
    /// Of a world by the free clock.
    Free(FreeRemains),
}
