//! How far a world has come in the run of its trace.

use omega_feed::EventRounds;
use omega_model::Settings;
use omega_opening::Demand;

/// The rounds of a trace under these settings, and what the trace asks for.
///
/// It writes its `Drop` out, so that whoever lets it go cites one function.
pub(crate) struct Course {
    pub settings: Settings,
    /// All rounds of the trace.
    pub rounds: EventRounds,
    /// How many of them have begun.
    pub begun: usize,
    /// How many entries the history had after the rows of the last round that has begun.
    pub opened_at: usize,
    /// What the trace asks for so far. The jobs that aren't open in it were quiet at `opened_at`.
    pub demand: Demand,
}

impl Drop for Course {
    fn drop(self) {
        let Course {
            settings: _,
            rounds: _,
            begun: _,
            opened_at: _,
            demand: _,
        } = self;
    }
}
