//! The round that opens next.
ghost use Rattle.std.specs.Prelude.{IfOk};
ghost use Rattle.omega_free.specs.KeptWorlds.{IsNext};

use omega_feed::EventRounds;
use omega_model::{NoMemory, Round};
use std::alloc::Global;

/// A round that is to come, and when it opens: at the greatest time of its rows, in microseconds of the trace.
#[derive(Drop)]
pub struct NextRound {
    pub round: Round,
    pub due: u64,
}

/// The round at a place, and when it opens; `None` exactly where the place isn't below their number. Costs a
/// copy of its rows.
pub(crate) fn next_round(
    alloc: Global,
    rounds: &EventRounds,
    place: usize,
) -> Result<Option<NextRound>, NoMemory>
    ensures { IfOk result (IsNext rounds.now place) }
{
    let Some(round) = rounds.get(alloc, place)? else {
        return Ok(None);
    };
    let Some(due) = rounds.rows_time(place) else {
        return Ok(None);
    };
    Ok(Some(NextRound { round, due }))
}
