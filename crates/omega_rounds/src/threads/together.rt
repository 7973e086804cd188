//! Players that play at the same time, each on a thread of its own.
ghost use Rattle.std.specs.Prelude.{◌≡◌, All};
ghost use Rattle.std.specs.List.{list_any};
ghost use Rattle.std.specs.Thread.{IsSync};
ghost use Rattle.omega_workers.specs.Workers.{has_work};
ghost use Rattle.omega_rounds.specs.Players.{HavePlayed, MayPlay};

use super::player::Player;
use omega_io::Gate;
use omega_shared::SharedCell;
use std::alloc::Global;
use std::sync::Wait;
use std::thread::{Threads, join_mut};

/// Lets all players that have work play at the same time, each on a thread of its own. Where no thread can be
/// made they play one after the other. Takes no memory beside what they take. May wait.
pub(crate) fn play_all<R: Threads + Wait + Sync, G: Gate + Sync>(
    rt: &R,
    alloc: Global,
    shared: &SharedCell,
    players: &mut [Player],
    gate: &G,
)
    requires sync { IsSync R.row × IsSync G.row }
    requires may_play { All (MayPlay shared.now.of) players.old }
    ensures played { HavePlayed players.old players.new }
{
    if players.is_empty() {
        return;
    }
    if players.len() == 1 {
        players[0].play(rt, alloc, shared, gate);
        return;
    }
    let half = players.len() / 2;
    let (left, right) = players.split_at_mut(half);
    if !any_has_work(left) {
        play_all(rt, alloc, shared, right, gate);
        return;
    }
    if !any_has_work(right) {
        play_all(rt, alloc, shared, left, gate);
        return;
    }
    join_mut(
        rt,
        &mut ||
            requires sync { IsSync R.row × IsSync G.row }
            requires may_play { All (MayPlay shared.now.of) left.now }
            ensures played { HavePlayed left.entry.now left.exit.now }
        { play_all(rt, alloc, shared, left, gate) },
        &mut ||
            requires sync { IsSync R.row × IsSync G.row }
            requires may_play { All (MayPlay shared.now.of) right.now }
            ensures played { HavePlayed right.entry.now right.exit.now }
        { play_all(rt, alloc, shared, right, gate) },
    );
}

/// Whether one of these players has work.
fn any_has_work(players: &[Player]) -> bool
    ensures { result ≡ list_any (λ player. has_work player.worker) players.now }
{
    players.iter().any(|player| player.worker.has_work())
}
