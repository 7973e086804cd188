//! The search in the tree.
ghost use Rattle.std.specs.Prelude.{◌≡◌, ◌+◌, ◌<◌, ◌≤◌, ◌^◌, ℕ, IsTrue, IfSome, length, false, true};
ghost use Rattle.omega_fit.specs.Needs.{Holds, IsFirstWithRoom, IsNextWithRoom};
ghost use Rattle.omega_fit.specs.Tree.{frees, FirstWithin, Tree};

use crate::needs::holds;
use crate::nodes::{FitNode, parted, root_of};
use omega_model::Need;

/// The first position with room that passes the test, round from a start.
pub(crate) fn search_wrapped<F: Fn(usize) -> bool>(
    nodes: &[FitNode],
    start: usize,
    need: Need,
    test: &F,
) -> Option<usize>
    requires callable { F.IsAlwaysCallable test.now }
    requires tree { Tree nodes.now }
    requires start { start ≤ length nodes.now }
    ensures first { IsFirstWithRoom (frees nodes.now) need (F.post test.now) start result }
    ensures below { IfSome result (λ position. position < length (frees nodes.now)) }
{
    match search_in(nodes, 0, start, nodes.len(), need, test) {
        Some(found) => Some(found),
        None => search_in(nodes, 0, 0, start, need, test),
    }
}

/// The first position of `from..to` with room.
pub(crate) fn search_between(nodes: &[FitNode], from: usize, to: usize, need: Need) -> Option<usize>
    requires tree { Tree nodes.now }
    requires to { to ≤ length nodes.now }
    ensures next { IsNextWithRoom (frees nodes.now) need from to result }
    ensures below { IfSome result (λ position. position < to) }
{
    search_in(nodes, 0, from, to, need, &|_position: usize| true)
}

/// The first position of `from..to` with room that passes the test, which is asked for the sum of
/// `base` and the position. A tree whose greatest has no room is passed over, and so is a part outside
/// `from..to`.
#[tactic(auto, using(crate::proofs::Searches::pruned, crate::proofs::Searches::nothing_asked, crate::proofs::Searches::in_left, crate::proofs::Searches::in_middle, crate::proofs::Searches::in_right, crate::proofs::Searches::in_none))]
fn search_in<F: Fn(usize) -> bool>(
    nodes: &[FitNode],
    base: usize,
    from: usize,
    to: usize,
    need: Need,
    test: &F,
) -> Option<usize>
    requires callable { F.IsAlwaysCallable test.now }
    requires tree { Tree nodes.now }
    requires base { base + length nodes.now < 2 ^ 64 }
    requires to { to ≤ length nodes.now }
    ensures first { FirstWithin (F.post test.now) need nodes.now base from to result }
    ensures below { IfSome result (λ position. position < to) }
{
    if from >= to {
        return None;
    }
    if !holds(need, root_of(nodes)) {
        return None;
    }
    let (left, node, right) = parted(nodes);
    let half = left.len();
    match search_in(left, base, from, to.min(half), need, test) {
        Some(found) => Some(found),
        None => {
            if from <= half && half < to && passes_here(need, node.free, base + half, test) {
                return Some(half);
            }
            let past = half + 1;
            match search_in(
                right,
                base + past,
                from.saturating_sub(past),
                to.saturating_sub(past),
                need,
                test,
            ) {
                Some(found) => Some(past + found),
                None => None,
            }
        }
    }
}

/// Whether a node has room, and its position passes the test.
fn passes_here<F: Fn(usize) -> bool>(
    need: Need,
    free: Option<Need>,
    position: usize,
    test: &F,
) -> bool
    requires callable { F.IsAlwaysCallable test.now }
    ensures room { IsTrue result → Holds need free }
    ensures passes { IsTrue result → F.post test.now position true }
    ensures fails { result ≡ false → Holds need free → F.post test.now position false }
{
    holds(need, free) && test(position)
}
