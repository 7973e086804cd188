//! The tree over the positions.
//!
//! Its nodes are the positions themselves. The root of a slice stands where `middle` says; what is
//! left of it and what is right of it are trees in turn. The root moves only when the length
//! reaches a power of two, and then the new place is the root of all: so one more place is told to
//! the nodes above it alone.
ghost use Rattle.std.specs.Prelude.{◌≡◌, ◌<◌, ◌≤◌, ◌-◌, ◌++◌, ◌∷◌, false, length, set, take};
ghost use Rattle.omega_fit.specs.Needs.{greater};
ghost use Rattle.omega_fit.specs.Tree.{frees, middle, root, Tree};

use crate::needs::greater;
use omega_model::Need;

/// A position: what is free there, and the greatest amount, component by component, of the tree whose
/// root it is.
#[derive(Clone, Copy, Debug, PartialEq, Eq)]
pub(crate) struct FitNode {
    pub free: Option<Need>,
    pub most: Option<Need>,
}

/// Where the root of a tree of `len` positions stands: one below the greatest power of two that is
/// at most `len`.
#[tactic(auto, using(crate::proofs::Middles::middle_of_power, crate::proofs::Middles::middle_none, crate::proofs::Middles::middle_below, crate::proofs::Middles::middle_within))]
pub(crate) fn middle(len: usize) -> usize
    ensures value { result ≡ middle len }
    ensures below { result ≤ len }
    ensures within { 0 < len → result < len }
{
    match len.checked_ilog2() {
        Some(power) => (1 << power) - 1,
        None => 0,
    }
}

/// The greatest of a whole tree.
pub(crate) fn root_of(nodes: &[FitNode]) -> Option<Need>
    ensures { result ≡ root nodes.now }
{
    match &nodes[middle(nodes.len())..] {
        [] => None,
        [node, ..] => node.most,
    }
}

/// The greatest of a tree by its left part, what is free at its root, and its right part.
fn most_of(left: &[FitNode], free: Option<Need>, right: &[FitNode]) -> Option<Need>
    ensures { result ≡ greater (root left.now) (greater free (root right.now)) }
{
    greater(root_of(left), greater(free, root_of(right)))
}

/// A tree's left part, its root and its right part.
pub(crate) fn parted(nodes: &[FitNode]) -> (&[FitNode], &FitNode, &[FitNode])
    requires tree { Tree nodes.now }
    requires some { 0 < length nodes.now }
    ensures whole { nodes.now ≡ result.0.now ++ result.1.now ∷ result.2.now }
    ensures middle { length result.0.now ≡ middle (length nodes.now) }
    ensures left { Tree result.0.now }
    ensures right { Tree result.2.now }
{
    let (left, rest) = nodes.split_at(middle(nodes.len()));
    let Some((node, right)) = rest.split_first() else {
        unreachable!()
    };
    (left, node, right)
}

/// Tells a root the greatest of its tree. Answers whether it is another than before.
fn tell(node: &mut FitNode, left: &[FitNode], right: &[FitNode]) -> bool
    ensures told { node.new ≡ record node.old { most = greater (root left.now) (greater node.old.free (root right.now)) } }
    ensures kept { result ≡ false → node.new.most ≡ node.old.most }
{
    let most = most_of(left, node.free, right);
    let changes = most != node.most;
    node.most = most;
    changes
}

/// Writes what is free at a position, and tells the nodes above it, from below up to the first whose
/// greatest stays: none where the same was free before. Answers whether that of the whole tree is another than
/// before.
#[tactic(auto, using(crate::proofs::Trees::tree_fork, crate::proofs::Trees::tree_parts, crate::proofs::Trees::tree_nil))]
pub(crate) fn put_in(nodes: &mut [FitNode], position: usize, free: Option<Need>) -> bool
    requires position { position < length nodes.old }
    requires tree { Tree nodes.old }
    ensures tree { Tree nodes.new }
    ensures value { frees nodes.new ≡ set (frees nodes.old) position free }
    ensures kept { result ≡ false → root nodes.new ≡ root nodes.old }
{
    let half = middle(nodes.len());
    let (left, rest) = nodes.split_at_mut(half);
    let Some((node, right)) = rest.split_first_mut() else {
        unreachable!()
    };
    let changes = if position < half {
        put_in(left, position, free)
    } else if position == half {
        let changes = node.free != free;
        node.free = free;
        changes
    } else {
        put_in(right, position - half - 1, free)
    };
    changes && tell(node, left, right)
}

/// Makes a tree of any nodes, in time linear in their number.
#[tactic(auto, using(crate::proofs::Trees::tree_fork, crate::proofs::Trees::tree_parts, crate::proofs::Trees::tree_nil))]
pub(crate) fn settle(nodes: &mut [FitNode])
    ensures tree { Tree nodes.new }
    ensures value { frees nodes.new ≡ frees nodes.old }
{
    if nodes.is_empty() {
        return;
    }
    let half = middle(nodes.len());
    let (left, rest) = nodes.split_at_mut(half);
    if let Some((node, right)) = rest.split_first_mut() {
        settle(left);
        settle(right);
        node.most = most_of(left, node.free, right);
    }
}

/// Makes a tree of a tree and one more node behind it, by telling the nodes above the new one.
#[tactic(auto, using(crate::proofs::Trees::tree_nil))]
pub(crate) fn settle_last(nodes: &mut [FitNode])
    requires tree { Tree (take (length nodes.old - 1) nodes.old) }
    ensures tree { Tree nodes.new }
    ensures value { frees nodes.new ≡ frees nodes.old }
{
    if nodes.is_empty() {
        return;
    }
    let half = middle(nodes.len());
    let (left, rest) = nodes.split_at_mut(half);
    if let Some((node, right)) = rest.split_first_mut() {
        settle_last(right);
        node.most = most_of(left, node.free, right);
    }
}
