//! First fit by a tree.
ghost use Rattle.std.specs.Prelude.{◌≡◌, ◌+◌, ◌++◌, ◌∷◌, ◌<◌, ◌≤◌, ℕ, [], None, get_or, length, map, set, IfOk, IfSome, IsOk, OnOk, vec_capacity, vec_len};
ghost use Rattle.omega_fit.specs.Needs.{IsFirstWithRoom, IsNextWithRoom};
ghost use Rattle.omega_fit.specs.Tree.{frees};

use crate::nodes::{FitNode, put_in, settle, settle_last};
use crate::searching::{search_between, search_wrapped};
use omega_model::{Need, NoMemory};
use std::alloc::Global;
use std::marker::Model;

/// What is free at each position, or could be made free there; `None` where no need has room. A
/// contract sees that list, and `spare`, for how many more positions there is room.
#[derive(Debug, Drop)]
pub struct FitIndex {
    nodes: Vec<FitNode>,
}

impl Model for FitIndex {
    ghost use Rattle.std.specs.Prelude.{◌-◌, vec_len, vec_capacity};
    ghost use Rattle.omega_fit.specs.Positions.{Positions};
    ghost use Rattle.omega_fit.specs.Tree.{frees, Tree};

    ghost Value = { Positions };

    ghost view = { λ index. record { free = frees index.nodes.items; spare = vec_capacity index.nodes - vec_len index.nodes } };

    ghost invariant = { λ index. Tree index.nodes.items };
}

impl FitIndex {
    /// No position, and no room.
    #[tactic(auto, using(crate::proofs::Trees::tree_nil))]
    pub fn new(alloc: Global) -> FitIndex
        ensures free { result.free ≡ [] }
        ensures spare { result.spare ≡ 0 }
    {
        FitIndex {
            nodes: Vec::new(alloc),
        }
    }

    /// The index of a list, with no room for more. Takes its memory, and time linear in its length.
    pub fn build(alloc: Global, free: &[Option<Need>]) -> Result<FitIndex, NoMemory>
        ensures free { IfOk result (λ index. index.free ≡ free.now) }
        ensures spare { IfOk result (λ index. index.spare ≡ 0) }
    {
        let mut nodes = nodes_of(alloc, free)?;
        settle(&mut nodes);
        Ok(FitIndex { nodes })
    }

    /// How many positions there are.
    pub fn len(&self) -> usize
        ensures { result ≡ length self.now.free }
    {
        self.nodes.len()
    }

    /// Makes room for at least `n` more positions. What is free stays as it is, also where memory
    /// runs out, and no room is lost then. Takes no memory where there is enough room.
    pub fn reserve(&mut self, n: usize) -> Result<(), NoMemory>
        ensures free { self.new.free ≡ self.old.free }
        ensures room { OnOk result (n ≤ self.new.spare) }
        ensures kept { self.old.spare ≤ self.new.spare }
        ensures enough { n ≤ self.old.spare → IsOk result }
    {
        self.nodes.reserve(n)?;
        Ok(())
    }

    /// Puts one more position behind the others, for which room was reserved. Takes time
    /// logarithmic in the number of positions.
    pub fn push_reserved(&mut self, free: Option<Need>)
        requires { 0 < self.old.spare }
        ensures free { self.new.free ≡ self.old.free ++ free ∷ [] }
        ensures spare { self.new.spare + 1 ≡ self.old.spare }
    {
        self.nodes.push_reserved(FitNode { free, most: None });
        settle_last(&mut self.nodes);
    }

    /// Writes what is free at a position. Takes time logarithmic in the number of positions.
    pub fn put(&mut self, position: usize, free: Option<Need>)
        requires { position < length self.old.free }
        ensures free { self.new.free ≡ set self.old.free position free }
        ensures spare { self.new.spare ≡ self.old.spare }
    {
        put_in(&mut self.nodes, position, free);
    }

    /// What is free at a position.
    pub fn at(&self, position: usize) -> Option<Need>
        requires { position < length self.now.free }
        ensures { result ≡ get_or self.now.free position None }
    {
        self.nodes[position].free
    }

    /// The first position of `from..to` whose amount holds `need`; `None` exactly where there is none.
    /// Costs what `first` costs.
    pub fn next(&self, from: usize, to: usize, need: Need) -> Option<usize>
        requires to { to ≤ length self.now.free }
        ensures next { IsNextWithRoom self.now.free need from to result }
        ensures below { IfSome result (λ position. position < to) }
    {
        search_between(&self.nodes, from, to, need)
    }

    /// The first position whose amount holds `need` and that passes the test, from `start` up to the
    /// length and then from 0 up to `start`; `None` exactly where there is none. Asks the test only
    /// where there is room, at each position once at most and at none behind the answer. Looks at
    /// the root alone where in one component all amounts are less than `need`. Else it goes down into
    /// those parts alone in which the greatest of each component is enough; linear at worst.
    pub fn first<F: Fn(usize) -> bool>(&self, start: usize, need: Need, test: F) -> Option<usize>
        requires callable { F.IsAlwaysCallable test }
        requires start { start ≤ length self.now.free }
        ensures first { IsFirstWithRoom self.now.free need (F.post test) start result }
        ensures below { IfSome result (λ position. position < length self.now.free) }
    {
        search_wrapped(&self.nodes, start, need, &test)
    }
}

/// The nodes of a list, of which none is told yet.
fn nodes_of(alloc: Global, free: &[Option<Need>]) -> Result<Vec<FitNode>, NoMemory>
    ensures free { IfOk result (λ nodes. frees nodes.items ≡ free.now) }
    ensures full { IfOk result (λ nodes. vec_capacity nodes ≡ vec_len nodes) }
{
    let mut nodes = Vec::with_capacity(alloc, free.len())?;
    for amount in free {
        nodes.push_reserved(FitNode {
            free: *amount,
            most: None,
        });
    }
    Ok(nodes)
}
