//! What the lock of a shared cell holds.
ghost use Rattle.std.specs.Prelude.{◌≡◌, ◌++◌, ◌∷◌, [], IfOk, IfErr, OnOk, OnErr};
ghost use Rattle.std.specs.Arc.{arc_value};
ghost use Rattle.omega_shared.specs.Commits.{commit_after};
ghost use Rattle.omega_shared.specs.Held.{held_history};
ghost use Rattle.omega_shared.specs.Planned.{IsPlannedOn};
ghost use Rattle.omega_shared.specs.Turns.{Answers};

use crate::planned::PlannedTxn;
use crate::view::CellView;
use omega_cell::Cell;
use omega_lock::Counted;
use omega_model::{Entry, NoMemory, Reply, Txn};
use std::alloc::Global;
use std::hint::spin_loop;
use std::sync::{Arc, Wait};
use std::thread::yield_now;

/// How often a commit asks whether nobody looks at the cell any more, before it goes on with a copy. With few
/// tries a whole cell would be copied where a plan is about to end; with many all others would wait for one that
/// is held up.
const TRIES: u32 = 100_000;

/// After how many of these tries it lets other threads run between two. Most plans end sooner; and where other
/// programs want the processor, a thread that lets them run may wait for milliseconds each time.
const QUICK_TRIES: u32 = 5_000;

/// The cell behind the lock. Its list is the history, in which each commit has its scheduler's number.
#[derive(Drop)]
pub(crate) enum Held {
    /// Nobody looks at the cell.
    Own(Cell),
    /// Views of the cell were given out. They may be gone by now.
    Lent(Arc<Cell, Global>),
}

impl Counted for Held {
    type Entry = Entry;

    ghost use Rattle.omega_shared.specs.Commits.{committer_of};

    ghost entries = { held_history };

    ghost number = { committer_of };

    fn count(&self) -> u64 {
        self.cell().history().len() as u64
    }
}

impl Held {
    /// The cell.
    pub fn cell(&self) -> &Cell
        ensures { result.now.history ≡ held_history self.now }
    {
        match self {
            Held::Own(cell) => cell,
            Held::Lent(cell) => cell,
        }
    }

    /// Gives out a view of the cell, where there is memory for that. The history stays.
    pub fn lend(self, alloc: Global) -> (Held, Result<CellView, NoMemory>)
        ensures history { held_history result.0 ≡ held_history self }
        ensures view { IfOk result.1 (λ view. view ≡ held_history self) }
    {
        let lent = match self {
            Held::Own(cell) => match Arc::new(alloc, cell) {
                Ok(lent) => lent,
                Err(refused) => return (Held::Own(refused.value), Err(NoMemory)),
            },
            Held::Lent(lent) => lent,
        };
        let view = match Arc::try_clone(&lent) {
            Ok(cell) => Ok(CellView { cell }),
            Err(_) => Err(NoMemory),
        };
        (Held::Lent(lent), view)
    }

    /// Makes room for the commit of a scheduler's transaction and appends it. Where memory runs out the
    /// history stays, and the transaction is handed back.
    pub fn commit(
        self,
        alloc: Global,
        scheduler: u32,
        planned: PlannedTxn,
    ) -> (Held, Result<Reply, (Txn, NoMemory)>)
        requires { IsPlannedOn (held_history self) planned }
        ensures history { OnOk result.1 (held_history result.0
            ≡ held_history self ++ commit_after (held_history self) scheduler planned.seen planned.txn ∷ []) }
        ensures answers { IfOk result.1 (Answers (held_history self) planned.seen planned.txn) }
        ensures err { OnErr result.1 (held_history result.0 ≡ held_history self) }
        ensures back { IfErr result.1 (λ refused. refused.0 ≡ planned.txn) }
    {
        match self.own(alloc) {
            Ok(mut cell) => {
                let reply = planned.commit(alloc, &mut cell, scheduler);
                (Held::Own(cell), reply)
            }
            Err((held, error)) => (held, Err((planned.txn, error))),
        }
    }

    /// The cell alone, or a copy where others look at it for long. Where there is no memory for that, what lends
    /// it is handed back.
    fn own(self, alloc: Global) -> Result<Cell, (Held, NoMemory)>
        ensures cell { IfOk result (λ cell. cell.history ≡ held_history self) }
        ensures back { IfErr result (λ refused. held_history refused.0 ≡ held_history self) }
    {
        match self {
            Held::Own(cell) => Ok(cell),
            Held::Lent(lent) => match take_back(lent) {
                Ok(cell) => Ok(cell),
                Err(lent) => match lent.copy(alloc) {
                    Ok(cell) => Ok(cell),
                    Err(error) => Err((Held::Lent(lent), error)),
                },
            },
        }
    }

    /// The cell alone. Waits for as long as others look at it.
    pub fn into_cell<R: Wait>(self, rt: &R) -> Cell
        ensures { result.history ≡ held_history self }
    {
        match self {
            Held::Own(cell) => cell,
            Held::Lent(lent) => wait_for(rt, lent),
        }
    }
}

/// The cell that was lent, if within so many tries nobody looks at it any more.
fn take_back(mut lent: Arc<Cell, Global>) -> Result<Cell, Arc<Cell, Global>>
    ensures cell { IfOk result (λ cell. cell ≡ arc_value lent) }
    ensures still { IfErr result (λ still. arc_value still ≡ arc_value lent) }
{
    for tries in 0..TRIES {
        match Arc::try_unwrap(lent) {
            Ok(cell) => return Ok(cell),
            Err(still) => lent = still,
        }
        give_way(tries);
    }
    Err(lent)
}

/// Passes a moment after so many tries, from some number on by letting other threads run.
fn give_way(tries: u32) {
    if tries < QUICK_TRIES {
        spin_loop();
    } else {
        yield_now();
    }
}

/// The cell that was lent, once nobody looks at it.
fn wait_for<R: Wait>(rt: &R, mut lent: Arc<Cell, Global>) -> Cell
    ensures { result ≡ arc_value lent }
{
    for _ in rt.forever() {
        match Arc::try_unwrap(lent) {
            Ok(cell) => return cell,
            Err(still) => lent = still,
        }
        yield_now();
    }
    unreachable!()
}
