//! A transaction that was planned.
ghost use Rattle.std.specs.Prelude.{◌≡◌, ◌++◌, ◌∷◌, [], IfOk, IfErr, OnOk, OnErr};
ghost use Rattle.omega_shared.specs.Commits.{commit_after};
ghost use Rattle.omega_shared.specs.Planned.{IsPlannedOn};
ghost use Rattle.omega_shared.specs.Turns.{Answers};

use omega_cell::Cell;
use omega_model::{NoMemory, Reply, Txn};
use std::alloc::Global;

/// A transaction that was planned on a copy or a view: after how many entries, and for each claim the sequence
/// number that its machine had there, if there was memory for these.
#[derive(Drop)]
pub(crate) struct PlannedTxn {
    pub txn: Txn,
    pub seen: u64,
    pub seqs: Result<Vec<u64>, NoMemory>,
}

impl PlannedTxn {
    /// Makes room on a cell for the commit of the transaction, as a scheduler's, and appends it. Where memory
    /// runs out the history stays, and the transaction is handed back.
    pub fn commit(
        self,
        alloc: Global,
        cell: &mut Cell,
        scheduler: u32,
    ) -> Result<Reply, (Txn, NoMemory)>
        requires { IsPlannedOn cell.old.history self }
        ensures history { OnOk result (cell.new.history
            ≡ cell.old.history ++ commit_after cell.old.history scheduler self.seen self.txn ∷ []) }
        ensures answers { IfOk result (Answers cell.old.history self.seen self.txn) }
        ensures err { OnErr result (cell.new.history ≡ cell.old.history) }
        ensures back { IfErr result (λ refused. refused.0 ≡ self.txn) }
    {
        let PlannedTxn { txn, seen, seqs } = self;
        let Ok(seqs) = seqs else {
            return Err((txn, NoMemory));
        };
        let prepared = cell.reserve(alloc, txn)?;
        Ok(cell.commit(scheduler, seen, &seqs, prepared))
    }
}
