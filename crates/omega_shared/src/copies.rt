//! What a caller keeps of a cell that it shares.
ghost use Rattle.std.specs.Prelude.{◌≡◌, ℕ, List, IfOk, OnOk, OnErr};
ghost use Rattle.omega_model.specs.Applying.{EachMayApply};
ghost use Rattle.omega_model.specs.Cell.{Cell};
ghost use Rattle.omega_model.specs.Copy.{Carries, StandsFor};
ghost use Rattle.omega_model.specs.Touches.{copied_seqs};
ghost use Rattle.omega_model.specs.declared.entries.Entry.{Entry};
ghost use Rattle.omega_shared.specs.Copies.{MayCatchUp};

use omega_model::{Claim, Delta, NoMemory};
use std::alloc::Global;

/// A copy of the cell that a caller keeps: the cell after as many entries of the history as it has seen. It tells
/// the sequence numbers there, and catches up with what has happened since.
pub trait CellCopy {
    // The machines and tasks of a copy.
    ghost cell_of: { Self → Cell };

    // The sequence numbers of its machines.
    ghost seq_of: { Self → ℕ → ℕ };

    // How many entries it has seen.
    ghost seen_of: { Self → ℕ };

    /// How many entries of the history the copy has seen.
    fn seen(&self) -> u64
        ensures { result ≡ seen_of self.now };

    /// For each claim, how many of the entries that it has seen touched the claim's machine. Takes the
    /// memory of one number a claim.
    fn seqs(&self, alloc: Global, claims: &[Claim]) -> Result<Vec<u64>, NoMemory>
        ensures { IfOk result (λ seqs. (history : List Entry) → StandsFor (cell_of self.now) (seq_of self.now) (seen_of self.now) history
            → seqs.items ≡ copied_seqs history (seen_of self.now) claims.now) };

    /// Takes in what changed between the entries that it has seen and a later place of a history for
    /// which it stands. Where memory runs out, the copy is as before.
    fn catch_up(&mut self, alloc: Global, delta: Delta) -> Result<(), NoMemory>
        requires { MayCatchUp (cell_of self.old) (seq_of self.old) (seen_of self.old) delta }
        ensures stands { OnOk result ((history : List Entry) → StandsFor (cell_of self.old) (seq_of self.old) (seen_of self.old) history
            → Carries delta history (seen_of self.old) delta.to → EachMayApply history
            → StandsFor (cell_of self.new) (seq_of self.new) (seen_of self.new) history) }
        ensures seen { OnOk result (seen_of self.new ≡ delta.to) }
        ensures err { OnErr result (self.new ≡ self.old) };
}
