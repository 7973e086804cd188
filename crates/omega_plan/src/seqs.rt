//! Sequence numbers of the machines of claims.
ghost use Rattle.std.specs.Prelude.{◌≡◌, map, IfOk};
ghost use Rattle.omega_machines.specs.Table.{seq_at};

use omega_board::Board;
use omega_model::{Claim, NoMemory};
use std::alloc::Global;

/// For each claim, how many entries touched the claim's machine on a board. Takes the memory of one number
/// a claim, and costs a look-up each.
pub fn seqs_on(alloc: Global, board: &Board, claims: &[Claim]) -> Result<Vec<u64>, NoMemory>
    ensures { IfOk result (λ seqs. seqs.items ≡ map (λ claim. seq_at board.now.table claim.machine) claims.now) }
{
    let mut seqs = Vec::with_capacity(alloc, claims.len())?;
    for claim in claims {
        seqs.push_reserved(board.machines().seq(claim.machine));
    }
    Ok(seqs)
}
