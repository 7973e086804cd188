//! Which machines entries touch.
ghost use Rattle.std.specs.Prelude.{◌≡◌, IfOk, OnOk};
ghost use Rattle.std.specs.List.{zip};
ghost use Rattle.omega_model.specs.Touches.{is_claimed, is_number, is_touched_by};
ghost use Rattle.omega_board.specs.Naming.{NameTouched, Names};

use omega_model::{Claim, Entry, Judgement, NoMemory};
use std::alloc::Global;

/// The numbers of the machines that entries touch, some of them perhaps more than once. Takes the memory
/// of these numbers, and costs the entries and their claims.
pub fn touched(alloc: Global, entries: &[Entry]) -> Result<Vec<u64>, NoMemory>
    ensures { IfOk result (λ machines. NameTouched entries.now machines.items) }
{
    let mut machines = Vec::new(alloc);
    for entry in entries {
        name_touched(entry, &mut machines)?;
    }
    Ok(machines)
}

/// Adds the numbers of the machines that an entry touches.
fn name_touched(entry: &Entry, machines: &mut Vec<u64>) -> Result<(), NoMemory>
    ensures { OnOk result (Names (is_touched_by entry.now) machines.old.items machines.new.items) }
{
    match entry {
        Entry::Commit { txn, reply, .. } => {
            name_placed(txn.claims.as_slice(), reply.as_slice(), machines)
        }
        _ => match entry.machine() {
            Some(machine) => name(machine, machines),
            None => Ok(()),
        },
    }
}

/// Adds the numbers of the machines of the placed claims.
fn name_placed(
    claims: &[Claim],
    reply: &[Judgement],
    machines: &mut Vec<u64>,
) -> Result<(), NoMemory>
    ensures { OnOk result (Names (is_claimed (zip claims.now reply.now)) machines.old.items machines.new.items) }
{
    for (claim, judgement) in claims.iter().zip(reply) {
        if judgement.verdict.is_placed() {
            name(claim.machine, machines)?;
        }
    }
    Ok(())
}

/// Adds the number of a machine.
fn name(machine: u64, machines: &mut Vec<u64>) -> Result<(), NoMemory>
    ensures { OnOk result (Names (is_number machine) machines.old.items machines.new.items) }
{
    machines.push(machine)?;
    Ok(())
}
