//! The lines of one entry.
ghost use Rattle.std.specs.Prelude.{◌≡◌, ◌++◌, OnOk};
ghost use Rattle.omega_model.specs.Cell.{Cell, keys_of};
ghost use Rattle.omega_model.specs.ReportLines.{lines_on};
ghost use Rattle.omega_model.specs.State.{displaced};
ghost use Rattle.omega_report.specs.Walking.{if_printed};

use crate::page::Page;
use omega_model::{Entry, NoMemory, TaskKey};

/// Appends the lines of an entry, if `prints`. `stopped` names the tasks that it displaces, in order of
/// eviction.
pub fn push_entry(
    page: &mut Page,
    prints: bool,
    entry: &Entry,
    stopped: &[TaskKey],
) -> Result<(), NoMemory>
    ensures format { OnOk result (page.new.format ≡ page.old.format) }
    ensures lines { OnOk result ((cell : Cell) → stopped.now ≡ keys_of (displaced cell.tasks entry.now) → page.new.lines ≡ page.old.lines ++ if_printed prints (lines_on cell entry.now)) }
{
    if !prints {
        return Ok(());
    }
    push_lines(page, entry, stopped)
}

/// The same where they are printed.
fn push_lines(page: &mut Page, entry: &Entry, stopped: &[TaskKey]) -> Result<(), NoMemory>
    ensures format { OnOk result (page.new.format ≡ page.old.format) }
    ensures lines { OnOk result ((cell : Cell) → stopped.now ≡ keys_of (displaced cell.tasks entry.now) → page.new.lines ≡ page.old.lines ++ lines_on cell entry.now) }
{
    match entry {
        Entry::Round { number } => page.round(*number),
        Entry::MachineAdd { machine, .. } => page.displaced(*machine, stopped),
        Entry::MachineUpdate { machine, .. } => page.displaced(*machine, stopped),
        Entry::MachineRemove { machine } => page.displaced(*machine, stopped),
        Entry::AttrSet { .. } | Entry::AttrDelete { .. } => Ok(()),
        Entry::End { key, machine } => page.end(*key, *machine),
        Entry::Commit {
            scheduler,
            seen,
            txn,
            reply,
        } => page.commit(*scheduler, *seen, txn, reply.as_slice()),
    }
}
