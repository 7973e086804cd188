//! An audit of kept lines.
ghost use Rattle.std.specs.Prelude.{◌≡◌, ◌≤◌, IfErr, IfOk, IfSome};
ghost use Rattle.omega_keep.specs.Audited.{IsAudited};
ghost use Rattle.omega_keep.specs.Keeping.{Rose};
ghost use Rattle.omega_model.specs.declared.results.Status.TheVariants.{KeepFault, NoMemory as WantOfMemory};
ghost use Rattle.omega_top.specs.Audits.{AuditStops, IsAuditOf, StopsAudit};
ghost use Rattle.omega_top.specs.Resumes.{StopsLoading};
ghost use Rattle.omega_top.specs.SoundHistory.{IsSoundHistory};

use omega_cell::Cell;
use omega_keep::{AuditRefusal, KeepRefusal, Keeper, Lines, audit};
use omega_model::{Bytes, Entries, Format, Status};
use omega_report::audit_report;
use std::alloc::Global;

/// A history that was kept, and the report of its audit.
#[derive(Drop)]
pub struct Audit {
    pub history: Entries,
    pub report: Bytes,
}

/// Loads what a keeper has and audits it: the history of its lines, and the report in this format. Else the
/// status with which the audit ends: that of the first line that is refused, of a keeper that failed, or of
/// want of memory. The keeper's list and path stay.
pub fn audit_kept<P: Keeper>(alloc: Global, format: Format, keeper: &mut P) -> Result<Audit, Status>
    ensures audit { IfOk result (λ audit. IsAuditOf format (P.kept keeper.old) audit.history audit.report) }
    ensures sound { IfOk result (λ audit. IsSoundHistory audit.history) }
    ensures stops { IfErr result (StopsAudit (P.kept keeper.old)) }
    ensures cause { IfErr result (λ status. status ≡ KeepFault → Rose (P.faults keeper.old) (P.faults keeper.new)) }
    ensures list { P.kept keeper.new ≡ P.kept keeper.old }
    ensures path { P.entered keeper.new ≡ P.entered keeper.old }
    ensures later { P.faults keeper.old ≤ P.faults keeper.new }
{
    let lines = load(keeper)?;
    let cell = replay_lines(alloc, &lines)?;
    let (history, effects, board) = cell.into_run();
    drop(board);
    match audit_report(alloc, format, history.as_slice(), effects.last) {
        Ok(report) => Ok(Audit { history, report }),
        Err(_) => Err(Status::NoMemory),
    }
}

/// The lines that a keeper hands out. Its list and path stay.
pub fn load<P: Keeper>(keeper: &mut P) -> Result<Lines, Status>
    ensures lines { IfOk result (λ lines. IfSome (P.kept keeper.old) (λ list. lines ≡ list)) }
    ensures stops { IfErr result (StopsAudit (P.kept keeper.old)) }
    ensures loading { IfErr result StopsLoading }
    ensures cause { IfErr result (λ status. status ≡ KeepFault → Rose (P.faults keeper.old) (P.faults keeper.new)) }
    ensures list { P.kept keeper.new ≡ P.kept keeper.old }
    ensures path { P.entered keeper.new ≡ P.entered keeper.old }
    ensures later { P.faults keeper.old ≤ P.faults keeper.new }
{
    match keeper.load() {
        Ok(lines) => Ok(lines),
        Err(KeepRefusal::Failed) => Err(Status::KeepFault),
        Err(KeepRefusal::NoMemory) => Err(Status::NoMemory),
    }
}

/// The cell whose history is the entries of these lines.
fn replay_lines(alloc: Global, lines: &Lines) -> Result<Cell, Status>
    ensures audited { IfOk result (λ cell. IsAudited lines.now cell.history) }
    ensures stops { IfErr result (AuditStops lines.now) }
    ensures not_keeper { IfErr result (λ status. ¬ (status ≡ KeepFault)) }
{
    match audit(alloc, lines) {
        Ok(cell) => Ok(cell),
        Err(AuditRefusal::BadKept(place)) => Err(Status::BadKept(place)),
        Err(AuditRefusal::NoMemory) => Err(Status::NoMemory),
    }
}
