//! Kept lines, gone through entry by entry.
ghost use Rattle.std.specs.Prelude.{◌≡◌, ◌++◌, ◌∷◌, [], List, IfOk, IfErr, OnOk};
ghost use Rattle.omega_model.specs.declared.entries.Entry.{Entry};
ghost use Rattle.omega_keep.specs.Audited.{IsAudited, IsRefused, Refuses};
ghost use Rattle.omega_keep.specs.Taking.{StopsFor, Takes};
ghost use Rattle.omega_keep.specs.declared.stop.Stop.TheVariants.{OutOfMemory};
ghost use Rattle.omega_keep.specs.Touching.{AreTouches};

use crate::keeper::Lines;
use crate::lines::read_entry;
use crate::stop::Stop;
use crate::taking::take_entry;
use crate::touches::Touches;
use omega_cell::Cell;
use std::alloc::Global;

/// Why kept lines are refused.
#[derive(Clone, Copy, Debug, Drop, PartialEq, Eq)]
pub enum AuditRefusal {
    /// The line at this place, from 0, is the first that is no entry's line, or whose entry isn't
    /// possible on those before it.
    BadKept(u64),
    /// Memory ran out.
    NoMemory,
}

/// The cell whose history is the entries of these lines.
///
/// Each line is the line of an entry that is possible on the entries before it: a capacity is at most
/// 10^12 units of each kind, there are at most 65,536 machines, an end names a task that runs on its
/// machine, and a commit has fewer than 2^32 claims, has seen no more than the entries before it, and
/// has the reply that is due on them. `BadKept` names the first line of which that doesn't hold.
///
/// Costs the lines, what their entries change, and for each claim the logarithm of the number of
/// machines and of how often its machine was touched. A claim whose victims don't come in order of
/// eviction, or one for different machines whose victims are tasks of its own job, may cost their square.
pub fn audit(alloc: Global, lines: &Lines) -> Result<Cell, AuditRefusal>
    ensures audited { IfOk result (λ cell. IsAudited lines.now cell.history) }
    ensures refused { IfErr result (Refuses lines.now) }
{
    let mut cell = Cell::new(alloc);
    let mut touches = Touches::new(alloc);
    for (place, line) in lines.as_slice().iter().enumerate() {
        match take_line(alloc, &mut cell, &mut touches, line.as_slice()) {
            Ok(()) => {}
            Err(Stop::Refused) => return Err(AuditRefusal::BadKept(place as u64)),
            Err(Stop::OutOfMemory) => return Err(AuditRefusal::NoMemory),
        }
    }
    Ok(cell)
}

/// Takes the entry of a line, where it is possible.
fn take_line(alloc: Global, cell: &mut Cell, touches: &mut Touches, line: &[u8]) -> Result<(), Stop>
    requires { AreTouches touches.old.places cell.old.history }
    ensures takes { OnOk result (Takes line.now cell.old.history cell.new.history) }
    ensures touches { OnOk result (AreTouches touches.new.places cell.new.history) }
    ensures stops { IfErr result (StopsFor (IsRefused cell.old.history line.now)) }
{
    let Some(entry) = read_entry(alloc, line)? else {
        return Err(Stop::Refused);
    };
    take_entry(alloc, cell, touches, entry)?;
    note_last(alloc, cell, touches)
}

/// Notes which machines the last entry touches.
fn note_last(alloc: Global, cell: &Cell, touches: &mut Touches) -> Result<(), Stop>
    ensures notes { OnOk result ((before : List Entry) (entry : Entry) → cell.now.history ≡ before ++ entry ∷ [] → AreTouches touches.old.places before → AreTouches touches.new.places cell.now.history) }
    ensures stops { IfErr result (λ stop. stop ≡ OutOfMemory) }
{
    if let Some((entry, before)) = cell.history().split_last() {
        touches.note(alloc, before.len() as u64, entry)?;
    }
    Ok(())
}
