//! Kept lines of a history: compared with what a round appended, and added to.
ghost use Rattle.std.specs.Prelude.{◌≡◌, ◌<◌, ◌≤◌, ◌+◌, ℕ, All, List, IfErr, IfOk, OnErr, OnOk, Option, length, take};
ghost use Rattle.std.specs.Str.{bytes_eq};
ghost use Rattle.omega_keep.specs.KeptLines.{entry_text, IsAnswered};
ghost use Rattle.omega_keep.specs.Keeping.{Adds, Rose};
ghost use Rattle.omega_keep.specs.Resumed.{in_common, lines_of};
ghost use Rattle.omega_rounds.specs.Resuming.{Agree, IsNotOfLines, RefusesRound, StopsAt, lines_behind};
ghost use Rattle.omega_rounds.specs.declared.kept.ResumeRefusal.TheVariants.{KeepFault, NoMemory as WantOfMemory};

use omega_keep::{KeepRefusal, Keeper, Lines, entry_line};
use omega_model::{Bytes, Entry, NoMemory, Seq, Status};
use std::alloc::Global;

/// Why a run doesn't go on from kept lines.
#[derive(Clone, Copy, Debug, Drop, PartialEq, Eq)]
pub enum ResumeRefusal {
    /// The place, from 0, of the first kept line that isn't the run's line there. Or, where each is, the number
    /// of kept lines, since they end in the middle of a round.
    BadKept(u64),
    /// The keeper failed.
    KeepFault,
    /// Memory ran out.
    NoMemory,
}

impl From<NoMemory> for ResumeRefusal {
    ghost from_gives = { λ _ e. e ≡ WantOfMemory };

    fn from(_error: NoMemory) -> ResumeRefusal {
        ResumeRefusal::NoMemory
    }
}

impl From<ResumeRefusal> for Status {
    ghost use Rattle.std.specs.Prelude.{◌≡◌};
    ghost use Rattle.omega_rounds.specs.Resuming.{status_of};

    ghost from_gives = { λ refusal status. status ≡ status_of refusal };

    fn from(refusal: ResumeRefusal) -> Status {
        match refusal {
            ResumeRefusal::BadKept(place) => Status::BadKept(place),
            ResumeRefusal::KeepFault => Status::KeepFault,
            ResumeRefusal::NoMemory => Status::NoMemory,
        }
    }
}

/// Takes a round, which stands in a history from the place `from` on; with what is before it the kept lines
/// agree. Where lines are kept from that place on, those of the round are compared with them, and each must
/// be there; else they are appended to the keeper's list, in one call. Costs the lines of the round.
pub(crate) fn take_round<P: Keeper>(
    alloc: Global,
    history: &[Entry],
    from: usize,
    kept: &Lines,
    keeper: &mut P,
) -> Result<(), ResumeRefusal>
    requires within { from ≤ length history.now }
    requires answered { All IsAnswered history.now }
    requires agree { Agree kept.now (take from history.now) }
    ensures agree { OnOk result (Agree kept.now history.now) }
    ensures ends { OnOk result (from < length kept.now → length history.now ≤ length kept.now) }
    ensures adds { OnOk result ((first : Option (List (List ℕ)))
        → Adds (lines_behind kept.now (take from history.now)) first (P.kept keeper.old)
        → Adds (lines_behind kept.now history.now) first (P.kept keeper.new)) }
    ensures refused { IfErr result (RefusesRound kept.now from history.now) }
    ensures stays { OnErr result (P.kept keeper.new ≡ P.kept keeper.old) }
    ensures cause { IfErr result (λ refusal. refusal ≡ KeepFault → Rose (P.faults keeper.old) (P.faults keeper.new)) }
    ensures path { P.entered keeper.new ≡ P.entered keeper.old }
    ensures later { P.faults keeper.old ≤ P.faults keeper.new }
{
    let appended = history.split_at(from).1;
    if from < kept.as_slice().len() {
        check_lines(alloc, appended, from, kept.as_slice().split_at(from).1)?;
        Ok(())
    } else {
        append_lines(alloc, appended, keeper)?;
        Ok(())
    }
}

/// Compares the lines of some entries, which stand in a history from a place on, with those that are kept from
/// there on.
fn check_lines(
    alloc: Global,
    entries: &[Entry],
    from: usize,
    kept: &[Bytes],
) -> Result<(), ResumeRefusal>
    requires short { from + length entries.now ≤ 18446744073709551615 }
    requires answered { All IsAnswered entries.now }
    ensures agree { OnOk result (in_common kept.now entries.now ≡ length entries.now) }
    ensures refused { IfErr result (StopsAt kept.now from entries.now) }
{
    let count = in_common(alloc, kept, entries)?;
    if count == entries.len() {
        Ok(())
    } else {
        Err(ResumeRefusal::BadKept((from + count) as u64))
    }
}

/// How many of the first kept lines are those of these entries in order.
fn in_common(alloc: Global, kept: &[Bytes], entries: &[Entry]) -> Result<usize, NoMemory>
    requires { All IsAnswered entries.now }
    ensures count { IfOk result (λ count. count ≡ in_common kept.now entries.now) }
    ensures within { IfOk result (λ count. count ≤ length entries.now) }
{
    for (place, entry) in entries.iter().enumerate() {
        let Some(line) = kept.get(place) else {
            return Ok(place);
        };
        if !is_line(alloc, line, entry)? {
            return Ok(place);
        }
    }
    Ok(entries.len())
}

/// Whether a kept line is the line of an entry.
fn is_line(alloc: Global, line: &Bytes, entry: &Entry) -> Result<bool, NoMemory>
    requires { IsAnswered entry.now }
    ensures { IfOk result (λ is. is ≡ bytes_eq line.now (entry_text entry.now)) }
{
    let own = entry_line(alloc, entry)?;
    Ok(line.as_slice() == own.as_slice())
}

/// Appends the lines of these entries, in one call.
fn append_lines<P: Keeper>(
    alloc: Global,
    entries: &[Entry],
    keeper: &mut P,
) -> Result<(), ResumeRefusal>
    requires answered { All IsAnswered entries.now }
    ensures adds { OnOk result (Adds (lines_of entries.now) (P.kept keeper.old) (P.kept keeper.new)) }
    ensures stays { OnErr result (P.kept keeper.new ≡ P.kept keeper.old) }
    ensures cause { IfErr result (λ refusal. refusal ≡ KeepFault → Rose (P.faults keeper.old) (P.faults keeper.new)) }
    ensures not_lines { IfErr result IsNotOfLines }
    ensures path { P.entered keeper.new ≡ P.entered keeper.old }
    ensures later { P.faults keeper.old ≤ P.faults keeper.new }
{
    let lines = lines_of(alloc, entries)?;
    match keeper.append(&lines) {
        Ok(()) => Ok(()),
        Err(KeepRefusal::Failed) => Err(ResumeRefusal::KeepFault),
        Err(KeepRefusal::NoMemory) => Err(ResumeRefusal::NoMemory),
    }
}

/// The lines of these entries.
fn lines_of(alloc: Global, entries: &[Entry]) -> Result<Lines, NoMemory>
    requires { All IsAnswered entries.now }
    ensures { IfOk result (λ lines. lines ≡ lines_of entries.now) }
{
    let mut lines = Seq::new(alloc);
    for entry in entries {
        lines.push(entry_line(alloc, entry)?)?;
    }
    Ok(lines)
}
