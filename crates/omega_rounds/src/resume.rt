//! A run in turns that goes on from the lines that are kept of it.
ghost use Rattle.std.specs.Prelude.{◌≡◌, ◌≤◌, ℕ, None, Some, List, IfErr, IfOk, OnErr, OnOk, length};
ghost use Rattle.std.specs.Thread.{IsSync};
ghost use Rattle.omega_keep.specs.Keeping.{Adds, Rose};
ghost use Rattle.omega_keep.specs.Resumed.{AreWholeRounds, refused_for};
ghost use Rattle.omega_model.specs.Lawful.{Lawful};
ghost use Rattle.omega_model.specs.Turns.{InTurns};
ghost use Rattle.omega_model.specs.declared.entries.Entry.{Entry};
ghost use Rattle.omega_model.specs.declared.rows.TraceTables.{TraceTables};
ghost use Rattle.omega_model.specs.declared.settings.Settings.{Settings};
ghost use Rattle.omega_rounds.specs.Playing.{PlaysRound};
ghost use Rattle.omega_rounds.specs.Resuming.{AreRoundsInTurns, BeginsAgreed, DepartAt, IsPastEnd, LeavesKept, RefusesKept, StopsRound, TakesRound, lines_behind};
ghost use Rattle.omega_rounds.specs.Stages.{AllHaveBegun, IsInRunOf};
ghost use Rattle.omega_rounds.specs.declared.kept.ResumeRefusal.TheVariants.{KeepFault};

use crate::kept::{ResumeRefusal, take_round};
use crate::steps::RoundStep;
use crate::turns::play_round;
use crate::world::World;
use omega_keep::{Keeper, Lines};
use std::thread::Threads;

/// Runs all rounds of a new world to their end as `in_turns` does, and keeps the lines of its history: the
/// first of them are kept already, up to the end of a round, and are compared with those of the run, round by
/// round. Behind them the lines of each round are appended to the keeper's list once it is over, in one call.
/// Nothing is appended before all kept lines are compared.
///
/// The history is the only one that is lawful and in turns for the settings and the trace. `BadKept` names the
/// first kept line that isn't the run's line at its place; or, where each is, the number of kept lines, if
/// they end in the middle of a round: the first rounds, played in turns, have a history that shows it, also
/// where the whole run would never fit into memory. `KeepFault` comes only where the keeper's count rose and
/// the kept lines are those of first rounds. After a refusal the world is gone, and the keeper's list has grown
/// by the lines of whole rounds, by none where the kept lines are refused. Costs what `in_turns` costs and the
/// lines of all entries, of which those of one round are held in memory.
pub fn resume_turns<R: Threads + Sync, P: Keeper>(
    rt: &R,
    world: World,
    kept: &Lines,
    keeper: &mut P,
) -> Result<World, ResumeRefusal>
    requires new { world.stage.begun ≡ 0 }
    requires sync { IsSync R.row }
    ensures source { IfOk result (λ after. after.stage.source ≡ world.stage.source) }
    ensures settings { IfOk result (λ after. after.stage.settings ≡ world.stage.settings) }
    ensures last { IfOk result (λ after. AllHaveBegun after.stage) }
    ensures lawful { IfOk result (λ after. (trace : TraceTables) → IsInRunOf world.stage trace
        → Lawful world.stage.settings trace after.history) }
    ensures turns { IfOk result (λ after. InTurns after.history) }
    ensures only { IfOk result (λ after. (trace : TraceTables) → IsInRunOf world.stage trace
        → (other : List Entry) → Lawful world.stage.settings trace other → InTurns other
        → other ≡ after.history) }
    ensures agreed { IfOk result (λ after. refused_for after.history kept.now ≡ None) }
    ensures kept { IfOk result (λ after. Adds (lines_behind kept.now after.history) (P.kept keeper.old) (P.kept keeper.new)) }
    ensures refused { IfErr result (RefusesKept world.stage kept.now) }
    ensures rounds { IfErr result (LeavesKept world.stage kept.now (P.kept keeper.old) (P.kept keeper.new)) }
    ensures cause { IfErr result (λ refusal. refusal ≡ KeepFault → Rose (P.faults keeper.old) (P.faults keeper.new)) }
    ensures path { P.entered keeper.new ≡ P.entered keeper.old }
    ensures later { P.faults keeper.old ≤ P.faults keeper.new }
{
    let mut world = world;
    loop {
        let from = world.history().len();
        let (mut next, step) = world.next_round()?;
        match step {
            RoundStep::Begun(_) => resume_round(rt, &mut next, from, kept, keeper)?,
            RoundStep::Unfinished(_) => unreachable!(),
            RoundStep::Over => {
                end_kept(&next, kept)?;
                return Ok(next);
            }
        }
        world = next;
    }
}

/// Kept lines depart from the first rounds of a trace in turns at one place at most, and nowhere where they
/// are those of first rounds. For the history of the whole run, where there is one, they are refused at just
/// that place, and lines of first rounds are its first lines, up to the end of a round. Does nothing: the
/// contract is the law.
pub fn kept_lines_depart_once()
    ensures once { (settings : Settings) (trace : TraceTables) (kept : List (List ℕ)) (one other : ℕ)
        → DepartAt settings trace kept one → DepartAt settings trace kept other → one ≡ other }
    ensures never { (settings : Settings) (trace : TraceTables) (kept : List (List ℕ)) (place : ℕ)
        → AreRoundsInTurns settings trace kept → ¬ DepartAt settings trace kept place }
    ensures whole { (settings : Settings) (trace : TraceTables) (kept : List (List ℕ)) (place : ℕ)
        (history : List Entry) → DepartAt settings trace kept place
        → Lawful settings trace history → InTurns history → refused_for history kept ≡ Some place }
    ensures front { (settings : Settings) (trace : TraceTables) (lines : List (List ℕ))
        (history : List Entry) → AreRoundsInTurns settings trace lines
        → Lawful settings trace history → InTurns history → AreWholeRounds history lines }
{}

/// Plays the round that is under way to its end and takes it. The history before it has so many entries.
fn resume_round<R: Threads + Sync, P: Keeper>(
    rt: &R,
    world: &mut World,
    from: usize,
    kept: &Lines,
    keeper: &mut P,
) -> Result<(), ResumeRefusal>
    requires agreed { BeginsAgreed kept.now from world.old }
    requires sync { IsSync R.row }
    ensures stage { OnOk result (world.new.stage ≡ world.old.stage) }
    ensures plays { OnOk result (PlaysRound world.old world.new) }
    ensures takes { OnOk result (TakesRound kept.now from world.new.history (P.kept keeper.old) (P.kept keeper.new)) }
    ensures stops { IfErr result (StopsRound world.old kept.now from) }
    ensures stays { OnErr result (P.kept keeper.new ≡ P.kept keeper.old) }
    ensures cause { IfErr result (λ refusal. refusal ≡ KeepFault → Rose (P.faults keeper.old) (P.faults keeper.new)) }
    ensures path { P.entered keeper.new ≡ P.entered keeper.old }
    ensures later { P.faults keeper.old ≤ P.faults keeper.new }
{
    play_round(rt, world)?;
    take_round(world.alloc(), world.history(), from, kept, keeper)?;
    Ok(())
}

/// Refuses kept lines of which there are more than entries in the whole history of a world.
fn end_kept(world: &World, kept: &Lines) -> Result<(), ResumeRefusal>
    ensures all { OnOk result (length kept.now ≤ length world.now.history) }
    ensures refused { IfErr result (IsPastEnd world.now kept.now) }
{
    let count = world.history().len();
    if count < kept.as_slice().len() {
        return Err(ResumeRefusal::BadKept(count as u64));
    }
    Ok(())
}
