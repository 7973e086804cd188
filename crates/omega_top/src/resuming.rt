//! A run that goes on from kept lines, and one that keeps none.
ghost use Rattle.std.specs.Prelude.{◌≡◌, ◌≢◌, ◌≤◌, IfErr, IfOk};
ghost use Rattle.std.specs.Thread.{IsSync};
ghost use Rattle.omega_keep.specs.Keeping.{Rose};
ghost use Rattle.omega_model.specs.Limits.{IsWithinLimits};
ghost use Rattle.omega_model.specs.Ranges.{IsInRange};
ghost use Rattle.omega_model.specs.declared.results.Status.TheVariants.{KeepFault};
ghost use Rattle.omega_model.specs.declared.settings.Command.TheVariants.{Resume};
ghost use Rattle.omega_top.specs.Resumes.{KeepsWhole, StaysAtKeeper, StopsBy, StopsFrom};
ghost use Rattle.omega_top.specs.Runs.{IsRunOf};

use crate::auditing::load;
use crate::replay::{RunInput, WholeRun, replayed, whole_run};
use omega_io::Gate;
use omega_keep::Keeper;
use omega_model::{Command, Status};
use omega_rounds::{World, resume_turns};
use std::alloc::Global;
use std::sync::Wait;
use std::thread::Threads;

/// The run of a trace under these settings: on `resume` the first lines of its history are those that a keeper has, and the others are appended to the keeper's list, round by
/// round; on every other command the keeper isn't used. Else the status with which the run ends. On `run` it
/// may wait.
pub fn run_of<R: Threads + Wait + Sync, G: Gate + Sync, P: Keeper>(
    rt: &R,
    alloc: Global,
    input: RunInput,
    gate: &G,
    keeper: &mut P,
) -> Result<WholeRun, Status>
    requires range { IsInRange input.settings }
    requires within { IsWithinLimits input.trace }
    requires sync { IsSync R.row × IsSync G.row }
    ensures run { IfOk result (IsRunOf input.settings input.trace) }
    ensures stops { IfErr result (StopsBy input.settings.command) }
    ensures kept { input.settings.command ≡ Resume → IfOk result (λ run. KeepsWhole (P.kept keeper.old) (P.kept keeper.new) run.history) }
    ensures refused { input.settings.command ≡ Resume → IfErr result (StopsFrom input.settings input.trace (P.kept keeper.old) (P.kept keeper.new)) }
    ensures stays { input.settings.command ≢ Resume → StaysAtKeeper (P.kept keeper.old) (P.kept keeper.new) (P.faults keeper.old) (P.faults keeper.new) }
    ensures cause { IfErr result (λ status. status ≡ KeepFault → Rose (P.faults keeper.old) (P.faults keeper.new)) }
    ensures path { P.entered keeper.new ≡ P.entered keeper.old }
    ensures later { P.faults keeper.old ≤ P.faults keeper.new }
{
    match input.settings.command {
        Command::Resume => resumed(rt, alloc, input, keeper),
        _ => match replayed(rt, alloc, input, gate) {
            Ok(run) => Ok(run),
            Err(_) => Err(Status::NoMemory),
        },
    }
}

/// The run of a trace with the schedulers taking turns, which goes on from what a keeper has.
fn resumed<R: Threads + Sync, P: Keeper>(
    rt: &R,
    alloc: Global,
    input: RunInput,
    keeper: &mut P,
) -> Result<WholeRun, Status>
    requires sync { IsSync R.row }
    requires range { IsInRange input.settings }
    requires command { input.settings.command ≡ Resume }
    ensures run { IfOk result (IsRunOf input.settings input.trace) }
    ensures kept { IfOk result (λ run. KeepsWhole (P.kept keeper.old) (P.kept keeper.new) run.history) }
    ensures refused { IfErr result (StopsFrom input.settings input.trace (P.kept keeper.old) (P.kept keeper.new)) }
    ensures cause { IfErr result (λ status. status ≡ KeepFault → Rose (P.faults keeper.old) (P.faults keeper.new)) }
    ensures path { P.entered keeper.new ≡ P.entered keeper.old }
    ensures later { P.faults keeper.old ≤ P.faults keeper.new }
{
    let RunInput { settings, trace } = input;
    let kept = load(keeper)?;
    let Ok(world) = World::new(alloc, &settings, trace) else {
        return Err(Status::NoMemory);
    };
    let world = resume_turns(rt, world, &kept, keeper)?;
    match whole_run(world, None) {
        Ok(run) => Ok(run),
        Err(_) => Err(Status::NoMemory),
    }
}
