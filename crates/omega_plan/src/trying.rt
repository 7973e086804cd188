//! Wishes that are tried on machines.
ghost use Rattle.std.specs.Prelude.{◌≡◌, ◌≤◌, ◌<◌, [], None, IfSome, length};
ghost use Rattle.omega_plan.specs.Overlays.{cell_after, tasks_claimed};
ghost use Rattle.omega_plan.specs.Telling.{frees_of};
ghost use Rattle.omega_model.specs.Cell.{task_at};
ghost use Rattle.omega_model.specs.Legal.{Sound};
ghost use Rattle.omega_model.specs.Judge.{has_rival};
ghost use Rattle.omega_model.specs.Plan.{claim_of};
ghost use Rattle.omega_plan.specs.Kinds.{Serves};
ghost use Rattle.omega_plan.specs.Trying.{IsClaimAt, IsFirstToTake, SuitsAlone};

use crate::overlay::Overlay;
use crate::progress::Progress;
use omega_attrs::eligible;
use omega_fit::FitIndex;
use omega_model::{Claim, Keys, Wish};

/// The first position, round from the plan's start, whose machine suits the wish and takes it as it
/// is. Begins where the progress says. Looks at the index's root alone where every machine has too
/// little of one component; else at the machines with room, and at worst at all positions.
pub(crate) fn first_to_take(
    overlay: &Overlay,
    index: &FitIndex,
    wish: &Wish,
    progress: &Progress,
) -> Option<usize>
    requires sound { Sound (cell_after overlay.now) }
    requires index { index.now.free ≡ frees_of (cell_after overlay.now) }
    requires absent { task_at (tasks_claimed overlay.now) wish.now.key ≡ None }
    requires serves { Serves (cell_after overlay.now) wish.now progress.now }
    ensures first { IsFirstToTake (cell_after overlay.now) wish.now progress.now.start result }
    ensures below { IfSome result (λ position. position < length overlay.now.board.table) }
{
    match progress.as_is {
        Some(begin) => first_from(overlay, index, wish, begin),
        None => None,
    }
}

/// The first position, round from `begin`, whose machine suits the wish and takes it as it is.
fn first_from(overlay: &Overlay, index: &FitIndex, wish: &Wish, begin: usize) -> Option<usize>
    requires sound { Sound (cell_after overlay.now) }
    requires index { index.now.free ≡ frees_of (cell_after overlay.now) }
    requires absent { task_at (tasks_claimed overlay.now) wish.now.key ≡ None }
    requires begin { begin ≤ length (cell_after overlay.now).machines }
    ensures first { IsFirstToTake (cell_after overlay.now) wish.now begin result }
    ensures below { IfSome result (λ position. position < length overlay.now.board.table) }
{
    index.first(begin, wish.spec.need, |position| {
        suits_alone(overlay, wish, position)
    })
}

/// Whether the machine at a position suits the wish and, where the wish wants different machines, has no task
/// of its job. Looks in the running tasks only then.
fn suits_alone(overlay: &Overlay, wish: &Wish, position: usize) -> bool
    ensures { SuitsAlone (cell_after overlay.now) wish.now position result }
{
    match overlay.board().machines().at(position) {
        Some(machine) => {
            eligible(&wish.constraints, &machine.attrs) && !has_rival(overlay, wish, machine.id)
        }
        None => false,
    }
}

/// Whether the wish wants different machines, and a task of its job is on this one.
pub(crate) fn has_rival(overlay: &Overlay, wish: &Wish, id: u64) -> bool
    ensures { result ≡ has_rival (cell_after overlay.now) (claim_of wish.now [] id) [] }
{
    wish.spec.differ && overlay.has_of_job(wish.key.job, id)
}

/// The claim of a wish on the machine at a position, with these victims.
pub(crate) fn claim_at(overlay: &Overlay, wish: &Wish, position: usize, victims: Keys) -> Claim
    requires { position < length overlay.now.board.table }
    ensures { IsClaimAt (cell_after overlay.now) wish.now position victims result }
{
    let Some(machine) = overlay.board().machines().at(position) else {
        unreachable!()
    };
    claim_of(wish, victims, machine.id)
}

/// The claim of a wish on a machine, with these victims.
pub(crate) fn claim_of(wish: &Wish, victims: Keys, id: u64) -> Claim
    ensures { result ≡ claim_of wish.now victims id }
{
    Claim {
        key: wish.key,
        machine: id,
        spec: wish.spec,
        victims,
    }
}
