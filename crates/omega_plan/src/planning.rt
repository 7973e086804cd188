//! The plan of a request.
ghost use Rattle.std.specs.Prelude.{◌≡◌, ◌≤◌, ◌+◌, ◌++◌, [], None, length, IfOk, IfSome, OnOk};
ghost use Rattle.omega_board.specs.Board.{cell_of};
ghost use Rattle.omega_plan.specs.Indexes.{TellAll};
ghost use Rattle.omega_plan.specs.Overlays.{GoesInWhole, cell_after, tasks_claimed};
ghost use Rattle.omega_model.specs.Plan.{after_planned, and_claims, whole_or_none};
ghost use Rattle.omega_model.specs.Cell.{task_at};
ghost use Rattle.omega_model.specs.Legal.{Sound};
ghost use Rattle.omega_model.specs.Planning.{claims_for_wishes, plan_for};
ghost use Rattle.omega_running.specs.Kept.{KeysRise};
ghost use Rattle.omega_plan.specs.Kinds.{Serves};
ghost use Rattle.omega_plan.specs.Steps.{IsStep};
ghost use Rattle.omega_plan.specs.Trying.{IsFirstToTake};

use crate::evicting::first_to_yield;
use crate::indexes::Indexes;
use crate::overlay::Overlay;
use crate::progress::{Progress, Step};
use crate::trying::{claim_at, first_to_take};
use omega_board::Board;
use omega_model::{Claim, Mode, NoMemory, Policy, Request, Seq, Txn, Wish};
use std::alloc::Global;

/// The plan of a request on a board of which these indexes tell. The machines are tried in the order of their
/// list from position `start` on, which is at most their number, and then from the front. Each wish gets the
/// first machine that suits its constraints and takes it, on the cell after the claims before it: without
/// victims where that goes, else with them where the policy preempts; a wish without a machine gets no claim.
/// In mode `Gang` one wish without a machine leaves no claim at all. The indexes tell of the board afterwards,
/// also where memory runs out.
///
/// Takes memory for the claims, and for what all of them but the last change beside the board; the answer
/// holds that of its claims alone, since a history keeps it. Each wish costs a search; wishes in a row that
/// differ in the task's index alone cost one pass over the machines together. A wish whose key isn't greater
/// than those before it costs up to a pass over the claims beside the board too.
pub fn plan(
    alloc: Global,
    board: &Board,
    indexes: &mut Indexes,
    request: &Request,
    start: usize,
    policy: &Policy,
) -> Result<Txn, NoMemory>
    requires tell { TellAll (cell_of board.now) indexes.old }
    requires start { start ≤ length board.now.table }
    ensures job { IfOk result (λ txn. txn.job ≡ request.now.job) }
    ensures rule { IfOk result (λ txn. txn.rule ≡ policy.now.rule) }
    ensures mode { IfOk result (λ txn. txn.mode ≡ policy.now.mode) }
    ensures claims { IfOk result (λ txn. txn.claims ≡ plan_for (cell_of board.now) request.now.wishes start policy.now) }
    ensures tell { TellAll (cell_of board.now) indexes.new }
    ensures seen { indexes.new.seen ≡ indexes.old.seen }
{
    let wishes = request.wishes.as_slice();
    let mut overlay = Overlay::over(alloc, board);
    let last = claims_but_last(alloc, &mut overlay, indexes, wishes, start, policy.preempt);
    let claims = overlay.end(indexes);
    let all = with_claim(claims, last?)?;
    let mut planned = whole_or_none(policy.mode, wishes.len(), all);
    planned.shrink_to_fit();
    Ok(Txn {
        job: request.job,
        rule: policy.rule,
        mode: policy.mode,
        claims: Seq::of(planned),
    })
}

/// The claims for the wishes in order, each on the cell after the claims before it. All but that for the last
/// wish are placed beside the board, beside which none stands before; that for the last wish is answered. The
/// indexes tell of the cell after the claims beside the board, also where memory runs out.
fn claims_but_last(
    alloc: Global,
    overlay: &mut Overlay,
    indexes: &mut Indexes,
    wishes: &[Wish],
    start: usize,
    preempts: bool,
) -> Result<Option<Claim>, NoMemory>
    requires none { overlay.old.claims ≡ [] }
    requires start { start ≤ length overlay.old.board.table }
    requires tell { TellAll (cell_after overlay.old) indexes.old }
    ensures claims { IfOk result (λ last. overlay.new.claims ++ and_claims last [] ≡ claims_for_wishes (cell_after overlay.old) start preempts wishes.now) }
    ensures board { overlay.new.board ≡ overlay.old.board }
    ensures tell { TellAll (cell_after overlay.new) indexes.new }
    ensures seen { indexes.new.seen ≡ indexes.old.seen }
{
    let Some((last, others)) = wishes.split_last() else {
        return Ok(None);
    };
    let mut previous = last;
    let mut progress = Progress::at(start);
    for wish in others {
        let begin = progress.advance(previous, wish);
        make_ready(alloc, overlay, wish, preempts)?;
        let step = claim_for_wish(alloc, overlay, indexes, wish, preempts, begin)?;
        place(alloc, overlay, indexes, step.claim)?;
        previous = wish;
        progress = step.progress;
    }
    let begin = progress.advance(previous, last);
    make_ready(alloc, overlay, last, preempts)?;
    let step = claim_for_wish(alloc, overlay, indexes, last, preempts, begin)?;
    Ok(step.claim)
}

/// Readies the claims beside the board where finding a machine for a wish may ask for what runs on one machine
/// after the other: where it wants different machines, or others may be evicted for it. They stay as they are.
fn make_ready(
    alloc: Global,
    overlay: &mut Overlay,
    wish: &Wish,
    preempts: bool,
) -> Result<(), NoMemory>
    ensures { overlay.new ≡ overlay.old }
{
    if wish.spec.differ || (preempts && wish.spec.prec > 0) {
        overlay.ready_for_machines(alloc)?;
    }
    Ok(())
}

/// Places a claim, if there is one, beside the board. Where memory runs out, all is as before.
fn place(
    alloc: Global,
    overlay: &mut Overlay,
    indexes: &mut Indexes,
    claim: Option<Claim>,
) -> Result<(), NoMemory>
    requires goes_in { IfSome claim (GoesInWhole (cell_after overlay.old)) }
    requires tell { TellAll (cell_after overlay.old) indexes.old }
    ensures board { overlay.new.board ≡ overlay.old.board }
    ensures claims { OnOk result (overlay.new.claims ≡ overlay.old.claims ++ and_claims claim []) }
    ensures cell { OnOk result (cell_after overlay.new ≡ after_planned (cell_after overlay.old) claim) }
    ensures tell { TellAll (cell_after overlay.new) indexes.new }
    ensures seen { indexes.new.seen ≡ indexes.old.seen }
{
    let Some(claim) = claim else {
        return Ok(());
    };
    overlay.claim(alloc, indexes, claim)?;
    Ok(())
}

/// Claims with one more, if there is one.
fn with_claim(claims: Vec<Claim>, claim: Option<Claim>) -> Result<Vec<Claim>, NoMemory>
    ensures { IfOk result (λ all. all.items ≡ claims.items ++ and_claims claim []) }
{
    let mut all = claims;
    if let Some(claim) = claim {
        all.push(claim)?;
    }
    Ok(all)
}

/// The claim for one wish: without victims where that goes, else with them if it preempts. A wish
/// whose task runs already gets none. The indexes tell the same afterwards.
fn claim_for_wish(
    alloc: Global,
    overlay: &Overlay,
    indexes: &mut Indexes,
    wish: &Wish,
    preempts: bool,
    progress: Progress,
) -> Result<Step, NoMemory>
    requires tell { TellAll (cell_after overlay.now) indexes.old }
    requires serves { Serves (cell_after overlay.now) wish.now progress }
    ensures step { IfOk result (λ step. IsStep (cell_after overlay.now) wish.now preempts progress step) }
    ensures ordered { KeysRise (tasks_claimed overlay.now) }
    ensures tell { TellAll (cell_after overlay.now) indexes.new }
    ensures seen { indexes.new.seen ≡ indexes.old.seen }
{
    if overlay.runs(wish.key) {
        return Ok(Step {
            claim: None,
            progress,
        });
    }
    match first_to_take(overlay, indexes.free(), wish, &progress) {
        Some(position) => Ok(Step {
            claim: Some(claim_at(overlay, wish, position, Seq::new(alloc))),
            progress: progress.found(position),
        }),
        None => claim_by_evicting(alloc, overlay, indexes, wish, preempts, progress.full()),
    }
}

/// The claim with victims for a wish that no machine takes as it is, if it preempts. A wish of precedence
/// 0 gets none, since no task gives way to it. The indexes tell the same afterwards.
fn claim_by_evicting(
    alloc: Global,
    overlay: &Overlay,
    indexes: &mut Indexes,
    wish: &Wish,
    preempts: bool,
    progress: Progress,
) -> Result<Step, NoMemory>
    requires sound { Sound (cell_after overlay.now) }
    requires ordered { KeysRise (tasks_claimed overlay.now) }
    requires tell { TellAll (cell_after overlay.now) indexes.old }
    requires absent { task_at (tasks_claimed overlay.now) wish.now.key ≡ None }
    requires full { IsFirstToTake (cell_after overlay.now) wish.now progress.start None }
    requires serves { Serves (cell_after overlay.now) wish.now progress }
    ensures step { IfOk result (λ step. IsStep (cell_after overlay.now) wish.now preempts progress step) }
    ensures tell { TellAll (cell_after overlay.now) indexes.new }
    ensures seen { indexes.new.seen ≡ indexes.old.seen }
{
    if !preempts {
        return Ok(Step {
            claim: None,
            progress,
        });
    }
    if wish.spec.prec == 0 {
        return Ok(Step {
            claim: None,
            progress,
        });
    }
    match first_to_yield(alloc, overlay, indexes, wish, &progress)? {
        Some(found) => Ok(Step {
            claim: Some(claim_at(overlay, wish, found.position, found.victims)),
            progress: progress.evicted(found.position),
        }),
        None => Ok(Step {
            claim: None,
            progress: progress.stays_full(),
        }),
    }
}

/// A gang of which one wish found no machine makes no claim.
fn whole_or_none(mode: Mode, wanted: usize, claims: Vec<Claim>) -> Vec<Claim>
    ensures { result.items ≡ whole_or_none mode wanted claims.items }
{
    let mut kept = claims;
    match mode {
        Mode::Incremental => {}
        Mode::Gang => {
            if kept.len() != wanted {
                kept.clear();
            }
        }
    }
    kept
}
