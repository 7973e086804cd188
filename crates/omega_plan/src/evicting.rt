//! The tasks that make room for a wish, and the first machine on which they do.
ghost use Rattle.std.specs.Prelude.{◌≡◌, ◌≤◌, ◌<◌, ◌+◌, ◌∷◌, [], List, None, Some, IfOk, IfSome, IsTrue, option_map, length};
ghost use Rattle.omega_board.specs.Board.{cell_of};
ghost use Rattle.omega_plan.specs.Indexes.{TellAll};
ghost use Rattle.omega_plan.specs.Overlays.{cell_after, tasks_claimed};
ghost use Rattle.omega_plan.specs.Telling.{freed_of};
ghost use Rattle.std.specs.List.{filter, find, range_with_len};
ghost use Rattle.std.specs.List.Sorted.{IsPermutation};
ghost use Rattle.omega_model.specs.Cell.{by_rank, goes_before, is_on, machine_at, task_at, total};
ghost use Rattle.omega_model.specs.declared.cells.Task.{Task};
ghost use Rattle.omega_running.specs.Order.{IsInOrder};
ghost use Rattle.omega_running.specs.declared.orders.Order.TheVariants.{ByKey};
ghost use Rattle.omega_model.specs.Legal.{Sound};
ghost use Rattle.omega_model.specs.Need.{fits, minus};
ghost use Rattle.omega_model.specs.Plan.{gives_way, victims};
ghost use Rattle.omega_running.specs.Kept.{KeysRise};
ghost use Rattle.omega_plan.specs.Kinds.{Serves};
ghost use Rattle.omega_plan.specs.Trying.{AreVictimsAt, IsFirstToYield, Yields};
ghost use Rattle.omega_plan.specs.Leaving.{AreFewest, GoFirst, leaves_enough, need_staying, stays};
ghost use Rattle.omega_plan.specs.Levels.{AreFound};
ghost use Rattle.omega_fit.specs.Wrapped.{FirstBetween};

use crate::indexes::Indexes;
use crate::levels::{Found, Level};
use crate::overlay::Overlay;
use crate::progress::Progress;
use crate::trying::has_rival;
use omega_attrs::eligible;
use omega_board::Board;
use omega_model::{Keys, Machine, Need, NoMemory, Task, Wish};
use omega_running::{key_lt, keys_of};
use std::alloc::Global;

/// So few tasks are sorted without a look at which of them may stay. It is also the share of the tasks at which the one
/// stands that is looked at first: each of a machine's trees has its tasks in order of key, so it is an early one.
const FEW: usize = 64;

/// A position, and the victims that make room on the machine that stands there.
#[derive(Debug, Drop)]
pub(crate) struct Candidate {
    pub position: usize,
    pub victims: Keys,
}

/// The first position, round from the plan's start, whose machine suits the wish and where evictions
/// make room, with the victims. Begins where the progress says. Looks at the root of the level alone
/// where evictions could nowhere free enough of one component. Else it looks for victims on the machines
/// where evictions could free enough and which suit, one after the other, and at worst at all positions.
/// Costs that, and what `Indexes::lend_level` costs.
pub(crate) fn first_to_yield(
    alloc: Global,
    overlay: &Overlay,
    indexes: &mut Indexes,
    wish: &Wish,
    progress: &Progress,
) -> Result<Option<Candidate>, NoMemory>
    requires sound { Sound (cell_after overlay.now) }
    requires ordered { KeysRise (tasks_claimed overlay.now) }
    requires tell { TellAll (cell_after overlay.now) indexes.old }
    requires absent { task_at (tasks_claimed overlay.now) wish.now.key ≡ None }
    requires serves { Serves (cell_after overlay.now) wish.now progress.now }
    ensures tell { TellAll (cell_after overlay.now) indexes.new }
    ensures seen { indexes.new.seen ≡ indexes.old.seen }
    ensures first { IfOk result (λ found. IsFirstToYield (cell_after overlay.now) wish.now progress.now.start (option_map (λ f. f.position) found)) }
    ensures below { IfOk result (λ found. IfSome found (λ f. f.position < length overlay.now.board.table)) }
    ensures victims { IfOk result (λ found. IfSome found (λ f. AreVictimsAt (cell_after overlay.now) wish.now f.position (Some f.victims))) }
{
    let Some(begin) = progress.evicting else {
        return Ok(None);
    };
    let level = indexes.lend_level(alloc, overlay, wish.spec.prec)?;
    let found = yielding_from(alloc, overlay, &level, wish, begin);
    indexes.take_back(level);
    found
}

/// The first position, round from `begin`, where evictions make room.
fn yielding_from(
    alloc: Global,
    overlay: &Overlay,
    level: &Level,
    wish: &Wish,
    begin: usize,
) -> Result<Option<Candidate>, NoMemory>
    requires sound { Sound (cell_after overlay.now) }
    requires freed { level.now.index.free ≡ freed_of wish.now.spec.prec (cell_after overlay.now) }
    requires found { AreFound (tasks_claimed overlay.now) level.now.found }
    requires absent { task_at (tasks_claimed overlay.now) wish.now.key ≡ None }
    requires begin { begin ≤ length (cell_after overlay.now).machines }
    ensures first { IfOk result (λ found. IsFirstToYield (cell_after overlay.now) wish.now begin (option_map (λ f. f.position) found)) }
    ensures below { IfOk result (λ found. IfSome found (λ f. f.position < length overlay.now.board.table)) }
    ensures victims { IfOk result (λ found. IfSome found (λ f. AreVictimsAt (cell_after overlay.now) wish.now f.position (Some f.victims))) }
{
    match yielding_between(alloc, overlay, level, wish, begin, level.freed().len())? {
        Some(found) => Ok(Some(found)),
        None => yielding_between(alloc, overlay, level, wish, 0, begin),
    }
}

/// The first position of `from..to` where evictions make room.
fn yielding_between(
    alloc: Global,
    overlay: &Overlay,
    level: &Level,
    wish: &Wish,
    from: usize,
    to: usize,
) -> Result<Option<Candidate>, NoMemory>
    requires sound { Sound (cell_after overlay.now) }
    requires freed { level.now.index.free ≡ freed_of wish.now.spec.prec (cell_after overlay.now) }
    requires found { AreFound (tasks_claimed overlay.now) level.now.found }
    requires absent { task_at (tasks_claimed overlay.now) wish.now.key ≡ None }
    requires to { to ≤ length level.now.index.free }
    ensures first { IfOk result (λ found. FirstBetween (Yields (cell_after overlay.now) wish.now) from to (option_map (λ f. f.position) found)) }
    ensures below { IfOk result (λ found. IfSome found (λ f. f.position < to)) }
    ensures victims { IfOk result (λ found. IfSome found (λ f. AreVictimsAt (cell_after overlay.now) wish.now f.position (Some f.victims))) }
{
    let mut begin = from;
    while let Some(position) = level.freed().next(begin, to, wish.spec.need) {
        if let Some(victims) = victims_at(alloc, overlay, &level.found, wish, position)? {
            return Ok(Some(Candidate { position, victims }));
        }
        begin = position + 1;
    }
    Ok(None)
}

/// The victims on the machine at a position, if it suits the wish and evictions make room there. Where its tasks were
/// found before they aren't collected anew.
fn victims_at(
    alloc: Global,
    overlay: &Overlay,
    found: &Option<Found>,
    wish: &Wish,
    position: usize,
) -> Result<Option<Keys>, NoMemory>
    requires found { AreFound (tasks_claimed overlay.now) found.now }
    requires absent { task_at (tasks_claimed overlay.now) wish.now.key ≡ None }
    ensures { IfOk result (λ keys. AreVictimsAt (cell_after overlay.now) wish.now position keys) }
{
    let machines = overlay.board().machines();
    let Some(machine) = machines.at(position) else {
        return Ok(None);
    };
    if !eligible(&wish.constraints, &machine.attrs) {
        return Ok(None);
    }
    victims_on(alloc, overlay, found, wish, machine)
}

/// The fewest tasks on a machine that must go for a claim of the wish by rule `Fine` to be placed there:
/// the first few of its tasks of other jobs with lower precedence, in order of precedence, job and
/// index. Empty where none must go; `Ok(None)` exactly where the claim isn't placed even when all of
/// them go: for want of room, for a machine that isn't up, for a task that runs already, or for another
/// of its job there where it wants different machines. Constraints aren't looked at.
///
/// Costs the machine's tasks; where all that may go make room, these are copied. Of those the ones are sorted of which
/// it isn't seen at a glance that they may stay: where few go, few.
pub fn victims(
    alloc: Global,
    board: &Board,
    wish: &Wish,
    machine: u64,
) -> Result<Option<Keys>, NoMemory>
    ensures { IfOk result (λ keys. keys ≡ victims (cell_of board.now) machine wish.now) }
{
    victims_beside(alloc, &Overlay::over(alloc, board), wish, machine)
}

/// The same on the cell after the claims beside a board.
fn victims_beside(
    alloc: Global,
    overlay: &Overlay,
    wish: &Wish,
    machine: u64,
) -> Result<Option<Keys>, NoMemory>
    ensures { IfOk result (λ keys. keys ≡ victims (cell_after overlay.now) machine wish.now) }
{
    let machines = overlay.board().machines();
    let Some(position) = machines.position(machine) else {
        return Ok(None);
    };
    let Some(listed) = machines.at(position) else {
        return Ok(None);
    };
    if overlay.runs(wish.key) {
        return Ok(None);
    }
    victims_on(alloc, overlay, &None, wish, listed)
}

/// The same on a listed machine, of a wish whose task doesn't run.
fn victims_on(
    alloc: Global,
    overlay: &Overlay,
    found: &Option<Found>,
    wish: &Wish,
    machine: &Machine,
) -> Result<Option<Keys>, NoMemory>
    requires found { AreFound (tasks_claimed overlay.now) found.now }
    requires ordered { KeysRise (tasks_claimed overlay.now) }
    requires absent { task_at (tasks_claimed overlay.now) wish.now.key ≡ None }
    requires listed { machine_at (cell_after overlay.now).machines machine.now.id ≡ Some machine.now }
    ensures { IfOk result (λ keys. keys ≡ victims (cell_after overlay.now) machine.now.id wish.now) }
{
    if !machine.up {
        return Ok(None);
    }
    if has_rival(overlay, wish, machine.id) {
        return Ok(None);
    }
    match found_on(found, machine.id) {
        Some(tasks) => victims_among(alloc, wish, machine.cap, tasks),
        None => {
            let tasks = overlay.tasks_on(alloc, machine.id)?;
            victims_among(alloc, wish, machine.cap, tasks.as_slice())
        }
    }
}

/// The tasks that were found, if it was on this machine.
fn found_on(found: &Option<Found>, machine: u64) -> Option<&[Task]>
    ensures { (tasks : List Task) → AreFound tasks found.now → IfSome result (λ own. IsPermutation (filter (is_on machine) tasks) own.now) }
{
    match found {
        Some(found) if found.machine == machine => Some(found.tasks.as_slice()),
        _ => None,
    }
}

/// The fewest of the tasks on a machine of this capacity that must go for a wish, in order of eviction; `Ok(None)`
/// exactly where there isn't enough even when all go that may. The tasks come in any order.
fn victims_among(
    alloc: Global,
    wish: &Wish,
    cap: Need,
    tasks: &[Task],
) -> Result<Option<Keys>, NoMemory>
    ensures { IfOk result (λ keys. (own : List Task) → IsInOrder ByKey own → IsPermutation own tasks.now → AreFewest wish.now cap own keys) }
{
    let left = left_by_staying(wish, tasks, cap);
    if !wish.spec.need.fits(left) {
        return Ok(None);
    }
    let mut going = Vec::new(alloc);
    going.extend_from_slice(tasks)?;
    going.retain(|task| gives_way(wish, task));
    let gone = first_to_go(wish.spec.need, left, going);
    Ok(Some(keys_of(alloc, &gone)?))
}

/// The fewest of these tasks that must go for the others to leave enough for a need, in order of eviction; there is
/// enough where all go. The tasks come in any order. Where there is enough while all stay that come behind one of them
/// in this order, those aren't looked at any more, and so on while that leaves half of them or fewer; the rest is
/// sorted.
fn first_to_go(need: Need, left: Need, tasks: Vec<Task>) -> Vec<Task>
    requires room { IsTrue (fits need left) }
    ensures { (own : List Task) → IsInOrder ByKey own → IsPermutation own tasks.items → GoFirst need left (by_rank own) result.items }
{
    let count = tasks.len();
    if count < FEW {
        return first_sorted(need, left, tasks);
    }
    let other = tasks[count / FEW];
    let less = left_behind(&other, &tasks, left);
    if !need.fits(less) {
        return first_sorted(need, left, tasks);
    }
    let mut before = tasks;
    before.retain(|task| !is_behind(&other, task));
    if before.len() > count / 2 {
        return first_sorted(need, less, before);
    }
    first_to_go(need, less, before)
}

/// The same, by sorting all of them.
fn first_sorted(need: Need, left: Need, tasks: Vec<Task>) -> Vec<Task>
    requires room { IsTrue (fits need left) }
    ensures { (own : List Task) → IsInOrder ByKey own → IsPermutation own tasks.items → GoFirst need left (by_rank own) result.items }
{
    let mut sorted = tasks;
    sorted.sort_unstable_by_key(|task| (task.spec.prec, task.key.job, task.key.index));
    let count = fewest(need, left, &sorted);
    sorted.truncate(count);
    sorted
}

/// What is left of an amount when each of some tasks that doesn't give way to a wish has taken its need.
fn left_by_staying(wish: &Wish, tasks: &[Task], amount: Need) -> Need
    ensures { result ≡ minus amount (total (filter (stays wish.now) tasks.now)) }
{
    let mut left = amount;
    for task in tasks {
        left = left_by(wish, task, left);
    }
    left
}

/// What is left of an amount when a task that doesn't give way to a wish has taken its need.
fn left_by(wish: &Wish, task: &Task, amount: Need) -> Need
    ensures { result ≡ minus amount (need_staying wish.now task.now) }
{
    if gives_way(wish, task) {
        return amount;
    }
    amount.minus(task.spec.need)
}

/// What is left of an amount when each of some tasks that comes behind another in order of eviction has taken its need.
fn left_behind(other: &Task, tasks: &[Task], amount: Need) -> Need
    ensures { result ≡ minus amount (total (filter (goes_before other.now) tasks.now)) }
{
    let mut left = amount;
    for task in tasks {
        left = left_if_behind(other, task, left);
    }
    left
}

/// What is left of an amount when a task, if it comes behind another in order of eviction, has taken its need.
fn left_if_behind(other: &Task, task: &Task, amount: Need) -> Need
    ensures { result ≡ minus amount (total (filter (goes_before other.now) (task.now ∷ []))) }
{
    if is_behind(other, task) {
        return amount.minus(task.spec.need);
    }
    amount
}

/// Whether a task comes behind another in order of eviction.
fn is_behind(other: &Task, task: &Task) -> bool
    ensures { result ≡ goes_before other.now task.now }
{
    other.spec.prec < task.spec.prec
        || (other.spec.prec == task.spec.prec && key_lt(other.key, task.key))
}

/// How many of these tasks must go at least, in their order, for the others to leave enough for a need;
/// there is enough where all go. Begins with the last one and stops where one takes too much.
fn fewest(need: Need, left: Need, tasks: &[Task]) -> usize
    requires room { IsTrue (fits need left) }
    ensures { find (leaves_enough need left tasks.now) (range_with_len 0 (length tasks.now + 1)) ≡ Some result }
{
    let mut left = left;
    let mut count = tasks.len();
    while count > 0 {
        let less = left.minus(tasks[count - 1].spec.need);
        if !need.fits(less) {
            return count;
        }
        left = less;
        count -= 1;
    }
    0
}

/// Whether a task gives way to a wish: it is of another job, and its precedence is lower.
fn gives_way(wish: &Wish, task: &Task) -> bool
    ensures { result ≡ gives_way wish.now task.now }
{
    task.key.job != wish.key.job && task.spec.prec < wish.spec.prec
}
