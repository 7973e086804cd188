//! Passes take their turns, also on threads of their own, and the cell comes back.
ghost use Rattle.std.specs.Prelude.{◌≡◌, ◌<◌, ◌≤◌, ◌+◌, ◌^◌, ◌∷◌, [], length, IfSome, OnOk};
ghost use Rattle.omega_copy.specs.Copies.{CopyOf};

use omega_cell::Cell;
use omega_copy::PrivateCopy;
use omega_model::{
    Claim, Claims, Entries, Entry, Keys, Mode, Need, NoMemory, Rule, Spec, TaskKey, Txn, Verdict,
};
use omega_shared::{Pass, SharedCell};
use std::alloc::Global;
use std::process::Abort;
use std::sync::Wait;
use std::thread::{Threads, join};

/// A transaction without claims.
fn no_claims(alloc: Global) -> Txn
    ensures { result.claims ≡ [] }
{
    Txn {
        job: 1,
        rule: Rule::Coarse,
        mode: Mode::Incremental,
        claims: Claims::new(alloc),
    }
}

/// Syncs a copy, and commits a transaction without claims.
fn attempt<R: Wait>(
    rt: &R,
    alloc: Global,
    shared: &SharedCell,
    pass: &mut Pass,
    copy: &mut PrivateCopy,
) -> Result<(), NoMemory>
    requires of { pass.old.of ≡ shared.now.of }
    requires left { 2 ≤ pass.old.turns }
    requires stands { CopyOf copy.old pass.old.seen }
    ensures of { pass.new.of ≡ pass.old.of }
    ensures turns { OnOk result (pass.new.turns + 2 ≡ pass.old.turns) }
    ensures stands { OnOk result (CopyOf copy.new pass.new.seen) }
{
    shared.sync(rt, alloc, pass, copy)?;
    match shared.commit(rt, alloc, pass, copy, no_claims(alloc)) {
        Ok(_) => Ok(()),
        Err(_) => Err(NoMemory),
    }
}

/// Takes all turns of a pass in attempts, as long as there is memory.
fn attempt_all<R: Wait>(
    rt: &R,
    alloc: Global,
    shared: &SharedCell,
    pass: &mut Pass,
    copy: &mut PrivateCopy,
)
    requires of { pass.old.of ≡ shared.now.of }
    requires stands { CopyOf copy.old pass.old.seen }
    ensures { pass.new.of ≡ pass.old.of }
{
    for _ in 0..pass.turns_left() / 2 {
        if attempt(rt, alloc, shared, pass, copy).is_err() {
            return;
        }
    }
}

/// The same from a copy that has seen nothing. Hands the pass back.
fn take_turns<R: Wait>(rt: &R, alloc: Global, shared: &SharedCell, mut pass: Pass) -> Pass
    requires { pass.of ≡ shared.now.of }
    ensures { result.of ≡ shared.now.of }
{
    let mut copy = PrivateCopy::new(alloc);
    attempt_all(rt, alloc, shared, &mut pass, &mut copy);
    pass
}

/// The first and the second of two.
fn both<T: Drop>(mut items: Vec<T>) -> Option<(T, T)>
    ensures { IfSome result (λ pair. items.items ≡ pair.0 ∷ pair.1 ∷ []) }
{
    let second = items.pop()?;
    let first = items.pop()?;
    if !items.is_empty() {
        return None;
    }
    Some((first, second))
}

/// A cell that is shared by two callers with so many turns each, and their passes, if there is memory.
pub(crate) fn share_by_two<R: Wait>(
    rt: &R,
    alloc: Global,
    cell: Cell,
    turns: u32,
) -> Option<(SharedCell, Pass, Pass)>
    requires short { length cell.history < 2 ^ 63 }
    ensures callers { IfSome result (λ made. made.0.callers ≡ 2) }
    ensures of { IfSome result (λ made. (made.1.of ≡ made.0.of) × (made.2.of ≡ made.0.of)) }
{
    let made = SharedCell::share(rt, alloc, cell, 2, turns);
    let (shared, passes) = made.ok()?;
    let (first, second) = both(passes)?;
    Some((shared, first, second))
}

/// The history that two callers leave who each take all their turns on a thread of their own, if
/// there is memory.
fn commit_together<R: Threads + Wait + Sync>(rt: &R, alloc: Global, turns: u32) -> Option<Entries> {
    let (shared, first, second) = share_by_two(rt, alloc, Cell::new(alloc), turns)?;
    let (first, second) = join(
        rt,
        || -> Pass
            requires { first.of ≡ shared.of }
            ensures { result.of ≡ shared.of }
        { take_turns(rt, alloc, &shared, first) },
        || -> Pass
            requires { second.of ≡ shared.of }
            ensures { result.of ≡ shared.of }
        { take_turns(rt, alloc, &shared, second) },
    );
    let passes = Vec::from_array(alloc, [first, second]).ok()?;
    Some(shared.close(rt, passes).into_history())
}

/// How many commits of a scheduler a history has.
fn commits_of(history: &[Entry], number: u32) -> usize {
    history
        .iter()
        .filter(|entry| matches!(entry, Entry::Commit { scheduler, .. } if *scheduler == number))
        .count()
}

#[test]
fn two_passes_on_threads(rt: HostRuntime) {
    let history = commit_together(&rt, rt.alloc(), 2000).expect(&rt, "memory");
    assert_eq!(rt; history.len(), 2000);
    for number in 0..2 {
        assert_eq!(rt; commits_of(history.as_slice(), number), 1000);
    }
}

/// What each task needs that is claimed. Machine 1 has room for ten of them.
pub(crate) const SPEC: Spec = Spec {
    need: Need {
        cpu: 1,
        mem: 1,
        disk: 1,
    },
    prec: 0,
    differ: false,
};

/// A cell with machine 1, which is up, as its only entry, if there is memory.
pub(crate) fn one_machine(alloc: Global) -> Option<Cell>
    ensures { IfSome result (λ cell. length cell.history ≡ 1) }
{
    let mut cell = Cell::new(alloc);
    let cap = Need {
        cpu: 10,
        mem: 10,
        disk: 10,
    };
    match cell.feed(alloc, Entry::MachineAdd { machine: 1, cap }) {
        Ok(()) => Some(cell),
        Err(_) => None,
    }
}

/// What a scheduler does: it syncs, or commits a claim of a job's task on machine 1.
#[derive(Clone, Copy)]
enum Step {
    Sync,
    Claim(u64, Rule),
}

/// What is answered: how many entries the copy has seen then, or the verdict.
#[derive(Clone, Copy, PartialEq, Eq)]
enum Answer {
    Seen(u64),
    Told(Verdict),
}

/// Syncs a copy, if there is memory.
fn sync<R: Wait>(
    rt: &R,
    alloc: Global,
    shared: &SharedCell,
    pass: &mut Pass,
    copy: &mut PrivateCopy,
) -> Option<Answer>
    requires of { pass.old.of ≡ shared.now.of }
    requires left { 0 < pass.old.turns }
    requires stands { CopyOf copy.old pass.old.seen }
    ensures of { pass.new.of ≡ pass.old.of }
    ensures stands { CopyOf copy.new pass.new.seen }
{
    match shared.sync(rt, alloc, pass, copy) {
        Ok(()) => Some(Answer::Seen(copy.seen())),
        Err(_) => None,
    }
}

/// A transaction with a claim of a job's task on machine 1.
fn claim_of(alloc: Global, job: u64, rule: Rule) -> Option<Txn>
    ensures { IfSome result (λ txn. length txn.claims < 2 ^ 32) }
{
    let mut claims = Claims::new(alloc);
    let claim = Claim {
        key: TaskKey { job, index: 0 },
        machine: 1,
        spec: SPEC,
        victims: Keys::new(alloc),
    };
    if claims.push(claim).is_err() {
        return None;
    }
    Some(Txn {
        job,
        rule,
        mode: Mode::Incremental,
        claims,
    })
}

/// Commits a transaction, and answers the verdict on its first claim, if there is memory.
fn commit<R: Wait>(
    rt: &R,
    alloc: Global,
    shared: &SharedCell,
    pass: &mut Pass,
    copy: &PrivateCopy,
    txn: Txn,
) -> Option<Answer>
    requires of { pass.old.of ≡ shared.now.of }
    requires left { 0 < pass.old.turns }
    requires stands { CopyOf copy.now pass.old.seen }
    requires few { length txn.claims < 2 ^ 32 }
    ensures of { pass.new.of ≡ pass.old.of }
    ensures stands { CopyOf copy.now pass.new.seen }
{
    match shared.commit(rt, alloc, pass, copy, txn) {
        Ok(reply) => Some(Answer::Told(reply.outcomes.get(0)?.verdict)),
        Err(_) => None,
    }
}

/// Lets a scheduler do a step, if it has a turn left and there is memory.
fn take_step<R: Wait>(
    rt: &R,
    alloc: Global,
    shared: &SharedCell,
    pass: &mut Pass,
    copy: &mut PrivateCopy,
    step: Step,
) -> Option<Answer>
    requires of { pass.old.of ≡ shared.now.of }
    requires stands { CopyOf copy.old pass.old.seen }
    ensures of { pass.new.of ≡ pass.old.of }
    ensures stands { CopyOf copy.new pass.new.seen }
{
    if pass.turns_left() == 0 {
        return None;
    }
    match step {
        Step::Sync => sync(rt, alloc, shared, pass, copy),
        Step::Claim(job, rule) => {
            let txn = claim_of(alloc, job, rule)?;
            commit(rt, alloc, shared, pass, copy, txn)
        }
    }
}

/// Two schedulers that share a cell, each with a pass and a private copy.
#[derive(Drop)]
struct Pair {
    shared: SharedCell,
    first: Pass,
    second: Pass,
    here: PrivateCopy,
    there: PrivateCopy,
    ghost of: { (first.of ≡ shared.of) × (second.of ≡ shared.of) },
    ghost stands: { CopyOf here first.seen × CopyOf there second.seen },
}

impl Pair {
    /// Schedulers with so many turns each, whose copies have seen nothing, and a cell with machine 1,
    /// if there is memory. Boxed, since proving a function costs by all parts of what it drops.
    fn new<R: Wait>(rt: &R, alloc: Global, turns: u32) -> Option<Box<Pair>> {
        let cell = one_machine(alloc)?;
        let (shared, first, second) = share_by_two(rt, alloc, cell, turns)?;
        let pair = Pair {
            shared,
            first,
            second,
            here: PrivateCopy::new(alloc),
            there: PrivateCopy::new(alloc),
        };
        Box::new(alloc, pair).ok()
    }

    /// Lets the first or the second scheduler do a step, if it has a turn left and there is memory.
    fn step<R: Wait>(&mut self, rt: &R, alloc: Global, number: u32, step: Step) -> Option<Answer> {
        let shared = &self.shared;
        match number {
            0 => take_step(rt, alloc, shared, &mut self.first, &mut self.here, step),
            _ => take_step(rt, alloc, shared, &mut self.second, &mut self.there, step),
        }
    }
}

/// Lets two schedulers go through a story, and sees that each step is answered so.
fn expect_story<R: Wait + Abort>(
    rt: &R,
    alloc: Global,
    pair: &mut Pair,
    story: &[(u32, Step, Answer)],
) {
    for (number, step, answer) in story {
        assert!(rt; pair.step(rt, alloc, *number, *step) == Some(*answer));
    }
}

/// Two copies have seen the machine alone. One scheduler places two tasks there, so the machine has
/// changed twice for the other, whose claim is refused by the coarse rule and placed by the fine one.
/// Then each syncs, and sees what the other did.
#[test]
fn a_sync_sees_what_others_did(rt: HostRuntime) {
    let placed = Answer::Told(Verdict::Placed);
    let changed = Answer::Told(Verdict::Changed { now: 3, copy: 1 });
    let story = [
        (0, Step::Sync, Answer::Seen(1)),
        (1, Step::Sync, Answer::Seen(1)),
        (0, Step::Claim(2, Rule::Coarse), placed),
        (0, Step::Claim(3, Rule::Fine), placed),
        (1, Step::Claim(4, Rule::Coarse), changed),
        (1, Step::Claim(4, Rule::Fine), placed),
        (0, Step::Sync, Answer::Seen(5)),
        (1, Step::Sync, Answer::Seen(5)),
    ];
    let mut pair = Pair::new(&rt, rt.alloc(), 4).expect(&rt, "memory");
    expect_story(&rt, rt.alloc(), &mut pair, &story);
}

/// Commits a transaction, and where memory runs out commits what is handed back once more. Answers
/// the verdict on its first claim, if there is memory by then.
fn commit_at_last<R: Wait>(
    rt: &R,
    alloc: Global,
    shared: &SharedCell,
    pass: &mut Pass,
    copy: &PrivateCopy,
    txn: Txn,
) -> Option<Answer>
    requires of { pass.old.of ≡ shared.now.of }
    requires left { 1 < pass.old.turns }
    requires stands { CopyOf copy.now pass.old.seen }
    requires few { length txn.claims < 2 ^ 32 }
{
    match shared.commit(rt, alloc, pass, copy, txn) {
        Ok(reply) => Some(Answer::Told(reply.outcomes.get(0)?.verdict)),
        Err((back, NoMemory)) => commit(rt, alloc, shared, pass, copy, back),
    }
}

/// Commits a claim from a copy that has synced, in at most two attempts. The outer answer is missing
/// where there is no memory for what comes before the commit.
fn commit_in_two<R: Wait>(rt: &R, alloc: Global) -> Option<Option<Answer>> {
    let (shared, mut first, _second) = share_by_two(rt, alloc, one_machine(alloc)?, 3)?;
    let mut copy = PrivateCopy::new(alloc);
    take_step(rt, alloc, &shared, &mut first, &mut copy, Step::Sync)?;
    let txn = claim_of(alloc, 2, Rule::Coarse)?;
    if first.turns_left() < 2 {
        return None;
    }
    Some(commit_at_last(rt, alloc, &shared, &mut first, &copy, txn))
}

/// Where each allocation is refused in turn, from outside, a commit that is made again after want of
/// memory, of the transaction that was handed back, answers its reply.
#[test]
fn a_commit_that_is_made_again(rt: HostRuntime) {
    let answer = commit_in_two(&rt, rt.alloc()).expect(&rt, "memory");
    assert!(rt; answer == Some(Answer::Told(Verdict::Placed)));
}

/// Looks at the cell, lets the view go, and commits a transaction without claims that was planned there. Answers
/// how many entries it had seen, if it has two turns left and there is memory.
fn look_and_commit<R: Wait>(
    rt: &R,
    alloc: Global,
    shared: &SharedCell,
    pass: &mut Pass,
) -> Option<Answer>
    requires of { pass.old.of ≡ shared.now.of }
    ensures of { pass.new.of ≡ pass.old.of }
{
    if pass.turns_left() < 2 {
        return None;
    }
    let seen = shared.look(rt, alloc, pass).ok()?.cell().history().len() as u64;
    let txn = no_claims(alloc);
    match shared.commit_planned(rt, alloc, pass, seen, txn, Vec::new(alloc)) {
        Ok(_) => Some(Answer::Seen(seen)),
        Err(_) => None,
    }
}

/// One scheduler looks at a cell with one entry and keeps its view while the other commits, and lets it go before
/// the other commits again. Answers how many entries the view has at last, and how many the cell has in the end,
/// if there is memory.
fn commit_beside_a_view<R: Wait>(rt: &R, alloc: Global) -> Option<(usize, usize)> {
    let (shared, mut first, mut second) = share_by_two(rt, alloc, one_machine(alloc)?, 4)?;
    if first.turns_left() == 0 {
        return None;
    }
    let view = shared.look(rt, alloc, &mut first).ok()?;
    look_and_commit(rt, alloc, &shared, &mut second)?;
    let seen = view.cell().history().len();
    drop(view);
    look_and_commit(rt, alloc, &shared, &mut second)?;
    let passes = Vec::from_array(alloc, [first, second]).ok()?;
    Some((seen, shared.close(rt, passes).history().len()))
}

/// The view stays as it was, and both commits are in the cell: the first went on with a copy.
#[test]
fn a_commit_beside_a_view(rt: HostRuntime) {
    let (seen, kept) = commit_beside_a_view(&rt, rt.alloc()).expect(&rt, "memory");
    assert_eq!(rt; seen, 1);
    assert_eq!(rt; kept, 3);
}
