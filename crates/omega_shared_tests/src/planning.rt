//! Callers whose copies sync, plan and commit.
ghost use Rattle.std.specs.Prelude.{◌≡◌, ◌<◌, ◌≤◌, ◌^◌, length, IfSome};
ghost use Rattle.omega_copy.specs.Copies.{CopyOf};

use crate::shared::{SPEC, one_machine, share_by_two};
use omega_copy::PrivateCopy;
use omega_model::{
    Constraints, Mode, Need, NoMemory, Policy, Reply, Request, Rule, Spec, TaskKey, Txn, Wish,
    Wishes,
};
use omega_plan::plan;
use omega_shared::{Pass, SharedCell};
use std::alloc::Global;
use std::mem;
use std::sync::Wait;

/// How these callers plan.
const POLICY: Policy = Policy {
    rule: Rule::Coarse,
    mode: Mode::Incremental,
    preempt: false,
};

/// A job's request for three tasks, each of which needs four tenths of machine 1, if there is memory.
fn three_tasks(alloc: Global, job: u64) -> Option<Request> {
    let need = Need {
        cpu: 4,
        mem: 4,
        disk: 4,
    };
    let mut wishes = Wishes::new(alloc);
    for index in 0..3 {
        let wish = Wish {
            key: TaskKey { job, index },
            spec: Spec { need, ..SPEC },
            constraints: Constraints::new(alloc),
        };
        wishes.push(wish).ok()?;
    }
    Some(Request { job, wishes })
}

/// Plans a request on a copy, which is as it was then.
fn plan_on(copy: &mut PrivateCopy, alloc: Global, request: &Request) -> Result<Txn, NoMemory>
    ensures { copy.new ≡ copy.old }
{
    let whole = mem::replace(copy, PrivateCopy::new(alloc));
    let (board, mut indexes) = whole.into_parts();
    let txn = plan(alloc, &board, &mut indexes, request, 0, &POLICY);
    *copy = PrivateCopy::of_parts(board, indexes);
    txn
}

/// An attempt: syncs a copy, plans a job's request on it, and commits the plan. `None` where memory runs out.
fn attempt<R: Wait>(
    rt: &R,
    alloc: Global,
    shared: &SharedCell,
    pass: &mut Pass,
    copy: &mut PrivateCopy,
    job: u64,
) -> Option<Reply>
    requires of { pass.old.of ≡ shared.now.of }
    requires left { 2 ≤ pass.old.turns }
    requires stands { CopyOf copy.old pass.old.seen }
    ensures of { pass.new.of ≡ pass.old.of }
    ensures stands { CopyOf copy.new pass.new.seen }
{
    let request = three_tasks(alloc, job)?;
    shared.sync(rt, alloc, pass, copy).ok()?;
    let txn = plan_on(copy, alloc, &request).ok()?;
    if txn.claims.len() > u32::MAX as usize {
        return None;
    }
    shared.commit(rt, alloc, pass, copy, txn).ok()
}

/// How many tasks of jobs 2 and 3 are placed where the second caller makes its attempt after the first one's.
fn placed_in_turn<R: Wait>(rt: &R, alloc: Global) -> Option<(usize, usize)> {
    let (shared, mut first, mut second) = share_by_two(rt, alloc, one_machine(alloc)?, 2)?;
    if first.turns_left() < 2 || second.turns_left() < 2 {
        return None;
    }
    let mut here = PrivateCopy::new(alloc);
    let mut there = PrivateCopy::new(alloc);
    let one = attempt(rt, alloc, &shared, &mut first, &mut here, 2)?;
    let two = attempt(rt, alloc, &shared, &mut second, &mut there, 3)?;
    Some((placed_of(&one), placed_of(&two)))
}

/// How many claims of a reply are placed.
fn placed_of(reply: &Reply) -> usize {
    reply
        .outcomes
        .as_slice()
        .iter()
        .filter(|outcome| outcome.verdict.is_placed())
        .count()
}

/// The first caller plans two of its three tasks, for which there is room, and both are placed. The second one's
/// copy has seen them, so it plans none.
#[test]
fn copies_that_plan(rt: HostRuntime) {
    let placed = placed_in_turn(&rt, rt.alloc()).expect(&rt, "memory");
    assert_eq!(rt; placed.0, 2);
    assert_eq!(rt; placed.1, 0);
}
