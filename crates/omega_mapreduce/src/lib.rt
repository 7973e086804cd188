//! How many more extra tasks a MapReduce job gets, and requests whose wishes for them are counted.
//!
//! Promised: the number of extra tasks of a MapReduce job, exactly, for all amounts and any percentage. A
//! request whose wishes for extra tasks are counted is seen as the one that has them all, and listed it is that
//! one. No clause says what `first_asked` answers, here and at a desk: it only tells whether threads are worth
//! it.
#![tactic(auto)]

ghost use Rattle.std.specs.Prelude.{◌≡◌, ◌≤◌};
ghost use Rattle.omega_model.specs.Extras.{target, allowed, extras};
ghost use Rattle.omega_model.specs.declared.settings.Extra.TheVariants.{Cap};
ghost use Rattle.omega_mapreduce.specs.Component.{KeepsWithin, FineUpTo};

mod counted;
mod indexes;

pub use counted::{CountedExtras, CountedRequest, CountedRequests};
use omega_model::{Extra, Need};

/// How many more extra tasks a MapReduce job gets, which has so many activities and `asked` wanted
/// tasks, beside `running` extra ones that run already.
///
/// It is what `asked` and `running` lack of the target, which is `activities`, or under
/// `Extra::Relative` at most four times `asked`. Under `Extra::Cap` it is the most of that with which
/// the use of each component stays within the percentage of its capacity; 0 where some component is
/// beyond that already. `need` is that of each extra task, `used` is what is in use in the whole cell,
/// and `capacity` is that of the cell, all in the same units. Any amounts and any percentage are
/// allowed. Three divisions at most.
pub fn extras(
    choice: Extra,
    activities: u32,
    asked: u32,
    running: u32,
    need: Need,
    used: Need,
    capacity: Need,
) -> u32
    ensures { result ≡ extras choice activities asked running need used capacity }
{
    let missing = target(choice, activities, asked)
        .saturating_sub(asked)
        .saturating_sub(running);
    allowed(choice, missing, need, used, capacity)
}

/// How many tasks a job should have in all, wanted and extra ones: as many as its activities, or under
/// `Extra::Relative` at most four times its `asked` wanted ones.
pub fn target(choice: Extra, activities: u32, asked: u32) -> u32
    ensures { result ≡ target choice activities asked }
{
    match choice {
        Extra::Max | Extra::Cap(_) => activities,
        Extra::Relative => activities.min(asked.saturating_mul(4)),
    }
}

/// As many of `count` extra tasks as the choice allows.
fn allowed(choice: Extra, count: u32, need: Need, used: Need, capacity: Need) -> u32
    ensures { result ≡ allowed choice count need used capacity }
{
    match choice {
        Extra::Max | Extra::Relative => count,
        Extra::Cap(percent) => most_within(percent, count, need, used, capacity),
    }
}

/// The most extra tasks, up to `count`, that keep the use of each component within a percentage of
/// its capacity; 0 where there is no such number.
fn most_within(percent: u32, count: u32, need: Need, used: Need, capacity: Need) -> u32
    ensures { result ≡ allowed (Cap percent) count need used capacity }
{
    let cpu = most_of(percent, count, need.cpu, used.cpu, capacity.cpu);
    let mem = most_of(percent, count, need.mem, used.mem, capacity.mem);
    let disk = most_of(percent, count, need.disk, used.disk, capacity.disk);
    cpu.min(mem).min(disk)
}

/// The most extra tasks, up to `count`, that keep the use of one component within a percentage of
/// its capacity; 0 where there is no such number.
fn most_of(percent: u32, count: u32, need: u64, used: u64, capacity: u64) -> u32
    ensures bound { result ≤ count }
    ensures most { FineUpTo (KeepsWithin percent need used capacity) count result }
{
    let bound = u128::from(capacity) * u128::from(percent);
    let Some(spare) = bound.checked_sub(u128::from(used) * 100) else {
        return 0;
    };
    match spare.checked_div(u128::from(need) * 100) {
        Some(most) => most.min(u128::from(count)) as u32,
        None => count,
    }
}
