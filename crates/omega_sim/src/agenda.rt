//! When schedulers commit next.
ghost use Rattle.std.specs.Prelude.{◌≡◌, ◌<◌, ◌≤◌, ◌^◌, ℕ, List, Option, None, Some, IfOk, length, replicate, slice_set};
ghost use Rattle.omega_sim.specs.Agenda.{IsFirst, sooner};

use omega_model::NoMemory;
use std::alloc::Global;
use std::marker::Model;

/// For each scheduler the time of its next commit in microseconds, if one is set. A contract sees the
/// list of these times.
///
/// There are at most 32 schedulers, and to commit a scheduler plans, which costs far more than a look at
/// each of them. So this is a plain list and no heap.
#[derive(Drop)]
pub struct Agenda {
    times: Vec<Option<u128>>,
}

impl Model for Agenda {
    ghost use Rattle.std.specs.Prelude.{List, Option, ℕ, ◌<◌, ◌^◌, length};

    ghost Value = { List (Option ℕ) };

    ghost view = { λ a. a.times.items };

    ghost invariant = { λ a. length a.times.items < 2 ^ 32 };
}

impl Agenda {
    /// An agenda of so many schedulers, on which no time is set.
    pub fn new(alloc: Global, schedulers: u32) -> Result<Agenda, NoMemory>
        ensures { IfOk result (λ agenda. agenda ≡ replicate schedulers None) }
    {
        let times = vec![in alloc; None; schedulers as usize]?;
        Ok(Agenda { times })
    }

    /// Sets when a scheduler commits next, in microseconds, in place of the time set before.
    pub fn set(&mut self, scheduler: u32, time: u128)
        requires { scheduler < length self.old }
        ensures { self.new ≡ slice_set self.old scheduler (Some time) }
    {
        self.times[scheduler as usize] = Some(time);
    }

    /// Leaves no time set for a scheduler.
    pub fn clear(&mut self, scheduler: u32)
        requires { scheduler < length self.old }
        ensures { self.new ≡ slice_set self.old scheduler None }
    {
        self.times[scheduler as usize] = None;
    }

    /// The scheduler that commits first, and when: the one with the least time, and of several at the
    /// same time the one with the least number. `None` exactly where no time is set. Costs a look at each
    /// scheduler.
    pub fn first(&self) -> Option<(u32, u128)>
        ensures { IsFirst self.now result }
    {
        let mut first = None;
        for (scheduler, time) in self.times.iter().enumerate() {
            first = sooner(first, scheduler as u32, *time);
        }
        first
    }
}

/// Of one scheduler with its time, and another with a greater number and its time, the one that commits
/// first.
fn sooner(first: Option<(u32, u128)>, scheduler: u32, time: Option<u128>) -> Option<(u32, u128)>
    ensures { result ≡ sooner first scheduler time }
{
    let Some(time) = time else {
        return first;
    };
    match first {
        Some((_, earlier)) if earlier <= time => first,
        _ => Some((scheduler, time)),
    }
}
