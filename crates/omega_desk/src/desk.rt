//! The desk.
ghost use Rattle.std.specs.Prelude.{◌≡◌, ◌+◌, ◌<◌, ◌≤◌, ◌^◌, ℕ, [], Some, drop, length, is_some, option_map, slice_get, unwrap_or, IfOk, OnOk, OnErr};
ghost use Rattle.std.specs.List.{All, list_any};
ghost use Rattle.omega_model.specs.Draws.{drawn_start};
ghost use Rattle.omega_model.specs.Policy.{policy_of, schedulers};
ghost use Rattle.omega_model.specs.Touches.{is_placed};
ghost use Rattle.omega_model.specs.Work.{after_outcomes, failing_after, failing_with, fresh};
ghost use Rattle.omega_model.specs.declared.wishes.Request.{Request};
ghost use Rattle.omega_desk.specs.Counts.{count_of, IsCounted, KeepsCounts, KeepsRoom};
ghost use Rattle.omega_desk.specs.Desks.{AnswersFirst, IsSameDesk, left_at, still_tried};
ghost use Rattle.omega_desk.specs.Walks.{HasDistinctWishes};

use crate::failures::Failures;
use crate::first::{First, next_of, with_all};
use crate::walk::{ends_request, rest_of};
use omega_mapreduce::{CountedRequest, CountedRequests};
use omega_model::{Constraints, Need, NoMemory, Outcome, Policy, Reply, Request, Settings};
use rand_pcg::Lcg64Xsh32;
use rand_pcg::rand_core::utils::NextWord;
use std::alloc::Global;
use std::collections::VecDeque;
use std::marker::Model;

/// What is left of a scheduler's work in a round, and how many attempts it has taken in all.
///
/// Wishes for extra tasks are counted, and listed at the first attempt on their request; its list goes with the
/// request. So the memory is that of the other wishes and of one request with all its wishes.
///
/// A contract sees whose desk it is, how many attempts it has taken, the requests that are left in order,
/// the first of them with the wishes that aren't placed yet, whether wishes of that one are counted still, and the
/// counts that decide when a request ends.
#[derive(Drop)]
pub struct Desk {
    settings: Settings,
    scheduler: u32,
    attempts: u64,
    taken: u64,
    present: Option<First>,
    waiting: VecDeque<CountedRequest>,
    failures: Failures,
}

impl Model for Desk {
    ghost use Rattle.std.specs.Prelude.{◌++◌, option_to_list};
    ghost use Rattle.omega_desk.specs.Desks.{DeskState, IsDesk};
    ghost use Rattle.omega_desk.specs.First.{counted_request, first_request};

    ghost Value = { DeskState };

    ghost view = { λ d. record { settings = d.settings; scheduler = d.scheduler; attempts = d.attempts; requests = option_to_list (first_request d.present) ++ d.waiting.items; counted = counted_request d.present; taken = d.taken; counts = d.failures } };

    ghost invariant = { λ d. IsDesk (first_request d.present) d.waiting.items d.attempts d.taken d.failures };
}

impl Desk {
    /// The desk of a scheduler that has no work and has taken no attempts.
    pub fn new(alloc: Global, settings: &Settings, scheduler: u32) -> Desk
        ensures settings { result.settings ≡ settings.now }
        ensures scheduler { result.scheduler ≡ scheduler }
        ensures attempts { result.attempts ≡ 0 }
        ensures left { left_at result ≡ fresh (λ job. 0) [] }
        ensures idle { result.requests ≡ [] }
    {
        Desk {
            settings: *settings,
            scheduler,
            attempts: 0,
            taken: 0,
            present: None,
            waiting: VecDeque::new(alloc),
            failures: Failures::new(alloc),
        }
    }

    /// Whose desk it is.
    pub fn scheduler(&self) -> u32
        ensures { result ≡ self.now.scheduler }
    {
        self.scheduler
    }

    /// How its scheduler plans and commits.
    pub fn policy(&self) -> Policy
        requires batch { self.now.settings.batch ≤ 30 }
        requires known { self.now.scheduler < schedulers self.now.settings }
        ensures { result ≡ policy_of self.now.settings self.now.scheduler }
    {
        self.settings.policy(self.scheduler)
    }

    /// Takes a round's requests in order, but for those of jobs that are given up, and makes room for
    /// what `take` counts. Where memory runs out no work is left. Costs the requests, each times the
    /// logarithm of the jobs that the desk has seen.
    pub fn begin(&mut self, requests: CountedRequests) -> Result<(), NoMemory>
        requires no_work { self.old.requests ≡ [] }
        requires distinct { All HasDistinctWishes requests }
        ensures desk { IsSameDesk self.old self.new }
        ensures attempts { self.new.attempts ≡ self.old.attempts }
        ensures ok { OnOk result (left_at self.new ≡ fresh (left_at self.old).failing
            (still_tried self.old.settings (left_at self.old).failing requests)) }
        ensures err { OnErr result (left_at self.new ≡ fresh (left_at self.old).failing []) }
    {
        let requests = still_tried(requests, &self.failures, &self.settings);
        reserve(&mut self.failures, requests.as_slice())?;
        self.waiting = VecDeque::from(requests);
        self.present = next_of(&mut self.waiting);
        Ok(())
    }

    /// Whether something is left of the round's work.
    pub fn has_work(&self) -> bool
        ensures { result ≡ is_some (slice_get self.now.requests 0) }
    {
        self.present.is_some()
    }

    /// The present request with all its wishes, where some of them are counted; `None` where all are listed,
    /// or nothing is left. Costs the wishes.
    pub fn listed(&self, alloc: Global) -> Result<Option<Request>, NoMemory>
        ensures { IfOk result (λ listed. listed ≡ self.now.counted) }
    {
        match &self.present {
            Some(First::Counted(request)) => Ok(Some(request.to_listed(alloc)?)),
            _ => Ok(None),
        }
    }

    /// The present request with the wishes that aren't placed yet, of which `listed` is what was answered by the
    /// method of that name. `None` exactly where nothing is left of the round's work.
    pub fn present<'a>(&'a self, listed: &'a Option<Request>) -> Option<&'a Request>
        requires { listed.now ≡ self.now.counted }
        ensures { option_map (λ request. request.now) result ≡ slice_get self.now.requests 0 }
    {
        match &self.present {
            Some(First::Listed(request)) => Some(request),
            Some(First::Counted(_)) => listed.as_ref(),
            None => None,
        }
    }

    /// How many wishes of the present request are left, 0 where nothing is.
    pub fn wish_count(&self) -> usize
        ensures { result ≡ unwrap_or (option_map (λ request. length request.wishes) (slice_get self.now.requests 0)) 0 }
    {
        match &self.present {
            Some(First::Listed(request)) => request.wishes.len(),
            Some(First::Counted(request)) => request.len(),
            None => 0,
        }
    }

    /// What the first wish of the present request needs, and its constraints; `None` where nothing is left.
    pub fn first_asked(&self) -> Option<(Need, &Constraints)> {
        match &self.present {
            Some(First::Listed(request)) => {
                let wish = request.wishes.as_slice().first()?;
                Some((wish.spec.need, &wish.constraints))
            }
            Some(First::Counted(request)) => request.first_asked(),
            None => None,
        }
    }

    /// The present request leaves without an attempt on it, if there is one, and the attempts on the next
    /// are counted from 0. How often its job has failed stays as it was.
    pub fn skip(&mut self)
        ensures desk { IsSameDesk self.old self.new }
        ensures attempts { self.new.attempts ≡ self.old.attempts }
        ensures left { left_at self.new ≡ fresh (left_at self.old).failing (drop 1 self.old.requests) }
    {
        let next = next_of(&mut self.waiting);
        self.taken = 0;
        self.present = next;
    }

    /// How many requests are left of the round's work.
    pub fn request_count(&self) -> u128
        ensures { result ≡ length self.now.requests }
    {
        u128::from(self.present.is_some()) + self.waiting.len() as u128
    }

    /// The place in a list of so many machines at which the present attempt begins: below their number,
    /// or 0 where there are none. Its cost doesn't grow with the attempts.
    pub fn start(&self, machines: usize) -> usize
        ensures drawn { result ≡ drawn_start self.now.settings self.now.scheduler self.now.attempts machines }
        ensures below { 0 < machines → result < machines }
    {
        if machines == 0 {
            return 0;
        }
        let mut words = Lcg64Xsh32::new(self.settings.seed, u64::from(self.scheduler));
        words.advance(self.attempts);
        words.next_word() as usize % machines
    }

    /// Counts an attempt on the present request and moves on by the reply to its commit, whose outcomes
    /// are for wishes of the request, in the order of the wishes. `listed` is what the method of that name
    /// answered for the attempt. Costs the request, and the logarithm of the jobs that the desk has seen.
    pub fn take(&mut self, listed: Option<Request>, reply: &Reply)
        requires listed { listed ≡ self.old.counted }
        requires answers { AnswersFirst self.old.requests reply.now.outcomes }
        requires few { self.old.attempts + 1 < 2 ^ 64 }
        ensures desk { IsSameDesk self.old self.new }
        ensures attempts { self.new.attempts ≡ self.old.attempts + 1 }
        ensures left { after_outcomes self.old.settings (left_at self.old) self.old.requests reply.now.outcomes
            ≡ Some (left_at self.new) }
    {
        let Some(request) = with_all(self.present.take(), listed) else {
            unreachable!()
        };
        let outcomes = reply.outcomes.as_slice();
        self.attempts += 1;
        self.taken += 1;
        let failing = note(&mut self.failures, request.job, outcomes);
        let rest = rest_of(request, outcomes);
        if ends_request(&self.settings, self.taken, failing, &rest, outcomes) {
            self.taken = 0;
            self.present = next_of(&mut self.waiting);
        } else {
            self.present = Some(First::Listed(rest));
        }
    }
}

/// The requests of jobs that aren't given up.
fn still_tried(
    requests: CountedRequests,
    failures: &Failures,
    settings: &Settings,
) -> Vec<CountedRequest>
    ensures { result.items ≡ still_tried settings.now (count_of failures.now) requests }
{
    let mut tried = requests.into_items();
    tried.retain(|request| failures.of(request.job()) < u64::from(settings.give_up));
    tried
}

/// Makes room for the counts of the jobs of these requests.
fn reserve(failures: &mut Failures, requests: &[CountedRequest]) -> Result<(), NoMemory>
    ensures counts { KeepsCounts failures.old failures.new }
    ensures room { OnOk result (All (λ (request : Request). IsCounted failures.new request.job) requests.now) }
{
    for request in requests {
        failures.reserve(request.job())?;
    }
    Ok(())
}

/// Counts one more commit for a job, with these outcomes. Answers the job's count after it.
fn note(failures: &mut Failures, job: u64, outcomes: &[Outcome]) -> u64
    requires room { IsCounted failures.old job }
    requires few { count_of failures.old job + 1 < 2 ^ 64 }
    ensures count { result ≡ failing_after (count_of failures.old job) outcomes.now }
    ensures counts { (other : ℕ) → count_of failures.new other ≡ failing_with (count_of failures.old) job outcomes.now other }
    ensures others { KeepsRoom failures.old failures.new }
{
    failures.note(job, places_any(outcomes))
}

/// Whether outcomes place a task.
fn places_any(outcomes: &[Outcome]) -> bool
    ensures { result ≡ list_any (λ outcome. is_placed outcome.verdict) outcomes.now }
{
    outcomes.iter().any(|outcome| outcome.verdict.is_placed())
}
