//! A run by the free clock, over whatever stands for the world.
//!
//! The loop knows neither cells nor desks. It asks the world when the next round, the next end of a task and the next
//! commit are due, and lets the first of them happen, until nothing is left.
ghost use Rattle.std.specs.Prelude.{◌≡◌, ◌<◌, ◌≤◌, ℕ, Bool, true, false, List, Option, Some, None, OnOk, IfOk, suc};
ghost use Rattle.omega_model.specs.declared.entries.Entry.{Entry};
ghost use Rattle.omega_model.specs.declared.rows.TraceTables.{TraceTables};
ghost use Rattle.omega_model.specs.declared.settings.Settings.{Settings};
ghost use Rattle.omega_laws.specs.VirtualTime.{Timed};
ghost use Rattle.omega_free_laws.specs.Free.{FreeRun, after};
ghost use Rattle.omega_free.specs.FreeLoop.{IsInSomeRun, StandsOver, StepsOn};
ghost use Rattle.omega_free_laws.specs.FreeSteps.{Moment, beginning};
ghost use Rattle.omega_free.specs.NextEvents.{due_commit, due_event, next_event, sooner_event};

use omega_model::NoMemory;

/// What happens next.
#[derive(Clone, Copy, Debug, PartialEq, Eq)]
pub enum NextEvent {
    /// The next round opens.
    Opening,
    /// The task that is due first ends.
    Ending,
    /// This scheduler commits.
    Commit(u32),
    /// Nothing: it is over.
    Nothing,
}

/// A world that runs by the free clock.
///
/// `stands` says that in the run of a trace this moment is the world's. What of a moment a world keeps, and how, is its
/// own: the clauses ask it for what is due, and that it moves on as the definitions do. `reads` is how a trace is read
/// under some settings, and `left` how many tasks at most will still end of themselves after a history; `to_come` is a
/// number of steps that is surely enough. A call that wants memory may leave the world anywhere.
pub trait FreeWorld {
    ghost use Rattle.std.specs.Prelude.{◌≡◌, ◌≢◌, ℕ, List, Option, Some, None, OnOk};
    ghost use Rattle.omega_model.specs.declared.entries.Entry.{Entry};
    ghost use Rattle.omega_model.specs.declared.rows.TraceTables.{TraceTables};
    ghost use Rattle.omega_model.specs.declared.settings.Settings.{Settings};
    ghost use Rattle.omega_laws.specs.VirtualTime.{Timed};
    ghost use Rattle.omega_free_laws.specs.StepsLeft.{BoundsEnds, still_to_come};
    ghost use Rattle.omega_free.specs.FreeLoop.{CommitsDue, EndsDue, IsDueFirst, IsInSomeRun, OpensRound, due_time, end_at_moment, end_time, first_time};
    ghost use Rattle.omega_free_laws.specs.FreeSteps.{Moment, first_due};
    ghost use Rattle.omega_free_laws.specs.Readings.{Reading};

    ghost settings: { Self → Settings };

    ghost reads: { Settings → TraceTables → Reading };

    ghost left: { Settings → TraceTables → List Entry → ℕ };

    ghost bounds: { (settings : Settings) (trace : TraceTables) → BoundsEnds (reads settings trace) (left settings trace) };

    ghost stands: { Self → TraceTables → Moment → Type 0 };

    ghost history: { Self → List Entry };

    ghost times: { Self → List Timed };

    ghost to_come: { Self → ℕ };

    ghost tells_history: { (world : Self) (trace : TraceTables) (moment : Moment) → stands world trace moment → history world ≡ moment.past.history };

    ghost tells_times: { (world : Self) (trace : TraceTables) (moment : Moment) → stands world trace moment → times world ≡ moment.times };

    ghost tells_to_come: { (world : Self) (trace : TraceTables) (moment : Moment) → stands world trace moment → to_come world ≡ still_to_come (left (settings world) trace) (settings world) (reads (settings world) trace) moment };

    /// When the next round opens, in microseconds of the trace. `None` where none is to come.
    fn round_due(&self) -> Option<u128>
        ensures { (trace : TraceTables) (moment : Moment) → stands self.now trace moment → result ≡ first_time moment.coming };

    /// When the task ends that is due to end first, in microseconds of the trace. `None` where none is.
    fn end_due(&self) -> Option<u128>
        ensures { (trace : TraceTables) (moment : Moment) → stands self.now trace moment → result ≡ end_time (end_at_moment (reads (settings self.now) trace) moment) };

    /// The scheduler whose attempt is due first, and when, in microseconds of the trace. `None` where nobody is deciding.
    fn commit_due(&self) -> Option<(u32, u128)>
        ensures { (trace : TraceTables) (moment : Moment) → stands self.now trace moment → result ≡ due_time (first_due moment.crew) };

    /// The next round opens.
    fn open(&mut self) -> Result<(), NoMemory>
        requires { IsInSomeRun stands reads (settings self.old) self.old }
        ensures opens { OnOk result (OpensRound stands reads (settings self.old) self.old self.new) }
        ensures stays { settings self.new ≡ settings self.old };

    /// The task that is due to end first ends.
    fn end(&mut self) -> Result<(), NoMemory>
        requires { IsInSomeRun stands reads (settings self.old) self.old }
        ensures ends { OnOk result (EndsDue stands reads (settings self.old) self.old self.new) }
        ensures stays { settings self.new ≡ settings self.old };

    /// The scheduler whose attempt is due first commits, and syncs.
    fn commit(&mut self, scheduler: u32) -> Result<(), NoMemory>
        requires in_run { IsInSomeRun stands reads (settings self.old) self.old }
        requires due { (trace : TraceTables) (moment : Moment) → stands self.old trace moment → IsDueFirst scheduler moment }
        ensures commits { OnOk result (CommitsDue stands reads (settings self.old) scheduler self.old self.new) }
        ensures stays { settings self.new ≡ settings self.old };
}

/// Something that is due, and when, if it is.
fn due_event(event: NextEvent, time: Option<u128>) -> Option<(u128, NextEvent)>
    ensures { result ≡ due_event event time }
{
    match time {
        None => None,
        Some(time) => Some((time, event)),
    }
}

/// A commit that is due, and when, if one is.
fn due_commit(commit: Option<(u32, u128)>) -> Option<(u128, NextEvent)>
    ensures { result ≡ due_commit commit }
{
    match commit {
        None => None,
        Some((scheduler, time)) => Some((time, NextEvent::Commit(scheduler))),
    }
}

/// Which of two is due first; at one time it is the former.
fn sooner_event(
    one: Option<(u128, NextEvent)>,
    other: Option<(u128, NextEvent)>,
) -> Option<(u128, NextEvent)>
    ensures { result ≡ sooner_event one other }
{
    match (one, other) {
        (None, other) => other,
        (Some(one), None) => Some(one),
        (Some(one), Some(other)) => {
            if other.0 < one.0 {
                Some(other)
            } else {
                Some(one)
            }
        }
    }
}

/// What happens next, where the next round, the first end and the first attempt are due at these times: nothing where
/// no round is to come and nobody is deciding, though tasks still run.
fn next_event(round: Option<u128>, end: Option<u128>, commit: Option<(u32, u128)>) -> NextEvent
    ensures { result ≡ next_event round end commit }
{
    if round.is_none() && commit.is_none() {
        return NextEvent::Nothing;
    }
    let later = sooner_event(due_event(NextEvent::Ending, end), due_commit(commit));
    match sooner_event(due_event(NextEvent::Opening, round), later) {
        None => NextEvent::Nothing,
        Some((_, event)) => event,
    }
}

/// Lets happen what is due first: at one time openings come before ends, and ends before commits. Answers whether
/// anything was left to happen.
fn happen<W: FreeWorld>(world: &mut W) -> Result<bool, NoMemory>
    requires { IsInSomeRun W.stands W.reads (W.settings world.old) world.old }
    ensures steps { IfOk result (λ happened. StepsOn W.stands W.reads (W.settings world.old) world.old world.new happened) }
    ensures stays { W.settings world.new ≡ W.settings world.old }
{
    match next_event(world.round_due(), world.end_due(), world.commit_due()) {
        NextEvent::Opening => world.open()?,
        NextEvent::Ending => world.end()?,
        NextEvent::Commit(scheduler) => world.commit(scheduler)?,
        NextEvent::Nothing => return Ok(false),
    }
    Ok(true)
}

/// Lets a world that stands at the beginning run by the free clock until it is over. Its history and the times of its
/// commits are those of the definitions, and the only ones; and it stands at the moment at which it is over. Where memory
/// runs out the world may stand anywhere.
pub fn in_free_time<W: FreeWorld>(world: &mut W) -> Result<(), NoMemory>
    requires tries { 1 ≤ (W.settings world.old).tries }
    requires start { (trace : TraceTables) × W.stands world.old trace (beginning (W.settings world.old) (W.reads (W.settings world.old) trace)) }
    ensures free { OnOk result ((trace : TraceTables) → W.stands world.old trace (beginning (W.settings world.old) (W.reads (W.settings world.old) trace))
        → FreeRun (W.settings world.old) (W.reads (W.settings world.old) trace) (W.history world.new) (W.times world.new)) }
    ensures only { OnOk result ((trace : TraceTables) → W.stands world.old trace (beginning (W.settings world.old) (W.reads (W.settings world.old) trace))
        → (history : List Entry) (times : List Timed) → FreeRun (W.settings world.old) (W.reads (W.settings world.old) trace) history times
        → (history ≡ W.history world.new) × (times ≡ W.times world.new)) }
    ensures over { OnOk result ((trace : TraceTables) → W.stands world.old trace (beginning (W.settings world.old) (W.reads (W.settings world.old) trace))
        → StandsOver W.stands W.reads (W.settings world.old) trace world.new) }
    ensures stays { W.settings world.new ≡ W.settings world.old }
{
    while happen(world)? {}
    Ok(())
}
