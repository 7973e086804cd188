//! What is answered to a claim, part by part.
ghost use Rattle.std.specs.Prelude.{◌≡◌, ◌≤◌, ◌&&◌, ◌==◌, ℕ, List, [], None, Some, not, nat_le, take, length, option_map, is_some, vec_capacity, IfSome, IsTrue, ◌++◌, ◌∷◌, if◌then◌else◌};
ghost use Rattle.std.specs.List.{find, list_any};
ghost use Rattle.std.specs.Option.{option_or};
ghost use Rattle.omega_machines.specs.Table.{free_at, seq_at};
ghost use Rattle.omega_model.specs.Cell.{goes_before, task_at};
ghost use Rattle.omega_model.specs.Judge.{known_of, refusal_if, no_machine, already_running, same_job, free_without, runs_on, withstands, standing_victims, evicted_for, verdict_given, would_be_placed, judge};
ghost use Rattle.omega_board.specs.Judging.{changed_on, comes_behind, ComesLast, judge_on};
ghost use Rattle.omega_model.specs.Keys.{is_among};
ghost use Rattle.omega_model.specs.Need.{Fits, fits, plus};
ghost use Rattle.omega_model.specs.Fields.{greatest};
ghost use Rattle.omega_model.specs.Touches.{is_placed, seq};
ghost use Rattle.omega_model.specs.declared.entries.Entry.{Entry};
ghost use Rattle.omega_model.specs.declared.claims.Rule.{Rule};
ghost use Rattle.omega_model.specs.declared.claims.Verdict.TheVariants.{VictimRank, Full};
ghost use Rattle.omega_running.specs.Kept.{KeysRise};
ghost use Rattle.omega_board.specs.Board.{cell_of, IsBoard};

use crate::Board;
use omega_model::{Claim, Need, Task, TaskKey, Verdict};
use omega_running::{is_among, key_lt};

/// What is asked of victims that stand: the first of them that withstands the claim, since its
/// precedence isn't lower, and what is free on the machine once they are off it.
#[derive(Clone, Copy)]
struct StandingVictims {
    withstands: Option<TaskKey>,
    free: Need,
}

impl Board {
    /// The verdict on a claim, never `Withdrawn`, and in `evicted` the victims that the claim evicts, in
    /// their order: none where it isn't placed. `evicted` is empty before, and has room for all victims.
    /// `copy_seq` is the sequence number that the claim's machine had in the copy on which the claim was
    /// planned, or `None` where changes don't matter. Where the machine has another one now, is up, and
    /// the task doesn't run, the verdict is `Changed`.
    ///
    /// Costs a look at the machine, a second one where `copy_seq` is a number, a look-up of the claim's
    /// task, and, where none of these refuses, the claim's victims, each of them looked up once; one
    /// that doesn't come behind all those before it, in order of eviction, is looked for among them too.
    /// Where the claim is placed, those that it evicts are looked up once more. With the different-machines
    /// flag it costs besides the tasks of the job on the machine, each looked for among the victims, and at
    /// worst the square of the victims that stand.
    pub fn judge(&self, claim: &Claim, copy_seq: Option<u64>, evicted: &mut Vec<TaskKey>) -> Verdict
        requires empty { evicted.old.items ≡ [] }
        requires room { length claim.now.victims ≤ vec_capacity evicted.old }
        ensures judged { judge_on (cell_of self.now) (seq_at self.now.table claim.now.machine) copy_seq claim.now ≡ record { verdict = result; evicted = evicted.new.items } }
        ensures on_history { (history : List Entry) (seen : ℕ) (rule : Rule) → seq_at self.now.table claim.now.machine ≡ seq history claim.now.machine → copy_seq ≡ known_of history seen rule claim.now.machine → judge history seen (cell_of self.now) rule claim.now ≡ record { verdict = result; evicted = evicted.new.items } }
        ensures capacity { vec_capacity evicted.new ≡ vec_capacity evicted.old }
        ensures ordered { KeysRise self.now.tasks }
    {
        let Some(free) = self.table.free(claim.machine) else {
            return Verdict::NoMachine;
        };
        let verdict = self.verdict(claim, free, copy_seq, evicted);
        self.keep_evicted(claim, verdict, free, evicted);
        verdict
    }

    /// The verdict where the machine is up and has so much free, and in `standing`, where the claim is
    /// placed, its victims that stand.
    fn verdict(
        &self,
        claim: &Claim,
        free: Need,
        copy_seq: Option<u64>,
        standing: &mut Vec<TaskKey>,
    ) -> Verdict
        requires kept { IsBoard self.now.table self.now.tasks }
        requires up { no_machine (cell_of self.now) claim.now ≡ None }
        requires free { free_at self.now.table claim.now.machine ≡ Some free }
        requires empty { standing.old.items ≡ [] }
        requires room { length claim.now.victims ≤ vec_capacity standing.old }
        ensures verdict { result ≡ verdict_given (changed_on (seq_at self.now.table claim.now.machine) copy_seq) (cell_of self.now) claim.now }
        ensures standing { IsTrue (is_placed result) → standing.new.items ≡ standing_victims self.now.tasks claim.now }
        ensures capacity { vec_capacity standing.new ≡ vec_capacity standing.old }
    {
        if let Some(verdict) = self.already_running(claim) {
            return verdict;
        }
        if let Some(verdict) = self.changed(claim.machine, copy_seq) {
            return verdict;
        }
        let found = self.gather_standing(claim, free, standing);
        if let Some(verdict) = found.victim_rank() {
            return verdict;
        }
        if let Some(verdict) = self.same_job(claim) {
            return verdict;
        }
        if let Some(verdict) = found.full(claim.spec.need) {
            return verdict;
        }
        Verdict::Placed
    }

    fn already_running(&self, claim: &Claim) -> Option<Verdict>
        ensures { result ≡ already_running (cell_of self.now) claim.now }
    {
        self.running
            .get(claim.key)
            .map(|task| Verdict::AlreadyRunning(task.machine))
    }

    fn changed(&self, machine: u64, copy_seq: Option<u64>) -> Option<Verdict>
        ensures { result ≡ changed_on (seq_at self.now.table machine) copy_seq }
    {
        let copy = copy_seq?;
        let now = self.table.seq(machine);
        if copy == now {
            return None;
        }
        Some(Verdict::Changed { now, copy })
    }

    /// Puts the victims that stand behind each other, for which there is room, and answers what is
    /// asked of them. `free` is what is free on the machine before.
    fn gather_standing(
        &self,
        claim: &Claim,
        free: Need,
        standing: &mut Vec<TaskKey>,
    ) -> StandingVictims
        requires kept { IsBoard self.now.table self.now.tasks }
        requires free { free_at self.now.table claim.now.machine ≡ Some free }
        requires empty { standing.old.items ≡ [] }
        requires room { length claim.now.victims ≤ vec_capacity standing.old }
        ensures standing { standing.new.items ≡ standing_victims self.now.tasks claim.now }
        ensures withstands { result.withstands ≡ find (withstands self.now.tasks claim.now.spec.prec) (standing_victims self.now.tasks claim.now) }
        ensures free { result.free ≡ free_without (cell_of self.now) claim.now (standing_victims self.now.tasks claim.now) }
        ensures capacity { vec_capacity standing.new ≡ vec_capacity standing.old }
    {
        let mut last = None;
        let mut found = StandingVictims {
            withstands: None,
            free,
        };
        for key in claim.victims.as_slice() {
            if let Some(task) = self.standing_task(
                claim.machine,
                *key,
                standing.as_slice(),
                &mut last,
            ) {
                found = found.and_victim(claim.spec.prec, &task);
                standing.push_reserved(*key);
            }
        }
        found
    }

    /// The task of a victim, where it runs on the machine and isn't among those before it. `last` is
    /// which of those comes last in order of eviction, and then which of those and the victim, where it
    /// stands. A victim behind it in this order isn't among them, and costs no look at each.
    fn standing_task(
        &self,
        machine: u64,
        key: TaskKey,
        before: &[TaskKey],
        last: &mut Option<Task>,
    ) -> Option<Task>
        requires { ComesLast self.now.tasks before.now last.old }
        ensures stands { is_some result ≡ (runs_on self.now.tasks machine key && not (is_among key before.now)) }
        ensures task { IfSome result (λ task. task_at self.now.tasks key ≡ Some task) }
        ensures last { ComesLast self.now.tasks (if is_some result then before.now ++ key ∷ [] else before.now) last.new }
    {
        let task = self.task_on(machine, key)?;
        if comes_behind(*last, &task) {
            *last = Some(task);
            return Some(task);
        }
        if is_among(key, before) {
            None
        } else {
            Some(task)
        }
    }

    /// The task of this key, where it runs on the machine.
    fn task_on(&self, machine: u64, key: TaskKey) -> Option<Task>
        ensures runs { is_some result ≡ runs_on self.now.tasks machine key }
        ensures task { IfSome result (λ task. task_at self.now.tasks key ≡ Some task) }
    {
        let task = *self.running.get(key)?;
        if task.machine == machine {
            Some(task)
        } else {
            None
        }
    }

    /// Refused where the claim must be alone of its job and another task of the job stays on its
    /// machine. The claim's whole list serves for its victims that stand, since the others on it don't
    /// run there.
    fn same_job(&self, claim: &Claim) -> Option<Verdict>
        ensures { result ≡ same_job (cell_of self.now) claim.now }
    {
        if !claim.spec.differ {
            return None;
        }
        self.running
            .other_of_job(claim.key.job, claim.machine, claim.victims.as_slice())
            .map(Verdict::SameJob)
    }

    /// What a running task needs.
    pub(crate) fn need_of(&self, key: TaskKey) -> Need
        requires { IsTrue (is_some (task_at self.now.tasks key)) }
        ensures { Some result ≡ option_map (λ task. task.spec.need) (task_at self.now.tasks key) }
    {
        self.running.get(key).unwrap().spec.need
    }

    /// Keeps of the victims that stand those that a claim with this verdict evicts. `free` is what is
    /// free on its machine before.
    fn keep_evicted(&self, claim: &Claim, verdict: Verdict, free: Need, evicted: &mut Vec<TaskKey>)
        requires kept { IsBoard self.now.table self.now.tasks }
        requires free { free_at self.now.table claim.now.machine ≡ Some free }
        requires placed { IsTrue (is_placed verdict) → IsTrue (would_be_placed (cell_of self.now) claim.now) }
        requires standing { IsTrue (is_placed verdict) → evicted.old.items ≡ standing_victims self.now.tasks claim.now }
        ensures evicted { evicted.new.items ≡ (if is_placed verdict then evicted_for (cell_of self.now) claim.now else []) }
        ensures capacity { vec_capacity evicted.new ≡ vec_capacity evicted.old }
    {
        if verdict.is_placed() {
            let needed = self.needed(claim, free, evicted.as_slice());
            evicted.truncate(needed);
        } else {
            evicted.clear();
        }
    }

    /// How many of the victims that stand have to stop, in their order, for a claim that is placed.
    /// `free` is what is free on its machine before. Where none stand nothing is looked up.
    fn needed(&self, claim: &Claim, free: Need, standing: &[TaskKey]) -> usize
        requires kept { IsBoard self.now.table self.now.tasks }
        requires free { free_at self.now.table claim.now.machine ≡ Some free }
        requires placed { IsTrue (would_be_placed (cell_of self.now) claim.now) }
        requires standing { standing.now ≡ standing_victims self.now.tasks claim.now }
        ensures { take result standing.now ≡ evicted_for (cell_of self.now) claim.now }
    {
        let mut free = free;
        for (n, key) in standing.iter().enumerate() {
            if makes_room(claim, free, &standing[n..]) {
                return n;
            }
            free = free.plus(self.need_of(*key));
        }
        standing.len()
    }
}

impl StandingVictims {
    /// The same with one more victim behind them, for a claim of this precedence.
    fn and_victim(self, prec: u8, task: &Task) -> StandingVictims
        requires { Fits (plus self.free task.now.spec.need) greatest }
        ensures withstands { result.withstands ≡ option_or self.withstands (if nat_le prec task.now.spec.prec then Some task.now.key else None) }
        ensures free { result.free ≡ plus self.free task.now.spec.need }
    {
        let withstands = prec <= task.spec.prec;
        StandingVictims {
            withstands: self.withstands.or(withstands.then_some(task.key)),
            free: self.free.plus(task.spec.need),
        }
    }

    fn victim_rank(&self) -> Option<Verdict>
        ensures { result ≡ option_map VictimRank self.now.withstands }
    {
        self.withstands.map(Verdict::VictimRank)
    }

    /// Refused where a claim needs more than is free.
    fn full(&self, need: Need) -> Option<Verdict>
        ensures { result ≡ refusal_if (not (fits need self.now.free)) (Full self.now.free) }
    {
        if need.fits(self.free) {
            None
        } else {
            Some(Verdict::Full(self.free))
        }
    }
}

/// Whether a task comes behind another in order of eviction, if there is another.
fn comes_behind(other: Option<Task>, task: &Task) -> bool
    ensures { result ≡ comes_behind other task.now }
{
    match other {
        Some(other) => goes_before(&other, task),
        None => true,
    }
}

/// Whether the first task comes before the second in order of eviction.
fn goes_before(a: &Task, b: &Task) -> bool
    ensures { result ≡ goes_before a.now b.now }
{
    a.spec.prec < b.spec.prec || (a.spec.prec == b.spec.prec && key_lt(a.key, b.key))
}

/// Whether a claim needs no more than this, and none of its job is among those that are spared where
/// it must be alone of its job.
fn makes_room(claim: &Claim, free: Need, spared: &[TaskKey]) -> bool
    ensures { result ≡ (fits claim.now.spec.need free && not (claim.now.spec.differ && list_any (λ key. key.job == claim.now.key.job) spared.now)) }
{
    claim.spec.need.fits(free) && !(claim.spec.differ && has_job(claim.key.job, spared))
}

fn has_job(job: u64, keys: &[TaskKey]) -> bool
    ensures { result ≡ list_any (λ key. key.job == job) keys.now }
{
    keys.iter().any(|key| key.job == job)
}
