//! What is counted in the reply to one commit.
ghost use Rattle.std.specs.Prelude.{◌≡◌, ◌∷◌, ◌+◌, ℕ, [], count_by, length, not, IfOk, if◌then◌else◌};
ghost use Rattle.std.specs.List.{list_any};
ghost use Rattle.omega_model.specs.Reply.{admits};
ghost use Rattle.omega_model.specs.ReportCounts.{evicted_by, is_refused, is_withdrawn};
ghost use Rattle.omega_model.specs.Touches.{is_placed};
ghost use Rattle.omega_model.specs.declared.entries.Entry.{Entry};
ghost use Rattle.omega_report.specs.Counted.{counts_in};
ghost use Rattle.omega_report.specs.Tallies.{counts_over, sum_of_counts};

use crate::counts::Counts;
use omega_model::{Judgement, NoMemory, Txn, Verdict};

impl Counts {
    /// Nothing counted.
    pub const NONE: Counts = Counts {
        commits: 0,
        empty: 0,
        placing: 0,
        conflicted: 0,
        placed: 0,
        refused: 0,
        withdrawn: 0,
        evicted: 0,
    };

    /// The counts of one commit, whoever made it. Costs its claims. `NoMemory` where it evicts more
    /// than 2^64 - 1 tasks, which fit into no memory.
    pub fn of_commit(txn: &Txn, reply: &[Judgement]) -> Result<Counts, NoMemory>
        ensures { IfOk result (λ counts. (scheduler seen : ℕ) → counts_in counts ≡ counts_over (Entry.Commit scheduler seen txn.now reply.now ∷ [])) }
    {
        Ok(Counts {
            commits: 1,
            empty: one_if(txn.claims.is_empty()),
            placing: one_if(places_some(reply)),
            conflicted: one_if(leaves_some(reply)),
            placed: placed_in(reply),
            refused: refused_in(reply),
            withdrawn: withdrawn_in(reply),
            evicted: evicted_in(reply)?,
        })
    }

    /// The sum of two counts. `NoMemory` where a sum is above 2^64 - 1: so much fits into no memory, and
    /// so can't have been counted.
    pub fn plus(&self, other: &Counts) -> Result<Counts, NoMemory>
        ensures { IfOk result (λ counts. counts_in counts ≡ sum_of_counts (counts_in self.now) (counts_in other.now)) }
    {
        Ok(Counts {
            commits: sum(self.commits, other.commits)?,
            empty: sum(self.empty, other.empty)?,
            placing: sum(self.placing, other.placing)?,
            conflicted: sum(self.conflicted, other.conflicted)?,
            placed: sum(self.placed, other.placed)?,
            refused: sum(self.refused, other.refused)?,
            withdrawn: sum(self.withdrawn, other.withdrawn)?,
            evicted: sum(self.evicted, other.evicted)?,
        })
    }
}

fn sum(a: u64, b: u64) -> Result<u64, NoMemory>
    ensures { IfOk result (λ sum. sum ≡ a + b) }
{
    match a.checked_add(b) {
        Some(sum) => Ok(sum),
        None => Err(NoMemory),
    }
}

fn one_if(test: bool) -> u64
    ensures { result ≡ (if test then 1 else 0) }
{
    if test { 1 } else { 0 }
}

/// Whether a claim is placed.
pub fn places_some(reply: &[Judgement]) -> bool
    ensures { result ≡ list_any admits reply.now }
{
    reply.iter().any(|judgement| judgement.verdict.is_placed())
}

/// Whether a claim isn't placed.
fn leaves_some(reply: &[Judgement]) -> bool
    ensures { result ≡ list_any (λ judgement. not (admits judgement)) reply.now }
{
    reply.iter().any(|judgement| !judgement.verdict.is_placed())
}

/// How many claims are placed.
fn placed_in(reply: &[Judgement]) -> u64
    ensures { result ≡ count_by (λ judgement. is_placed judgement.verdict) reply.now }
{
    reply
        .iter()
        .filter(|judgement| judgement.verdict.is_placed())
        .count() as u64
}

/// How many claims are refused.
fn refused_in(reply: &[Judgement]) -> u64
    ensures { result ≡ count_by (λ judgement. is_refused judgement.verdict) reply.now }
{
    reply
        .iter()
        .filter(|judgement| is_refused(judgement.verdict))
        .count() as u64
}

/// How many claims are withdrawn.
fn withdrawn_in(reply: &[Judgement]) -> u64
    ensures { result ≡ count_by (λ judgement. is_withdrawn judgement.verdict) reply.now }
{
    reply
        .iter()
        .filter(|judgement| is_withdrawn(judgement.verdict))
        .count() as u64
}

/// How many tasks the placed claims evict.
fn evicted_in(reply: &[Judgement]) -> Result<u64, NoMemory>
    ensures { IfOk result (λ count. count ≡ length (evicted_by reply.now)) }
{
    let mut count = 0;
    for judgement in reply {
        if judgement.verdict.is_placed() {
            count = sum(count, judgement.evicted.len() as u64)?;
        }
    }
    Ok(count)
}

fn is_withdrawn(verdict: Verdict) -> bool
    ensures { result ≡ is_withdrawn verdict }
{
    matches!(verdict, Verdict::Withdrawn(_))
}

fn is_refused(verdict: Verdict) -> bool
    ensures { result ≡ is_refused verdict }
{
    !verdict.is_placed() && !is_withdrawn(verdict)
}
