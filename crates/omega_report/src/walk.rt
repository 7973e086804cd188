//! One walk over a history.
ghost use Rattle.std.specs.Prelude.{◌≡◌, ◌++◌, ◌∷◌, ◌&&◌, ◌≤◌, ℕ, List, [], IfOk, OnOk, slice_get};
ghost use Rattle.omega_cell.specs.Effects.{AreEffects};
ghost use Rattle.omega_desk.specs.Counts.{count_of, Notes};
ghost use Rattle.omega_model.specs.Cell.{Cell, keys_of};
ghost use Rattle.omega_model.specs.Policy.{schedulers};
ghost use Rattle.omega_model.specs.ReportLines.{is_round_end, lines_on, middle_lines};
ghost use Rattle.omega_model.specs.Requests.{failed_after};
ghost use Rattle.omega_model.specs.State.{displaced};
ghost use Rattle.omega_model.specs.declared.entries.Entry.{Entry};
ghost use Rattle.omega_report.specs.Noted.{usage_if};
ghost use Rattle.omega_report.specs.Walking.{if_printed, prints_rounds, IsAfter};
ghost use Rattle.omega_report.specs.Tallies.{tallies};

use crate::ahead::Ahead;
use crate::entry_lines::push_entry;
use crate::judgements::places_some;
use crate::page::Page;
use crate::tally::Tally;
use omega_cell::{Effects, Usage};
use omega_desk::Failures;
use omega_model::{Command, Entry, NoMemory, Settings, TaskKey};
use std::alloc::Global;

/// What one walk over a history has gathered: the page with the lines of the entries so far, and what
/// they count for each scheduler and each job.
#[derive(Drop)]
pub struct Walk {
    pub page: Page,
    pub tally: Tally,
    pub failures: Failures,
}

/// The walk over a whole history with these effects, whose lines go on a page unless the command prints
/// a summary alone. Costs the entries and the lines.
pub fn walked(
    alloc: Global,
    settings: &Settings,
    page: Page,
    history: &[Entry],
    effects: &Effects,
) -> Result<Walk, NoMemory>
    requires batch { settings.now.batch ≤ 30 }
    requires effects { AreEffects history.now effects.now }
    ensures { IfOk result (λ walk. IsAfter (schedulers settings.now) page.format (page.lines ++ middle_lines settings.now.command history.now) history.now walk) }
{
    let prints = prints_rounds(settings.command);
    let mut walk = Walk {
        page,
        tally: Tally::new(alloc, settings.schedulers())?,
        failures: Failures::new(alloc),
    };
    let mut ahead = Ahead::of(effects);
    for (place, entry) in history.iter().enumerate() {
        let (stopped, behind) = ahead.past(entry);
        ahead = behind;
        walk.take_in(entry, stopped, prints)?;
        walk.push_use_if(use_is_due(prints, history, place + 1), ahead.usage())?;
    }
    Ok(walk)
}

impl Walk {
    /// Takes in the next entry, whose lines go on the page if `prints`. `stopped` names the tasks that it
    /// displaces, in order of eviction.
    fn take_in(&mut self, entry: &Entry, stopped: &[TaskKey], prints: bool) -> Result<(), NoMemory>
        ensures format { OnOk result (self.new.page.format ≡ self.old.page.format) }
        ensures lines { OnOk result ((cell : Cell) → stopped.now ≡ keys_of (displaced cell.tasks entry.now) → self.new.page.lines ≡ self.old.page.lines ++ if_printed prints (lines_on cell entry.now)) }
        ensures tally { OnOk result ((schedulers : ℕ) (history : List Entry) → self.old.tally ≡ tallies schedulers history → self.new.tally ≡ tallies schedulers (history ++ entry.now ∷ [])) }
        ensures failures { OnOk result ((job : ℕ) → count_of self.new.failures job ≡ failed_after job (count_of self.old.failures job) entry.now) }
    {
        push_entry(&mut self.page, prints, entry, stopped)?;
        self.tally.note(entry)?;
        note_entry(&mut self.failures, entry)?;
        Ok(())
    }

    /// Appends the line that says how much of the cell is used, if it is due.
    fn push_use_if(&mut self, due: bool, usage: Usage) -> Result<(), NoMemory>
        ensures format { OnOk result (self.new.page.format ≡ self.old.page.format) }
        ensures lines { OnOk result (self.new.page.lines ≡ self.old.page.lines ++ usage_if due usage) }
        ensures tally { self.new.tally ≡ self.old.tally }
        ensures failures { self.new.failures ≡ self.old.failures }
    {
        if !due {
            return Ok(());
        }
        self.page.usage(usage.used, usage.capacity)?;
        Ok(())
    }
}

/// Notes the next entry, which counts for its job if it is a commit. `NoMemory` also where a count is
/// 2^64 - 1 already: so many commits fit into no memory.
fn note_entry(failures: &mut Failures, entry: &Entry) -> Result<(), NoMemory>
    ensures { OnOk result ((job : ℕ) → count_of failures.new job ≡ failed_after job (count_of failures.old job) entry.now) }
{
    match entry {
        Entry::Commit { txn, reply, .. } => {
            note_commit(failures, txn.job, places_some(reply.as_slice()))
        }
        _ => Ok(()),
    }
}

/// Counts one more commit for a job, which placed something or nothing.
fn note_commit(failures: &mut Failures, job: u64, placed: bool) -> Result<(), NoMemory>
    ensures { OnOk result (Notes failures.old failures.new job placed) }
{
    if failures.of(job) == u64::MAX {
        return Err(NoMemory);
    }
    failures.reserve(job)?;
    failures.note(job, placed);
    Ok(())
}

/// Whether a command prints the lines of the rounds.
fn prints_rounds(command: Command) -> bool
    ensures { result ≡ prints_rounds command }
{
    match command {
        Command::Replay | Command::Run | Command::Simulate | Command::Resume => true,
        Command::Generate | Command::Audit => false,
    }
}

/// Whether the use is printed after so many entries.
fn use_is_due(prints: bool, history: &[Entry], count: usize) -> bool
    ensures { result ≡ (prints && is_round_end (slice_get history.now count)) }
{
    prints && ends_at(history, count)
}

/// Whether a round ends after so many entries.
fn ends_at(history: &[Entry], count: usize) -> bool
    ensures { result ≡ is_round_end (slice_get history.now count) }
{
    match history.get(count) {
        None | Some(Entry::Round { .. }) => true,
        Some(_) => false,
    }
}
