//! The report of a history.
ghost use Rattle.std.specs.Prelude.{◌≡◌, ◌++◌, ◌<◌, ◌≤◌, ◌^◌, List, IfOk, OnOk, count_by, length, nat_le};
ghost use Rattle.omega_cell.specs.Effects.{AreEffects, usage_in};
ghost use Rattle.omega_desk.specs.Counts.{count_of};
ghost use Rattle.omega_feed.specs.Left.{AreLeft};
ghost use Rattle.omega_model.specs.Lawful.{begins_round};
ghost use Rattle.omega_model.specs.Policy.{schedulers};
ghost use Rattle.omega_model.specs.Report.{Line};
ghost use Rattle.omega_model.specs.ReportForms.{in_format};
ghost use Rattle.omega_model.specs.ReportLines.{final_lines, lines_where};
ghost use Rattle.omega_model.specs.State.{state};
ghost use Rattle.omega_model.specs.Wanted.{WantedTask};
ghost use Rattle.omega_model.specs.declared.entries.Entry.{Entry};
ghost use Rattle.omega_model.specs.declared.rows.TraceTables.{TraceTables};
ghost use Rattle.omega_model.specs.declared.settings.Format.{Format as Form};
ghost use Rattle.omega_report.specs.Begun.{BeginsRoundsOf};
ghost use Rattle.omega_report.specs.Details.{lines_told};
ghost use Rattle.omega_report.specs.JsonOfText.{in_wide_format};
ghost use Rattle.omega_report.specs.Walking.{lines_of_all, IsAfter};
ghost use Rattle.omega_sim.specs.TimeLines.{lines_of_totals};

use crate::counts::Counts;
use crate::details::TimeDetails;
use crate::page::Page;
use crate::walk::{Walk, walked};
use omega_cell::{Effects, Usage};
use omega_desk::Failures;
use omega_feed::WaitingTasks;
use omega_model::{Bytes, Entry, NoMemory, Settings};
use omega_sim::TimeTotals;
use std::alloc::Global;

/// The bytes of the report of a history in the format of the settings: the lines of its entries, each on the
/// state of those before it, what is used at the end of each round, and what the history comes to. For
/// `generate` there is only the first line and what the history comes to.
///
/// `effects` are those of the history, and there are at most 30 batch schedulers. The bytes are the
/// report for each trace that has as many rounds under these settings as the history begins, and for all
/// tasks that may be wanted at the history's end, if `left` is what waits of them.
///
/// Costs the entries and the lines. No line costs the machines or the tasks that run.
pub fn report(
    alloc: Global,
    settings: &Settings,
    history: &[Entry],
    effects: &Effects,
    left: &WaitingTasks,
) -> Result<Bytes, NoMemory>
    requires batch { settings.now.batch ≤ 30 }
    requires effects { AreEffects history.now effects.now }
    ensures { IfOk result (λ bytes. (trace : TraceTables) (tasks : List WantedTask)
        → BeginsRoundsOf settings.now trace history.now → AreLeft tasks (state history.now) left.now
        → bytes ≡ in_format settings.now.format (lines_where settings.now trace tasks history.now)) }
{
    whole_page(alloc, settings, history, effects, left)?.finish()
}

/// The same bytes with those of the lines of these totals behind them, as the report of a simulated run has
/// them, and then those of the lines of the times, where these are to be told. A time of more than 64 bits is
/// a string in JSON.
///
/// Costs the lines of the times beside what `report` costs.
pub fn timed_report(
    alloc: Global,
    settings: &Settings,
    history: &[Entry],
    effects: &Effects,
    left: &WaitingTasks,
    totals: &[TimeTotals],
    details: Option<TimeDetails>,
) -> Result<Bytes, NoMemory>
    requires batch { settings.now.batch ≤ 30 }
    requires effects { AreEffects history.now effects.now }
    ensures { IfOk result (λ bytes. (trace : TraceTables) (tasks : List WantedTask)
        → BeginsRoundsOf settings.now trace history.now → AreLeft tasks (state history.now) left.now
        → bytes ≡ in_wide_format settings.now.format
        (lines_where settings.now trace tasks history.now ++ lines_of_totals totals.now ++ lines_told details.entry)) }
{
    whole_page(alloc, settings, history, effects, left)?.finish_with(totals, details)
}

/// The page with all lines of the report of a history.
fn whole_page(
    alloc: Global,
    settings: &Settings,
    history: &[Entry],
    effects: &Effects,
    left: &WaitingTasks,
) -> Result<Page, NoMemory>
    requires batch { settings.now.batch ≤ 30 }
    requires effects { AreEffects history.now effects.now }
    ensures { IfOk result (λ page. (trace : TraceTables) (tasks : List WantedTask)
        → BeginsRoundsOf settings.now trace history.now → AreLeft tasks (state history.now) left.now
        → (page.format ≡ settings.now.format) × (page.lines ≡ lines_where settings.now trace tasks history.now)) }
{
    let mut page = Page::new(alloc, settings.format);
    page.first()?;
    let walk = walked(alloc, settings, page, history, effects)?;
    summed_up(settings, history, effects.last, left, walk)
}

/// The page of a walk over a history, with what it comes to, where `last` is the usage at its end.
fn summed_up(
    settings: &Settings,
    history: &[Entry],
    last: Usage,
    left: &WaitingTasks,
    walk: Walk,
) -> Result<Page, NoMemory>
    requires batch { settings.now.batch ≤ 30 }
    requires last { last ≡ usage_in (state history.now) }
    requires counted { length walk.tally ≡ schedulers settings.now }
    ensures { IfOk result (λ page. (trace : TraceTables) (tasks : List WantedTask) (format : Form) (lines : List Line)
        → BeginsRoundsOf settings.now trace history.now → AreLeft tasks (state history.now) left.now
        → IsAfter (schedulers settings.now) format lines history.now walk
        → (page.format ≡ format) × (page.lines ≡ lines ++ final_lines settings.now trace tasks history.now)) }
{
    let abandoned = count_given_up(left.jobs.as_slice(), settings.give_up, &walk.failures);
    let Walk {
        mut page,
        tally,
        ..
    } = walk;
    page.sizes(history.len() as u64, count_rounds(history))?;
    push_counts(&mut page, tally.counts())?;
    page.usage(last.used, last.capacity)?;
    page.unplaced(left.tasks, abandoned)?;
    Ok(page)
}

/// How many rounds a history begins.
fn count_rounds(history: &[Entry]) -> u64
    ensures { result ≡ count_by begins_round history.now }
{
    history.iter().filter(|entry| begins_round(entry)).count() as u64
}

fn begins_round(entry: &Entry) -> bool
    ensures { result ≡ begins_round entry.now }
{
    matches!(entry, Entry::Round { .. })
}

/// Appends the line of each scheduler with its counts.
fn push_counts(page: &mut Page, counts: &[Counts]) -> Result<(), NoMemory>
    requires { length counts.now < 2 ^ 32 }
    ensures format { OnOk result (page.new.format ≡ page.old.format) }
    ensures lines { OnOk result (page.new.lines ≡ page.old.lines ++ lines_of_all counts.now) }
{
    for (scheduler, of_one) in counts.iter().enumerate() {
        page.counts(scheduler as u32, of_one)?;
    }
    Ok(())
}

/// How many of these jobs are given up: `give_up` or more commits in a row placed nothing of them.
fn count_given_up(jobs: &[u64], give_up: u32, failures: &Failures) -> u64
    ensures { result ≡ count_by (λ job. nat_le give_up (count_of failures.now job)) jobs.now }
{
    let limit = u64::from(give_up);
    jobs.iter()
        .filter(|job| limit <= failures.of(**job))
        .count() as u64
}
