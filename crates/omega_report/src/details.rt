//! The lines of the times of commits and of jobs' first ones.
ghost use Rattle.std.specs.Prelude.{◌≡◌, ◌∷◌, ◌++◌, [], List, map, OnOk};
ghost use Rattle.omega_model.specs.Report.{Line};
ghost use Rattle.omega_report.specs.Details.{lines_told};
ghost use Rattle.omega_report.specs.Pages.{open_form};
ghost use Rattle.omega_sim.specs.TimeDetails.{commit_time_line, commit_time_lines, first_commit_line};

use crate::items::push_behind;
use crate::line_words::Word::{Name, Number, Time};
use omega_model::{Format, NoMemory};
use omega_sim::{FirstCommit, Timed};

/// What a report may tell of the times of a simulated run beside what they add up to: those of each commit,
/// and of each job's first one.
#[derive(Clone, Copy)]
pub struct TimeDetails<'a> {
    /// The commits in order.
    pub times: &'a [Timed],
    /// Of each job with a commit the first one, in order of these commits.
    pub firsts: &'a [FirstCommit],
}

/// Appends the lines of the times, if they are told, behind others: that of each commit, numbered from 0,
/// and then that of each job.
pub fn push_details(
    format: Format,
    bytes: &mut Vec<u8>,
    details: Option<TimeDetails>,
) -> Result<(), NoMemory>
    ensures { OnOk result ((lines : List Line) → bytes.old.items ≡ open_form format lines
        → bytes.new.items ≡ open_form format (lines ++ lines_told details.entry)) }
{
    let Some(details) = details else {
        return Ok(());
    };
    push_times(format, bytes, details.times)?;
    push_firsts(format, bytes, details.firsts)
}

/// Appends the line of each commit.
fn push_times(format: Format, bytes: &mut Vec<u8>, times: &[Timed]) -> Result<(), NoMemory>
    ensures { OnOk result ((lines : List Line) → bytes.old.items ≡ open_form format lines
        → bytes.new.items ≡ open_form format (lines ++ commit_time_lines times.now)) }
{
    for (number, timed) in times.iter().enumerate() {
        push_time(format, bytes, number as u64, timed)?;
    }
    Ok(())
}

/// Appends the line of a commit with its number.
fn push_time(
    format: Format,
    bytes: &mut Vec<u8>,
    number: u64,
    timed: &Timed,
) -> Result<(), NoMemory>
    ensures { OnOk result ((lines : List Line) → bytes.old.items ≡ open_form format lines
        → bytes.new.items ≡ open_form format (lines ++ commit_time_line (number, timed.now) ∷ [])) }
{
    let words = [
        Name("time"),
        Number(number),
        Number(u64::from(timed.scheduler)),
        Time(timed.sync),
        Time(timed.time),
    ];
    push_behind(format, bytes, &words)
}

/// Appends the line of each job.
fn push_firsts(format: Format, bytes: &mut Vec<u8>, firsts: &[FirstCommit]) -> Result<(), NoMemory>
    ensures { OnOk result ((lines : List Line) → bytes.old.items ≡ open_form format lines
        → bytes.new.items ≡ open_form format (lines ++ map first_commit_line firsts.now)) }
{
    for first in firsts {
        push_first(format, bytes, first)?;
    }
    Ok(())
}

/// Appends the line of a job by its first commit.
fn push_first(format: Format, bytes: &mut Vec<u8>, first: &FirstCommit) -> Result<(), NoMemory>
    ensures { OnOk result ((lines : List Line) → bytes.old.items ≡ open_form format lines
        → bytes.new.items ≡ open_form format (lines ++ first_commit_line first.now ∷ [])) }
{
    let words = [
        Name("first"),
        Number(first.job),
        Number(u64::from(first.scheduler)),
        Time(first.arrived),
        Time(first.sync),
    ];
    push_behind(format, bytes, &words)
}
