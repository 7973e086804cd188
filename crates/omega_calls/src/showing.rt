//! How answers are put into words: amounts, tasks, places.
ghost use Rattle.std.specs.Prelude.{◌≡◌, ◌++◌, OnOk};
ghost use Rattle.std.specs.String.{string_bytes};
ghost use Rattle.omega_calls.specs.Shown.{shown_key, shown_need, shown_place, shown_spec, with_next};

use crate::fault::Fault;
use omega_model::{Need, Spec, TaskKey};

/// Parts the answer of the next step from those before it, if there are any.
pub fn part(answers: &mut String) -> Result<(), Fault>
    ensures { OnOk result (string_bytes answers.new ≡ with_next (string_bytes answers.old)) }
{
    if !answers.is_empty() {
        answers.push_str(" : ")?;
    }
    Ok(())
}

/// Appends an amount as `CPU,MEMORY,DISK`.
pub fn show_need(answers: &mut String, need: Need) -> Result<(), Fault>
    ensures { OnOk result (string_bytes answers.new ≡ string_bytes answers.old ++ shown_need need) }
{
    let Need { cpu, mem, disk } = need;
    write!(answers, "{cpu},{mem},{disk}")?;
    Ok(())
}

/// Appends a place in a list, or `-` where there is none.
pub fn show_place(answers: &mut String, place: Option<usize>) -> Result<(), Fault>
    ensures { OnOk result (string_bytes answers.new ≡ string_bytes answers.old ++ shown_place place) }
{
    match place {
        Some(place) => write!(answers, "{place}")?,
        None => answers.push('-')?,
    }
    Ok(())
}

/// Appends the name of a task as `JOB.INDEX`.
pub fn show_task(answers: &mut String, key: TaskKey) -> Result<(), Fault>
    ensures { OnOk result (string_bytes answers.new ≡ string_bytes answers.old ++ shown_key key) }
{
    let TaskKey { job, index } = key;
    write!(answers, "{job}.{index}")?;
    Ok(())
}

/// Appends an amount and a precedence, which has `/differ` behind it where no other task of the job
/// may share the machine.
pub fn show_spec(answers: &mut String, spec: Spec) -> Result<(), Fault>
    ensures { OnOk result (string_bytes answers.new ≡ string_bytes answers.old ++ shown_spec spec) }
{
    let Need { cpu, mem, disk } = spec.need;
    let differ = if spec.differ { "/differ" } else { "" };
    write!(answers, "{cpu},{mem},{disk} {}{differ}", spec.prec)?;
    Ok(())
}
