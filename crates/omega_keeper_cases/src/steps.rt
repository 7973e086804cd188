//! The steps that each keeper takes.
use omega_calls::{Fault, is_colon, part, text};
use omega_keep::{KeepRefusal, Keeper, Lines};
use omega_model::{Bytes, Copied};
use std::alloc::Global;

/// Takes all steps on a keeper, and appends their answers.
pub(crate) fn take_all<K: Keeper>(
    alloc: Global,
    keeper: &mut K,
    words: &[Bytes],
    answers: &mut String,
) -> Result<(), Fault> {
    for step in words.split(|word| is_colon(word)) {
        part(answers)?;
        take(alloc, keeper, step, answers)?;
    }
    Ok(())
}

/// Takes a step on a keeper, and appends its answer. `enter PATH` answers `ok`; `append LINE ..` appends the lines at
/// once, and answers `ok` or `failed`; `load` answers the lines, behind how many they are, or `failed`; and `faults`
/// how many calls have failed.
pub(crate) fn take<K: Keeper>(
    alloc: Global,
    keeper: &mut K,
    step: &[Bytes],
    answers: &mut String,
) -> Result<(), Fault> {
    let [call, words @ ..] = step else {
        return Err(Fault::UnknownCall);
    };
    match (text(call)?, words) {
        ("append", lines) => append(keeper, &listed(alloc, lines)?, answers),
        ("enter", [path]) => enter(keeper, text(path)?, answers),
        ("faults", []) => show_faults(keeper, answers),
        ("load", []) => load(keeper, answers),
        _ => Err(Fault::UnknownCall),
    }
}

/// Takes a step on a keeper, appends its answer, and answers the keeper after it. It takes the keeper as a value of a
/// type parameter, since lending one over a database costs its caller minutes of proof.
pub(crate) fn taken<K: Keeper + Drop>(
    alloc: Global,
    keeper: K,
    step: &[Bytes],
    answers: &mut String,
) -> Result<K, Fault> {
    let mut keeper = keeper;
    take(alloc, &mut keeper, step, answers)?;
    Ok(keeper)
}

/// Whether a step is this word.
pub(crate) fn is_word(step: &[Bytes], wanted: &str) -> Result<bool, Fault> {
    match step {
        [word] => Ok(text(word)? == wanted),
        _ => Ok(false),
    }
}

/// Some lines as a list of their own.
fn listed(alloc: Global, lines: &[Bytes]) -> Result<Lines, Fault> {
    let mut list = Lines::new(alloc);
    for line in lines {
        list.push(line.copy(alloc)?)?;
    }
    Ok(list)
}

/// Appends whether a call was done.
pub(crate) fn show_done(answers: &mut String, done: bool) -> Result<(), Fault> {
    answers.push_str(if done { "ok" } else { "failed" })?;
    Ok(())
}

/// Enters a path.
fn enter<K: Keeper>(keeper: &mut K, path: &str, answers: &mut String) -> Result<(), Fault> {
    keeper.enter(path)?;
    show_done(answers, true)
}

/// Puts lines at the end.
fn append<K: Keeper>(keeper: &mut K, lines: &Lines, answers: &mut String) -> Result<(), Fault> {
    match keeper.append(lines) {
        Ok(()) => show_done(answers, true),
        Err(KeepRefusal::Failed) => show_done(answers, false),
        Err(KeepRefusal::NoMemory) => Err(Fault::NoMemory),
    }
}

/// Loads all lines, and shows them.
fn load<K: Keeper>(keeper: &mut K, answers: &mut String) -> Result<(), Fault> {
    match keeper.load() {
        Ok(lines) => show_lines(answers, &lines),
        Err(KeepRefusal::Failed) => show_done(answers, false),
        Err(KeepRefusal::NoMemory) => Err(Fault::NoMemory),
    }
}

/// Appends how many lines there are, and each of them.
fn show_lines(answers: &mut String, lines: &Lines) -> Result<(), Fault> {
    write!(answers, "{}", lines.len())?;
    for line in lines.as_slice() {
        let line = text(line)?;
        write!(answers, " {line:?}")?;
    }
    Ok(())
}

/// Appends how many calls have failed.
fn show_faults<K: Keeper>(keeper: &K, answers: &mut String) -> Result<(), Fault> {
    write!(answers, "{}", keeper.faults())?;
    Ok(())
}
