//! The words of the command line: the calls of `omega_words`.
use omega_calls::{Fault, text};
use omega_model::{Bytes, Settings};
use omega_words::{WordsRefusal, read_words};
use std::alloc::Global;

/// `read WORD ..`: the settings, the folder and the path of what is kept, of the words, or `usage`.
pub(crate) fn answer(alloc: Global, call: &str, words: &[Bytes]) -> Result<String, Fault> {
    match call {
        "read" => read(alloc, words),
        _ => Err(Fault::UnknownCall),
    }
}

/// The settings and the paths of words.
fn read(alloc: Global, words: &[Bytes]) -> Result<String, Fault> {
    let mut texts = Vec::new(alloc);
    for word in words {
        texts.push(text(word)?)?;
    }
    match read_words(alloc, texts.as_slice()) {
        Ok(parsed) => {
            let settings = settings_text(alloc, &parsed.settings)?;
            let folder = parsed.folder.as_str();
            let kept = parsed.kept.as_str();
            Ok(format!(in alloc; "{settings} folder {folder:?} kept {kept:?}")?)
        }
        Err(WordsRefusal::Usage) => Ok(format!(in alloc; "usage")?),
        Err(WordsRefusal::NoMemory) => Err(Fault::NoMemory),
    }
}

/// All settings, the command first.
fn settings_text(alloc: Global, settings: &Settings) -> Result<String, Fault> {
    let Settings {
        command,
        seed,
        batch,
        rule,
        mode,
        preempt,
        extra,
        tries,
        give_up,
        window,
        format,
        machines,
        jobs,
        t_job,
        t_task,
        service_t_job,
        service_t_task,
        clock,
        times,
        ends,
    } = *settings;
    let mut text = String::new(alloc);
    write!(text, "{command:?} seed {seed} batch {batch} ")?;
    write!(
        text,
        "{rule:?} {mode:?} preempt {preempt:?} extra {extra:?} "
    )?;
    write!(text, "tries {tries} give-up {give_up} window {window} ")?;
    write!(text, "{format:?} machines {machines} jobs {jobs} ")?;
    write!(text, "t-job {t_job} t-task {t_task} ")?;
    write!(
        text,
        "service-t-job {service_t_job} service-t-task {service_t_task} "
    )?;
    write!(text, "{clock:?} times {times} ends {ends:?}")?;
    Ok(text)
}
