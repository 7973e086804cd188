//! Two keepers over files.
use crate::steps::{is_word, show_done, take};
use omega_calls::{Fault, is_colon, part, text};
use omega_keep::Keeper;
use omega_model::Bytes;
use omega_sqlkeep::FileKeeper;
use std::{fs, io};

/// Where the files stand, an empty folder for each line.
const FOLDER: &str = "kept_files";

/// What each step answers on two keepers over files of the folder `kept_files`, which is made anew and removed in
/// the end. The first takes the steps until the step `other`, which answers `ok`: from then on the other one does.
/// Three steps are of the folder alone: `put PATH BYTES` writes a file and `move PATH PATH` gives one another name,
/// and both answer `ok`; `size PATH` answers how many bytes a file has, or `none` where there is no file.
pub(crate) fn answer(rt: &HostRuntime, words: &[Bytes], answers: &mut String) -> Result<(), Fault> {
    // A folder that isn't there is no fault.
    let _ = fs::remove_dir_all(rt, FOLDER);
    done(fs::create_dir(rt, FOLDER))?;
    take_all(rt, FileKeeper::new(rt), FileKeeper::new(rt), words, answers)?;
    done(fs::remove_dir_all(rt, FOLDER))
}

/// Sees that the system has done what it was asked.
fn done(asked: io::Result<()>) -> Result<(), Fault> {
    match asked {
        Ok(()) => Ok(()),
        Err(_) => Err(Fault::MayNot),
    }
}

/// Takes all steps. It takes the keepers as values of a type parameter, since lending one over a file costs whoever
/// lends it minutes of proof.
fn take_all<K: Keeper + Drop>(
    rt: &HostRuntime,
    first: K,
    second: K,
    words: &[Bytes],
    answers: &mut String,
) -> Result<(), Fault> {
    let (mut here, mut there) = (first, second);
    let mut is_first = true;
    for step in words.split(|word| is_colon(word)) {
        part(answers)?;
        if is_word(step, "other")? {
            is_first = !is_first;
            show_done(answers, true)?;
        } else if !takes_in_folder(rt, step, answers)? {
            let keeper = if is_first { &mut here } else { &mut there };
            take(rt.alloc(), keeper, step, answers)?;
        }
    }
    Ok(())
}

/// Takes a step that is of the folder alone; `false` where it is none.
fn takes_in_folder(rt: &HostRuntime, step: &[Bytes], answers: &mut String) -> Result<bool, Fault> {
    match step {
        [call, path, bytes] if text(call)? == "put" => {
            done(fs::write(rt, text(path)?, bytes.as_slice()))?;
            show_done(answers, true)?;
        }
        [call, from, to] if text(call)? == "move" => {
            done(fs::rename(rt, text(from)?, text(to)?))?;
            show_done(answers, true)?;
        }
        [call, path] if text(call)? == "size" => show_size(rt, text(path)?, answers)?,
        _ => return Ok(false),
    }
    Ok(true)
}

/// Appends how many bytes a file has.
fn show_size(rt: &HostRuntime, path: &str, answers: &mut String) -> Result<(), Fault> {
    match fs::metadata(rt, path) {
        Ok(found) => write!(answers, "{}", found.len())?,
        Err(_) => answers.push_str("none")?,
    }
    Ok(())
}
