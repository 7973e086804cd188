//! The words of the command line, which `clap` reads as one command with options.
//!
//! Promised: plain words give exactly their settings, their folder and their path of what is kept, and words
//! are refused only where they aren't taken.
//!
//! Which words there are is data: the table `whole_table` in the definitions of `omega_model`.
#![tactic(auto)]

ghost use Rattle.std.specs.Prelude.{◌≡◌, IfErr, IfOk, true, map};
ghost use Rattle.omega_model.specs.PlainWords.{is_plain};
ghost use Rattle.omega_model.specs.Ranges.{IsInRange};
ghost use Rattle.omega_model.specs.WordSettings.{folder_of, kept_of, settings_of};
ghost use Rattle.omega_words.specs.Built.{built_words};
ghost use Rattle.omega_words.specs.Taken.{AreAccepted, are_of_table, folder_in, is_taken, kept_in, settings_in, text_in};

mod choices;
mod command;
mod matches;

use omega_model::{Settings, Status, Text};
use std::alloc::Global;

/// What the words say: the settings, the folder of the tables, and the path of the kept lines. What the
/// words leave out has its default.
#[derive(Debug, Drop)]
pub struct Parsed {
    pub settings: Settings,
    pub folder: Text,
    pub kept: Text,
}

/// Why words aren't read.
#[derive(Clone, Copy, Debug, Drop, PartialEq, Eq)]
pub enum WordsRefusal {
    /// The words aren't such as the table has them: see `read_words`.
    Usage,
    NoMemory,
}

impl From<WordsRefusal> for Status {
    ghost use Rattle.std.specs.Prelude.{◌≡◌};
    ghost use Rattle.omega_words.specs.Refusals.{status_of};

    ghost from_gives = { λ refusal status. status ≡ status_of refusal };

    fn from(refusal: WordsRefusal) -> Status {
        match refusal {
            WordsRefusal::Usage => Status::Usage,
            WordsRefusal::NoMemory => Status::NoMemory,
        }
    }
}

/// Reads words; the first is the first behind the program's name.
///
/// A command and options are read as `clap` reads them. `Usage` comes only where `clap` doesn't take
/// the words, the command isn't one of the table, or a text isn't among the values of its option; and
/// so never on plain words. `Ok` comes only where `clap` finds no fault in the words, and command and
/// texts are of the table; settings, folder and the path of the kept lines are those of its matches,
/// and on plain words what the words write.
pub fn read_words(alloc: Global, words: &[&str]) -> Result<Parsed, WordsRefusal>
    ensures usage { let given = map (λ word. word.now) words.now in
        IfErr result (λ e. is_taken built_words given ≡ true → e ≡ WordsRefusal.NoMemory) }
    ensures never_on_plain { let given = map (λ word. word.now) words.now in
        IfErr result (λ e. is_plain built_words given ≡ true → e ≡ WordsRefusal.NoMemory) }
    ensures accepted { let given = map (λ word. word.now) words.now in
        IfOk result (λ _. AreAccepted built_words given) }
    ensures values { let given = map (λ word. word.now) words.now in
        IfOk result (λ _. are_of_table built_words (text_in built_words given) ≡ true) }
    ensures settings { let given = map (λ word. word.now) words.now in
        IfOk result (λ r. r.settings ≡ settings_in built_words given) }
    ensures folder { let given = map (λ word. word.now) words.now in
        IfOk result (λ r. r.folder ≡ folder_in built_words given) }
    ensures plain { let given = map (λ word. word.now) words.now in
        IfOk result (λ r. is_plain built_words given ≡ true → r.settings ≡ settings_of given) }
    ensures plain_folder { let given = map (λ word. word.now) words.now in
        IfOk result (λ r. is_plain built_words given ≡ true → r.folder ≡ folder_of given) }
    ensures kept { let given = map (λ word. word.now) words.now in
        IfOk result (λ r. r.kept ≡ kept_in built_words given) }
    ensures plain_kept { let given = map (λ word. word.now) words.now in
        IfOk result (λ r. is_plain built_words given ≡ true → r.kept ≡ kept_of given) }
    ensures in_range { IfOk result (λ r. IsInRange r.settings) }
{
    let choices = choices::table();
    let matches = match command::matches_for(alloc, &choices, words) {
        Ok(matches) => matches,
        Err(refusal) => return Err(refusal),
    };
    if !matches::choices_pass(&matches, &choices) {
        return Err(WordsRefusal::Usage);
    }
    let Some(command) = matches::command_of(&matches) else {
        return Err(WordsRefusal::Usage);
    };
    let settings = matches::settings_of(&matches, command);
    let folder = text_of(alloc, matches::folder_of(&matches))?;
    let kept = text_of(alloc, matches::kept_of(&matches))?;
    Ok(Parsed {
        settings,
        folder,
        kept,
    })
}

/// A text of these bytes.
fn text_of(alloc: Global, text: &str) -> Result<Text, WordsRefusal>
    ensures value { IfOk result (λ copy. copy ≡ text.now) }
    ensures refusal { IfErr result (λ refusal. refusal ≡ WordsRefusal.NoMemory) }
{
    match String::from_str(alloc, text) {
        Ok(copy) => Ok(Text::of(copy)),
        Err(_) => Err(WordsRefusal::NoMemory),
    }
}
