//! The command that `clap` is given, and what it finds.
ghost use Rattle.std.specs.Prelude.{◌≡◌, [], IfErr, IfOk, true, map};
ghost use Rattle.clap.specs.Faults.{fault_of};
ghost use Rattle.clap.specs.Words.{app_of, found_of, matches_of, rows_of, takes, with_rule};
ghost use Rattle.omega_words.specs.Choices.{choice_of};
ghost use Rattle.omega_words.specs.Taken.{app_of_choices, bare_app, command_rule, option_rule};

use crate::WordsRefusal;
use crate::choices::Choice;
use clap::error::ErrorKind;
use clap::{Arg, ArgMatches, Command};
use std::alloc::{AllocError, Global};

/// The command with one more option.
fn with_option<'a>(
    command: Command<'a>,
    alloc: Global,
    name: &'a str,
) -> Result<Command<'a>, AllocError>
    ensures { IfOk result (λ more. app_of more ≡ with_rule (app_of command.entry) (option_rule name.entry.now)) }
{
    let option = Arg::new(alloc, name).long(name);
    command.arg(option)
}

/// The command with its one positional word.
fn bare<'a>(alloc: Global) -> Result<Command<'a>, AllocError>
    ensures { IfOk result (λ bare. app_of bare ≡ with_rule bare_app command_rule) }
{
    let word = Arg::new(alloc, "command").required(true);
    let bare = Command::new(alloc, "omega")
        .no_binary_name(true)
        .disable_help_flag(true);
    bare.arg(word)
}

/// The command with these options.
fn command<'a>(alloc: Global, choices: &[Choice<'a>]) -> Result<Command<'a>, AllocError>
    ensures { IfOk result (λ whole. app_of whole ≡ app_of_choices (map choice_of choices.now)) }
{
    let mut command = bare(alloc)?;
    for choice in choices {
        command = with_option(command, alloc, choice.name)?;
    }
    Ok(command)
}

/// What `clap` finds in the words. It prints nothing. `Usage` only where it doesn't take them.
pub fn matches_for<'a>(
    alloc: Global,
    choices: &[Choice<'a>],
    words: &'a [&'a str],
) -> Result<ArgMatches<'a>, WordsRefusal>
    ensures rows { let given = map (λ word. word.now) words.entry.now in
        IfOk result (λ m. rows_of (found_of m) ≡ matches_of (app_of_choices (map choice_of choices.now)) given) }
    ensures accepted { let given = map (λ word. word.now) words.entry.now in
        IfOk result (λ _. fault_of (app_of_choices (map choice_of choices.now)) given ≡ []) }
    ensures usage { let given = map (λ word. word.now) words.entry.now in
        IfErr result (λ e. takes (app_of_choices (map choice_of choices.now)) given ≡ true
        → e ≡ WordsRefusal.NoMemory) }
{
    let Ok(command) = command(alloc, choices) else {
        return Err(WordsRefusal::NoMemory);
    };
    match command.try_get_matches_from(words) {
        Ok(matches) => Ok(matches),
        Err(error) => match error.kind() {
            ErrorKind::OutOfMemory => Err(WordsRefusal::NoMemory),
            _ => Err(WordsRefusal::Usage),
        },
    }
}
