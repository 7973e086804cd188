//! The settings and the paths that follow from what `clap` found.
ghost use Rattle.std.specs.Prelude.{◌≡◌, ◌<◌, ◌≤◌, ◌^◌, false, true, codes, map, option_map};
ghost use Rattle.std.specs.Option.{option_map_or};
ghost use Rattle.omega_model.specs.Options.{is_among, is_value};
ghost use Rattle.omega_model.specs.WordSettings.{clock_of, command_of, ends_of, extra_of, folder_by, format_of, is_text, kept_by, mode_of, preempt_of, rule_of, settings_by};
ghost use Rattle.omega_words.specs.Built.{built_words};
ghost use Rattle.omega_words.specs.Choices.{choice_of, number_or, texts_in, where_it};
ghost use Rattle.omega_words.specs.Taken.{are_values};

use crate::choices::{self, Choice, Span};
use clap::ArgMatches;
use omega_model::{Clock, Command, Ends, Extra, Format, Mode, Preempt, Rule, Settings};

/// The text that was given for an option, by its name without dashes, or for `command`; `None` where
/// none was.
fn text_of<'a>(matches: &ArgMatches<'a>, name: &str) -> Option<&'a str>
    ensures { option_map (λ text. text.now) result ≡ texts_in matches.now name.now }
{
    matches.get_str(name)
}

/// Whether an option isn't given, or its text is one of its values.
fn choice_passes<'a>(matches: &ArgMatches<'a>, choice: Choice<'a>) -> bool
    ensures { let option = choice_of choice.entry in let texts = texts_in matches.now in
        result ≡ option_map_or (is_value option.values) (texts option.name) true }
{
    match text_of(matches, choice.name) {
        None => true,
        Some(text) => choices::is_value(choice.values, text),
    }
}

/// Whether that holds of each option.
pub fn choices_pass<'a>(matches: &ArgMatches<'a>, choices: &[Choice<'a>]) -> bool
    ensures { result ≡ are_values (map choice_of choices.now) (texts_in matches.now) }
{
    for choice in choices {
        if !choice_passes(matches, *choice) {
            return false;
        }
    }
    true
}

/// The number of an option; `default` where it isn't given, or isn't a number of the span.
fn number_of<'a>(matches: &ArgMatches<'a>, name: &str, span: Span, default: u64) -> u64
    requires { default ≤ span.high }
    ensures value { result ≡ number_or span.low span.high default (texts_in matches.now name.now) }
    ensures within { result ≤ span.high }
{
    let Some(text) = text_of(matches, name) else {
        return default;
    };
    choices::number_from(text, span).unwrap_or(default)
}

/// The same for numbers of 32 bits.
fn small_number_of<'a>(matches: &ArgMatches<'a>, name: &str, span: Span, default: u32) -> u32
    requires high { span.high < 2 ^ 32 }
    requires default { default ≤ span.high }
    ensures { result ≡ number_or span.low span.high default (texts_in matches.now name.now) }
{
    number_of(matches, name, span, u64::from(default)) as u32
}

/// Whether this text was given for a name.
fn is_text<'a>(matches: &ArgMatches<'a>, name: &str, text: &str) -> bool
    ensures { result ≡ is_text text.now (texts_in matches.now name.now) }
{
    match text_of(matches, name) {
        None => false,
        Some(found) => found == text,
    }
}

fn rule_of<'a>(matches: &ArgMatches<'a>) -> Rule
    ensures { result ≡ rule_of (texts_in matches.now (codes "rule")) }
{
    if is_text(matches, "rule", "coarse") {
        Rule::Coarse
    } else {
        Rule::Fine
    }
}

fn mode_of<'a>(matches: &ArgMatches<'a>) -> Mode
    ensures { result ≡ mode_of (texts_in matches.now (codes "mode")) }
{
    if is_text(matches, "mode", "gang") {
        Mode::Gang
    } else {
        Mode::Incremental
    }
}

fn preempt_of<'a>(matches: &ArgMatches<'a>) -> Preempt
    ensures { result ≡ preempt_of (texts_in matches.now (codes "preempt")) }
{
    if is_text(matches, "preempt", "service") {
        Preempt::Service
    } else if is_text(matches, "preempt", "all") {
        Preempt::All
    } else {
        Preempt::Nobody
    }
}

fn extra_of<'a>(matches: &ArgMatches<'a>) -> Extra
    ensures { let texts = texts_in matches.now in
        result ≡ extra_of (number_or 0 100 60 (texts (codes "cap"))) (texts (codes "extra")) }
{
    let percent = small_number_of(matches, "cap", choices::CAPS, 60);
    if is_text(matches, "extra", "max") {
        Extra::Max
    } else if is_text(matches, "extra", "cap") {
        Extra::Cap(percent)
    } else {
        Extra::Relative
    }
}

fn format_of<'a>(matches: &ArgMatches<'a>) -> Format
    ensures { result ≡ format_of (texts_in matches.now (codes "format")) }
{
    if is_text(matches, "format", "json") {
        Format::Json
    } else {
        Format::Text
    }
}

fn clock_of<'a>(matches: &ArgMatches<'a>) -> Clock
    ensures { result ≡ clock_of (texts_in matches.now (codes "clock")) }
{
    if is_text(matches, "clock", "free") {
        Clock::Free
    } else {
        Clock::Rounds
    }
}

fn ends_of<'a>(matches: &ArgMatches<'a>) -> Ends
    ensures { result ≡ ends_of (texts_in matches.now (codes "ends")) }
{
    if is_text(matches, "ends", "own") {
        Ends::Own
    } else {
        Ends::Trace
    }
}

/// Whether there is a command, and the table has it.
fn has_command<'a>(matches: &ArgMatches<'a>) -> bool
    ensures { result ≡ option_map_or (is_among built_words.commands) (texts_in matches.now (codes "command")) false }
{
    match text_of(matches, "command") {
        None => false,
        Some(text) => choices::is_among(&choices::commands(), text),
    }
}

/// The command that is named, `replay` where none is.
fn named_command<'a>(matches: &ArgMatches<'a>) -> Command
    ensures { result ≡ command_of (texts_in matches.now (codes "command")) }
{
    if is_text(matches, "command", "run") {
        Command::Run
    } else if is_text(matches, "command", "generate") {
        Command::Generate
    } else if is_text(matches, "command", "simulate") {
        Command::Simulate
    } else if is_text(matches, "command", "resume") {
        Command::Resume
    } else if is_text(matches, "command", "audit") {
        Command::Audit
    } else {
        Command::Replay
    }
}

/// The command; `None` where none is given, or one that the table doesn't have.
pub fn command_of<'a>(matches: &ArgMatches<'a>) -> Option<Command>
    ensures { let text = texts_in matches.now (codes "command") in
        result ≡ where_it (option_map_or (is_among built_words.commands) text false) (command_of text) }
{
    if has_command(matches) {
        Some(named_command(matches))
    } else {
        None
    }
}

/// The settings of what was found, with this command. What isn't given has its default; the two times of
/// the scheduler of services are those of `t-job` and `t-task` then.
pub fn settings_of<'a>(matches: &ArgMatches<'a>, command: Command) -> Settings
    ensures { result ≡ (record (settings_by (texts_in matches.now)) { command = command }) }
{
    let default = Settings::default();
    let t_job = number_of(matches, "t-job", choices::DECISION_TIMES, default.t_job);
    let t_task = number_of(matches, "t-task", choices::DECISION_TIMES, default.t_task);
    Settings {
        command,
        seed: number_of(matches, "seed", choices::SEEDS, default.seed),
        batch: small_number_of(matches, "batch", choices::BATCHES, default.batch),
        rule: rule_of(matches),
        mode: mode_of(matches),
        preempt: preempt_of(matches),
        extra: extra_of(matches),
        tries: small_number_of(matches, "tries", choices::TRIES, default.tries),
        give_up: small_number_of(matches, "give-up", choices::GIVE_UPS, default.give_up),
        window: number_of(matches, "window", choices::WINDOWS, default.window),
        format: format_of(matches),
        machines: small_number_of(matches, "machines", choices::MACHINES, default.machines),
        jobs: small_number_of(matches, "jobs", choices::JOBS, default.jobs),
        t_job,
        t_task,
        service_t_job: number_of(matches, "service-t-job", choices::DECISION_TIMES, t_job),
        service_t_task: number_of(matches, "service-t-task", choices::DECISION_TIMES, t_task),
        clock: clock_of(matches),
        times: is_text(matches, "times", "yes"),
        ends: ends_of(matches),
    }
}

/// The folder of the tables, `.` where none is given.
pub fn folder_of<'a>(matches: &ArgMatches<'a>) -> &'a str
    ensures { result.now ≡ folder_by (texts_in matches.now) }
{
    text_of(matches, "tables").unwrap_or(".")
}

/// The path of the kept lines, `omega.db` where none is given.
pub fn kept_of<'a>(matches: &ArgMatches<'a>) -> &'a str
    ensures { result.now ≡ kept_by (texts_in matches.now) }
{
    text_of(matches, "kept").unwrap_or("omega.db")
}
