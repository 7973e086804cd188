//! The commands and the options, and which texts are their values.
ghost use Rattle.std.specs.Prelude.{◌≡◌, ◌≤◌, IfSome, map};
ghost use Rattle.omega_model.specs.Options.{is_among, is_value, number_from};
ghost use Rattle.omega_words.specs.Built.{built_words};
ghost use Rattle.omega_words.specs.Choices.{choice_of, values_of};

/// The numbers from `low` to `high`, both included.
#[derive(Clone, Copy)]
pub struct Span {
    pub low: u64,
    pub high: u64,
}

/// What an option's value may be.
#[derive(Clone, Copy)]
pub enum Values<'a> {
    /// The path of a folder or a file.
    Path,
    /// A whole number of a span.
    Number(Span),
    /// One of these names.
    OneOf(&'a [&'a str]),
}

/// An option, by its name without dashes.
#[derive(Clone, Copy)]
pub struct Choice<'a> {
    pub name: &'a str,
    pub values: Values<'a>,
}

// The numbers of each option that has numbers: `CAPS` in percent, `WINDOWS` and `DECISION_TIMES` in
// microseconds.

pub const SEEDS: Span = Span {
    low: 0,
    high: u64::MAX,
};

pub const BATCHES: Span = Span { low: 1, high: 30 };

pub const CAPS: Span = Span { low: 0, high: 100 };

pub const TRIES: Span = Span { low: 1, high: 100 };

pub const GIVE_UPS: Span = Span {
    low: 1,
    high: 1_000,
};

pub const WINDOWS: Span = Span {
    low: 1,
    high: 1_099_511_627_776,
};

pub const MACHINES: Span = Span {
    low: 0,
    high: 4_096,
};

pub const JOBS: Span = Span {
    low: 0,
    high: 20_000,
};

pub const DECISION_TIMES: Span = Span {
    low: 0,
    high: 1_000_000_000,
};

/// An option with this name and these values.
fn make_choice<'a>(name: &'a str, values: Values<'a>) -> Choice<'a>
    ensures { choice_of result ≡ (record { name = name.entry.now; values = values_of values.entry }) }
{
    Choice { name, values }
}

/// The commands of the table.
pub fn commands() -> [&'static str; 6]
    ensures { map (λ name. name.now) result ≡ built_words.commands }
{
    ["replay", "run", "generate", "simulate", "resume", "audit"]
}

/// The options of the table.
pub fn table() -> [Choice<'static>; 22]
    ensures { map choice_of result ≡ built_words.choices }
{
    [
        make_choice("tables", Values::Path),
        make_choice("seed", Values::Number(SEEDS)),
        make_choice("batch", Values::Number(BATCHES)),
        make_choice("rule", Values::OneOf(&["fine", "coarse"])),
        make_choice("mode", Values::OneOf(&["incremental", "gang"])),
        make_choice("preempt", Values::OneOf(&["none", "service", "all"])),
        make_choice("extra", Values::OneOf(&["max", "cap", "relative"])),
        make_choice("cap", Values::Number(CAPS)),
        make_choice("tries", Values::Number(TRIES)),
        make_choice("give-up", Values::Number(GIVE_UPS)),
        make_choice("window", Values::Number(WINDOWS)),
        make_choice("format", Values::OneOf(&["text", "json"])),
        make_choice("machines", Values::Number(MACHINES)),
        make_choice("jobs", Values::Number(JOBS)),
        make_choice("t-job", Values::Number(DECISION_TIMES)),
        make_choice("t-task", Values::Number(DECISION_TIMES)),
        make_choice("service-t-job", Values::Number(DECISION_TIMES)),
        make_choice("service-t-task", Values::Number(DECISION_TIMES)),
        make_choice("kept", Values::Path),
        make_choice("clock", Values::OneOf(&["rounds", "free"])),
        make_choice("times", Values::OneOf(&["no", "yes"])),
        make_choice("ends", Values::OneOf(&["trace", "own"])),
    ]
}

/// The whole number that the text writes; `None` where it is none, or none of the span.
pub fn number_from(text: &str, span: Span) -> Option<u64>
    ensures value { result ≡ number_from span.low span.high text.now }
    ensures within { IfSome result (λ number. number ≤ span.high) }
{
    match omega_units::read_u64(text.as_bytes()) {
        Ok(number) if span.low <= number && number <= span.high => Some(number),
        _ => None,
    }
}

/// Whether the text is one of the names.
pub fn is_among(names: &[&str], text: &str) -> bool
    ensures { result ≡ is_among (map (λ name. name.now) names.now) text.now }
{
    names.contains(&text)
}

/// Whether the text is one of the values.
pub fn is_value<'a>(values: Values<'a>, text: &str) -> bool
    ensures { result ≡ is_value (values_of values.entry) text.now }
{
    match values {
        Values::Path => true,
        Values::Number(span) => number_from(text, span).is_some(),
        Values::OneOf(names) => is_among(names, text),
    }
}
