//! The options of a command line: the values that they take.

ghost use Rattle.std.specs.Prelude.{◌≡◌, ◌≤◌, IfSome, option_copied, option_map};
ghost use Rattle.std.specs.Char.{is_ascii_digit};
ghost use Rattle.std.specs.List.{list_all};
ghost use Rattle.command_words.specs.Grammar.{number_given, number_or};
ghost use Rattle.command_words.specs.Kept.{named, range, values_kept};
ghost use Rattle.command_words.specs.Options.{is_value, long_name, number_in, number_of, option_named, values_of, yes_or_no};

use crate::ends::end_of_text;
use crate::spans::are_spans;
use draw_policies::{OutcomeKey, Policies};
use search_reductions::{Reductions, Signals};

/// The options that commands have.
#[derive(Clone, Copy, Drop)]
pub enum OptionName {
    /// How many harts there are.
    Harts,
    /// How many frames of 4,096 bytes there are.
    Frames,
    /// How many events the log can hold.
    Steps,
    /// The seed of what is chosen.
    Seed,
    /// Which policies draw.
    Policy,
    /// From how many events on a run goes on fairly.
    Calm,
    /// The script behind which events are drawn.
    After,
    /// How many runs are explored.
    RunCount,
    /// How many different outcomes are enough.
    Until,
    /// By what outcomes are told apart.
    By,
    /// How many host threads make the runs.
    Jobs,
    /// From which line a log is told.
    From,
    /// To which line a log is told.
    To,
    /// Which bytes of memory are shown.
    Memory,
    /// How all runs of an exploration are expected to end.
    Expect,
    /// How many places a search keeps.
    Places,
    /// How many events lead to a place of a search at most.
    Deep,
    /// Whether the scripts of outcomes are printed.
    Scripts,
    /// Which reduction a search leaves out.
    Without,
    /// How many preemptions the runs of a search have at most.
    Preemptions,
    /// When the signals come, in the runs of a search, that a thread causes itself.
    OwnSignals,
}

/// All options.
pub const ALL_OPTIONS: [OptionName; 21] = [
    OptionName::Harts,
    OptionName::Frames,
    OptionName::Steps,
    OptionName::Seed,
    OptionName::Policy,
    OptionName::Calm,
    OptionName::After,
    OptionName::RunCount,
    OptionName::Until,
    OptionName::By,
    OptionName::Jobs,
    OptionName::From,
    OptionName::To,
    OptionName::Memory,
    OptionName::Expect,
    OptionName::Places,
    OptionName::Deep,
    OptionName::Scripts,
    OptionName::Without,
    OptionName::Preemptions,
    OptionName::OwnSignals,
];

/// Some numbers.
#[derive(Clone, Copy, Drop)]
pub(crate) struct Numbers {
    /// The least.
    pub(crate) least: u64,
    /// The largest.
    pub(crate) most: u64,
}

/// How many harts there may be.
pub(crate) const HARTS: Numbers = Numbers { least: 1, most: 8 };

/// How many frames there may be.
pub(crate) const FRAMES: Numbers = Numbers {
    least: 128,
    most: 16_384,
};

/// How many events a log may hold.
pub(crate) const STEPS: Numbers = Numbers {
    least: 1,
    most: 1_000_000,
};

/// The seeds.
pub(crate) const SEEDS: Numbers = Numbers {
    least: 0,
    most: u64::MAX,
};

/// From how many events on a run may go on fairly.
pub(crate) const CALM: Numbers = Numbers {
    least: 0,
    most: 1_000_000,
};

/// How many runs may be explored.
pub(crate) const RUNS: Numbers = Numbers {
    least: 1,
    most: 1_000_000_000,
};

/// How many different outcomes may be enough, as many as are told apart.
pub(crate) const OUTCOMES: Numbers = Numbers { least: 1, most: 64 };

/// How many host threads may make the runs.
pub(crate) const JOBS: Numbers = Numbers { least: 1, most: 64 };

/// The lines of logs.
pub(crate) const LINES: Numbers = Numbers {
    least: 1,
    most: 1_000_000,
};

/// How many places a search may keep.
pub(crate) const PLACES: Numbers = Numbers {
    least: 1,
    most: 16_000_000,
};

/// How many events may lead to a place of a search.
pub(crate) const DEPTHS: Numbers = Numbers {
    least: 1,
    most: 1_000_000,
};

/// How many preemptions the runs of a search may have.
pub(crate) const PREEMPTIONS: Numbers = Numbers {
    least: 0,
    most: 255,
};

/// What `yes` and `no` say; None of any other text.
pub(crate) fn yes_or_no(text: &str) -> Option<bool>
    ensures { result ≡ yes_or_no text.now }
{
    match text {
        "yes" => Some(true),
        "no" => Some(false),
        _ => None,
    }
}

/// The values of an option.
#[derive(Clone, Copy, Drop)]
pub(crate) enum Values {
    /// These numbers.
    Numbers(Numbers),
    /// The names of policies.
    PolicyNames,
    /// By what outcomes are told apart.
    KeyNames,
    /// The names of files: any text but `-`.
    FileNames,
    /// Spans of memory, one comma apart.
    MemorySpans,
    /// Ends of runs.
    EndNames,
    /// `yes` and `no`.
    YesOrNo,
    /// The names of reductions.
    ReductionNames,
    /// `prompt` and `any`.
    PromptOrAny,
}

impl OptionName {
    /// The option that a word names; None where it names none.
    pub(crate) fn of_word(word: &str) -> Option<OptionName>
        ensures { option_map named result ≡ option_named word.now }
    {
        match word {
            "--harts" => Some(OptionName::Harts),
            "--frames" => Some(OptionName::Frames),
            "--steps" => Some(OptionName::Steps),
            "--seed" => Some(OptionName::Seed),
            "--policy" => Some(OptionName::Policy),
            "--calm" => Some(OptionName::Calm),
            "--after" => Some(OptionName::After),
            "--runs" => Some(OptionName::RunCount),
            "--until" => Some(OptionName::Until),
            "--by" => Some(OptionName::By),
            "--jobs" => Some(OptionName::Jobs),
            "--from" => Some(OptionName::From),
            "--to" => Some(OptionName::To),
            "--memory" => Some(OptionName::Memory),
            "--expect" => Some(OptionName::Expect),
            "--places" => Some(OptionName::Places),
            "--deep" => Some(OptionName::Deep),
            "--scripts" => Some(OptionName::Scripts),
            "--without" => Some(OptionName::Without),
            "--preemptions" => Some(OptionName::Preemptions),
            "--signals" => Some(OptionName::OwnSignals),
            _ => None,
        }
    }

    /// The option's name: what stands behind the two dashes of its word.
    pub fn long_name<'a>(self) -> &'a str
        ensures { result.now ≡ long_name (named self) }
    {
        match self {
            OptionName::Harts => "harts",
            OptionName::Frames => "frames",
            OptionName::Steps => "steps",
            OptionName::Seed => "seed",
            OptionName::Policy => "policy",
            OptionName::Calm => "calm",
            OptionName::After => "after",
            OptionName::RunCount => "runs",
            OptionName::Until => "until",
            OptionName::By => "by",
            OptionName::Jobs => "jobs",
            OptionName::From => "from",
            OptionName::To => "to",
            OptionName::Memory => "memory",
            OptionName::Expect => "expect",
            OptionName::Places => "places",
            OptionName::Deep => "deep",
            OptionName::Scripts => "scripts",
            OptionName::Without => "without",
            OptionName::Preemptions => "preemptions",
            OptionName::OwnSignals => "signals",
        }
    }

    /// The values that the option takes.
    pub(crate) fn values(self) -> Values
        ensures { values_kept result ≡ values_of (named self) }
    {
        match self {
            OptionName::Harts => Values::Numbers(HARTS),
            OptionName::Frames => Values::Numbers(FRAMES),
            OptionName::Steps => Values::Numbers(STEPS),
            OptionName::Seed => Values::Numbers(SEEDS),
            OptionName::Policy => Values::PolicyNames,
            OptionName::Calm => Values::Numbers(CALM),
            OptionName::After => Values::FileNames,
            OptionName::RunCount => Values::Numbers(RUNS),
            OptionName::Until => Values::Numbers(OUTCOMES),
            OptionName::By => Values::KeyNames,
            OptionName::Jobs => Values::Numbers(JOBS),
            OptionName::From => Values::Numbers(LINES),
            OptionName::To => Values::Numbers(LINES),
            OptionName::Memory => Values::MemorySpans,
            OptionName::Expect => Values::EndNames,
            OptionName::Places => Values::Numbers(PLACES),
            OptionName::Deep => Values::Numbers(DEPTHS),
            OptionName::Scripts => Values::YesOrNo,
            OptionName::Without => Values::ReductionNames,
            OptionName::Preemptions => Values::Numbers(PREEMPTIONS),
            OptionName::OwnSignals => Values::PromptOrAny,
        }
    }
}

impl Values {
    /// Whether a text is one of them.
    pub(crate) fn contain(self, text: &str) -> bool
        ensures { result ≡ is_value (values_kept self) text.now }
    {
        match self {
            Values::Numbers(numbers) => numbers.number_in(text).is_some(),
            Values::PolicyNames => Policies::of_word(text).is_some(),
            Values::KeyNames => OutcomeKey::of_word(text).is_some(),
            Values::FileNames => text != "-",
            Values::MemorySpans => are_spans(text),
            Values::EndNames => end_of_text(text).is_some(),
            Values::YesOrNo => yes_or_no(text).is_some(),
            Values::ReductionNames => Reductions::all_but(text).is_some(),
            Values::PromptOrAny => Signals::of_word(text).is_some(),
        }
    }
}

/// Whether a text is made of decimal digits.
fn is_decimal(text: &str) -> bool
    ensures { result ≡ list_all is_ascii_digit text.now }
{
    text.as_bytes().iter().all(|byte| byte.is_ascii_digit())
}

/// The number that a text writes: 1 to 20 decimal digits and nothing else. None also where it is 2^64 or
/// more.
pub(crate) fn number_of(text: &str) -> Option<u64>
    ensures { result ≡ number_of text.now }
{
    if !text.is_empty() && text.len() <= 20 && is_decimal(text) {
        text.parse().ok()
    } else {
        None
    }
}

impl Numbers {
    /// The number that a text writes; None where it writes none of these.
    pub(crate) fn number_in(self, text: &str) -> Option<u64>
        ensures number { result ≡ number_in (range self) text.now }
        ensures least { IfSome result (λ number. self.least ≤ number) }
        ensures most { IfSome result (λ number. number ≤ self.most) }
    {
        let number = number_of(text)?;
        if self.least <= number && number <= self.most {
            Some(number)
        } else {
            None
        }
    }

    /// The number that an option comes to: that of its value, or the default where none of these is given.
    pub(crate) fn number_or(self, default: u64, text: Option<&str>) -> u64
        requires least { self.least ≤ default }
        requires most { default ≤ self.most }
        ensures number { result ≡ number_or default (range self) (option_copied text.entry) }
        ensures least { self.least ≤ result }
        ensures most { result ≤ self.most }
    {
        let Some(text) = text else {
            return default;
        };
        match self.number_in(text) {
            Some(number) => number,
            None => default,
        }
    }

    /// The number of an option that has no default; None where none of these is given.
    pub(crate) fn number_given(self, text: Option<&str>) -> Option<u64>
        ensures number { result ≡ number_given (range self) (option_copied text.entry) }
        ensures least { IfSome result (λ number. self.least ≤ number) }
        ensures most { IfSome result (λ number. number ≤ self.most) }
    {
        self.number_in(text?)
    }
}
