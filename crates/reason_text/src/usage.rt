//! The usage of the commands, and help. All of it goes over the tables of commands and options, and names none.

use crate::messages::Nearest;
use command_words::{
    ALL_OPTIONS, COMMANDS, CommandKind, NameKind, OptionName, Question, command_kind,
};
use std::alloc::{AllocError, Global};
use std::fmt::Write;

/// The version (own).
const VERSION: &str = "0.4.0";

/// How many names a command has at most.
const MOST_NAMES: usize = 3;

/// How wide the column of the options' names is in the list of what they are.
const OPTION_COLUMN: usize = 7;

/// How wide that of the commands' words is.
const COMMAND_COLUMN: usize = 8;

/// What stands for the value of an option.
fn value_of(option: OptionName) -> &'static str {
    match option {
        OptionName::Policy => "P",
        OptionName::After => "S",
        OptionName::Until => "K",
        OptionName::By => "B",
        OptionName::Memory => "M",
        OptionName::Expect => "E",
        OptionName::Scripts => "W",
        OptionName::Without => "R",
        OptionName::Preemptions => "P",
        OptionName::OwnSignals => "W",
        OptionName::Harts
        | OptionName::Frames
        | OptionName::Steps
        | OptionName::Seed
        | OptionName::Calm
        | OptionName::RunCount
        | OptionName::Jobs
        | OptionName::From
        | OptionName::To
        | OptionName::Places
        | OptionName::Deep => "N",
    }
}

/// What an option is, for a person.
fn about_option(option: OptionName) -> &'static str {
    match option {
        OptionName::Harts => "how many harts there are: 1 to 8 (default 2)",
        OptionName::Frames => "how many frames of memory there are: 128 to 16384 (default 4096)",
        OptionName::Steps => "how many lines the log may have: 1 to 1000000 (default 200000)",
        OptionName::Seed => { "where the generators begin: 0 to 18446744073709551615 (default 1)" }
        OptionName::Policy => {
            "which policy draws: one, stretch, short, stall, spread, rule, or all, the first five in turn by the seed (default all)"
        }
        OptionName::Calm => {
            "from how many events on the run goes on fairly: 0 to 1000000 (default half of the steps)"
        }
        OptionName::After => {
            "the script whose events come before those that are drawn (default none)"
        }
        OptionName::RunCount => "how many runs are explored: 1 to 1000000000 (default 10000)",
        OptionName::Until => {
            "how many different outcomes are enough: 1 to 64 (by default all runs are made)"
        }
        OptionName::By => "by what outcomes are told apart: text or end (default text)",
        OptionName::Jobs => {
            "how many threads make the runs: 1 to 64 (default as many as there are processors)"
        }
        OptionName::From => "from which line the log is told: 1 to 1000000 (default 1)",
        OptionName::To => "to which line the log is told: 1 to 1000000 (default its last)",
        OptionName::Memory => {
            "which bytes of memory are shown: AT:LENGTH, an address in hexadecimal and 1 to 65536; or several, one comma apart (default none)"
        }
        OptionName::Expect => {
            "how all runs are expected to end: \"exit N\", \"killed N\", stuck or limit; where one ends otherwise the status is 1 (default nothing is)"
        }
        OptionName::Places => {
            "how many places are visited at most: 1 to 16000000 (default 1000000)"
        }
        OptionName::Deep => {
            "how many events lead to a place at most: 1 to 1000000 (default 100000)"
        }
        OptionName::Scripts => {
            "whether a script of each outcome is printed: yes or no (default yes)"
        }
        OptionName::Without => {
            "which reduction is left out: local-steps, and each instruction of each thread leads to a place of its own (default none)"
        }
        OptionName::Preemptions => {
            "how many preemptions a run has at most: 0 to 255 (default any number)"
        }
        OptionName::OwnSignals => {
            "when a signal comes that a thread causes itself: prompt, before the thread goes on, or any, whenever the rules allow (default prompt)"
        }
    }
}

/// What stands for a name of a command of this kind.
fn name_word(kind: CommandKind, name: NameKind) -> &'static str {
    match name {
        NameKind::Program if matches!(kind, CommandKind::Pairs) => "FILE1",
        NameKind::Program => "FILE",
        NameKind::SecondProgram => "FILE2",
        NameKind::Script => "SCRIPT",
        NameKind::Guest => "NAME",
        NameKind::Size => "N",
    }
}

/// Looks whether an option that a command takes might have been meant.
pub(crate) fn look_at_options(nearest: &mut Nearest, command: &str) {
    if let Some(kind) = command_kind(command) {
        for option in ALL_OPTIONS {
            if kind.has_option(option) {
                nearest.look_at_option(option.long_name());
            }
        }
    }
}

/// Appends the line of usage of a command: its word, its names and its options.
fn push_line(
    text: &mut String,
    begin: &str,
    word: &str,
    kind: CommandKind,
) -> Result<(), AllocError> {
    write!(text, "{begin} rseq_run {word}")?;
    for place in 0..MOST_NAMES {
        if let Some(name) = kind.name_kind(place) {
            let name = name_word(kind, name);
            write!(text, " {name}")?;
        }
    }
    for option in ALL_OPTIONS {
        if kind.has_option(option) {
            let (name, value) = (option.long_name(), value_of(option));
            write!(text, " [--{name} {value}]")?;
        }
    }
    text.push_str("\n")
}

/// Appends the line of usage of each command.
fn push_lines(text: &mut String) -> Result<(), AllocError> {
    let mut begin = "usage:";
    for word in COMMANDS {
        if let Some(kind) = command_kind(word) {
            push_line(text, begin, word, kind)?;
            begin = "      ";
        }
    }
    Ok(())
}

/// Appends so many spaces that a word fills its column, where it is shorter.
fn push_spaces(text: &mut String, word: &str, column: usize) -> Result<(), AllocError> {
    for _ in word.len()..column {
        text.push_str(" ")?;
    }
    Ok(())
}

/// Appends what an option is.
fn push_option(text: &mut String, option: OptionName) -> Result<(), AllocError> {
    let (name, value, about) = (option.long_name(), value_of(option), about_option(option));
    write!(text, "  --{name} {value} ")?;
    push_spaces(text, name, OPTION_COLUMN)?;
    writeln!(text, "{about}")
}

/// Appends the commands with their names and options, and what the options are.
pub(crate) fn push_usage(text: &mut String) -> Result<(), AllocError> {
    push_lines(text)?;
    for option in ALL_OPTIONS {
        push_option(text, option)?;
    }
    Ok(())
}

/// Appends what a command does.
fn push_command(text: &mut String, word: &str, kind: CommandKind) -> Result<(), AllocError> {
    write!(text, "  {word} ")?;
    push_spaces(text, word, COMMAND_COLUMN)?;
    push_about(text, kind)
}

/// Appends what a command of this kind does.
fn push_about(text: &mut String, kind: CommandKind) -> Result<(), AllocError> {
    match kind {
        CommandKind::Runs { source, shown } => {
            let (runs, prints) = (source.about(), shown.about());
            writeln!(text, "{runs}; {prints}")
        }
        CommandKind::Explores => text.push_str(
            "makes the runs of FILE that the seed and those behind it draw; prints each different outcome, and how many runs came to it\n",
        ),
        CommandKind::Searches => text.push_str(
            "visits the places that runs of FILE come to; prints each outcome with a script of it, and whether it is known that there is no other\n",
        ),
        CommandKind::Makes => text.push_str("prints the file of the guest NAME for the size N\n"),
        CommandKind::Tries => text.push_str(
            "runs the guest NAME for the size N by rounds; prints its console, and how many acts of each form each hart made\n",
        ),
        CommandKind::Pairs => text.push_str(
            "runs FILE1 and FILE2 together on the events of SCRIPT, with a segment of memory for both; prints both consoles, the log, and how both ended\n",
        ),
    }
}

/// Appends what all commands are: their usage, what they do, and what their options are.
fn push_all(text: &mut String) -> Result<(), AllocError> {
    push_lines(text)?;
    text.push_str("\ncommands:\n")?;
    for word in COMMANDS {
        if let Some(kind) = command_kind(word) {
            push_command(text, word, kind)?;
        }
    }
    text.push_str("\noptions:\n")?;
    for option in ALL_OPTIONS {
        push_option(text, option)?;
    }
    text.push_str(
        "\nrseq_run COMMAND --help says this of one command, and rseq_run --version the version.\n",
    )
}

/// Appends the same of one command.
fn push_one(text: &mut String, word: &str, kind: CommandKind) -> Result<(), AllocError> {
    push_line(text, "usage:", word, kind)?;
    text.push_str("\ncommands:\n")?;
    push_command(text, word, kind)?;
    let mut begin = "\noptions:\n";
    for option in ALL_OPTIONS {
        if kind.has_option(option) {
            text.push_str(begin)?;
            push_option(text, option)?;
            begin = "";
        }
    }
    Ok(())
}

/// The answer to a question; `command` is the first word, whose command it may be about.
pub fn answer_text(alloc: Global, question: Question, command: &str) -> Result<String, AllocError> {
    let mut text = String::new(alloc);
    match (question, command_kind(command)) {
        (Question::Version, _) => writeln!(text, "rseq_run {VERSION}")?,
        (Question::OneCommand, Some(kind)) => push_one(&mut text, command, kind)?,
        (Question::AllCommands | Question::OneCommand, _) => push_all(&mut text)?,
    }
    Ok(text)
}

/// The usage of all commands.
pub fn usage_text(alloc: Global) -> Result<String, AllocError> {
    let mut text = String::new(alloc);
    push_usage(&mut text)?;
    Ok(text)
}
