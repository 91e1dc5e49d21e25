//! What the words behind a command give it: names, and options with their values.

ghost use Rattle.std.specs.Prelude.{◌≡◌, false, fold, IfOk, map, option_copied, option_map};
ghost use Rattle.clap.specs.Words.{app_of, found_of, rows_of, rule_of};
ghost use Rattle.command_words.specs.Kept.{named, names_kept, stated};
ghost use Rattle.command_words.specs.Line.{AsksAlike, arguments_found, line, names_found, option_rule};
ghost use Rattle.command_words.specs.Line.{bare, with_option};
ghost use Rattle.command_words.specs.Words.{texts};

use crate::options::{ALL_OPTIONS, OptionName};
use clap::error::ErrorKind;
use clap::{Arg, ArgMatches, Command as Parser};
use std::alloc::{AllocError, Global};

/// The names that a command is given, in their order.
#[derive(Clone, Copy, Drop)]
pub(crate) enum FileNames<'a> {
    /// No name.
    Zero,
    /// One name.
    One(&'a str),
    /// Two names.
    Two(&'a str, &'a str),
    /// Three names.
    Three(&'a str, &'a str, &'a str),
}

/// What a command is given: its names, and the value of each option that is given.
#[derive(Clone, Copy, Drop)]
pub(crate) struct Arguments<'a> {
    /// The names.
    pub(crate) names: FileNames<'a>,
    /// The value of `--harts`.
    pub(crate) harts: Option<&'a str>,
    /// The value of `--frames`.
    pub(crate) frames: Option<&'a str>,
    /// The value of `--steps`.
    pub(crate) steps: Option<&'a str>,
    /// The value of `--seed`.
    pub(crate) seed: Option<&'a str>,
    /// The value of `--policy`.
    pub(crate) policy: Option<&'a str>,
    /// The value of `--calm`.
    pub(crate) calm: Option<&'a str>,
    /// The value of `--after`.
    pub(crate) after: Option<&'a str>,
    /// The value of `--runs`.
    pub(crate) run_count: Option<&'a str>,
    /// The value of `--until`.
    pub(crate) until: Option<&'a str>,
    /// The value of `--by`.
    pub(crate) by: Option<&'a str>,
    /// The value of `--jobs`.
    pub(crate) jobs: Option<&'a str>,
    /// The value of `--from`.
    pub(crate) from: Option<&'a str>,
    /// The value of `--to`.
    pub(crate) to: Option<&'a str>,
    /// The value of `--memory`.
    pub(crate) memory: Option<&'a str>,
    /// The value of `--expect`.
    pub(crate) expect: Option<&'a str>,
    /// The value of `--places`.
    pub(crate) places: Option<&'a str>,
    /// The value of `--deep`.
    pub(crate) deep: Option<&'a str>,
    /// The value of `--scripts`.
    pub(crate) scripts: Option<&'a str>,
    /// The value of `--without`.
    pub(crate) without: Option<&'a str>,
    /// The value of `--preemptions`.
    pub(crate) preemptions: Option<&'a str>,
    /// The value of `--signals`.
    pub(crate) signals: Option<&'a str>,
}

/// An option of this name, which takes a value.
fn option<'a>(alloc: Global, name: &'a str) -> Arg<'a>
    ensures rule { rule_of result ≡ option_rule name.entry.now }
    ensures own { result.global ≡ false }
{
    Arg::new(alloc, name).long(name)
}

/// A parser that isn't told a name of its own among the words, and has no help.
fn bare<'a>(alloc: Global) -> Parser<'a>
    ensures { app_of result ≡ bare }
{
    Parser::new(alloc, "rseq_run")
        .no_binary_name(true)
        .disable_help_flag(true)
}

/// A parser with these options too.
fn with_options<'a>(
    alloc: Global,
    parser: Parser<'a>,
    options: &[OptionName],
) -> Result<Parser<'a>, AllocError>
    ensures { IfOk result (λ added. app_of added
        ≡ fold with_option (app_of parser.entry) (map named options.now)) }
{
    let mut parser = parser;
    for name in options {
        parser = parser.arg(option(alloc, name.long_name()))?;
    }
    Ok(parser)
}

/// A parser of what may stand behind a command.
fn parser<'a>(alloc: Global) -> Result<Parser<'a>, AllocError>
    ensures { IfOk result (λ parser. app_of parser ≡ line) }
{
    with_options(alloc, bare(alloc), &ALL_OPTIONS)?
        .arg(Arg::new(alloc, "first"))?
        .arg(Arg::new(alloc, "second"))?
        .arg(Arg::new(alloc, "third"))
}

/// The names of a first, a second and a third name: none without those before it.
fn names_of<'a>(
    first: Option<&'a str>,
    second: Option<&'a str>,
    third: Option<&'a str>,
) -> FileNames<'a>
    ensures { names_kept result
        ≡ names_found (option_copied first.entry) (option_copied second.entry) (option_copied third.entry) }
{
    match (first, second, third) {
        (Some(first), Some(second), Some(third)) => FileNames::Three(first, second, third),
        (Some(first), Some(second), None) => FileNames::Two(first, second),
        (Some(first), None, _) => FileNames::One(first),
        (None, _, _) => FileNames::Zero,
    }
}

/// The arguments that the parser found.
fn arguments_in<'a>(matches: &ArgMatches<'a>) -> Arguments<'a>
    ensures { stated result ≡ arguments_found (rows_of (found_of matches.now)) }
{
    Arguments {
        names: names_of(
            matches.get_str("first"),
            matches.get_str("second"),
            matches.get_str("third"),
        ),
        harts: matches.get_str("harts"),
        frames: matches.get_str("frames"),
        steps: matches.get_str("steps"),
        seed: matches.get_str("seed"),
        policy: matches.get_str("policy"),
        calm: matches.get_str("calm"),
        after: matches.get_str("after"),
        run_count: matches.get_str("runs"),
        until: matches.get_str("until"),
        by: matches.get_str("by"),
        jobs: matches.get_str("jobs"),
        from: matches.get_str("from"),
        to: matches.get_str("to"),
        memory: matches.get_str("memory"),
        expect: matches.get_str("expect"),
        places: matches.get_str("places"),
        deep: matches.get_str("deep"),
        scripts: matches.get_str("scripts"),
        without: matches.get_str("without"),
        preemptions: matches.get_str("preemptions"),
        signals: matches.get_str("signals"),
    }
}

/// What the words behind a command give it; None where an option isn't known, is given twice or lacks its
/// value, and where there are more than three names. An option's value is text yet.
///
/// It errs only for want of memory.
pub(crate) fn arguments_of<'a>(
    alloc: Global,
    words: &'a [String],
) -> Result<Option<Arguments<'a>>, AllocError>
    ensures { IfOk result (λ found. AsksAlike (option_map stated found) (texts words.now)) }
{
    match parser(alloc)?.try_get_matches_from(words) {
        Ok(matches) => Ok(Some(arguments_in(&matches))),
        Err(error) if error.kind() == ErrorKind::OutOfMemory => Err(AllocError),
        Err(_) => Ok(None),
    }
}
