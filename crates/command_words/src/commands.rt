//! The commands of a command line.

ghost use Rattle.std.specs.Prelude.{◌≡◌, ◌≤◌, IfOk, IfSome, option_copied, option_map};
ghost use Rattle.std.specs.List.{list_all};
ghost use Rattle.mach_types.specs.Limits.{InRange};
ghost use Rattle.command_words.specs.Commands.{AreInRange, AreSearchable, HasHartsOf, HasItsHarts, HasLimits, trial_limits};
ghost use Rattle.command_words.specs.Kept.{named, names_kept, pair_said, range, run_said, said, shown_said, source_said, spans_kept, stated, takes_kept};
ghost use Rattle.command_words.specs.Grammar.{all_suit, apart_or_text, asked_by, asked_for, command_for, drawn_source, files_for, guest_for, guest_named};
ghost use Rattle.command_words.specs.Grammar.{harts_for, one_name, policies_or_all, run_for, settings_of, shown_for, suits, trial_of};
ghost use Rattle.command_words.specs.Grammar.{number_given, pair_for, program_for, reductions_made, said_or_yes, signals_or_prompt, two_names};
ghost use Rattle.command_words.specs.Words.{command_of, texts};

use crate::arguments::{Arguments, FileNames, arguments_of};
use crate::ends::expected_end;
use crate::options::{
    ALL_OPTIONS, CALM, DEPTHS, FRAMES, HARTS, JOBS, LINES, Numbers, OUTCOMES, OptionName, PLACES,
    PREEMPTIONS, RUNS, SEEDS, STEPS, number_of, yes_or_no,
};
use crate::spans::MemorySpans;
use crate::table::{CommandKind, ShownKind, SourceKind, command_kind};
use crate::takes::Takes;
use draw_policies::{OutcomeKey, Policies};
use guest_names::Name;
use mach_types::{End, Limits};
use search_reductions::{ALL_REDUCTIONS, Reductions, Signals};
use std::alloc::{AllocError, Global};

/// How the events of runs are drawn from their seeds.
#[derive(Clone, Copy, Drop)]
pub struct Draws {
    /// Which policies draw.
    pub policies: Policies,
    /// From how many events on a run goes on fairly; None: from half of the steps that it may make.
    pub calm: Option<u32>,
}

/// How the log of a run comes about.
#[derive(Clone, Copy, Drop)]
pub enum Source<'a> {
    /// On one hart, by the fixed rule.
    Rule,
    /// By the events of the script in the file of this name.
    Script(&'a str),
    /// By workers, one for each hart.
    Workers {
        /// The seed of what the harts choose.
        seed: u64,
    },
    /// By draws.
    Drawn {
        /// The seed of what is drawn.
        seed: u64,
        /// How its events are drawn.
        draws: Draws,
    },
    /// By the events of a script, and by draws behind them.
    DrawnAfter {
        /// The name of the script's file.
        script: &'a str,
        /// The seed of what is drawn.
        seed: u64,
        /// How events are drawn behind those of the script.
        draws: Draws,
    },
}

/// Some of the lines of a log, which are numbered from 1.
#[derive(Clone, Copy, Drop)]
pub struct LineSpan {
    /// The first of them, 1 to 1,000,000.
    pub from: u32,
    /// The last of them, 1 to 1,000,000; None: the last of the log.
    pub to: Option<u32>,
}

/// What is shown of a run.
#[derive(Clone, Copy, Drop)]
pub enum Shown<'a> {
    /// Its output: its console, its log and its end.
    Output,
    /// Its summary: how many acts of each form each hart made.
    Summary,
    /// The place that it comes to, with these spans of memory.
    Place(MemorySpans<'a>),
    /// Its acts, a line each.
    Acts,
    /// Its output with its gathered log: each private sequence, one that no other hart disturbed, put together.
    Gathered,
    /// These lines of its log, below each what came of it, and its end.
    Trace(LineSpan),
}

/// To run a program, and to show something of the run.
#[derive(Clone, Copy, Drop)]
pub struct Run<'a> {
    /// The name of the program's file.
    pub program: &'a str,
    /// How the log of the run comes about.
    pub source: Source<'a>,
    /// What is shown of the run.
    pub shown: Shown<'a>,
    /// The limits of the run.
    pub limits: Limits,
}

/// A guest of a size, which it needn't take.
#[derive(Clone, Copy, Drop)]
pub struct Guest {
    /// The guest's name.
    pub name: Name,
    /// Its size.
    pub size: u64,
}

/// How many frames a trial has.
const TRIAL_FRAMES: u32 = 4_096;

/// To make a guest, to run it by rounds, and to show its console and its acts.
#[derive(Clone, Copy, Drop)]
pub struct Trial {
    /// The guest.
    pub guest: Guest,
    /// How many harts there are.
    pub harts: u8,
    /// How many events the log can hold.
    pub steps: u32,
    /// The seed of what the harts choose.
    pub seed: u64,
}

/// What the options of a search come to.
#[derive(Clone, Copy, Drop)]
pub struct SearchSettings {
    /// The limits of a run; its steps are how many events lead to a place at most.
    pub limits: Limits,
    /// How many places are kept, 1 to 16,000,000.
    pub places: u32,
    /// Whether the script of each outcome is printed.
    pub scripts: bool,
    /// Which reductions the search makes.
    pub reductions: Reductions,
    /// How many preemptions a run may have, at most 255; None where it may have any number.
    pub preemptions: Option<u8>,
    /// Of which runs the search speaks, by when the signals come that a thread causes itself.
    pub signals: Signals,
    /// By what the outcomes are told apart that are printed.
    pub apart: OutcomeKey,
}

/// What the options of a command come to.
#[derive(Clone, Copy, Drop)]
pub struct Settings {
    /// The limits of a run.
    pub limits: Limits,
    /// The seed, of the first run where there are several.
    pub seed: u64,
    /// How events are drawn.
    pub draws: Draws,
    /// How many runs are made, 1 to 1,000,000,000.
    pub runs: u64,
    /// How many different outcomes are enough, 1 to 64; None: all runs are made.
    pub until: Option<u8>,
    /// By what outcomes are told apart.
    pub apart: OutcomeKey,
    /// How many host threads make the runs, 1 to 64; None: as many as there are processors.
    pub jobs: Option<u8>,
    /// Which lines of a log are told.
    pub span: LineSpan,
    /// How all runs are expected to end; None: nothing is.
    pub expected: Option<End>,
    /// What a search comes to.
    pub search: SearchSettings,
}

/// To make runs of a program that seeds draw, one behind the other, and to tell their different outcomes.
#[derive(Clone, Copy, Drop)]
pub struct Explore<'a> {
    /// The name of the program's file.
    pub program: &'a str,
    /// Which runs are made, and how.
    pub settings: Settings,
}

/// To find all outcomes of a program, and a script for each.
#[derive(Clone, Copy, Drop)]
pub struct Search<'a> {
    /// The name of the program's file.
    pub program: &'a str,
    /// How far it is searched, and what is printed.
    pub settings: SearchSettings,
}

/// To run two programs together, on the events of a script.
#[derive(Clone, Copy, Drop)]
pub struct PairRun<'a> {
    /// The name of the first program's file.
    pub first: &'a str,
    /// The name of the second program's file.
    pub second: &'a str,
    /// The name of the script's file.
    pub script: &'a str,
    /// The limits of the run: each program has so many frames, and harts and steps are those of both.
    pub limits: Limits,
}

/// What words ask for.
#[derive(Clone, Copy, Drop)]
pub enum Command<'a> {
    /// A run of a program.
    Runs(Run<'a>),
    /// The file of a guest.
    Makes(Guest),
    /// A trial of a guest.
    Tries(Trial),
    /// An exploration of the runs of a program.
    Explores(Explore<'a>),
    /// A search for all outcomes of a program.
    Searches(Search<'a>),
    /// A run of two programs together.
    Pairs(PairRun<'a>),
}

impl Trial {
    /// The limits of the run: a trial has no option for the frames.
    pub fn limits(&self) -> Limits
        ensures { result ≡ trial_limits self.now }
    {
        Limits {
            harts: self.harts,
            frames: TRIAL_FRAMES,
            steps: self.steps,
        }
    }
}

/// What the words ask for; None exactly where they aren't of the grammar. It errs only for want of memory.
///
/// The first word is the command: `solo FILE`, with `--frames` and `--steps`; `play FILE SCRIPT` and the other
/// commands on a script, with `--harts` too, `inspect` with `--memory` besides, and `trace` with `--from` and `--to`;
/// `run FILE`, with `--harts` and `--seed` too; `draw FILE`, with `--policy`, `--calm` and `--after` besides; `explore FILE`,
/// with `--policy`, `--calm`, `--runs`, `--until`, `--by`, `--jobs` and `--expect`; `outcomes FILE`, with `--harts`,
/// `--frames`, `--places`, `--deep`, `--scripts`, `--without`, `--preemptions` and `--signals`; `make NAME N`, with no option; `trial NAME N`, with
/// `--harts`, `--steps` and `--seed`; or `pair FILE1 FILE2 SCRIPT`, with the options of `play`. Each limit is in its range.
#[tactic(auto, unfolding(crate::specs::Words::command_of))]
pub(crate) fn command_of<'a>(
    alloc: Global,
    words: &'a [String],
) -> Result<Option<Command<'a>>, AllocError>
    ensures command { IfOk result (λ found. option_map said found ≡ command_of (texts words.now)) }
    ensures limits { IfOk result (λ found. IfSome found (λ command. HasLimits (said command))) }
    ensures harts { IfOk result (λ found. IfSome found (λ command. HasItsHarts (said command))) }
{
    let Some((command, rest)) = words.split_first() else {
        return Ok(None);
    };
    let Some(arguments) = arguments_of(alloc, rest)? else {
        return Ok(None);
    };
    Ok(asked_by(command.as_str(), arguments))
}

/// What a command's word asks for with these arguments; None where no command has the word.
fn asked_by<'a>(command: &str, arguments: Arguments<'a>) -> Option<Command<'a>>
    ensures command { option_map said result ≡ asked_by command.now (stated arguments.entry) }
    ensures limits { IfSome result (λ command. HasLimits (said command)) }
    ensures harts { IfSome result (λ command. HasItsHarts (said command)) }
{
    let kind = command_kind(command)?;
    asked_for(kind, arguments)
}

impl<'a> Arguments<'a> {
    /// The value of an option, if it is given.
    fn value(&self, option: OptionName) -> Option<&'a str>
        ensures { option_copied result ≡ (stated self.now).values (named option) }
    {
        match option {
            OptionName::Harts => self.harts,
            OptionName::Frames => self.frames,
            OptionName::Steps => self.steps,
            OptionName::Seed => self.seed,
            OptionName::Policy => self.policy,
            OptionName::Calm => self.calm,
            OptionName::After => self.after,
            OptionName::RunCount => self.run_count,
            OptionName::Until => self.until,
            OptionName::By => self.by,
            OptionName::Jobs => self.jobs,
            OptionName::From => self.from,
            OptionName::To => self.to,
            OptionName::Memory => self.memory,
            OptionName::Expect => self.expect,
            OptionName::Places => self.places,
            OptionName::Deep => self.deep,
            OptionName::Scripts => self.scripts,
            OptionName::Without => self.without,
            OptionName::Preemptions => self.preemptions,
            OptionName::OwnSignals => self.signals,
        }
    }

    /// Whether the value of an option suits a command where it is given: the option is one of the command's, and takes the value.
    fn suits(&self, takes: Takes, option: OptionName) -> bool
        ensures { result ≡ suits (takes_kept takes) (named option) ((stated self.now).values (named option)) }
    {
        match self.value(option) {
            Some(text) => takes.options.has(option) && option.values().contain(text),
            None => true,
        }
    }

    /// Whether the value of each of these options suits a command where it is given.
    fn each_suits(&self, takes: Takes, options: &[OptionName]) -> bool
        ensures { result ≡ list_all (λ option. suits (takes_kept takes) (named option)
            ((stated self.now).values (named option))) options.now }
    {
        options.iter().all(|option| self.suits(takes, *option))
    }

    /// Whether each value that is given suits a command.
    fn all_suit(&self, takes: Takes) -> bool
        ensures { result ≡ all_suit (takes_kept takes) (stated self.now).values }
    {
        self.each_suits(takes, &ALL_OPTIONS)
    }

    /// The limits that the options come to.
    fn limits(&self) -> Limits
        ensures limits { result ≡ (settings_of (stated self.now).values).limits }
        ensures range { InRange result }
    {
        Limits {
            harts: HARTS.number_or(2, self.harts) as u8,
            frames: FRAMES.number_or(4_096, self.frames) as u32,
            steps: STEPS.number_or(200_000, self.steps) as u32,
        }
    }

    /// How events are drawn.
    fn draws(&self) -> Draws
        ensures { result ≡ (settings_of (stated self.now).values).draws }
    {
        Draws {
            policies: policies_or_all(self.policy),
            calm: count_in(CALM, self.calm),
        }
    }

    /// Which lines of a log are told.
    fn span(&self) -> LineSpan
        ensures { result ≡ (settings_of (stated self.now).values).span }
    {
        LineSpan {
            from: LINES.number_or(1, self.from) as u32,
            to: count_in(LINES, self.to),
        }
    }

    /// What the options of a search come to.
    fn search(&self) -> SearchSettings
        ensures settings { result ≡ (settings_of (stated self.now).values).search }
        ensures range { AreSearchable result }
    {
        SearchSettings {
            limits: Limits {
                harts: HARTS.number_or(2, self.harts) as u8,
                frames: FRAMES.number_or(4_096, self.frames) as u32,
                steps: DEPTHS.number_or(100_000, self.deep) as u32,
            },
            places: PLACES.number_or(1_000_000, self.places) as u32,
            scripts: said_or_yes(self.scripts),
            reductions: reductions_made(self.without),
            preemptions: small_in(PREEMPTIONS, self.preemptions),
            signals: signals_or_prompt(self.signals),
            apart: apart_or_text(self.by),
        }
    }

    /// What the options come to.
    fn settings(&self) -> Settings
        ensures settings { result ≡ settings_of (stated self.now).values }
        ensures range { AreInRange result }
    {
        Settings {
            limits: self.limits(),
            seed: SEEDS.number_or(1, self.seed),
            draws: self.draws(),
            runs: RUNS.number_or(10_000, self.run_count),
            until: small_in(OUTCOMES, self.until),
            apart: apart_or_text(self.by),
            jobs: small_in(JOBS, self.jobs),
            span: self.span(),
            expected: expected_end(self.expect),
            search: self.search(),
        }
    }
}

/// Which policies draw: those of the name that is given, or all in turn.
fn policies_or_all(name: Option<&str>) -> Policies
    ensures { result ≡ policies_or_all (option_copied name.entry) }
{
    match name {
        Some(name) => Policies::of_word(name).unwrap_or(Policies::All),
        None => Policies::All,
    }
}

/// A number of events of an option that has no default; None where none of these is given.
fn count_in(numbers: Numbers, text: Option<&str>) -> Option<u32>
    requires { numbers.most ≤ 1000000 }
    ensures { result ≡ number_given (range numbers) (option_copied text.entry) }
{
    let number = numbers.number_given(text)?;
    Some(number as u32)
}

/// A small number of an option that has no default; None where none of these is given.
fn small_in(numbers: Numbers, text: Option<&str>) -> Option<u8>
    requires { numbers.most ≤ 255 }
    ensures number { result ≡ number_given (range numbers) (option_copied text.entry) }
    ensures least { IfSome result (λ number. numbers.least ≤ number) }
{
    let number = numbers.number_given(text)?;
    Some(number as u8)
}

/// Whether it is said, or else yes.
fn said_or_yes(word: Option<&str>) -> bool
    ensures { result ≡ said_or_yes (option_copied word.entry) }
{
    match word {
        Some(word) => yes_or_no(word).unwrap_or(true),
        None => true,
    }
}

/// Which reductions a search makes: all but the one of the name that is given.
fn reductions_made(name: Option<&str>) -> Reductions
    ensures { result ≡ reductions_made (option_copied name.entry) }
{
    match name {
        Some(name) => Reductions::all_but(name).unwrap_or(ALL_REDUCTIONS),
        None => ALL_REDUCTIONS,
    }
}

/// Of which runs a search speaks: as it is said, or of those in which a thread's own signals come at once.
fn signals_or_prompt(word: Option<&str>) -> Signals
    ensures { result ≡ signals_or_prompt (option_copied word.entry) }
{
    match word {
        Some(word) => Signals::of_word(word).unwrap_or(Signals::Prompt),
        None => Signals::Prompt,
    }
}

/// By what outcomes are told apart: as it is said, or by their texts.
fn apart_or_text(word: Option<&str>) -> OutcomeKey
    ensures { result ≡ apart_or_text (option_copied word.entry) }
{
    match word {
        Some(word) => OutcomeKey::of_word(word).unwrap_or(OutcomeKey::ByText),
        None => OutcomeKey::ByText,
    }
}

/// What a command of this kind asks for with these arguments; None where a value that is given doesn't suit it.
fn asked_for<'a>(kind: CommandKind, arguments: Arguments<'a>) -> Option<Command<'a>>
    ensures command { option_map said result ≡ asked_for kind (stated arguments.entry) }
    ensures limits { IfSome result (λ command. HasLimits (said command)) }
    ensures harts { IfSome result (λ command. HasItsHarts (said command)) }
{
    if arguments.all_suit(kind.takes()) {
        let settings = arguments.settings();
        let Arguments {
            names,
            after,
            memory,
            ..
        } = arguments;
        command_for(kind, settings, names, after, memory)
    } else {
        None
    }
}

/// The command of this kind with these settings, which its options come to, and with the script behind which it goes on, the spans of
/// memory and the names that it is given; None where the names don't suit.
fn command_for<'a>(
    kind: CommandKind,
    settings: Settings,
    names: FileNames<'a>,
    after: Option<&'a str>,
    memory: Option<&'a str>,
) -> Option<Command<'a>>
    requires { AreInRange settings }
    ensures command { option_map said result ≡ command_for kind settings (option_copied after.entry)
        (option_copied memory.entry) (names_kept names.entry) }
    ensures limits { IfSome result (λ command. HasLimits (said command)) }
    ensures harts { IfSome result (λ command. HasItsHarts (said command)) }
{
    match kind {
        CommandKind::Runs { source, shown } => {
            let run = run_for(source, shown, settings, names, after, memory)?;
            Some(Command::Runs(run))
        }
        CommandKind::Makes => Some(Command::Makes(guest_for(names)?)),
        CommandKind::Tries => Some(Command::Tries(trial_of(settings, guest_for(names)?))),
        CommandKind::Explores => {
            let program = program_for(names)?;
            Some(Command::Explores(Explore { program, settings }))
        }
        CommandKind::Searches => {
            let program = program_for(names)?;
            let settings = settings.search;
            Some(Command::Searches(Search { program, settings }))
        }
        CommandKind::Pairs => Some(Command::Pairs(pair_for(settings.limits, names)?)),
    }
}

/// How many harts there are: one by the fixed rule.
fn harts_for(source: SourceKind, harts: u8) -> u8
    ensures { result ≡ harts_for source harts }
{
    match source {
        SourceKind::ByRule => 1,
        SourceKind::ByScript | SourceKind::ByWorkers | SourceKind::ByDraws => harts,
    }
}

/// The program that one name gives; None where there isn't one name.
fn program_for(names: FileNames<'_>) -> Option<&str>
    ensures { option_copied result ≡ program_for (names_kept names.entry) }
{
    match names {
        FileNames::One(program) => Some(program),
        FileNames::Zero | FileNames::Two(..) | FileNames::Three(..) => None,
    }
}

/// The program that one name gives, and how the log comes about; None where there isn't one name.
fn one_name<'a>(source: Source<'a>, names: FileNames<'a>) -> Option<(&'a str, Source<'a>)>
    ensures { option_map (λ files. (files.0.now, source_said files.1)) result
        ≡ one_name (source_said source.entry) (names_kept names.entry) }
{
    match names {
        FileNames::One(program) => Some((program, source)),
        FileNames::Zero | FileNames::Two(..) | FileNames::Three(..) => None,
    }
}

/// The program and the script that two names give; None where there aren't two.
fn two_names(names: FileNames<'_>) -> Option<(&str, Source<'_>)>
    ensures { option_map (λ files. (files.0.now, source_said files.1)) result
        ≡ two_names (names_kept names.entry) }
{
    match names {
        FileNames::Two(program, script) => Some((program, Source::Script(script))),
        FileNames::Zero | FileNames::One(_) | FileNames::Three(..) => None,
    }
}

/// How a drawn log comes about with these settings: from the first event on, or behind the script of this name.
fn drawn_source<'a>(settings: Settings, after: Option<&'a str>) -> Source<'a>
    ensures { source_said result ≡ drawn_source settings (option_copied after.entry) }
{
    let Settings { seed, draws, .. } = settings;
    match after {
        Some(script) => Source::DrawnAfter {
            script,
            seed,
            draws,
        },
        None => Source::Drawn { seed, draws },
    }
}

/// The program that names give, and how the log comes about with these settings, behind this script where one is named; None where the
/// names are too few or too many.
fn files_for<'a>(
    source: SourceKind,
    names: FileNames<'a>,
    settings: Settings,
    after: Option<&'a str>,
) -> Option<(&'a str, Source<'a>)>
    ensures { option_map (λ files. (files.0.now, source_said files.1)) result
        ≡ files_for source (names_kept names.entry) settings (option_copied after.entry) }
{
    let seed = settings.seed;
    match source {
        SourceKind::ByRule => one_name(Source::Rule, names),
        SourceKind::ByScript => two_names(names),
        SourceKind::ByWorkers => one_name(Source::Workers { seed }, names),
        SourceKind::ByDraws => one_name(drawn_source(settings, after), names),
    }
}

impl ShownKind {
    /// What is shown: of a place the spans of memory that a text writes, if one is given, and of a trace the lines of this span.
    fn shown(self, span: LineSpan, memory: Option<&str>) -> Shown<'_>
        ensures { shown_said result ≡ shown_for self span (option_copied memory.entry) }
    {
        match self {
            ShownKind::Output => Shown::Output,
            ShownKind::Summary => Shown::Summary,
            ShownKind::Place => Shown::Place(MemorySpans { text: memory }),
            ShownKind::Acts => Shown::Acts,
            ShownKind::Gathered => Shown::Gathered,
            ShownKind::Trace => Shown::Trace(span),
        }
    }
}

/// The run of a program that names give, with these settings, behind the script and with the spans of memory that are given; None
/// where the names are too few or too many.
fn run_for<'a>(
    kind: SourceKind,
    shown: ShownKind,
    settings: Settings,
    names: FileNames<'a>,
    after: Option<&'a str>,
    memory: Option<&'a str>,
) -> Option<Run<'a>>
    requires { InRange settings.limits }
    ensures run { option_map run_said result ≡ option_map (run_for kind shown settings (option_copied memory.entry))
        (files_for kind (names_kept names.entry) settings (option_copied after.entry)) }
    ensures limits { IfSome result (λ run. InRange run.limits) }
    ensures harts { IfSome result (λ run. HasHartsOf (source_said run.source) run.limits) }
{
    let (program, source) = files_for(kind, names, settings, after)?;
    let Limits {
        harts,
        frames,
        steps,
    } = settings.limits;
    let limits = Limits {
        harts: harts_for(kind, harts),
        frames,
        steps,
    };
    Some(Run {
        program,
        source,
        shown: shown.shown(settings.span, memory),
        limits,
    })
}

/// The two programs and the script that three names give, with these limits; None where there aren't three.
fn pair_for<'a>(limits: Limits, names: FileNames<'a>) -> Option<PairRun<'a>>
    requires { InRange limits }
    ensures pair { option_map pair_said result ≡ pair_for limits (names_kept names.entry) }
    ensures limits { IfSome result (λ pair. InRange pair.limits) }
{
    match names {
        FileNames::Three(first, second, script) => Some(PairRun {
            first,
            second,
            script,
            limits,
        }),
        FileNames::Zero | FileNames::One(_) | FileNames::Two(..) => None,
    }
}

/// The trial of this guest with these settings.
fn trial_of(settings: Settings, guest: Guest) -> Trial
    requires { InRange settings.limits }
    ensures trial { result ≡ trial_of settings guest }
    ensures limits { InRange (trial_limits result) }
{
    Trial {
        guest,
        harts: settings.limits.harts,
        steps: settings.limits.steps,
        seed: settings.seed,
    }
}

/// The guest that two names give, where there are two: the name is a guest's, and the size is a number.
fn guest_for(names: FileNames<'_>) -> Option<Guest>
    ensures { result ≡ guest_for (names_kept names.entry) }
{
    match names {
        FileNames::Two(name, size) => guest_named(name, size),
        FileNames::Zero | FileNames::One(_) | FileNames::Three(..) => None,
    }
}

/// The guest of this name and this size.
fn guest_named(name: &str, size: &str) -> Option<Guest>
    ensures { result ≡ guest_named name.now size.now }
{
    let name = Name::of_word(name)?;
    let size = number_of(size)?;
    Some(Guest { name, size })
}
