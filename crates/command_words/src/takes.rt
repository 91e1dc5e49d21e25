//! What each command takes behind its word: which names, and which options.

ghost use Rattle.std.specs.Prelude.{◌≡◌, ◌∷◌, [], option_map};
ghost use Rattle.command_words.specs.declared.takes.NameKind.TheVariants.{Guest, Program, Size};
ghost use Rattle.command_words.specs.Kept.{kinds_kept, named, options_kept, takes_kept};
ghost use Rattle.command_words.specs.Takes.{has, no_options, options_for, takes_by, takes_kind, takes_of, with_option};
ghost use Rattle.command_words.specs.WordFaults.{kind_at};

use crate::options::OptionName;
use crate::table::{CommandKind, ShownKind, SourceKind, command_kind};

/// Some of the options.
#[derive(Clone, Copy, Drop)]
pub(crate) struct OptionSet {
    harts: bool,
    frames: bool,
    steps: bool,
    seed: bool,
    policy: bool,
    calm: bool,
    after: bool,
    run_count: bool,
    until: bool,
    by: bool,
    jobs: bool,
    from: bool,
    to: bool,
    memory: bool,
    expect: bool,
    places: bool,
    deep: bool,
    scripts: bool,
    without: bool,
    preemptions: bool,
    signals: bool,
}

impl OptionSet {
    /// None of the options.
    pub(crate) fn none() -> OptionSet
        ensures { options_kept result ≡ no_options }
    {
        NO_OPTIONS
    }

    /// Whether an option is among these.
    pub(crate) fn has(self, option: OptionName) -> bool
        ensures { result ≡ has (options_kept self) (named option) }
    {
        match option {
            OptionName::Harts => self.harts,
            OptionName::Frames => self.frames,
            OptionName::Steps => self.steps,
            OptionName::Seed => self.seed,
            OptionName::Policy => self.policy,
            OptionName::Calm => self.calm,
            OptionName::After => self.after,
            OptionName::RunCount => self.run_count,
            OptionName::Until => self.until,
            OptionName::By => self.by,
            OptionName::Jobs => self.jobs,
            OptionName::From => self.from,
            OptionName::To => self.to,
            OptionName::Memory => self.memory,
            OptionName::Expect => self.expect,
            OptionName::Places => self.places,
            OptionName::Deep => self.deep,
            OptionName::Scripts => self.scripts,
            OptionName::Without => self.without,
            OptionName::Preemptions => self.preemptions,
            OptionName::OwnSignals => self.signals,
        }
    }

    /// These and one more.
    pub(crate) fn with(self, option: OptionName) -> OptionSet
        ensures { options_kept result ≡ with_option (options_kept self) (named option) }
    {
        let mut all = self;
        match option {
            OptionName::Harts => all.harts = true,
            OptionName::Frames => all.frames = true,
            OptionName::Steps => all.steps = true,
            OptionName::Seed => all.seed = true,
            OptionName::Policy => all.policy = true,
            OptionName::Calm => all.calm = true,
            OptionName::After => all.after = true,
            OptionName::RunCount => all.run_count = true,
            OptionName::Until => all.until = true,
            OptionName::By => all.by = true,
            OptionName::Jobs => all.jobs = true,
            OptionName::From => all.from = true,
            OptionName::To => all.to = true,
            OptionName::Memory => all.memory = true,
            OptionName::Expect => all.expect = true,
            OptionName::Places => all.places = true,
            OptionName::Deep => all.deep = true,
            OptionName::Scripts => all.scripts = true,
            OptionName::Without => all.without = true,
            OptionName::Preemptions => all.preemptions = true,
            OptionName::OwnSignals => all.signals = true,
        }
        all
    }
}

/// No option.
const NO_OPTIONS: OptionSet = OptionSet {
    harts: false,
    frames: false,
    steps: false,
    seed: false,
    policy: false,
    calm: false,
    after: false,
    run_count: false,
    until: false,
    by: false,
    jobs: false,
    from: false,
    to: false,
    memory: false,
    expect: false,
    places: false,
    deep: false,
    scripts: false,
    without: false,
    preemptions: false,
    signals: false,
};

/// The options of a command that runs on one hart: it chooses nothing.
const ON_ONE_HART: OptionSet = OptionSet {
    frames: true,
    steps: true,
    ..NO_OPTIONS
};

/// The options of a command that runs on the events of a script: it chooses nothing.
const ON_A_SCRIPT: OptionSet = OptionSet {
    harts: true,
    frames: true,
    steps: true,
    ..NO_OPTIONS
};

/// The options of a trial.
const OF_A_TRIAL: OptionSet = OptionSet {
    harts: true,
    steps: true,
    seed: true,
    ..NO_OPTIONS
};

/// The options of a command whose workers choose by a seed.
const OF_WORKERS: OptionSet = OptionSet {
    harts: true,
    frames: true,
    steps: true,
    seed: true,
    ..NO_OPTIONS
};

/// The options of runs whose events a seed draws.
const OF_DRAWS: OptionSet = OptionSet {
    policy: true,
    calm: true,
    ..OF_WORKERS
};

/// The options of a drawn run, which may begin with a script.
const OF_A_DRAW: OptionSet = OptionSet {
    after: true,
    ..OF_DRAWS
};

/// The options of an exploration.
const OF_EXPLORE: OptionSet = OptionSet {
    run_count: true,
    until: true,
    by: true,
    jobs: true,
    expect: true,
    ..OF_DRAWS
};

/// The options of a search for all outcomes.
const OF_A_SEARCH: OptionSet = OptionSet {
    harts: true,
    frames: true,
    places: true,
    deep: true,
    scripts: true,
    without: true,
    preemptions: true,
    signals: true,
    by: true,
    ..NO_OPTIONS
};

/// What a name is.
#[derive(Clone, Copy, Drop)]
pub enum NameKind {
    /// That of a program's file.
    Program,
    /// That of a second program's file.
    SecondProgram,
    /// That of a script's file.
    Script,
    /// That of a guest.
    Guest,
    /// The size of a guest.
    Size,
}

/// What the names of a command are, in their order.
#[derive(Clone, Copy, Drop)]
enum NameKinds {
    /// It has one.
    One(NameKind),
    /// It has two.
    Two(NameKind, NameKind),
    /// It has three.
    Three(NameKind, NameKind, NameKind),
}

impl NameKinds {
    /// What the name at this place is, counted from 0; None where there are fewer.
    fn at(self, place: usize) -> Option<NameKind>
        ensures { result ≡ kind_at (kinds_kept self) place }
    {
        let (first, second, third) = match self {
            NameKinds::One(first) => (first, None, None),
            NameKinds::Two(first, second) => (first, Some(second), None),
            NameKinds::Three(first, second, third) => (first, Some(second), Some(third)),
        };
        match place {
            0 => Some(first),
            1 => second,
            2 => third,
            _ => None,
        }
    }
}

/// What a command takes behind its word.
#[derive(Clone, Copy, Drop)]
pub(crate) struct Takes {
    /// What its names are.
    names: NameKinds,
    /// The options that it has.
    pub(crate) options: OptionSet,
}

impl Takes {
    /// What the name at this place is, counted from 0; None where the command has fewer names.
    pub(crate) fn name_at(self, place: usize) -> Option<NameKind>
        ensures { result ≡ kind_at (takes_kept self).names place }
    {
        self.names.at(place)
    }
}

impl SourceKind {
    /// What a command takes whose log comes about in this way.
    fn takes(self) -> Takes
        ensures { takes_kept result ≡ takes_by self }
    {
        match self {
            SourceKind::ByRule => of_a_program(ON_ONE_HART),
            SourceKind::ByScript => Takes {
                names: NameKinds::Two(NameKind::Program, NameKind::Script),
                options: ON_A_SCRIPT,
            },
            SourceKind::ByWorkers => of_a_program(OF_WORKERS),
            SourceKind::ByDraws => of_a_program(OF_A_DRAW),
        }
    }
}

impl ShownKind {
    /// These options, and those that come with what is shown: of a place which bytes of memory are shown, and of
    /// a trace the lines from which and to which it is told.
    fn options(self, options: OptionSet) -> OptionSet
        ensures { options_kept result ≡ options_for self (options_kept options) }
    {
        match self {
            ShownKind::Place => OptionSet {
                memory: true,
                ..options
            },
            ShownKind::Trace => OptionSet {
                from: true,
                to: true,
                ..options
            },
            ShownKind::Output | ShownKind::Summary | ShownKind::Acts | ShownKind::Gathered => {
                options
            }
        }
    }
}

impl CommandKind {
    /// Whether a command of this kind has an option.
    pub fn has_option(self, option: OptionName) -> bool
        ensures { result ≡ has (takes_kind self).options (named option) }
    {
        self.takes().options.has(option)
    }

    /// What the name at this place is, counted from 0; None where a command of this kind has fewer names.
    pub fn name_kind(self, place: usize) -> Option<NameKind>
        ensures { result ≡ kind_at (takes_kind self).names place }
    {
        self.takes().name_at(place)
    }

    /// What a command of this kind takes.
    pub(crate) fn takes(self) -> Takes
        ensures { takes_kept result ≡ takes_kind self }
    {
        match self {
            CommandKind::Runs { source, shown } => {
                let Takes { names, options } = source.takes();
                Takes {
                    names,
                    options: shown.options(options),
                }
            }
            CommandKind::Makes => of_a_guest(NO_OPTIONS),
            CommandKind::Tries => of_a_guest(OF_A_TRIAL),
            CommandKind::Explores => of_a_program(OF_EXPLORE),
            CommandKind::Searches => of_a_program(OF_A_SEARCH),
            CommandKind::Pairs => Takes {
                names: NameKinds::Three(
                    NameKind::Program,
                    NameKind::SecondProgram,
                    NameKind::Script,
                ),
                options: ON_A_SCRIPT,
            },
        }
    }
}

/// What a command takes that is about a program alone and has these options.
fn of_a_program(options: OptionSet) -> Takes
    ensures { takes_kept result ≡ record { names = Program ∷ []; options = options_kept options } }
{
    Takes {
        names: NameKinds::One(NameKind::Program),
        options,
    }
}

/// What a command takes that is about a guest and has these options.
fn of_a_guest(options: OptionSet) -> Takes
    ensures { takes_kept result ≡ record { names = Guest ∷ Size ∷ []; options = options_kept options } }
{
    Takes {
        names: NameKinds::Two(NameKind::Guest, NameKind::Size),
        options,
    }
}

/// What the command of a word takes; None where no command has the word.
pub(crate) fn takes_of(command: &str) -> Option<Takes>
    ensures { option_map takes_kept result ≡ takes_of command.now }
{
    let kind = command_kind(command)?;
    Some(kind.takes())
}
