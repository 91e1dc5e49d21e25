//! The commands: of each its word, and whether it makes or tries a guest, explores runs, searches for all outcomes or runs two programs
//! together, or how the log of its run comes about and what is shown of it.

ghost use Rattle.std.specs.Prelude.{◌≡◌};
ghost use Rattle.command_words.specs.Table.{command_kind};

/// How the log of a run comes about.
#[derive(Clone, Copy, Drop)]
pub enum SourceKind {
    /// On one hart, by the fixed rule.
    ByRule,
    /// By the events of a script.
    ByScript,
    /// By workers, one for each hart.
    ByWorkers,
    /// By draws from a seed.
    ByDraws,
}

impl SourceKind {
    /// How the log comes about, for a person.
    pub fn about(self) -> &'static str {
        match self {
            SourceKind::ByRule => "runs FILE on one hart by the fixed rule",
            SourceKind::ByScript => "runs FILE on the events of SCRIPT",
            SourceKind::ByWorkers => "runs FILE by workers, one for each hart",
            SourceKind::ByDraws => "runs FILE on the events that the seed draws",
        }
    }
}

/// What is shown of a run, but for the lines of a log that a trace tells.
#[derive(Clone, Copy, Drop)]
pub enum ShownKind {
    /// Its output: its console, its log and its end.
    Output,
    /// Its summary: how many acts of each form each hart made.
    Summary,
    /// The place that it comes to.
    Place,
    /// Its acts, a line each.
    Acts,
    /// Its output with its gathered log: each private sequence, one that no other hart disturbed, put together.
    Gathered,
    /// The lines of its log, below each what came of it, and its end.
    Trace,
}

impl ShownKind {
    /// What is shown, for a person.
    pub fn about(self) -> &'static str {
        match self {
            ShownKind::Output => "prints its console, its log and its end",
            ShownKind::Summary => "prints how many acts of each form each hart made",
            ShownKind::Place => "prints the place that they come to",
            ShownKind::Acts => "prints a line for each act",
            ShownKind::Gathered => "prints its output with each private sequence put together",
            ShownKind::Trace => "prints what came of each of them",
        }
    }
}

/// What a command is.
#[derive(Clone, Copy, Drop)]
pub enum CommandKind {
    /// It runs a program.
    Runs {
        /// How the log of the run comes about.
        source: SourceKind,
        /// What is shown of the run.
        shown: ShownKind,
    },
    /// It makes the file of a guest.
    Makes,
    /// It makes a guest, and runs it by rounds.
    Tries,
    /// It explores the runs of a program.
    Explores,
    /// It searches for all outcomes of a program.
    Searches,
    /// It runs two programs together, on the events of a script.
    Pairs,
}

/// The words of the commands.
pub const COMMANDS: [&str; 14] = [
    "solo", "play", "blocks", "inspect", "trace", "acts", "gather", "run", "draw", "explore",
    "outcomes", "make", "trial", "pair",
];

/// What the command of a word is; None where no command has the word.
pub fn command_kind(word: &str) -> Option<CommandKind>
    ensures { result ≡ command_kind word.now }
{
    let (source, shown) = match word {
        "solo" => (SourceKind::ByRule, ShownKind::Output),
        "play" => (SourceKind::ByScript, ShownKind::Output),
        "blocks" => (SourceKind::ByScript, ShownKind::Summary),
        "inspect" => (SourceKind::ByScript, ShownKind::Place),
        "trace" => (SourceKind::ByScript, ShownKind::Trace),
        "acts" => (SourceKind::ByScript, ShownKind::Acts),
        "gather" => (SourceKind::ByScript, ShownKind::Gathered),
        "run" => (SourceKind::ByWorkers, ShownKind::Output),
        "draw" => (SourceKind::ByDraws, ShownKind::Output),
        "explore" => return Some(CommandKind::Explores),
        "outcomes" => return Some(CommandKind::Searches),
        "make" => return Some(CommandKind::Makes),
        "trial" => return Some(CommandKind::Tries),
        "pair" => return Some(CommandKind::Pairs),
        _ => return None,
    };
    Some(CommandKind::Runs { source, shown })
}
