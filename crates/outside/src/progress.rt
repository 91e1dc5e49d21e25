//! How far an exploration or a search is.

/// What is counted of it.
#[derive(Clone, Copy, Drop)]
pub enum Counted {
    /// The runs that are made.
    Runs,
    /// The places that are visited.
    Places,
}

impl Counted {
    /// The word for them.
    pub(crate) fn word(self) -> &'static str {
        match self {
            Counted::Runs => "runs",
            Counted::Places => "places",
        }
    }
}

/// How far an exploration or a search is, as a person sees it.
#[derive(Clone, Copy, Drop)]
pub struct Progress {
    /// What is counted.
    pub counted: Counted,
    /// How many there are by now.
    pub made: u64,
    /// How many there will be at most.
    pub all: u64,
    /// How many different outcomes were found.
    pub outcomes: u64,
}
