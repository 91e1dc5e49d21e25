//! Which runs are spoken of, by when the signals come that a thread causes itself.

ghost use Rattle.std.specs.Prelude.{◌≡◌};
ghost use Rattle.search_reductions.specs.Signals.{signals_of_word};

/// Which runs are spoken of, by when the signals come that a thread causes itself.
#[derive(Clone, Copy, Drop)]
pub enum Signals {
    /// Those in which such a signal comes before the thread goes on, as Linux has it.
    Prompt,
    /// All block runs.
    Any,
}

impl Signals {
    /// What a word says of it: `prompt` or `any`; None where it says nothing.
    pub fn of_word(word: &str) -> Option<Signals>
        ensures { result ≡ signals_of_word word.now }
    {
        match word {
            "prompt" => Some(Signals::Prompt),
            "any" => Some(Signals::Any),
            _ => None,
        }
    }
}
