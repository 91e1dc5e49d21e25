//! By what the outcomes of many runs are told apart.

ghost use Rattle.std.specs.Prelude.{◌≡◌};
ghost use Rattle.draw_policies.specs.OutcomeKeys.{key_of_word};

/// By what the outcomes of runs are told apart.
#[derive(Clone, Copy, Drop)]
pub enum OutcomeKey {
    /// By their consoles and their ends.
    ByText,
    /// By their ends alone. No console is kept.
    ByEnd,
}

impl OutcomeKey {
    /// What a word says of it: `text` or `end`; None where it says nothing.
    pub fn of_word(word: &str) -> Option<OutcomeKey>
        ensures { result ≡ key_of_word word.now }
    {
        match word {
            "text" => Some(OutcomeKey::ByText),
            "end" => Some(OutcomeKey::ByEnd),
            _ => None,
        }
    }
}
