//! Which reductions a search makes, and how a word leaves one out.

ghost use Rattle.std.specs.Prelude.{◌≡◌};
ghost use Rattle.search_reductions.specs.Reductions.{reductions_without};

/// The reductions that a search for all outcomes makes. With each of them it visits fewer places, and it finds the same outcomes.
#[derive(Clone, Copy, Drop)]
pub struct Reductions {
    /// Whether local steps are made at once: instructions that touch only registers, and fences, of a thread outside its sequences. No
    /// place before one is visited.
    pub local_steps: bool,
}

/// Each reduction.
pub const ALL_REDUCTIONS: Reductions = Reductions { local_steps: true };

impl Reductions {
    /// All but the one that a word names: `local-steps`. None where it names none.
    pub fn all_but(word: &str) -> Option<Reductions>
        ensures { result ≡ reductions_without word.now }
    {
        match word {
            "local-steps" => Some(Reductions { local_steps: false }),
            _ => None,
        }
    }
}
