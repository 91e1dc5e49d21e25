//! The policies, and how often each does what.

ghost use Rattle.std.specs.Prelude.{◌≡◌};
ghost use Rattle.draw_policies.specs.Policies.{policies_of_word, policy_for, policy_of_seed, weights_of, word_of};

/// How a run is drawn.
#[derive(Clone, Copy, Drop)]
pub enum Policy {
    /// All threads on one hart, unless their affinities forbid it.
    One,
    /// A hart goes on for a stretch, and each stretch is as likely short as long; others wait meanwhile.
    Stretch,
    /// A hart goes on for a short while.
    Short,
    /// The same with longer stretches, so that a hart may stand still for very long.
    Stall,
    /// Each event on any hart.
    Spread,
    /// Nothing is drawn: a hart goes on for as long as it can, then the first that can.
    Rule,
    /// A hart goes on for a while, and its stores enter memory before its next instruction.
    Fair,
}

/// Which policies draw the runs of many seeds.
#[derive(Clone, Copy, Drop)]
pub enum Policies {
    /// The first five in turn, by the seed modulo 5.
    All,
    /// One, whatever the seed is.
    Only(Policy),
}

impl Policies {
    /// The policies that a word names: `all`, the word of one of the first five, or `rule`; None where it names none.
    pub fn of_word(word: &str) -> Option<Policies>
        ensures { result ≡ policies_of_word word.now }
    {
        match word {
            "all" => Some(Policies::All),
            "one" => Some(Policies::Only(Policy::One)),
            "stretch" => Some(Policies::Only(Policy::Stretch)),
            "short" => Some(Policies::Only(Policy::Short)),
            "stall" => Some(Policies::Only(Policy::Stall)),
            "spread" => Some(Policies::Only(Policy::Spread)),
            "rule" => Some(Policies::Only(Policy::Rule)),
            _ => None,
        }
    }

    /// The policy that draws the run of a seed.
    pub fn of_seed(self, seed: u64) -> Policy
        ensures { result ≡ policy_for self seed }
    {
        match self {
            Policies::All => Policy::of_seed(seed),
            Policies::Only(policy) => policy,
        }
    }
}

/// How often something is done that could be, in thousandths of the words that are drawn, 0 to 1000.
#[derive(Clone, Copy, Drop)]
pub struct Weights {
    /// The stretch goes on: one of these four for each stretch.
    pub stays: [u16; 4],
    /// Whether a stretch belongs to its hart until it ends, also while that hart can't act.
    pub lasting: bool,
    /// The thread leaves its hart.
    pub preempt: u16,
    /// The oldest waiting store enters memory.
    pub drain: u16,
    /// The hart takes its requests.
    pub take: u16,
    /// A signal is delivered.
    pub signal: u16,
    /// How many register-only instructions may follow an event without a word.
    pub credit: u16,
    /// Whether hart 0 alone is open.
    pub alone: bool,
    /// Whether words are drawn; else the word 0 stands for each.
    pub draws: bool,
}

/// The weights of most policies, but for the stays, `preempt` and `drain`.
const MOST: Weights = Weights {
    stays: [0; 4],
    lasting: false,
    preempt: 0,
    drain: 0,
    take: 50,
    signal: 50,
    credit: 256,
    alone: false,
    draws: true,
};

/// The weights of [`Policy::One`].
const ONE: Weights = Weights {
    preempt: 15,
    drain: 250,
    take: 20,
    signal: 20,
    credit: 0,
    alone: true,
    ..MOST
};

/// The weights of the policies whose stretches differ in length, but for the stays and `preempt`.
const STRETCHED: Weights = Weights {
    lasting: true,
    drain: 20,
    take: 1000,
    ..MOST
};

/// The weights of [`Policy::Stretch`].
const STRETCH: Weights = Weights {
    stays: [0, 800, 970, 997],
    preempt: 30,
    ..STRETCHED
};

/// The weights of [`Policy::Short`].
const SHORT: Weights = Weights {
    stays: [800; 4],
    preempt: 10,
    drain: 30,
    ..MOST
};

/// The weights of [`Policy::Stall`].
const STALL: Weights = Weights {
    stays: [0, 900, 990, 999],
    preempt: 20,
    ..STRETCHED
};

/// The weights of [`Policy::Spread`].
const SPREAD: Weights = Weights {
    preempt: 30,
    drain: 30,
    ..MOST
};

/// The weights of [`Policy::Rule`].
const RULE: Weights = Weights {
    stays: [1000; 4],
    take: 1000,
    signal: 1000,
    credit: 0,
    draws: false,
    ..MOST
};

/// The weights of [`Policy::Fair`].
const FAIR: Weights = Weights {
    stays: [969; 4],
    preempt: 8,
    drain: 1000,
    take: 1000,
    signal: 125,
    credit: 0,
    ..MOST
};

impl Policy {
    /// The policy of a seed: the first five in turn, by the seed modulo 5.
    pub fn of_seed(seed: u64) -> Policy
        ensures { result ≡ policy_of_seed seed }
    {
        let place = seed % 5;
        if place == 0 {
            Policy::One
        } else if place == 1 {
            Policy::Stretch
        } else if place == 2 {
            Policy::Short
        } else if place == 3 {
            Policy::Stall
        } else {
            Policy::Spread
        }
    }

    /// The word of the policy, in lower case.
    pub fn word(self) -> &'static str
        ensures { result.now ≡ word_of self }
    {
        match self {
            Policy::One => "one",
            Policy::Stretch => "stretch",
            Policy::Short => "short",
            Policy::Stall => "stall",
            Policy::Spread => "spread",
            Policy::Rule => "rule",
            Policy::Fair => "fair",
        }
    }

    /// How often it does what.
    pub fn weights(self) -> &'static Weights
        ensures { result.now ≡ weights_of self }
    {
        match self {
            Policy::One => &ONE,
            Policy::Stretch => &STRETCH,
            Policy::Short => &SHORT,
            Policy::Stall => &STALL,
            Policy::Spread => &SPREAD,
            Policy::Rule => &RULE,
            Policy::Fair => &FAIR,
        }
    }
}
