//! The names of the guests, and the sizes that they take.

ghost use Rattle.std.specs.Prelude.{◌≡◌};
ghost use Rattle.guest_names.specs.Guests as guests;

/// A guest: a program that is made for a size.
#[derive(Clone, Copy, Drop)]
pub enum Name {
    /// Four threads add to the counters of their processors.
    Counter,
    /// Two threads push nodes to the lists of their processors, and one pops them all.
    List,
    /// Four threads take blocks from the pools of their processors and give them back.
    Pool,
    /// Rounds of two threads that each store a flag and load the other's.
    Dekker,
    /// A thread adds to its counter while it is sent signals.
    Signals,
    /// Threads that add to counters and go from processor to processor.
    Migrate,
    /// Four threads put words into the rings of their processors, and get words where a ring is full.
    Ring,
    /// A thread exchanges nodes that three others read, and waits for them by user-space RCU.
    Urcu,
}

impl Name {
    /// The guest that a word names, if one does.
    pub fn of_word(word: &str) -> Option<Name>
        ensures { result ≡ guests.name_of word.now }
    {
        match word {
            "counter" => Some(Name::Counter),
            "list" => Some(Name::List),
            "pool" => Some(Name::Pool),
            "dekker" => Some(Name::Dekker),
            "signals" => Some(Name::Signals),
            "migrate" => Some(Name::Migrate),
            "ring" => Some(Name::Ring),
            "urcu" => Some(Name::Urcu),
            _ => None,
        }
    }

    /// The word that names the guest.
    pub fn word(self) -> &'static str
        ensures { result.now ≡ guests.word_of self }
    {
        match self {
            Name::Counter => "counter",
            Name::List => "list",
            Name::Pool => "pool",
            Name::Dekker => "dekker",
            Name::Signals => "signals",
            Name::Migrate => "migrate",
            Name::Ring => "ring",
            Name::Urcu => "urcu",
        }
    }

    /// The greatest size that the guest takes; the least is 1.
    pub fn most_size(self) -> u64
        ensures { result ≡ guests.most_size self }
    {
        match self {
            Name::Counter => 10_000,
            Name::List | Name::Pool | Name::Dekker | Name::Signals => 1_000,
            Name::Migrate => 63,
            Name::Ring | Name::Urcu => 1_000,
        }
    }

    /// Whether the guest takes a size.
    pub fn takes(self, size: u64) -> bool
        ensures { result ≡ guests.is_size self size }
    {
        1 <= size && size <= self.most_size()
    }
}
