//! The generators of the harts, and what is picked by them.

ghost use Rattle.std.specs.Prelude.{◌≡◌, ◌<◌};
ghost use Rattle.chooser.specs.Cases.{pick};
ghost use Rattle.chooser.specs.Generators.{first_generator, first_generators, generator_in, after_pick, word};

use crate::cases::{Case, by_word, case_of};
use mach_types::{Choice, Hart, Sight};
use rand_core::SeedableRng;
use rand_core::utils::NextWord;
use rand_xoshiro::Xoshiro256PlusPlus;
use std::marker::Model;

/// What a hart does next.
#[derive(Clone, Copy, PartialEq, Eq, Drop)]
pub struct Pick {
    /// The event.
    pub choice: Choice,
    /// How many more register-only instructions may follow it without a new word.
    pub credit: u8,
}

/// The generators of 8 harts.
#[derive(Drop)]
pub struct Chooser {
    generators: [Xoshiro256PlusPlus; 8],
}

impl Model for Chooser {
    ghost use Rattle.std.specs.Prelude.{◌≡◌, ℕ, List, length};

    ghost Value = { List (List ℕ) };

    ghost view = { λ chooser. chooser.generators };

    ghost invariant = { λ chooser. length chooser.generators ≡ 8 };
}

/// The generator of a hart.
#[tactic(auto, unfolding(crate::specs::Generators::first_generator))]
pub(crate) fn generator(seed: u64, hart: u8) -> Xoshiro256PlusPlus
    ensures { result ≡ first_generator seed hart }
{
    Xoshiro256PlusPlus::seed_from_u64(seed.wrapping_add(u64::from(hart)))
}

impl Chooser {
    /// Generators that have given no word yet.
    ///
    /// That of a hart is seeded by `seed` plus the hart's number, modulo 2^64.
    pub fn new(seed: u64) -> Chooser
        ensures { result ≡ first_generators seed }
    {
        Chooser {
            generators: [
                generator(seed, 0),
                generator(seed, 1),
                generator(seed, 2),
                generator(seed, 3),
                generator(seed, 4),
                generator(seed, 5),
                generator(seed, 6),
                generator(seed, 7),
            ],
        }
    }

    /// What a hart of which this is seen does next, None exactly where it has nothing to do now.
    ///
    /// The hart is below 8. Only where the hart could as well execute, drain or leave does its generator give
    /// a word.
    #[inline]
    #[tactic(auto, unfolding(crate::specs::Cases::pick, crate::specs::Generators::word, crate::specs::Generators::next_generator))]
    pub fn next(&mut self, hart: Hart, sight: &Sight) -> Option<Pick>
        requires { hart.0 < 8 }
        ensures pick { result ≡ pick sight.now (word (generator_in self.old hart.0)) }
        ensures generators { self.new ≡ after_pick sight.now hart.0 self.old }
    {
        match case_of(sight) {
            Case::Settled(pick) => pick,
            Case::Open => Some(by_word(sight, self.generators[hart.0 as usize].next_word())),
        }
    }

    /// What [`Chooser::next`] would answer. No word is taken.
    #[inline]
    #[tactic(auto, unfolding(crate::specs::Cases::pick, crate::specs::Generators::word, crate::specs::Generators::next_generator))]
    pub fn peek(&self, hart: Hart, sight: &Sight) -> Option<Pick>
        requires { hart.0 < 8 }
        ensures { result ≡ pick sight.now (word (generator_in self.now hart.0)) }
    {
        match case_of(sight) {
            Case::Settled(pick) => pick,
            Case::Open => {
                let Ok(mut generator) = self.generators[hart.0 as usize].clone() else {
                    unreachable!()
                };
                Some(by_word(sight, generator.next_word()))
            }
        }
    }
}
