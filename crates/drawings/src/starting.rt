//! How a drawing begins.

ghost use Rattle.std.specs.Prelude.{◌≡◌, ◌<◌, ◌≤◌};
ghost use Rattle.drawings.specs.Drawings.{IsFor};
ghost use Rattle.drawings.specs.Starts as starts;
ghost use Rattle.chooser.specs.Generators.{first_generator};

use crate::drawing::Drawing;
use draw_policies::Policy;
use mach_types::Hart;
use rand_core::SeedableRng;
use rand_core::utils::NextWord;
use rand_xoshiro::Xoshiro256PlusPlus;

/// Whether a word says how many harts are open, of so many.
fn opens_by_word(policy: Policy, harts: u8) -> bool
    ensures { result ≡ starts.opens_by_word policy harts }
{
    let weights = policy.weights();
    weights.draws && !weights.alone && harts > 1
}

/// How many harts are open where no word says it, of so many: hart 0 alone, or all.
fn open_without(policy: Policy, harts: u8) -> u8
    requires { harts ≤ 8 }
    ensures opened { result ≡ starts.open_without policy harts }
    ensures few { result ≤ 8 }
{
    if policy.weights().alone { 1 } else { harts }
}

/// How many harts are open, of so many.
#[tactic(auto, unfolding(chooser::specs::Generators::word, chooser::specs::Generators::next_generator))]
fn first_open(policy: Policy, harts: u8, generator: &mut Xoshiro256PlusPlus) -> u8
    requires { harts ≤ 8 }
    ensures opened { result ≡ starts.first_open policy harts generator.old }
    ensures few { result ≤ 8 }
    ensures generator { generator.new ≡ starts.after_open policy harts generator.old }
{
    if opens_by_word(policy, harts) {
        2 + (generator.next_word() % u64::from(harts - 1)) as u8
    } else {
        open_without(policy, harts)
    }
}

/// The generator of a seed.
#[tactic(auto, unfolding(chooser::specs::Generators::first_generator))]
fn generator_of(seed: u64) -> Xoshiro256PlusPlus
    ensures { result ≡ first_generator seed 0 }
{
    Xoshiro256PlusPlus::seed_from_u64(seed)
}

impl Drawing {
    /// The start of a drawing, for a machine of so many harts, that goes on fairly after `left` events.
    pub fn new(policy: Policy, harts: u8, seed: u64, left: u32) -> Drawing
        requires { harts ≤ 8 }
        ensures start { result ≡ starts.start policy harts seed left }
        ensures few { result.opened ≤ 8 }
        ensures ready { 0 < harts → IsFor harts result }
    {
        let mut generator = generator_of(seed);
        let opened = first_open(policy, harts, &mut generator);
        Drawing {
            policy,
            left,
            opened,
            last: Hart(0),
            owner: Hart(0),
            stretch: 0,
            credit: 0,
            aims: [None; 8],
            ran: [None; 8],
            generator,
        }
    }
}
