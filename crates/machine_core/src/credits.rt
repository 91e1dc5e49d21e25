//! The credits of the harts, after events that were picked and after others.

ghost use Rattle.std.specs.Prelude.{◌≡◌, ◌<◌, ◌==◌, ℕ, length, slice_get, map, Some};
ghost use Rattle.std.specs.Option.{option_map};
ghost use Rattle.chooser.specs.Cases.{pick};
ghost use Rattle.chooser.specs.Generators.{after_pick, generator_in, word};
ghost use Rattle.machine_core.specs.Credits.{credited, followed, generators_after, is_followed, is_picked, uncredited, with_credit};

use chooser::{Chooser, Pick};
use hart_state::HartState;
use mach_types::{Choice, Hart, Sight};

/// No hart has a credit.
fn take_credits(harts: &mut [HartState])
    ensures { harts.new ≡ map uncredited harts.old }
{
    for hart in harts.iter_mut() {
        hart.credit = 0;
    }
}

/// Whether this is the event that was picked.
fn is_picked(picked: Option<Pick>, choice: Choice) -> bool
    ensures { result ≡ is_picked choice picked }
{
    match picked {
        Some(pick) => pick.choice == choice,
        None => false,
    }
}

/// What a pick leaves for its hart.
fn credit_left(picked: Option<Pick>) -> u8
    ensures { result ≡ with_credit picked }
{
    match picked {
        Some(pick) => pick.credit,
        None => 0,
    }
}

/// What an event of a hart means for the credits: where it was picked the hart has the credit of its pick, and else no hart has
/// one. Answers whether it was picked.
fn give_credit(harts: &mut Vec<HartState>, hart: Hart, choice: Choice, picked: Option<Pick>) -> bool
    requires held { hart.0 < length harts.old.items }
    ensures picked { result ≡ is_picked choice picked }
    ensures harts { (k : ℕ) → slice_get harts.new.items k
        ≡ option_map (credited choice picked (k == hart.0)) (slice_get harts.old.items k) }
{
    if is_picked(picked, choice) {
        harts[hart.0 as usize].credit = credit_left(picked);
        true
    } else {
        take_credits(harts);
        false
    }
}

/// The same for an event of a hart of which this was seen before it, with a word of its generator where one decides.
#[inline(never)]
fn follow(
    harts: &mut Vec<HartState>,
    chooser: &mut Chooser,
    hart: Hart,
    choice: Choice,
    sight: &Sight,
) -> bool
    requires hart { hart.0 < 8 }
    requires held { hart.0 < length harts.old.items }
    ensures followed { result ≡ is_followed (Some sight.now) chooser.old hart.0 choice }
    ensures generators { chooser.new ≡ generators_after (Some sight.now) hart.0 chooser.old }
    ensures harts { (k : ℕ) → slice_get harts.new.items k
        ≡ option_map (followed (Some sight.now) chooser.old hart.0 choice k) (slice_get harts.old.items k) }
{
    give_credit(harts, hart, choice, chooser.next(hart, sight))
}

/// The same where it is known what was seen before the event; else it wasn't picked, and the credits and generators stay.
#[inline(always)]
pub fn follow_seen(
    harts: &mut Vec<HartState>,
    chooser: &mut Chooser,
    hart: Hart,
    choice: Choice,
    sight: Option<Sight>,
) -> bool
    requires hart { hart.0 < 8 }
    requires held { hart.0 < length harts.old.items }
    ensures followed { result ≡ is_followed sight chooser.old hart.0 choice }
    ensures generators { chooser.new ≡ generators_after sight hart.0 chooser.old }
    ensures harts { (k : ℕ) → slice_get harts.new.items k
        ≡ option_map (followed sight chooser.old hart.0 choice k) (slice_get harts.old.items k) }
{
    match sight {
        Some(sight) => follow(harts, chooser, hart, choice, &sight),
        None => false,
    }
}
