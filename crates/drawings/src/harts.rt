//! What a policy sees of the harts of a machine, and which of them can make an event.

ghost use Rattle.std.specs.Prelude.{◌≡◌, ◌<◌, ◌≤◌, ◌++◌, ◌∷◌, [], true, if◌then◌else◌, length, slice_get};
ghost use Rattle.draw_policies.specs.Aims.{is_due};
ghost use Rattle.draw_policies.specs.Words.{hart_place};
ghost use Rattle.drawings.specs.Scenes as scenes;
ghost use Rattle.drawings.specs.Scenes.{Scene};

use arrayvec::ArrayVec;
use draw_policies::{Aim, Word};
use mach_types::{Hart, Sight};

/// The harts of a machine at a place, as a policy sees them.
pub trait Harts {
    /// What is seen.
    ghost scene: { Self → Scene };

    /// How many there are, at most 8.
    fn count(&self) -> u8
        ensures count { result ≡ (scene self.now).harts }
        ensures few { result ≤ 8 };

    /// Whether a hart can make an event, where the first so many harts are open.
    fn is_able(&self, hart: Hart, opened: u8) -> bool
        requires hart { hart.0 < (scene self.now).harts }
        requires opened { opened ≤ 8 }
        ensures { result ≡ scenes.is_able (scene self.now) opened hart.0 };

    /// What the turn of a hart that can make an event goes by, where the first so many harts are open.
    fn look(&self, hart: Hart, opened: u8) -> Sight
        requires hart { hart.0 < (scene self.now).harts }
        requires able { scenes.is_able (scene self.now) opened hart.0 ≡ true }
        ensures { result ≡ scenes.of_turn ((scene self.now).sight hart.0) };

    /// Whether what a hart means can still be done.
    fn is_due(&self, hart: Hart, aim: Aim) -> bool
        requires { hart.0 < (scene self.now).harts }
        ensures { result ≡ is_due ((scene self.now).sight hart.0) aim };

    /// Whether the next instruction of the thread on a hart traps: it is a call, or makes a fault.
    fn traps(&self, hart: Hart) -> bool
        requires { hart.0 < (scene self.now).harts }
        ensures { result ≡ (scene self.now).traps hart.0 };

    /// Whether the thread on a hart is inside a good restartable sequence, as the hart sees memory.
    fn is_inside(&self, hart: Hart) -> bool
        requires { hart.0 < (scene self.now).harts }
        ensures { result ≡ (scene self.now).is_inside hart.0 };

    /// The ready threads that may begin to run on a hart where the first so many harts are open, in order.
    fn startable(&self, hart: Hart, opened: u8) -> ArrayVec<u32, 64>
        requires { opened ≤ 8 }
        ensures { result.items ≡ scenes.startable opened hart.0 (scene self.now).scheduling };
}

/// Appends a number where it passes.
fn push_if(all: &mut ArrayVec<u8, 8>, number: u8, passes: bool)
    requires { length all.old.items < 8 }
    ensures { all.new.items ≡ all.old.items ++ (if passes then number ∷ [] else []) }
{
    if passes {
        all.push(number);
    }
}

/// The harts that can make an event, rising, where the first so many harts are open.
fn able<H: Harts>(harts: &H, opened: u8) -> ArrayVec<u8, 8>
    requires { opened ≤ 8 }
    ensures { result.items ≡ scenes.able (H.scene harts.now) opened }
{
    let mut able = ArrayVec::new();
    for number in 0..harts.count() {
        let passes = harts.is_able(Hart(number), opened);
        push_if(&mut able, number, passes);
    }
    able
}

/// The number at a place; None exactly where there are fewer.
fn number_at(all: &[u8], place: u8) -> Option<u8>
    ensures { result ≡ slice_get all.now place }
{
    all.get(place as usize).copied()
}

/// The one of these harts that a word names; None exactly where there is none.
pub fn able_by_word<H: Harts>(harts: &H, opened: u8, word: Word) -> Option<u8>
    requires { opened ≤ 8 }
    ensures { result ≡ slice_get (scenes.able (H.scene harts.now) opened)
        (hart_place word.0 (length (scenes.able (H.scene harts.now) opened))) }
{
    let able = able(harts, opened);
    number_at(&able, word.hart_place(able.len() as u8))
}
