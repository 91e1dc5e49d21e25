//! What is kept between drawn events, and the next one.

ghost use Rattle.std.specs.Prelude.{◌≡◌, ◌<◌, ◌≤◌, [], None, false, true, slice_index_or};
ghost use Rattle.draw_policies.specs.Turns.{turn};
ghost use Rattle.drawings.specs.Drawings as drawings;
ghost use Rattle.drawings.specs.Scenes.{is_able, startable};

use crate::harts::{Harts, able_by_word};
use draw_policies::{Aim, Policy, Turn, Weights, Word, turn_of};
use mach_types::{Choice, Hart, Sight, Tid};
use rand_xoshiro::Xoshiro256PlusPlus;

/// A drawn event.
#[derive(Clone, Copy, Drop)]
pub struct DrawnEvent {
    /// Its hart.
    pub hart: Hart,
    /// What the hart does.
    pub choice: Choice,
}

/// What the next event is drawn from, besides what is seen of the harts.
#[derive(Drop)]
pub struct Drawing {
    /// The policy.
    pub policy: Policy,
    /// How many events are still drawn by it, before the run goes on fairly.
    pub left: u32,
    /// How many harts are open, from hart 0 on.
    pub opened: u8,
    /// The hart of the last event; hart 0 at the start.
    pub last: Hart,
    /// The owner of the stretch: the hart that goes on while it lasts; hart 0 at the start.
    pub owner: Hart,
    /// Which of the policy's four stays the stretch has, 0 to 3.
    pub stretch: u8,
    /// How many register-only instructions of the last event's hart may follow without a word.
    pub credit: u16,
    /// What each hart means to do.
    pub aims: [Option<Aim>; 8],
    /// The thread that ran last on each hart.
    pub ran: [Option<Tid>; 8],
    /// The generator of all words.
    pub generator: Xoshiro256PlusPlus,
}

impl Drawing {
    /// The weights of the next event.
    pub(crate) fn weights(&self) -> &'static Weights
        ensures { result.now ≡ drawings.current self.now }
    {
        if self.left == 0 {
            Policy::Fair.weights()
        } else {
            self.policy.weights()
        }
    }

    /// What the last hart still means behind its event: nothing that can't be done at once.
    #[inline(always)]
    pub fn aim_behind<H: Harts>(&self, harts: &H) -> Option<Aim>
        requires harts { self.now.last.0 < (H.scene harts.now).harts }
        requires few { self.now.last.0 < 8 }
        ensures { result ≡ drawings.aim_behind (H.scene harts.now) self.now }
    {
        let held = self.aims[self.last.0 as usize]?;
        if harts.is_due(self.last, held) {
            Some(held)
        } else {
            None
        }
    }

    /// Gives up what the last hart means, where another one acts than that, and it can't be done at once behind its event.
    #[inline(always)]
    pub(crate) fn settle_for<H: Harts>(&mut self, hart: u8, harts: &H)
        requires harts { self.old.last.0 < (H.scene harts.now).harts }
        requires few { self.old.last.0 < 8 }
        ensures { self.new ≡ drawings.settled_for hart (H.scene harts.now) self.old }
    {
        if hart != self.last.0 {
            self.aims[self.last.0 as usize] = self.aim_behind(harts);
        }
    }

    /// The last hart goes on by its credit.
    pub fn go_on(&mut self) -> DrawnEvent
        requires credit { 0 < self.old.credit }
        requires few { self.old.last.0 < 8 }
        ensures event { result ≡ drawings.event_of (drawings.on_credit self.old) }
        ensures kept { self.new ≡ (drawings.on_credit self.old).after }
    {
        self.aims[self.last.0 as usize] = None;
        self.credit -= 1;
        self.left = self.left.saturating_sub(1);
        DrawnEvent {
            hart: self.last,
            choice: Choice::Exec,
        }
    }

    /// Whether the stretch goes on by a word.
    fn continues(&self, word: Word) -> bool
        requires { self.now.stretch < 4 }
        ensures { result ≡ drawings.continues self.now word.0 }
    {
        word.stay() < self.weights().stays[self.stretch as usize]
    }

    /// Whether it goes on by a word, and its owner acts.
    fn owner_acts<H: Harts>(&self, harts: &H, word: Word) -> bool
        requires { drawings.IsFor (H.scene harts.now).harts self.now }
        ensures { result ≡ drawings.owner_acts (H.scene harts.now) self.now word.0 }
    {
        self.continues(word) && harts.is_able(self.owner, self.opened)
    }

    /// The hart that acts by a word; None exactly where none can.
    pub(crate) fn hart_by_word<H: Harts>(&self, harts: &H, word: Word) -> Option<u8>
        requires { drawings.IsFor (H.scene harts.now).harts self.now }
        ensures { result ≡ drawings.hart_by_word (H.scene harts.now) self.now word.0 }
    {
        if self.owner_acts(harts, word) {
            Some(self.owner.0)
        } else {
            able_by_word(harts, self.opened, word)
        }
    }

    /// What a hart that can make an event does in its turn.
    #[inline(always)]
    pub(crate) fn turn_at<H: Harts>(&self, harts: &H, hart: u8, word: Word) -> Option<Turn>
        requires hart { hart < (H.scene harts.now).harts }
        requires opened { self.now.opened ≤ 8 }
        requires able { is_able (H.scene harts.now) self.now.opened hart ≡ true }
        ensures { result ≡ drawings.turn_at (H.scene harts.now) self.now hart word.0 }
    {
        let count = harts.count();
        prove!(count <= 8);
        let sight = harts.look(Hart(hart), self.opened);
        if sight.idle {
            self.idle_turn_at(harts, hart, &sight, word)
        } else {
            self.busy_turn_at(harts, hart, &sight, word)
        }
    }

    /// What an idle hart of which this is seen does in its turn. In a function of its own, so that no other turn has a list of threads.
    #[inline(never)]
    fn idle_turn_at<H: Harts>(&self, harts: &H, hart: u8, sight: &Sight, word: Word) -> Option<Turn>
        requires hart { hart < 8 }
        requires opened { self.now.opened ≤ 8 }
        ensures { result ≡ turn (drawings.current self.now) sight.now false
            (startable self.now.opened hart (H.scene harts.now).scheduling)
            (slice_index_or self.now.ran hart None) (drawings.aim_of self.now hart) word.0 }
    {
        let threads = harts.startable(Hart(hart), self.opened);
        self.turn_with(hart, sight, false, &threads, word)
    }

    /// What a hart that isn't idle and of which this is seen does in its turn.
    #[inline(always)]
    fn busy_turn_at<H: Harts>(&self, harts: &H, hart: u8, sight: &Sight, word: Word) -> Option<Turn>
        requires hart { hart < (H.scene harts.now).harts }
        requires few { hart < 8 }
        ensures { result ≡ turn (drawings.current self.now) sight.now ((H.scene harts.now).traps hart) []
            (slice_index_or self.now.ran hart None) (drawings.aim_of self.now hart) word.0 }
    {
        if sight.deliverable {
            self.turn_signalled(harts, hart, sight, word)
        } else {
            self.turn_with(hart, sight, false, &[], word)
        }
    }

    /// What a hart of which this is seen does in its turn where a signal can be delivered: there it matters whether its thread's next
    /// instruction traps.
    #[inline(never)]
    fn turn_signalled<H: Harts>(
        &self,
        harts: &H,
        hart: u8,
        sight: &Sight,
        word: Word,
    ) -> Option<Turn>
        requires hart { hart < (H.scene harts.now).harts }
        requires few { hart < 8 }
        ensures { result ≡ turn (drawings.current self.now) sight.now ((H.scene harts.now).traps hart) []
            (slice_index_or self.now.ran hart None) (drawings.aim_of self.now hart) word.0 }
    {
        let traps = harts.traps(Hart(hart));
        self.turn_with(hart, sight, traps, &[], word)
    }

    /// What a hart of which this is seen does in its turn where these threads may begin to run there.
    #[inline(always)]
    fn turn_with(
        &self,
        hart: u8,
        sight: &Sight,
        traps: bool,
        threads: &[u32],
        word: Word,
    ) -> Option<Turn>
        requires { hart < 8 }
        ensures { result ≡ turn (drawings.current self.now) sight.now traps threads.now
            (slice_index_or self.now.ran hart None) (drawings.aim_of self.now hart) word.0 }
    {
        let place = hart as usize;
        turn_of(
            self.weights(),
            sight,
            traps,
            threads,
            self.ran[place],
            self.aims[place],
            word,
        )
    }

    /// Takes note of what a word by which a hart acts says of the stretch: whose it is, and which stay it has.
    pub(crate) fn take_word(&mut self, hart: u8, word: Word)
        requires { self.old.stretch < 4 }
        ensures { self.new ≡ record self.old {
          owner = record { 0 = drawings.owner_after hart word.0 self.old };
          stretch = drawings.stretch_after word.0 self.old;
        } }
    {
        let continues = self.continues(word);
        if !(continues && self.weights().lasting) {
            self.owner = Hart(hart);
        }
        if !continues {
            self.stretch = word.stretch();
        }
    }

    /// Takes note of the thread that begins to run on a hart, if one does.
    fn note_run(&mut self, hart: u8, choice: Choice)
        requires { hart < 8 }
        ensures { self.new ≡ record self.old { ran = drawings.ran_after hart choice self.old.ran } }
    {
        if let Some(tid) = choice.begun() {
            self.ran[hart as usize] = Some(tid);
        }
    }

    /// Takes note of a turn.
    pub(crate) fn take_turn(&mut self, hart: u8, turn: &Turn) -> DrawnEvent
        requires { hart < 8 }
        ensures event { result ≡ drawings.event_of (drawings.drawn_of hart self.old turn.now) }
        ensures kept { self.new ≡ drawings.after_turn hart turn.now self.old }
    {
        self.note_run(hart, turn.choice);
        self.aims[hart as usize] = turn.aim;
        self.credit = turn.credit;
        self.last = Hart(hart);
        self.left = self.left.saturating_sub(1);
        DrawnEvent {
            hart: Hart(hart),
            choice: turn.choice,
        }
    }
}
