//! The next event of a drawing.

ghost use Rattle.std.specs.Prelude.{◌≡◌, false, option_map};
ghost use Rattle.drawings.specs.Drawings as drawings;

use crate::drawing::{Drawing, DrawnEvent};
use crate::harts::Harts;
use draw_policies::Word;
use rand_core::utils::NextWord;
use rand_xoshiro::Xoshiro256PlusPlus;

impl Drawing {
    /// The word that decides, and the generator after it: the next word, or 0 where the policy draws none.
    #[tactic(auto, unfolding(chooser::specs::Generators::word, chooser::specs::Generators::next_generator))]
    fn next_word(&self) -> (Word, Xoshiro256PlusPlus)
        ensures word { result.0.0 ≡ drawings.next_word self.now }
        ensures generator { result.1 ≡ drawings.generator_after self.now }
    {
        let Ok(mut generator) = self.generator.clone() else {
            unreachable!()
        };
        if self.weights().draws {
            let word = Word(generator.next_word());
            (word, generator)
        } else {
            (Word(0), generator)
        }
    }

    /// The next event where the last hart doesn't go on by its credit: it is drawn by a word. Where there is none nothing changes.
    #[tactic(auto, unfolding(crate::specs::Drawings::draw))]
    pub fn next_drawn<H: Harts>(&mut self, harts: &H) -> Option<DrawnEvent>
        requires harts { drawings.IsFor (H.scene harts.now).harts self.old }
        requires drawn { drawings.goes_on (H.scene harts.now) self.old ≡ false }
        ensures event { result ≡ option_map drawings.event_of (drawings.draw (H.scene harts.now) self.old) }
        ensures kept { self.new ≡ drawings.kept_after (drawings.draw (H.scene harts.now) self.old) self.old }
    {
        self.next_by_word(harts)
    }

    /// The next event by a word.
    #[inline(never)]
    fn next_by_word<H: Harts>(&mut self, harts: &H) -> Option<DrawnEvent>
        requires { drawings.IsFor (H.scene harts.now).harts self.old }
        ensures event { result
            ≡ option_map drawings.event_of (drawings.drawn_by_word (H.scene harts.now) self.old) }
        ensures kept { self.new
            ≡ drawings.kept_after (drawings.drawn_by_word (H.scene harts.now) self.old) self.old }
    {
        let (word, generator) = self.next_word();
        let hart = self.hart_by_word(harts, word)?;
        let turn = self.turn_at(harts, hart, word)?;
        self.settle_for(hart, harts);
        self.take_word(hart, word);
        self.generator = generator;
        Some(self.take_turn(hart, &turn))
    }
}
