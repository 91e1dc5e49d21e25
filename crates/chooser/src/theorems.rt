//! Laws of the picks.

ghost use Rattle.std.specs.Prelude.{◌≡◌, ◌≢◌, ◌≤◌, ◌<◌, ℕ, List, Some, true, false, length};
ghost use Rattle.mach_types.specs.declared.events.Choice.TheVariants.{Exec};
ghost use Rattle.mach_types.specs.declared.events.Sight.{Sight};
ghost use Rattle.chooser.specs.Cases.{draws, pick};
ghost use Rattle.chooser.specs.Generators.{Generator, next_generator, generator_in, after_pick};
ghost use Rattle.chooser.specs.declared.chooser.Pick.{Pick};

/// A credit stays below 8. Without a word of the generator it only falls.
pub fn credit_is_small()
    ensures kept { (seen : Sight) (word : ℕ) (p : Pick)
        → seen.credit ≤ 7 → pick seen word ≡ Some p → p.credit ≤ 7 }
    ensures by_word { (seen : Sight) (word : ℕ) (p : Pick)
        → draws seen ≡ true → pick seen word ≡ Some p → p.credit ≤ 7 }
    ensures falls { (seen : Sight) (word : ℕ) (p : Pick)
        → draws seen ≡ false → 0 < seen.credit → pick seen word ≡ Some p → p.credit < seen.credit }
{}

/// Only the execution of an instruction leaves a credit.
pub fn only_execution_leaves_credit()
    ensures { (seen : Sight) (word : ℕ) (p : Pick)
        → pick seen word ≡ Some p → 0 < p.credit → p.choice ≡ Exec }
{}

/// Where no word decides, no generator matters and none moves. Where one does, the hart's own moves by one
/// word.
pub fn only_open_picks_draw()
    ensures unread { (seen : Sight) (one other : ℕ)
        → draws seen ≡ false → pick seen one ≡ pick seen other }
    ensures stay { (seen : Sight) (h : ℕ) (generators : List Generator)
        → draws seen ≡ false → after_pick seen h generators ≡ generators }
    ensures own { (seen : Sight) (h : ℕ) (generators : List Generator)
        → draws seen ≡ true → h < length generators
        → generator_in (after_pick seen h generators) h ≡ next_generator (generator_in generators h) }
    ensures others { (seen : Sight) (h k : ℕ) (generators : List Generator)
        → k ≢ h → generator_in (after_pick seen h generators) k ≡ generator_in generators k }
{}
