//! Laws of keys, each as the contract of a function that does nothing.

ghost use Rattle.std.specs.Prelude.{◌≡◌, ℕ, Contains, List};
ghost use Rattle.mach_types.specs.declared.{events.Choice.Choice, events.Entry.Entry};
ghost use Rattle.same_places.specs.{Replayed.StandAfter, Searched.LeadsBack, Trying.IsLonger};
ghost use Rattle.block_model.specs.Plain.{Plain};
ghost use Rattle.block_model.specs.Setting.{Setting};
ghost use Rattle.page_map.specs.Map.{Map};
ghost use Rattle.process.specs.declared.parts.Parts.{Parts};
ghost use Rattle.process.specs.Refinement.{IsTied};
ghost use Rattle.same_places.specs.Places.{IsSamePlace};
ghost use Rattle.place_keys.specs.Packed.{packed};
ghost use Rattle.place_keys.specs.PartWords.{parts_words};

/// Parts with equal keys, over one start, stand at the same place.
pub fn equal_words_are_the_same_place()
    ensures { (start : Map) (m other : Parts) (s : Setting) (p q : Plain)
        → parts_words start m ≡ parts_words start other → IsTied s p m → IsTied s q other
        → IsSamePlace s p q }
{}

/// An event leads back to a place that was visited, where the parts after it have the key of that place.
pub fn equal_words_lead_back()
    ensures { (start : Map) (m other_parts : Parts) (s : Setting) (logs : List (List Entry))
        (log other : List Entry) (h : ℕ) (c : Choice) (e : Entry)
        → IsLonger s log h c e m → Contains logs other → StandAfter s other other_parts
        → parts_words start other_parts ≡ parts_words start m → LeadsBack s logs log h c }
{}

/// Words whose bytes are equal are equal.
pub fn equal_bytes_are_equal_words()
    ensures { (words others : List ℕ) → packed words ≡ packed others → words ≡ others }
{}
