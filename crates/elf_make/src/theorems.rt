//! Laws of the definitions, each as the contract of a function that does nothing.

ghost use Rattle.elf_make.specs.Layout.{PlacesAreLowest};

/// Each part stands at the lowest place that suits it: at or past the end of what comes before, and equal
/// to its address modulo the size of a page.
pub fn parts_stand_at_the_lowest_places()
    ensures { PlacesAreLowest }
{}
