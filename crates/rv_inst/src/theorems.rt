//! Laws of the definitions, each as the contract of a function that does nothing.

ghost use Rattle.rv_inst.specs.Asked.{LocalRowsSetRegisters, GoesOnInWords, OnlyPlainStoresWait, EntersAsAsked, WritesAreAllowed};
ghost use Rattle.rv_inst.specs.Sizes.{MeansAccesses};
ghost use Rattle.rv_inst.specs.Table.{IsUnambiguous, rows};

/// No word is that of two rows of the table.
pub fn rows_are_distinct()
    ensures { IsUnambiguous rows }
{}

/// Each size in what an instruction means is 1, 2, 4 or 8.
pub fn accesses_are_sized()
    ensures { MeansAccesses }
{}

/// The rows that touch registers alone set a register and do nothing else, where they don't fault, and no
/// others do so.
pub fn local_rows_set_registers()
    ensures { LocalRowsSetRegisters }
{}

/// A hart that stands at an address below 2^64 goes on at one.
pub fn harts_go_on_in_words()
    ensures { GoesOnInWords }
{}

/// What an instruction does to memory is what its class asks.
pub fn writes_are_asked()
    ensures waiting { OnlyPlainStoresWait }
    ensures entered { EntersAsAsked }
    ensures allowed { WritesAreAllowed }
{}
