//! All parts of a process as words.

ghost use Rattle.std.specs.Prelude.{◌≡◌, ◌++◌, OnOk};
ghost use Rattle.place_keys.specs.PartWords.{kernel_words, parts_words};

use crate::harts::write_harts;
use crate::pages::write_pages;
use crate::tables::{
    write_areas, write_bytes, write_ended, write_ready, write_registered, write_signals,
    write_threads,
};
use crate::words::write_word;
use page_map::PageMap;
use process::Parts;
use std::alloc::AllocError;
use sys_calls::Kernel;

/// The kernel's tables.
fn write_kernel(words: &mut Vec<u64>, kernel: &Kernel) -> Result<(), AllocError>
    ensures { OnOk result (words.new.items ≡ words.old.items ++ kernel_words kernel.now) }
{
    write_threads(words, &kernel.threads)?;
    write_signals(words, &kernel.signals)?;
    write_ready(words, &kernel.ready)?;
    write_areas(words, &kernel.areas)?;
    write_registered(words, &kernel.registered)?;
    write_bytes(words, kernel.console.bytes())?;
    write_word(words, kernel.random)
}

/// Appends the key of the place at which parts stand: all that a rule of an event may read there. `start` has
/// the pages of the program's start, or any others: keys over one `start` are equal only where the places are
/// the same.
///
/// # Errors
///
/// [`AllocError`] where memory runs out; some of the words may then have been appended.
pub fn write_place(words: &mut Vec<u64>, parts: &Parts, start: &PageMap) -> Result<(), AllocError>
    ensures { OnOk result (words.new.items ≡ words.old.items ++ parts_words start.now parts.now) }
{
    write_harts(words, &parts.harts)?;
    write_pages(words, &parts.pages, start)?;
    write_kernel(words, &parts.kernel)?;
    write_ended(words, parts.ended)
}
