//! Harts as words.

ghost use Rattle.std.specs.Prelude.{◌≡◌, [], ◌∷◌, ◌++◌, OnOk};
ghost use Rattle.place_keys.specs.HartWords as spec;
ghost use Rattle.place_keys.specs.Words.{of_each, of_list, of_option};

use crate::differences::write_sparse;
use crate::words::{write_bool, write_option, write_word};
use hart_state::HartState;
use mach_types::{Store, Tid};
use std::alloc::AllocError;
use store_buffers::StoreBuffer;

/// A store that waits.
fn write_store(words: &mut Vec<u64>, store: Store) -> Result<(), AllocError>
    ensures { OnOk result (words.new.items ≡ words.old.items ++ spec.store_words store) }
{
    write_word(words, store.at)?;
    write_word(words, u64::from(store.size))?;
    write_word(words, store.value)
}

/// The stores that wait, the oldest first.
fn write_stores(words: &mut Vec<u64>, buffer: &StoreBuffer) -> Result<(), AllocError>
    ensures { OnOk result (words.new.items ≡ words.old.items ++ of_list spec.store_words buffer.now) }
{
    write_word(words, u64::from(buffer.len()))?;
    for index in 0..buffer.len() {
        let Some(store) = buffer.get(index) else {
            unreachable!()
        };
        write_store(words, store)?;
    }
    Ok(())
}

/// The thread that runs.
fn write_thread(words: &mut Vec<u64>, running: Option<Tid>) -> Result<(), AllocError>
    ensures { OnOk result (words.new.items ≡ words.old.items ++ of_option spec.tid_word running) }
{
    match running {
        None => write_word(words, 0),
        Some(tid) => {
            write_word(words, 1)?;
            write_word(words, u64::from(tid.0))
        }
    }
}

/// A set of harts that may be missing.
fn write_set(words: &mut Vec<u64>, set: Option<u8>) -> Result<(), AllocError>
    ensures { OnOk result (words.new.items
        ≡ words.old.items ++ of_option Rattle.place_keys.specs.Words.word set) }
{
    match set {
        None => write_word(words, 0),
        Some(harts) => {
            write_word(words, 1)?;
            write_word(words, u64::from(harts))
        }
    }
}

/// A hart, but for its counts and its credit.
fn write_hart(words: &mut Vec<u64>, hart: &HartState) -> Result<(), AllocError>
    ensures { OnOk result (words.new.items ≡ words.old.items ++ spec.hart_words hart.now) }
{
    write_sparse(words, &hart.file.x)?;
    write_word(words, hart.pc)?;
    write_stores(words, &hart.buffer)?;
    write_thread(words, hart.running)?;
    write_word(words, u64::from(hart.requests))?;
    write_bool(words, hart.restart)?;
    write_set(words, hart.waits)?;
    write_option(words, hart.reserved)?;
    write_word(words, u64::from(hart.cid))
}

/// All harts.
pub fn write_harts(words: &mut Vec<u64>, harts: &[HartState]) -> Result<(), AllocError>
    ensures { OnOk result (words.new.items ≡ words.old.items ++ of_list spec.hart_words harts.now) }
{
    write_word(words, harts.len() as u64)?;
    for hart in harts {
        write_hart(words, hart)?;
    }
    Ok(())
}
