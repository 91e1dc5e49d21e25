//! The kernel's tables as words.

ghost use Rattle.std.specs.Prelude.{◌≡◌, ◌<◌, ◌≤◌, ◌+◌, ◌^◌, ◌++◌, ℕ, map, IfOk, OnOk};
ghost use Rattle.kernel_threads.specs.Rows.{all_saved_in, kept_at, saved_in, state_at, thread_in, threads_in};
ghost use Rattle.scheduler.specs.Entries.{numbers};
ghost use Rattle.sys_calls.specs.Registered.{areas_by_number};
ghost use Rattle.place_keys.specs.TableWords as spec;
ghost use Rattle.place_keys.specs.Differences.{IsWrittenOn, sparse_words};
ghost use Rattle.place_keys.specs.Words.{of_each, of_list, of_option, word};

use crate::differences::{write_change, write_sparse};
use crate::words::{write_bool, write_word};
use kernel_threads::{Row, Stage, Threads};
use mach_types::{Action, End, Fault, Registered, Saved, ThreadSignals};
use scheduler::Ready;
use signals::Signals;
use std::alloc::AllocError;
use sys_calls::RegisteredArea;

/// What is kept of a thread that doesn't run.
fn write_file(words: &mut Vec<u64>, saved: &Saved) -> Result<(), AllocError>
    ensures { OnOk result (words.new.items ≡ words.old.items ++ spec.file_words saved.now) }
{
    write_sparse(words, &saved.file.x)?;
    write_word(words, saved.pc)
}

/// The state of a thread.
fn write_state(words: &mut Vec<u64>, stage: &Stage) -> Result<(), AllocError>
    ensures { OnOk result (words.new.items ≡ words.old.items ++ spec.state_words (state_at stage.now)) }
{
    match stage {
        Stage::Ready(_) => write_word(words, 0),
        Stage::Running(hart) => {
            write_word(words, 1)?;
            write_word(words, u64::from(hart.0))
        }
        Stage::Waiting(at, _) => {
            write_word(words, 2)?;
            write_word(words, *at)
        }
    }
}

/// What is kept in a stage.
fn write_kept(words: &mut Vec<u64>, stage: &Stage) -> Result<(), AllocError>
    ensures { OnOk result (words.new.items
        ≡ words.old.items ++ of_option spec.file_words (kept_at stage.now)) }
{
    match stage {
        Stage::Ready(kept) | Stage::Waiting(_, kept) => {
            write_word(words, 1)?;
            write_file(words, kept)
        }
        Stage::Running(_) => write_word(words, 0),
    }
}

/// A thread: its number, its state, and the address that its exit clears.
fn write_thread(words: &mut Vec<u64>, row: &Row) -> Result<(), AllocError>
    ensures { OnOk result (words.new.items ≡ words.old.items
        ++ spec.thread_words (thread_in row.now)) }
{
    write_word(words, u64::from(row.number))?;
    write_state(words, &row.stage)?;
    write_word(words, row.clear_at)
}

/// All threads.
fn write_rows(words: &mut Vec<u64>, rows: &[Row]) -> Result<(), AllocError>
    ensures { OnOk result (words.new.items
        ≡ words.old.items ++ of_list spec.thread_words (threads_in rows.now)) }
{
    write_word(words, rows.len() as u64)?;
    for row in rows {
        write_thread(words, row)?;
    }
    Ok(())
}

/// What is kept of a thread, with its number.
fn write_saved_row(words: &mut Vec<u64>, row: &Row) -> Result<(), AllocError>
    ensures { OnOk result (words.new.items ≡ words.old.items ++ spec.saved_words (saved_in row.now)) }
{
    write_word(words, u64::from(row.number))?;
    write_kept(words, &row.stage)
}

/// What is kept of all threads.
fn write_saved(words: &mut Vec<u64>, rows: &[Row]) -> Result<(), AllocError>
    ensures { OnOk result (words.new.items
        ≡ words.old.items ++ of_list spec.saved_words (all_saved_in rows.now)) }
{
    write_word(words, rows.len() as u64)?;
    for row in rows {
        write_saved_row(words, row)?;
    }
    Ok(())
}

/// Those that wait, the longest waiting first.
fn write_waiters(words: &mut Vec<u64>, threads: &Threads) -> Result<(), AllocError>
    ensures { OnOk result (words.new.items
        ≡ words.old.items ++ of_list word threads.now.threads.waiters) }
{
    write_word(words, u64::from(threads.waiting()))?;
    for index in 0..threads.waiting() {
        let Some(number) = threads.waiter(index) else {
            unreachable!()
        };
        write_word(words, u64::from(number))?;
    }
    Ok(())
}

/// The table of threads.
pub fn write_threads(words: &mut Vec<u64>, threads: &Threads) -> Result<(), AllocError>
    ensures { OnOk result (words.new.items ≡ words.old.items ++ spec.threads_words threads.now) }
{
    write_rows(words, threads.rows())?;
    write_saved(words, threads.rows())?;
    write_word(words, u64::from(threads.numbers_given()))?;
    write_waiters(words, threads)
}

/// The numbers of the ready threads.
fn write_order(words: &mut Vec<u64>, order: &[(u32, u8)]) -> Result<(), AllocError>
    ensures { OnOk result (words.new.items
        ≡ words.old.items ++ of_list word (numbers order.now)) }
{
    write_word(words, order.len() as u64)?;
    for entry in order {
        write_word(words, u64::from(entry.0))?;
    }
    Ok(())
}

/// The harts of a thread.
fn write_pair(words: &mut Vec<u64>, entry: &(u32, u8)) -> Result<(), AllocError>
    ensures { OnOk result (words.new.items ≡ words.old.items ++ spec.pair_words entry.now) }
{
    write_word(words, u64::from(entry.0))?;
    write_word(words, u64::from(entry.1))
}

/// The harts of each thread.
fn write_affinities(words: &mut Vec<u64>, entries: &[(u32, u8)]) -> Result<(), AllocError>
    ensures { OnOk result (words.new.items
        ≡ words.old.items ++ of_list spec.pair_words entries.now) }
{
    write_word(words, entries.len() as u64)?;
    for entry in entries {
        write_pair(words, entry)?;
    }
    Ok(())
}

/// The ready list and the affinities.
pub fn write_ready(words: &mut Vec<u64>, ready: &Ready) -> Result<(), AllocError>
    ensures { OnOk result (words.new.items ≡ words.old.items ++ spec.ready_words ready.now) }
{
    write_order(words, ready.order())?;
    write_affinities(words, ready.affinities())
}

/// The numbers of an action, which begin at one place, as far as they aren't 0. Answers the place past the
/// last one that isn't.
fn write_action(
    words: &mut Vec<u64>,
    action: &Action,
    place: u64,
    past: u64,
) -> Result<u64, AllocError>
    requires order { past ≤ place }
    requires room { place < 2 ^ 62 }
    ensures order { IfOk result (λ last. last ≤ place + 3) }
    ensures written { IfOk result (λ last. (f : ℕ → ℕ) → f place ≡ action.now.at
        → f (place + 1) ≡ action.now.flags → f (place + 2) ≡ action.now.mask → IsWrittenOn (λ k. 0) f
        (record { words = words.old.items; past = past; next = place })
        (record { words = words.new.items; past = last; next = place + 3 })) }
{
    let past_at = write_change(words, past, place, 0, action.at)?;
    let past_flags = write_change(words, past_at, place + 1, 0, action.flags)?;
    write_change(words, past_flags, place + 2, 0, action.mask)
}

/// The actions of signals. Most are the default, whose numbers are 0.
fn write_actions(words: &mut Vec<u64>, actions: &[Action]) -> Result<(), AllocError>
    ensures { OnOk result (words.new.items
        ≡ words.old.items ++ sparse_words (of_each spec.action_words actions.now)) }
{
    write_word(words, 3 * actions.len() as u64)?;
    let mut last = 0;
    let mut place = 0;
    for action in actions {
        last = write_action(words, action, place, last)?;
        place += 3;
    }
    write_word(words, 0)
}

/// What a fault says, if there is one.
fn write_fault(words: &mut Vec<u64>, fault: Option<Fault>) -> Result<(), AllocError>
    ensures { OnOk result (words.new.items ≡ words.old.items ++ of_option spec.fault_words fault) }
{
    match fault {
        None => write_word(words, 0),
        Some(said) => {
            write_word(words, 1)?;
            write_word(words, u64::from(said.signal))?;
            write_word(words, u64::from(said.code))?;
            write_word(words, said.address)
        }
    }
}

/// The mask and the pending signals of a thread, and what its fault says.
fn write_mask(words: &mut Vec<u64>, thread: &ThreadSignals) -> Result<(), AllocError>
    ensures { OnOk result (words.new.items ≡ words.old.items ++ spec.mask_words thread.now) }
{
    write_word(words, u64::from(thread.tid))?;
    write_word(words, thread.mask)?;
    write_word(words, thread.pending)?;
    write_fault(words, thread.fault)
}

/// The masks and the pending signals.
fn write_masks(words: &mut Vec<u64>, threads: &[ThreadSignals]) -> Result<(), AllocError>
    ensures { OnOk result (words.new.items
        ≡ words.old.items ++ of_list spec.mask_words threads.now) }
{
    write_word(words, threads.len() as u64)?;
    for thread in threads {
        write_mask(words, thread)?;
    }
    Ok(())
}

/// The table of signals.
pub fn write_signals(words: &mut Vec<u64>, signals: &Signals) -> Result<(), AllocError>
    ensures { OnOk result (words.new.items ≡ words.old.items ++ spec.signals_words signals.now) }
{
    write_actions(words, signals.actions())?;
    write_masks(words, signals.threads())
}

/// The area of a thread.
fn write_area(words: &mut Vec<u64>, entry: &RegisteredArea) -> Result<(), AllocError>
    ensures { OnOk result (words.new.items
        ≡ words.old.items ++ spec.area_words (entry.now.tid.0, entry.now.area)) }
{
    write_word(words, u64::from(entry.tid.0))?;
    write_word(words, entry.area.at)?;
    write_word(words, u64::from(entry.area.sig))
}

/// The areas.
pub fn write_areas(words: &mut Vec<u64>, areas: &[RegisteredArea]) -> Result<(), AllocError>
    ensures { OnOk result (words.new.items
        ≡ words.old.items ++ of_list spec.area_words (areas_by_number areas.now)) }
{
    write_word(words, areas.len() as u64)?;
    for entry in areas {
        write_area(words, entry)?;
    }
    Ok(())
}

/// For which barriers the process is registered.
pub fn write_registered(words: &mut Vec<u64>, registered: &Registered) -> Result<(), AllocError>
    ensures { OnOk result (words.new.items
        ≡ words.old.items ++ spec.registered_words registered.now) }
{
    write_bool(words, registered.global)?;
    write_bool(words, registered.private)?;
    write_bool(words, registered.rseq)
}

/// Bytes.
pub fn write_bytes(words: &mut Vec<u64>, bytes: &[u8]) -> Result<(), AllocError>
    ensures { OnOk result (words.new.items ≡ words.old.items ++ of_list word bytes.now) }
{
    write_word(words, bytes.len() as u64)?;
    for byte in bytes {
        write_word(words, u64::from(*byte))?;
    }
    Ok(())
}

/// How the run has ended, if it has.
pub fn write_ended(words: &mut Vec<u64>, ended: Option<End>) -> Result<(), AllocError>
    ensures { OnOk result (words.new.items ≡ words.old.items ++ of_option spec.end_words ended) }
{
    let Some(end) = ended else {
        return write_word(words, 0);
    };
    write_word(words, 1)?;
    let (kind, number) = match end {
        End::Exit(status) => (0, u64::from(status)),
        End::Killed(signal) => (1, u64::from(signal)),
        End::Stuck => (2, 0),
        End::Limit => (3, 0),
        End::Unended => (4, 0),
    };
    write_word(words, kind)?;
    write_word(words, number)
}
