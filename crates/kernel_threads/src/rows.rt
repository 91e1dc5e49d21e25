//! The rows of the table: one for each live thread, in rising order of number.

ghost use Rattle.std.specs.Prelude.{◌≡◌, ◌==◌, not, map, filter, find};
ghost use Rattle.std.specs.List.{position};
ghost use Rattle.kernel_threads.specs.Rows.{are_rising, state_at, kept_at, all_saved_in, change_if, changed_by, clear_in, clear_row_if, is_row, new_row, stage_if, state_in};
ghost use Rattle.kernel_threads.specs.Table as spec;

use crate::masks;
use arrayvec::ArrayVec;
use mach_types::{Hart, MOST_THREADS, Regs, Saved, ThreadState};

/// How many rows there may be.
pub const ROOM: usize = MOST_THREADS as usize;

/// How far a live thread has come, with what it keeps there.
#[derive(Clone, Copy, Drop)]
pub enum Stage {
    /// It may begin to run, with this.
    Ready(Saved),
    /// It runs on this hart, which has its registers.
    Running(Hart),
    /// It waits for a wake at this address, and goes on with this.
    Waiting(u64, Saved),
}

impl Stage {
    /// The state that a caller sees.
    fn state(self) -> ThreadState
        ensures { result ≡ state_at self }
    {
        match self {
            Stage::Ready(_) => ThreadState::Ready,
            Stage::Running(hart) => ThreadState::Running(hart),
            Stage::Waiting(at, _) => ThreadState::Waiting(at),
        }
    }

    /// What is kept; None where the thread runs.
    fn kept(self) -> Option<Saved>
        ensures { result ≡ kept_at self }
    {
        match self {
            Stage::Ready(kept) | Stage::Waiting(_, kept) => Some(kept),
            Stage::Running(_) => None,
        }
    }
}

/// A live thread.
#[derive(Clone, Copy, Drop)]
pub struct Row {
    /// Its number.
    pub number: u32,
    /// How far it has come.
    pub stage: Stage,
    /// The address of the word that its exit clears, 0 where none is set.
    pub clear_at: u64,
}

impl Row {
    /// A thread at its start.
    pub(crate) fn new(number: u32, start: Saved) -> Row
        ensures { result ≡ new_row number start }
    {
        Row {
            number,
            stage: Stage::Ready(start),
            clear_at: 0,
        }
    }
}

/// A change of one column of a row.
#[derive(Clone, Copy, Drop)]
pub enum Change {
    /// The thread comes to this stage.
    Stage(Stage),
    /// Its exit clears the word at this address.
    ClearAt(u64),
}

impl Change {
    /// The row after it.
    fn applied(self, row: Row) -> Row
        ensures { result ≡ changed_by self row }
    {
        match self {
            Change::Stage(stage) => Row { stage, ..row },
            Change::ClearAt(clear_at) => Row { clear_at, ..row },
        }
    }
}

impl Default for Row {
    fn default() -> Row {
        let nothing = Saved {
            file: Regs::new(),
            pc: 0,
        };
        Row::new(0, nothing)
    }
}

/// The rows of the live threads.
pub type Rows = ArrayVec<Row, ROOM>;

/// Where the row with this number stands.
fn place_of(rows: &[Row], number: u32) -> Option<usize>
    requires { are_rising rows.now }
    ensures { result ≡ position (is_row number) rows.now }
{
    rows.binary_search_by_key(&number, |row| row.number).ok()
}

/// The row with this number.
fn row_of(rows: &Rows, number: u32) -> Option<Row>
    requires { are_rising rows.now.items }
    ensures { result ≡ find (is_row number) rows.now.items }
{
    let place = place_of(rows, number)?;
    Some(rows[place])
}

/// The state of the thread with this number; None where it isn't live.
#[tactic(auto, using(crate::proofs::RowsRead::state_of_rows))]
pub fn state_of(rows: &Rows, number: u32) -> Option<ThreadState>
    requires { are_rising rows.now.items }
    ensures { result ≡ state_in number rows.now.items }
{
    let row = row_of(rows, number)?;
    Some(row.stage.state())
}

/// What the thread with this number was saved with; None where it runs, or isn't live.
#[tactic(auto, using(crate::proofs::RowsRead::saved_of_rows))]
pub fn saved_of(rows: &Rows, number: u32) -> Option<Saved>
    requires { are_rising rows.now.items }
    ensures { result ≡ spec.saved_of number (all_saved_in rows.now.items) }
{
    let row = row_of(rows, number)?;
    row.stage.kept()
}

/// Whether the thread with this number, which waits, hears a wake with this mask, or without one.
pub fn hears(rows: &Rows, number: u32, mask: Option<u32>) -> bool
    requires { are_rising rows.now.items }
    ensures { result ≡ spec.hears_saved mask (all_saved_in rows.now.items) number }
{
    match mask {
        Some(mask) => match saved_of(rows, number) {
            Some(saved) => masks::hears(&saved, mask),
            None => false,
        },
        None => true,
    }
}

/// The address that the exit of the thread with this number clears, 0 where none is set.
#[tactic(auto, using(crate::proofs::RowsRead::clear_of_rows))]
pub fn clear_of(rows: &Rows, number: u32) -> u64
    requires { are_rising rows.now.items }
    ensures { result ≡ clear_in number rows.now.items }
{
    match row_of(rows, number) {
        Some(row) => row.clear_at,
        None => 0,
    }
}

/// Changes the row with this number.
fn change_row_in(rows: &mut [Row], number: u32, change: Change)
    requires { are_rising rows.old }
    ensures { rows.new ≡ map (change_if number change) rows.old }
{
    if let Some(place) = place_of(rows, number) {
        let row = rows[place];
        rows[place] = change.applied(row);
    }
}

/// The same, in the rows of the live threads.
fn change_row(rows: &mut Rows, number: u32, change: Change)
    requires { are_rising rows.old.items }
    ensures { rows.new.items ≡ map (change_if number change) rows.old.items }
{
    change_row_in(rows.as_mut_slice(), number, change);
}

/// Puts the thread with this number in a stage.
pub fn set_stage(rows: &mut Rows, number: u32, stage: Stage)
    requires { are_rising rows.old.items }
    ensures { rows.new.items ≡ map (stage_if number stage) rows.old.items }
{
    change_row(rows, number, Change::Stage(stage));
}

/// Sets the address that the exit of the thread with this number clears.
pub fn set_clear(rows: &mut Rows, number: u32, at: u64)
    requires { are_rising rows.old.items }
    ensures { rows.new.items ≡ map (clear_row_if number at) rows.old.items }
{
    change_row(rows, number, Change::ClearAt(at));
}

/// Takes the row with this number away.
pub fn remove(rows: &mut Rows, number: u32)
    requires { are_rising rows.old.items }
    ensures { rows.new.items ≡ filter (λ row. not (is_row number row)) rows.old.items }
{
    if let Some(place) = place_of(rows, number) {
        rows.remove(place);
    }
}
