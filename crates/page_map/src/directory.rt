//! The number of the leaf of each chunk.

ghost use Rattle.std.specs.Prelude.{◌≡◌, ℕ, ◌<◌, ◌≤◌, ◌^◌, IfOk, length, slice_index, slice_set, vec_capacity, vec_len};
ghost use Rattle.page_map.specs.Layout.{empty_row, names_with, rows_with};
ghost use Rattle.page_map.specs.declared.table.TheConstants.{CHUNKS};

use crate::table::CHUNKS;
use std::alloc::{AllocError, Global};
use std::marker::Model;

/// How many chunks lie in one group.
const GROUP: usize = 512;

/// How many groups there are.
const GROUPS: usize = CHUNKS as usize / GROUP;

/// The row that all groups without a row of their own share.
const EMPTY_ROW: u32 = 0;

/// The numbers of the leaves of the chunks of a group.
type Row = [u32; 512];

/// A number for each chunk, most of which are 0. It is found in two look-ups, and a group of chunks whose
/// numbers are 0 costs nothing but the entry of the group.
#[derive(Drop)]
pub(crate) struct Directory {
    names: Vec<u32>,
    rows: Vec<Row>,
}

impl Model for Directory {
    ghost use Rattle.std.specs.Prelude.{ℕ, List, vec_capacity};
    ghost use Rattle.page_map.specs.Layout.{IsRows, numbers_in};
    ghost use Rattle.page_map.specs.declared.directory.TheConstants.{GROUPS};

    ghost Value = { List ℕ };

    ghost view = { λ d. numbers_in d.names.items d.rows.items };

    ghost invariant = { λ d. IsRows 0 GROUPS d.names.items d.rows.items (vec_capacity d.rows) };
}

impl Directory {
    /// 0 for each chunk. It has all the memory that it ever takes: room for a row of each group, which costs
    /// nothing until it is used.
    pub(crate) fn new(alloc: Global) -> Result<Directory, AllocError>
        ensures length { IfOk result (λ d. length d ≡ CHUNKS) }
        ensures empty { IfOk result (λ d. (c : ℕ) → slice_index d c ≡ 0) }
    {
        let names = empty_rows(alloc, GROUPS)?;
        let mut rows = Vec::with_capacity(alloc, GROUPS + 1)?;
        rows.push(empty_row())?;
        Ok(Directory { names, rows })
    }

    /// 0 for each chunk again. It takes no memory.
    pub(crate) fn clear(&mut self)
        ensures length { length self.new ≡ CHUNKS }
        ensures empty { (c : ℕ) → slice_index self.new c ≡ 0 }
    {
        forget_rows(&mut self.names);
        self.rows.clear();
        let _ = self.rows.push(empty_row());
    }

    /// The number of a chunk.
    pub(crate) fn number(&self, chunk: usize) -> u32
        requires { chunk < CHUNKS }
        ensures { result ≡ slice_index self.now chunk }
    {
        let row = self.names[chunk / GROUP];
        self.rows[row as usize][chunk % GROUP]
    }

    /// Where to go on past a chunk whose number is 0: at the next chunk, or at the next group, where all numbers
    /// of this one are 0 because it has no row of its own. So a long gap is passed over in few steps.
    pub(crate) fn past_empty(&self, chunk: usize) -> usize
        requires chunk { chunk < CHUNKS }
        requires empty { slice_index self.now chunk ≡ 0 }
        ensures past { chunk < result }
        ensures within { result ≤ CHUNKS }
        ensures empty { (c : ℕ) → chunk ≤ c → c < result → slice_index self.now c ≡ 0 }
    {
        let group = chunk / GROUP;
        if self.names[group] == EMPTY_ROW {
            (group + 1) * GROUP
        } else {
            chunk + 1
        }
    }

    /// Gives a chunk this number instead of the one that it had. It takes no memory.
    pub(crate) fn set(&mut self, chunk: usize, number: u32)
        requires { chunk < CHUNKS }
        ensures { self.new ≡ slice_set self.old chunk number }
    {
        let row = own_row(&mut self.names, &mut self.rows, chunk / GROUP);
        self.rows[row][chunk % GROUP] = number;
    }
}

/// The row of a group, which gets one of its own if it has none.
fn own_row(names: &mut Vec<u32>, rows: &mut Vec<Row>, group: usize) -> usize
    requires group { group < length names.old.items }
    requires room { slice_index names.old.items group ≡ 0 → vec_len rows.old < vec_capacity rows.old }
    requires numbers { slice_index names.old.items group ≡ 0 → vec_len rows.old < 2 ^ 32 }
    ensures names { names.new.items ≡ names_with names.old.items (length rows.old.items) group }
    ensures rows { rows.new.items ≡ rows_with names.old.items rows.old.items empty_row group }
    ensures row { result ≡ slice_index names.new.items group }
    ensures capacity { vec_capacity rows.old ≤ vec_capacity rows.new }
{
    if names[group] == EMPTY_ROW {
        names[group] = rows.len() as u32;
        let _ = rows.push(empty_row());
    }
    names[group] as usize
}

/// So many groups, each with the row of zeros.
fn empty_rows(alloc: Global, groups: usize) -> Result<Vec<u32>, AllocError>
    ensures length { IfOk result (λ names. length names.items ≡ groups) }
    ensures empty { IfOk result (λ names. (g : ℕ) → slice_index names.items g ≡ 0) }
{
    vec![in alloc; EMPTY_ROW; groups]
}

/// Each group has the row of zeros.
fn forget_rows(names: &mut Vec<u32>)
    ensures length { length names.new.items ≡ length names.old.items }
    ensures empty { (g : ℕ) → slice_index names.new.items g ≡ 0 }
{
    names.fill(EMPTY_ROW);
}

/// A row of zeros.
fn empty_row() -> Row
    ensures { result ≡ empty_row }
{
    [0; 512]
}
