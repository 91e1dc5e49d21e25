//! The events that lead to a place.

ghost use Rattle.std.specs.Prelude.{◌≡◌, ◌≤◌, ◌++◌, length, IfOk, OnOk};
ghost use Rattle.place_search.specs.Logs.{AreAfterParents, log_at};

use crate::row::Row;
use mach_types::Entry;
use std::alloc::{AllocError, Global};

/// Adds the entries of a row to a log whose newest entry comes first.
fn put_back(log: &mut Vec<Entry>, row: &Row) -> Result<(), AllocError>
    ensures { OnOk result (log.new.items ≡ log.old.items ++ row.now.entries.items) }
{
    log.extend_from_slice(&row.entries)
}

/// The log of a place, the oldest entry first.
pub(crate) fn log_of(alloc: Global, rows: &[Row], place: u32) -> Result<Vec<Entry>, AllocError>
    requires parents { AreAfterParents rows.now }
    requires place { place ≤ length rows.now }
    ensures { IfOk result (λ log. log.items ≡ log_at rows.now place) }
{
    let mut log = Vec::new(alloc);
    let mut at = place;
    'back: while at != 0 {
        let row = &rows[at as usize - 1];
        put_back(&mut log, row)?;
        at = row.parent;
    }
    log.reverse();
    Ok(log)
}
