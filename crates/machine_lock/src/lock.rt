//! What a turnstile is: a table of two words and one slot.
ghost use Rattle.std.specs.Prelude.{◌≡◌};

use crate::chronicle::Meaning;
use crate::history::{Law, Origin, View};
use atomic_table::Table;
use std::alloc::Global;

/// A lock that lends a machine to one pass at a time, in the order in which they asked.
///
/// It is a ticket lock. Word 0 is the next ticket, word 1 the ticket that is served, and the slot
/// holds the machine while no turn is out.
#[derive(Drop)]
pub struct Turnstile<M: Meaning> {
    pub(crate) table: Table<Option<M>, View<M>, Origin<M>, Law, Global>,
    ghost shape: { (table.shared.table_id.words ≡ 2) × (table.shared.table_id.slots ≡ 1) },
}
