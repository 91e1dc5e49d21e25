//! What a pass knows. No value of these types is made but of `Origin`: proofs alone speak of them.
use crate::chronicle::Meaning;
use atomic_table::TableRule;
use mach_types::Entry;
use std::collections::LinkedList;
use std::snapshot::Snapshot;

/// The machine as it was put in, and the number of parts.
#[derive(Drop)]
pub struct Origin<M> {
    pub start: Snapshot<M>,
    pub seats: u8,
}

/// Where a pass stands.
pub enum Stage {
    /// It has no ticket.
    Away,
    /// It has this ticket, counted without wrapping.
    Waiting(u64),
    /// Its ticket is served: the turn is out.
    Served(u64),
}

/// What a pass knows of the history, and its share in the turnstile.
pub struct View<M> {
    /// What its turnstile was made of; `None` in a pass that was joined into another.
    pub origin: Option<Origin<M>>,
    /// The log as it last saw it.
    pub seen: LinkedList<Entry>,
    /// What a pass that was joined into it had seen, until the next look.
    pub other: LinkedList<Entry>,
    /// The numbers of the entries of its own turns, and of those of the passes joined into it.
    pub mine: LinkedList<u64>,
    /// Its parts of the right to close the turnstile.
    pub parts: u64,
    /// Where it stands.
    pub stage: Stage,
}

/// The rule of the turnstile.
pub struct Law;

impl<M: Meaning> TableRule<Option<M>, View<M>, Origin<M>> for Law {
    ghost use Rattle.machine_lock.specs.Rule.{Kept};
    ghost use Rattle.machine_lock.specs.Views.{opening_view};

    ghost holds = { λ k s. Kept M.setting M.log M.next k s };

    ghost first = { λ k. opening_view M.log k };
}
