//! Where the events of places lead.

ghost use Rattle.std.specs.Prelude.{◌≡◌, ◌<◌, ◌+◌, ◌-◌, ◌↔◌, ◌++◌, ◌∷◌, [], true, length, OnErr, OnOk};
ghost use Rattle.local_steps.specs.Runs.{instructions_by};

use graph_walks::Edge;
use mach_types::{Choice, Entry};
use std::alloc::{AllocError, Global};

/// Where the events of places lead, of those whose choices are tried so far. Its nodes are the places, by
/// their numbers.
#[derive(Drop)]
pub(crate) struct Graph {
    /// The edges: an event of the first place, and the settling steps after it, lead to the second. More than
    /// one event may. An edge is busy if an instruction is executed along it.
    pub(crate) edges: Vec<Edge>,
    /// The places at which the run is over.
    pub(crate) ended: Vec<u32>,
}

impl Graph {
    /// No edges.
    pub(crate) fn new(alloc: Global) -> Graph
        ensures edges { result.edges.items ≡ [] }
        ensures ended { result.ended.items ≡ [] }
    {
        Graph {
            edges: Vec::new(alloc),
            ended: Vec::new(alloc),
        }
    }

    /// Adds an edge. Where memory is short there is none more.
    pub(crate) fn add_edge(&mut self, edge: Edge) -> Result<(), AllocError>
        ensures ok { OnOk result (self.new.edges.items ≡ self.old.edges.items ++ edge ∷ []) }
        ensures err { OnErr result (self.new.edges.items ≡ self.old.edges.items) }
        ensures ended { self.new.ended.items ≡ self.old.ended.items }
    {
        self.edges.push(edge)?;
        Ok(())
    }

    /// Adds a place at which the run is over. Where memory is short there is none more.
    pub(crate) fn add_end(&mut self, place: u32) -> Result<(), AllocError>
        ensures ok { OnOk result (self.new.ended.items ≡ self.old.ended.items ++ place ∷ []) }
        ensures err { OnErr result (self.new.ended.items ≡ self.old.ended.items) }
        ensures edges { self.new.edges.items ≡ self.old.edges.items }
    {
        self.ended.push(place)?;
        Ok(())
    }
}

/// Whether an instruction is executed: the event of the choice is one, or settling steps follow it. The entries
/// are those of the event and of these steps.
pub(crate) fn is_busy(choice: Choice, entries: &[Entry]) -> bool
    ensures { result ≡ true ↔ 0 < instructions_by choice + (length entries.now - 1) }
{
    match choice {
        Choice::Exec => true,
        Choice::Drain
        | Choice::Take
        | Choice::Done
        | Choice::Preempt
        | Choice::Run(_)
        | Choice::Signal => entries.len() > 1,
    }
}
