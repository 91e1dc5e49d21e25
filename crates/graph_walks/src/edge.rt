//! An edge.

/// An edge from one node to another, or to itself.
#[derive(Clone, Copy, Drop)]
pub struct Edge {
    /// The number of the node that it leaves.
    pub from: u32,
    /// The number of the node to which it leads.
    pub to: u32,
    /// Whether work is done along it: which work, is the caller's to say.
    pub busy: bool,
}
