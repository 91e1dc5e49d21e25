//! Marks of the nodes from which a walk leads to one of some others.
//!
//! The edges are gone through in rounds, the last edge first, until a round marks no node. So nothing is kept
//! but a mark a node. Where most edges lead to nodes with higher numbers, as in a search whose nodes are
//! numbered as they are come to, a few rounds are enough.

ghost use Rattle.std.specs.Prelude.{◌≡◌, ◌<◌, true, false, ℕ, List, length, count_by, All, Contains, IfOk, slice_index_or, ◌⊎◌};
ghost use Rattle.graph_walks.specs.Walks.{AreClosed, AreLed, AreMarks, IsClosedAt, IsMarked, IsWithin, count_marks};
ghost use Rattle.graph_walks.specs.declared.edge.Edge.{Edge};

use crate::edge::Edge;
use std::alloc::{AllocError, Global};

/// Marks the node that an edge leaves, where the one to which it leads is marked. Answers whether it wasn't
/// marked before.
fn mark_before(edge: Edge, marks: &mut [bool]) -> bool
    requires within { IsWithin (length marks.old) edge }
    ensures size { length marks.new ≡ length marks.old }
    ensures led { (edges : List Edge) (ends : List ℕ) → Contains edges edge → AreLed edges ends marks.old
        → AreLed edges ends marks.new }
    ensures closed { result ≡ false → IsClosedAt marks.new edge }
    ensures same { result ≡ false → marks.new ≡ marks.old }
    ensures more { result ≡ true → count_marks marks.old < count_marks marks.new }
    ensures keeps { (k : ℕ) → IsMarked marks.old k → IsMarked marks.new k }
{
    if !marks[edge.to as usize] || marks[edge.from as usize] {
        return false;
    }
    marks[edge.from as usize] = true;
    true
}

/// Goes through the edges once, and marks each node from which one leads to a marked node. Answers whether a
/// node was marked.
fn mark_round(edges: &[Edge], marks: &mut [bool]) -> bool
    requires within { All (IsWithin (length marks.old)) edges.now }
    ensures size { length marks.new ≡ length marks.old }
    ensures led { (ends : List ℕ) → AreLed edges.now ends marks.old → AreLed edges.now ends marks.new }
    ensures closed { result ≡ false → AreClosed edges.now marks.new }
    ensures same { result ≡ false → marks.new ≡ marks.old }
    ensures more { result ≡ true → count_marks marks.old < count_marks marks.new }
    ensures keeps { (k : ℕ) → IsMarked marks.old k → IsMarked marks.new k }
{
    let mut left = edges.len();
    let mut marked = false;
    'edges: while left != 0 {
        left -= 1;
        if mark_before(edges[left], marks) {
            marked = true;
        }
    }
    marked
}

/// Marks these nodes.
fn mark_ends(ends: &[u32], marks: &mut [bool])
    requires within { All (λ end. end < length marks.old) ends.now }
    ensures size { length marks.new ≡ length marks.old }
    ensures marked { All (IsMarked marks.new) ends.now }
    ensures others { (k : ℕ) → IsMarked marks.new k → IsMarked marks.old k ⊎ Contains ends.now k }
{
    for end in ends {
        marks[*end as usize] = true;
    }
}

/// Marks the nodes from which a walk leads to one of the ends, where none is marked yet.
fn mark_walks(edges: &[Edge], ends: &[u32], marks: &mut [bool])
    requires edges { All (IsWithin (length marks.old)) edges.now }
    requires ends { All (λ end. end < length marks.old) ends.now }
    requires none { (k : ℕ) → slice_index_or marks.old k false ≡ false }
    ensures size { length marks.new ≡ length marks.old }
    ensures marks { AreMarks edges.now ends.now marks.new }
{
    mark_ends(ends, marks);
    let mut going = true;
    'rounds: while going {
        going = mark_round(edges, marks);
    }
}

/// Marks, of so many nodes, those from which a walk along the edges leads to one of the ends; from an end
/// itself none has to be made.
///
/// Fails only where memory is short.
pub fn marks_of(
    alloc: Global,
    nodes: u32,
    edges: &[Edge],
    ends: &[u32],
) -> Result<Vec<bool>, AllocError>
    requires edges { All (IsWithin nodes) edges.now }
    requires ends { All (λ end. end < nodes) ends.now }
    ensures size { IfOk result (λ marks. length marks.items ≡ nodes) }
    ensures marks { IfOk result (λ marks. AreMarks edges.now ends.now marks.items) }
{
    let mut marks = vec![in alloc; false; nodes as usize]?;
    mark_walks(edges, ends, &mut marks);
    Ok(marks)
}
