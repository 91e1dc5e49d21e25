//! Ranks of nodes, which rise along no edge and fall along busy ones.
//!
//! The edges are gone through in rounds, the last edge first, and each raises the rank of the node that it
//! leaves to what it asks. Where a walk can go round and round along a busy edge, ranks would rise for ever.

ghost use Rattle.std.specs.Prelude.{◌≡◌, ◌≢◌, ◌≤◌, ◌<◌, ◌+◌, Ok, None, Option, true, false, List, ℕ, length, sum, All, Contains, IfOk, IfSome, IsErr};
ghost use Rattle.graph_walks.specs.Circles.{AreWalked, HasLongWalk, IsRanked, rank_in, work_of};
ghost use Rattle.graph_walks.specs.Walks.{IsWithin};
ghost use Rattle.graph_walks.specs.declared.edge.Edge.{Edge};

use crate::edge::Edge;

/// A rank would be above the limit.
#[derive(Clone, Copy, Drop)]
pub(crate) struct TooHigh;

/// The rank that an edge asks of the node that it leaves.
fn asked_by(edge: Edge, ranks: &[u32]) -> u64
    requires { IsWithin (length ranks.now) edge }
    ensures { result ≡ rank_in ranks.now edge.to + work_of edge }
{
    let rank = u64::from(ranks[edge.to as usize]);
    if edge.busy { rank + 1 } else { rank }
}

/// Raises the rank of the node that an edge leaves, where the edge asks for a higher one. Answers whether it
/// did. Where that would be above the limit, all stays as it was.
fn raise(edge: Edge, limit: u32, ranks: &mut [u32]) -> Result<bool, TooHigh>
    requires within { IsWithin (length ranks.old) edge }
    requires low { All (λ rank. rank ≤ limit) ranks.old }
    ensures size { length ranks.new ≡ length ranks.old }
    ensures low { All (λ rank. rank ≤ limit) ranks.new }
    ensures walked { (edges : List Edge) → Contains edges edge → AreWalked edges ranks.old
        → AreWalked edges ranks.new }
    ensures kept { result ≡ Ok false → IsRanked (rank_in ranks.new) edge }
    ensures same { result ≡ Ok false → ranks.new ≡ ranks.old }
    ensures more { result ≡ Ok true → sum ranks.old < sum ranks.new }
    ensures high { IsErr result → (edges : List Edge) → Contains edges edge → AreWalked edges ranks.old
        → HasLongWalk edges limit }
{
    let asked = asked_by(edge, ranks);
    if asked <= u64::from(ranks[edge.from as usize]) {
        return Ok(false);
    }
    if asked > u64::from(limit) {
        return Err(TooHigh);
    }
    ranks[edge.from as usize] = asked as u32;
    Ok(true)
}

/// Goes through the edges once, and raises ranks where edges ask for it. Notes of each node whose rank it
/// raises the number of the edge for which it did last. Answers the last of these nodes.
pub(crate) fn raise_round(
    edges: &[Edge],
    limit: u32,
    ranks: &mut [u32],
    reasons: &mut [usize],
) -> Result<Option<u32>, TooHigh>
    requires within { All (IsWithin (length ranks.old)) edges.now }
    requires reasons { length reasons.old ≡ length ranks.old }
    requires low { All (λ rank. rank ≤ limit) ranks.old }
    ensures size { length ranks.new ≡ length ranks.old }
    ensures reasons { length reasons.new ≡ length ranks.old }
    ensures low { All (λ rank. rank ≤ limit) ranks.new }
    ensures walked { AreWalked edges.now ranks.old → AreWalked edges.now ranks.new }
    ensures kept { result ≡ Ok None → All (IsRanked (rank_in ranks.new)) edges.now }
    ensures more { IfOk result (λ raised. raised ≢ None → sum ranks.old < sum ranks.new) }
    ensures node { IfOk result (λ raised. IfSome raised (λ node. node < length ranks.old)) }
    ensures high { IsErr result → AreWalked edges.now ranks.old → HasLongWalk edges.now limit }
{
    let mut left = edges.len();
    let mut raised = None;
    'edges: while left != 0 {
        left -= 1;
        let edge = edges[left];
        if raise(edge, limit, ranks)? {
            reasons[edge.from as usize] = left;
            raised = Some(edge.from);
        }
    }
    Ok(raised)
}
