//! Whether a walk can go round and round along edges on which work is done.
//!
//! Ranks are raised in rounds, until they rise along no edge and fall along each busy one: then no walk can.
//! After each round, where the ranks rise for ever, the edges for which they were raised last lead round. So a
//! busy edge is looked for that these lead round to, and whether a walk leads back from it is tested by marks.
//! Where most edges lead to nodes with higher numbers a few rounds are enough for either answer.

ghost use Rattle.std.specs.Prelude.{◌≡◌, ◌≤◌, ◌<◌, ◌*◌, ◌-◌, Ok, Some, None, ℕ, [], ◌∷◌, true, false, length, sum, All, Contains, IfOk, IfSome};
ghost use Rattle.graph_walks.specs.Circles.{AreWalked, HasBusyCircle, HasRanks};
ghost use Rattle.graph_walks.specs.Walks.{IsWithin, Leads};

use crate::edge::Edge;
use crate::marks::marks_of;
use crate::ranks::raise_round;
use std::alloc::{AllocError, Global};

/// A busy edge to which the edges for which ranks were raised last lead round, from this node on. There is
/// none where they end.
fn suspect(edges: &[Edge], reasons: &[usize], start: u32) -> Option<Edge>
    requires edges { All (IsWithin (length reasons.now)) edges.now }
    requires start { start < length reasons.now }
    requires few { length reasons.now < 4294967296 }
    ensures among { IfSome result (λ edge. Contains edges.now edge) }
    ensures busy { IfSome result (λ edge. edge.busy ≡ true) }
{
    let nodes = reasons.len() as u64;
    let mut node = start;
    for step in 0..2 * nodes {
        let edge = *edges.get(reasons[node as usize])?;
        if step >= nodes && edge.busy {
            return Some(edge);
        }
        node = edge.to;
    }
    None
}

/// Whether a walk leads from where an edge leads back to where it begins.
///
/// Fails only where memory is short.
fn leads_back(alloc: Global, nodes: u32, edges: &[Edge], edge: Edge) -> Result<bool, AllocError>
    requires edges { All (IsWithin nodes) edges.now }
    requires edge { IsWithin nodes edge }
    ensures { result ≡ Ok true → Leads edges.now (edge.from ∷ []) edge.to }
{
    let marks = marks_of(alloc, nodes, edges, &[edge.from])?;
    Ok(marks[edge.to as usize])
}

/// Whether some busy edge to which these lead round is on a circle. `false` says nothing.
///
/// Fails only where memory is short.
fn finds_circle(
    alloc: Global,
    nodes: u32,
    edges: &[Edge],
    reasons: &[usize],
    start: u32,
) -> Result<bool, AllocError>
    requires edges { All (IsWithin nodes) edges.now }
    requires reasons { length reasons.now ≡ nodes }
    requires start { start < nodes }
    ensures { result ≡ Ok true → HasBusyCircle edges.now }
{
    match suspect(edges, reasons, start) {
        Some(edge) => leads_back(alloc, nodes, edges, edge),
        None => Ok(false),
    }
}

/// Goes through the edges once. Answers whether there is a busy circle, where that is known then.
///
/// Fails only where memory is short.
fn look_once(
    alloc: Global,
    nodes: u32,
    edges: &[Edge],
    ranks: &mut [u32],
    reasons: &mut [usize],
) -> Result<Option<bool>, AllocError>
    requires edges { All (IsWithin nodes) edges.now }
    requires size { length ranks.old ≡ nodes }
    requires reasons { length reasons.old ≡ nodes }
    requires low { All (λ rank. rank ≤ nodes) ranks.old }
    requires walked { AreWalked edges.now ranks.old }
    ensures size { length ranks.new ≡ nodes }
    ensures reasons { length reasons.new ≡ nodes }
    ensures low { All (λ rank. rank ≤ nodes) ranks.new }
    ensures walked { AreWalked edges.now ranks.new }
    ensures yes { result ≡ Ok (Some true) → HasBusyCircle edges.now }
    ensures no { result ≡ Ok (Some false) → HasRanks edges.now }
    ensures more { result ≡ Ok None → sum ranks.old < sum ranks.new }
{
    match raise_round(edges, nodes, ranks, reasons) {
        Ok(None) => Ok(Some(false)),
        Ok(Some(node)) => {
            if finds_circle(alloc, nodes, edges, reasons, node)? {
                Ok(Some(true))
            } else {
                Ok(None)
            }
        }
        Err(_) => Ok(Some(true)),
    }
}

/// Goes through the edges until it is known whether there is a busy circle.
///
/// Fails only where memory is short.
fn look(
    alloc: Global,
    nodes: u32,
    edges: &[Edge],
    ranks: &mut [u32],
    reasons: &mut [usize],
) -> Result<bool, AllocError>
    requires edges { All (IsWithin nodes) edges.now }
    requires size { length ranks.old ≡ nodes }
    requires reasons { length reasons.old ≡ nodes }
    requires low { All (λ rank. rank ≤ nodes) ranks.old }
    requires walked { AreWalked edges.now ranks.old }
    ensures yes { result ≡ Ok true → HasBusyCircle edges.now }
    ensures no { result ≡ Ok false → HasRanks edges.now }
{
    'rounds: loop {
        if let Some(answer) = look_once(alloc, nodes, edges, ranks, reasons)? {
            return Ok(answer);
        }
    }
}

/// Whether a walk along the edges, of a graph with so many nodes, can go round and round on which work is
/// done. Where none can, the nodes have ranks, so there is a most that is done on a walk.
///
/// Fails only where memory is short.
pub fn has_busy_circle(alloc: Global, nodes: u32, edges: &[Edge]) -> Result<bool, AllocError>
    requires { All (IsWithin nodes) edges.now }
    ensures yes { result ≡ Ok true → HasBusyCircle edges.now }
    ensures no { result ≡ Ok false → HasRanks edges.now }
{
    let mut ranks = vec![in alloc; 0; nodes as usize]?;
    let mut reasons = vec![in alloc; edges.len(); nodes as usize]?;
    look(alloc, nodes, edges, &mut ranks, &mut reasons)
}
