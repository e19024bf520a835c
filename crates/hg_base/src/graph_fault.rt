// What keeps edges from being those of a graph, and the tests of it.
ghost use Rattle.std.specs.Prelude.{◌≤◌, length, All, Some, IfSome, IfNone};
ghost use Rattle.hg_base.specs.Graph.{JoinsTwo};
ghost use Rattle.hg_base.specs.GraphFaults.{AreVertices, IsGraphFault, IsEdgeFault, graph_fault_words};

use super::graph::Edge;
use std::error::Error;
use std::fmt;

// A graph has no more vertices, and no more edges.
const MOST_VERTICES: u32 = 1_048_576;

const MOST_EDGES: usize = 4_194_304;

/// What keeps a number of vertices and a list of edges from being a graph. An edge is told by its number, which is its
/// place in the list, from 0.
#[derive(Clone, Copy, Debug, PartialEq, Eq)]
pub enum GraphFault {
    /// There is no vertex.
    NoVertex,
    /// There are so many vertices, and more than 1,048,576.
    TooManyVertices(u32),
    /// There are so many edges, and more than 4,194,304.
    TooManyEdges(u64),
    /// The end of an edge is no vertex.
    EndOutOfRange { edge: u32, end: u32 },
    /// Both ends of an edge are this vertex.
    Loop { edge: u32, end: u32 },
}

impl fmt::Display for GraphFault {
    ghost output = { λ fault. Some (graph_fault_words fault) };

    fn fmt<W: fmt::Write>(&self, f: &mut fmt::Formatter<W>) -> fmt::Result {
        match *self {
            GraphFault::NoVertex => write!(f, "there is no vertex"),
            GraphFault::TooManyVertices(vertices) => {
                write!(f, "{vertices} vertices are more than 1048576")
            }
            GraphFault::TooManyEdges(edges) => write!(f, "{edges} edges are more than 4194304"),
            GraphFault::EndOutOfRange { edge, end } => {
                write!(f, "edge {edge}: its end {end} is no vertex")
            }
            GraphFault::Loop { edge, end } => {
                write!(f, "edge {edge}: vertex {end} is both its ends")
            }
        }
    }
}

impl Error for GraphFault {}

/// What is wrong first with a number of vertices and the edges.
pub(crate) fn first_fault(n: u32, edges: &[Edge]) -> Option<GraphFault>
    ensures fault { IfSome result (IsGraphFault n edges.now) }
    ensures vertices { IfNone result (AreVertices n) }
    ensures few_edges { IfNone result (length edges.now ≤ 4194304) }
    ensures edges { IfNone result (All (JoinsTwo n) edges.now) }
{
    if n == 0 {
        return Some(GraphFault::NoVertex);
    }
    if MOST_VERTICES < n {
        return Some(GraphFault::TooManyVertices(n));
    }
    if MOST_EDGES < edges.len() {
        return Some(GraphFault::TooManyEdges(edges.len() as u64));
    }
    first_edge_fault(n, edges)
}

// What is wrong with the first edge that doesn't join two vertices.
fn first_edge_fault(n: u32, edges: &[Edge]) -> Option<GraphFault>
    requires vertices { AreVertices n }
    requires few_edges { length edges.now ≤ 4194304 }
    ensures fault { IfSome result (IsGraphFault n edges.now) }
    ensures edges { IfNone result (All (JoinsTwo n) edges.now) }
{
    for (number, edge) in edges.iter().enumerate() {
        if let Some(fault) = edge_fault(n, number as u32, *edge) {
            return Some(fault);
        }
    }
    None
}

// What is wrong with an edge of this number.
fn edge_fault(n: u32, number: u32, edge: Edge) -> Option<GraphFault>
    ensures fault { IfSome result (IsEdgeFault n number edge) }
    ensures joins { IfNone result (JoinsTwo n edge) }
{
    let Edge { u, v, w: _ } = edge;
    if n <= u {
        return Some(GraphFault::EndOutOfRange {
            edge: number,
            end: u,
        });
    }
    if n <= v {
        return Some(GraphFault::EndOutOfRange {
            edge: number,
            end: v,
        });
    }
    if u == v {
        return Some(GraphFault::Loop {
            edge: number,
            end: u,
        });
    }
    None
}

#[cfg(test)]
mod tests;
