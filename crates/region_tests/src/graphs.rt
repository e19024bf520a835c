// Graphs that the tests share.
use hg_base::{Edge, Graph};
use std::alloc::{AllocError, Global};
use std::process::Abort;

// The graph of n vertices with edges of these ends and weights.
pub(crate) fn graph_of(
    rt: &impl Abort,
    alloc: Global,
    n: u32,
    rows: &[(u32, u32, u32)],
) -> Result<Graph, AllocError> {
    let mut edges = Vec::new(alloc);
    for &(u, v, w) in rows {
        edges.push(Edge { u, v, w })?;
    }
    Ok(Graph::from_edges(n, edges).expect(rt, "the edges of a graph"))
}
