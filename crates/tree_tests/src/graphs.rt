// Small graphs: edges in order of number, two ends and a weight each, and edges in order of rank.
ghost use Rattle.std.specs.Prelude.{◌≡◌, All, length, map, IfOk};
ghost use Rattle.hg_base.specs.Graph.{JoinsTwo, with_unit_areas};
ghost use Rattle.tree_laws.specs.Worked.{edge};
ghost use Rattle.tree_tests.specs.Graphs.{graph_from};

use hg_base::{Edge, Graph};
use partition_tree::Ranked;
use std::alloc::{AllocError, Global};
use std::process::Abort;

// A path of four vertices: two ends and a weight for each edge, in order of number.
pub(crate) const PATH_ROWS: [(u32, u32, u32); 3] = [(0, 1, 1), (1, 2, 5), (2, 3, 2)];

// Its edges in order of rank.
pub(crate) const PATH: [Ranked; 3] = [
    Ranked {
        u: 0,
        v: 1,
        edge: 0,
        altitude: 1,
    },
    Ranked {
        u: 2,
        v: 3,
        edge: 2,
        altitude: 2,
    },
    Ranked {
        u: 1,
        v: 2,
        edge: 1,
        altitude: 5,
    },
];

// One edge, beside a vertex that has none.
pub(crate) const APART_ROWS: [(u32, u32, u32); 1] = [(0, 1, 4)];

// The same in order of rank.
pub(crate) const APART: [Ranked; 1] = [Ranked {
    u: 0,
    v: 1,
    edge: 0,
    altitude: 4,
}];

// Three vertices of which each is joined to the others, by edges of one weight, in order of rank.
pub(crate) const TRIANGLE: [Ranked; 3] = [
    Ranked {
        u: 0,
        v: 1,
        edge: 0,
        altitude: 1,
    },
    Ranked {
        u: 1,
        v: 2,
        edge: 1,
        altitude: 1,
    },
    Ranked {
        u: 0,
        v: 2,
        edge: 2,
        altitude: 1,
    },
];

// The edges with these ends and weights, which join two of n vertices each.
fn edges_of(
    rt: &impl Abort,
    alloc: Global,
    n: u32,
    rows: &[(u32, u32, u32)],
) -> Result<Vec<Edge>, AllocError>
    ensures made { IfOk result (λ edges. edges.items ≡ map edge rows.now) }
    ensures ends { IfOk result (λ edges. All (JoinsTwo n) edges.items) }
{
    let mut edges = Vec::new(alloc);
    for &(u, v, w) in rows {
        assert!(rt; u < n && v < n && u != v);
        edges.push(Edge { u, v, w })?;
    }
    Ok(edges)
}

// The graph of n vertices with these edges, two ends and a weight each, in which each vertex has the area 1.
pub(crate) fn graph_of(
    rt: &impl Abort,
    alloc: Global,
    n: u32,
    rows: &[(u32, u32, u32)],
) -> Result<Graph, AllocError>
    ensures { IfOk result (λ graph. graph ≡ with_unit_areas n (map edge rows.now)) }
{
    let edges = edges_of(rt, alloc, n, rows)?;
    Ok(Graph::from_edges(n, edges).expect(rt, "the edges of a graph"))
}

// The graph with these areas, one for each vertex, and these edges.
pub(crate) fn graph_with(
    rt: &impl Abort,
    alloc: Global,
    areas: &[u32],
    rows: &[(u32, u32, u32)],
) -> Result<Graph, AllocError>
    ensures { IfOk result (λ graph. graph ≡ graph_from (length areas.now) areas.now rows.now) }
{
    assert!(rt; 1 <= areas.len() && areas.len() <= 1_048_576);
    assert!(rt; areas.iter().all(|area| 1 <= *area && *area <= 4096));
    assert!(rt; rows.len() <= 4_194_304);
    let n = areas.len() as u32;
    let edges = edges_of(rt, alloc, n, rows)?;
    Ok(Graph::with_areas(n, Vec::from_slice(alloc, areas)?, edges))
}
