ghost use Rattle.std.specs.Prelude.{◌≡◌, ◌<◌, ◌≤◌, length, get_or, IfOk, IfSome, MatchOption, true, false};
ghost use Rattle.edge_laws.specs.Rank.{ranked};
ghost use Rattle.tree_laws.specs.Tree.{graph_tree};
ghost use Rattle.partition_tree.specs.Ranked.{IsRankedEdge};
ghost use Rattle.watershed_cut.specs.Watershed.{tree_labelling};
ghost use Rattle.extinction.specs.HierarchicalWatershed.{persistence_edges};
ghost use Rattle.extinction.specs.Basins.{AreGrounded, basin, basin_edge, is_between, IsBasinList, IsBasinTree};
ghost use Rattle.extinction.specs.Persistence.{persistences_of};

use hg_base::{Graph, Kind, Labels, OutOfMemory};
use partition_tree::{Ranked, Tree};
use std::alloc::{AllocError, Global};

/// The tree of the edges between the basins of a graph's watershed cut, by persistence. These are the graph's tree, the
/// labels of its watershed cut, and the persistences of its tree's inner nodes.
pub(crate) fn basin_tree(
    alloc: Global,
    graph: &Graph,
    tree: &Tree,
    labels: &Labels,
    persistences: &[u64],
    kind: Kind,
) -> Result<Tree, OutOfMemory>
    requires tree { tree.now ≡ graph_tree graph.now }
    requires labels { labels.now ≡ tree_labelling graph.now }
    requires persistences { persistences.now ≡ persistences_of graph.now kind }
    ensures { IfOk result (λ basins. IsBasinTree graph.now kind labels.now basins) }
{
    let _ = kind;
    graph.keeps_its_rules();
    let list = basin_list(alloc, graph, tree, labels, persistences)?;
    Tree::of_list(alloc, labels.count(), &list)
}

// The edges between basins, by persistence.
fn basin_list(
    alloc: Global,
    graph: &Graph,
    tree: &Tree,
    labels: &Labels,
    persistences: &[u64],
) -> Result<Vec<Ranked>, OutOfMemory>
    requires tree { tree.now ≡ graph_tree graph.now }
    requires labels { length labels.now.labels ≡ graph.now.n }
    requires some_basin { 1 ≤ labels.now.count }
    requires basins { labels.now.count ≤ 1048576 }
    requires one_each { length persistences.now ≡ length tree.now.makers }
    requires inside { AreGrounded graph.now.n (basin labels.now) (persistence_edges (ranked graph.now) persistences.now) }
    ensures { IfOk result (λ list. IsBasinList graph.now labels.now persistences.now list.items) }
{
    edges_between(alloc, graph, tree, labels, persistences).map_err(|_| OutOfMemory)
}

fn edges_between(
    alloc: Global,
    graph: &Graph,
    tree: &Tree,
    labels: &Labels,
    persistences: &[u64],
) -> Result<Vec<Ranked>, AllocError>
    requires tree { tree.now ≡ graph_tree graph.now }
    requires labels { length labels.now.labels ≡ graph.now.n }
    requires some_basin { 1 ≤ labels.now.count }
    requires basins { labels.now.count ≤ 1048576 }
    requires one_each { length persistences.now ≡ length tree.now.makers }
    requires inside { AreGrounded graph.now.n (basin labels.now) (persistence_edges (ranked graph.now) persistences.now) }
    ensures { IfOk result (λ list. IsBasinList graph.now labels.now persistences.now list.items) }
{
    graph.keeps_its_rules();
    tree.keeps_its_rules();
    let mut list = Vec::new(alloc);
    for place in 0..persistences.len() as u32 {
        if let Some(edge) = edge_between(graph, tree, labels, persistences, place) {
            list.push(edge)?;
        }
    }
    list.sort_unstable_by_key(|edge| edge.altitude);
    Ok(list)
}

// The edge that made the inner node of this place, if it leads from basin to basin.
fn edge_between(
    graph: &Graph,
    tree: &Tree,
    labels: &Labels,
    persistences: &[u64],
    place: u32,
) -> Option<Ranked>
    requires tree { tree.now ≡ graph_tree graph.now }
    requires labels { length labels.now.labels ≡ graph.now.n }
    requires one_each { length persistences.now ≡ length tree.now.makers }
    requires within { place < length persistences.now }
    ensures edge { MatchOption result (is_between graph.now labels.now persistences.now place ≡ false) (λ edge. (is_between graph.now labels.now persistences.now place ≡ true) × (edge ≡ basin_edge graph.now labels.now persistences.now place)) }
    ensures ends { IfSome result (IsRankedEdge labels.now.count) }
{
    if persistences[place as usize] == 0 {
        return None;
    }
    let edge = renamed(graph, tree, labels, persistences, place);
    if edge.u == edge.v { None } else { Some(edge) }
}

// The edge that made the inner node of this place, from basin to basin, with its persistence as altitude.
fn renamed(graph: &Graph, tree: &Tree, labels: &Labels, persistences: &[u64], place: u32) -> Ranked
    requires tree { tree.now ≡ graph_tree graph.now }
    requires labels { length labels.now.labels ≡ graph.now.n }
    requires one_each { length persistences.now ≡ length tree.now.makers }
    requires within { place < length persistences.now }
    ensures edge { result ≡ basin_edge graph.now labels.now persistences.now place }
    ensures first { result.u < labels.now.count }
    ensures second { result.v < labels.now.count }
{
    tree.keeps_its_rules();
    let maker = tree.maker(tree.leaves() + place);
    let edge = graph.edge(maker);
    Ranked {
        u: basin_of(labels, edge.u),
        v: basin_of(labels, edge.v),
        edge: maker,
        altitude: persistences[place as usize],
    }
}

/// The basin of vertex x: its label less 1.
pub(crate) fn basin_of(labels: &Labels, x: u32) -> u32
    requires { x < length labels.now.labels }
    ensures basin { result ≡ basin labels.now x }
    ensures within { result < labels.now.count }
{
    labels.label(x) - 1
}
