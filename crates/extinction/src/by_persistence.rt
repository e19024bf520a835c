ghost use Rattle.std.specs.Prelude.{◌≡◌, ◌↔◌, ℕ, ◌<◌, ◌≤◌, length, IfOk};
ghost use Rattle.edge_laws.specs.Rank.{ranked};
ghost use Rattle.tree_laws.specs.Tree.{graph_tree};
ghost use Rattle.tree_laws.specs.Levels.{AltitudesRise, Shares};
ghost use Rattle.partition_tree.specs.Ranked.{IsRankedEdge};
ghost use Rattle.attributes.specs.Attributes.{attributes_of};
ghost use Rattle.watershed_cut.specs.MinimumLabels.{minima_of};
ghost use Rattle.watershed_cut.specs.Watershed.{tree_label};
ghost use Rattle.extinction.specs.HierarchicalWatershed.{hierarchical_of};
ghost use Rattle.extinction.specs.PersistenceOrder.{AreSorted, ranked_of, IsListOf};

use crate::persist::persistence;
use attributes::Attributes;
use hg_base::{Graph, Kind, OutOfMemory};
use partition_tree::{Ranked, Tree};
use std::alloc::{AllocError, Global};
use watershed_cut::Minima;

/// The hierarchical watershed of a graph, of which tree, attributes and minima are its own (Perret and others, Higra,
/// 2019): the tree of its joining edges by the persistence of the nodes that they make, ties by rank. A node's altitude
/// is its persistence, and its maker the number of its edge. Two vertices share a node of altitude 0 exactly where the
/// watershed cut gives them one label. The error is want of memory.
pub fn hierarchical(
    alloc: Global,
    graph: &Graph,
    tree: &Tree,
    attributes: &Attributes,
    minima: &Minima,
    kind: Kind,
) -> Result<Tree, OutOfMemory>
    requires tree { tree.now ≡ graph_tree graph.now }
    requires attributes { attributes.now ≡ attributes_of graph.now }
    requires minima { minima.now ≡ minima_of graph.now }
    ensures hierarchy { IfOk result (λ hierarchy. hierarchy ≡ hierarchical_of graph.now kind) }
    ensures rises { IfOk result (λ hierarchy. AltitudesRise hierarchy) }
    ensures watershed { IfOk result (λ hierarchy. (x y : ℕ) → x < graph.now.n → y < graph.now.n →
        (Shares hierarchy 0 x y ↔ (tree_label graph.now.n (ranked graph.now) x ≡ tree_label graph.now.n (ranked graph.now) y))) }
{
    // That the graph keeps to what every graph does.
    let n = graph.n();
    let persistences = persistence(alloc, tree, attributes, minima, kind)?;
    let list = list_by(alloc, graph, tree, &persistences)?;
    Tree::of_list(alloc, n, &list)
}

// The joining edges by persistence, ties by rank.
fn list_by(
    alloc: Global,
    graph: &Graph,
    tree: &Tree,
    persistences: &[u64],
) -> Result<Vec<Ranked>, OutOfMemory>
    requires tree { tree.now ≡ graph_tree graph.now }
    requires one_each { length persistences.now ≡ length tree.now.makers }
    ensures { IfOk result (λ list. IsListOf graph.now persistences.now list.items) }
{
    listed(alloc, graph, tree, persistences).map_err(|_| OutOfMemory)
}

fn listed(
    alloc: Global,
    graph: &Graph,
    tree: &Tree,
    persistences: &[u64],
) -> Result<Vec<Ranked>, AllocError>
    requires tree { tree.now ≡ graph_tree graph.now }
    requires one_each { length persistences.now ≡ length tree.now.makers }
    ensures { IfOk result (λ list. IsListOf graph.now persistences.now list.items) }
{
    let keys = sorted_keys(alloc, tree, persistences)?;
    edges_by_keys(alloc, graph, tree, persistences, &keys)
}

// The edges that made the inner nodes at the places of the keys.
fn edges_by_keys(
    alloc: Global,
    graph: &Graph,
    tree: &Tree,
    persistences: &[u64],
    keys: &[(u64, u32)],
) -> Result<Vec<Ranked>, AllocError>
    requires tree { tree.now ≡ graph_tree graph.now }
    requires one_each { length persistences.now ≡ length tree.now.makers }
    requires keys { AreSorted persistences.now keys.now }
    ensures { IfOk result (λ list. IsListOf graph.now persistences.now list.items) }
{
    graph.keeps_its_rules();
    tree.keeps_its_rules();
    let mut list = Vec::with_capacity(alloc, keys.len())?;
    for k in 0..keys.len() {
        let (_, place) = keys[k];
        list.push(ranked(graph, tree, persistences, place))?;
    }
    Ok(list)
}

// The edge that made the inner node of this place, with its persistence as altitude.
fn ranked(graph: &Graph, tree: &Tree, persistences: &[u64], place: u32) -> Ranked
    requires tree { tree.now ≡ graph_tree graph.now }
    requires one_each { length persistences.now ≡ length tree.now.makers }
    requires within { place < length persistences.now }
    ensures edge { result ≡ ranked_of graph.now persistences.now place }
    ensures ends { IsRankedEdge graph.now.n result }
{
    tree.keeps_its_rules();
    let maker = tree.maker(tree.leaves() + place);
    let edge = graph.edge(maker);
    Ranked {
        u: edge.u,
        v: edge.v,
        edge: maker,
        altitude: persistences[place as usize],
    }
}

// Each persistence and its place, in rising order.
fn sorted_keys(
    alloc: Global,
    tree: &Tree,
    persistences: &[u64],
) -> Result<Vec<(u64, u32)>, AllocError>
    requires { length persistences.now ≡ length tree.now.makers }
    ensures { IfOk result (λ keys. AreSorted persistences.now keys.items) }
{
    tree.keeps_its_rules();
    let mut keys = Vec::with_capacity(alloc, persistences.len())?;
    for (place, persistence) in persistences.iter().enumerate() {
        keys.push((*persistence, place as u32))?;
    }
    keys.sort_unstable();
    Ok(keys)
}
