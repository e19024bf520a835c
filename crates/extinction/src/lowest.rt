ghost use Rattle.std.specs.Prelude.{◌≡◌, ◌<◌, ◌≤◌, length, IfOk};
ghost use Rattle.partition_tree.specs.TreeLists.{nodes};
ghost use Rattle.extinction.specs.Values.{AreOfMinima};
ghost use Rattle.extinction.specs.NodeSurvivors.{node_label, AreLowest, AreOwnLabels};

use partition_tree::Tree;
use std::alloc::{AllocError, Global};
use watershed_cut::Minima;

/// For each node the label of the minimum that it holds and no node below it does, or 0.
pub(crate) fn own_labels(
    alloc: Global,
    tree: &Tree,
    minima: &Minima,
) -> Result<Vec<u32>, AllocError>
    requires { AreOfMinima tree.now minima.now }
    ensures { IfOk result (λ own. AreOwnLabels tree.now minima.now own.items) }
{
    let lowest = lowest_nodes(alloc, tree, minima)?;
    let mut own = vec![in alloc; 0; tree.nodes() as usize]?;
    for label in 0..minima.count() {
        own[lowest[label as usize] as usize] = label + 1;
    }
    Ok(own)
}

// For each label the last node that an edge of its minimum made, or its vertex where it has no edge.
fn lowest_nodes(alloc: Global, tree: &Tree, minima: &Minima) -> Result<Vec<u32>, AllocError>
    requires { AreOfMinima tree.now minima.now }
    ensures { IfOk result (λ lowest. AreLowest tree.now minima.now lowest.items) }
{
    let mut lowest = vec![in alloc; 0; minima.count() as usize]?;
    for i in 0..tree.nodes() {
        let label = node_label(tree, minima, i);
        if label != 0 {
            lowest[label as usize - 1] = i;
        }
    }
    Ok(lowest)
}

// The label of a leaf, and that of the edge that made another node.
fn node_label(tree: &Tree, minima: &Minima, i: u32) -> u32
    requires within { i < nodes tree.now }
    requires minima { AreOfMinima tree.now minima.now }
    ensures label { result ≡ node_label tree.now minima.now i }
    ensures few { result ≤ minima.now.count }
{
    if i < tree.leaves() {
        minima.label_of_vertex(i)
    } else {
        minima.label_of_edge(tree.maker(i))
    }
}
