// What is found in several threads where a graph has many edges.
ghost use Rattle.std.specs.Prelude.{◌≡◌, IfOk};
ghost use Rattle.attributes.specs.Attributes.{attributes_of};
ghost use Rattle.edge_laws.specs.Saliencies.{saliencies};
ghost use Rattle.graph_hierarchy.specs.Hierarchies.{IsTreeOf};
ghost use Rattle.tree_laws.specs.Tree.{graph_tree};

use attributes::Attributes;
use hg_base::{Graph, OutOfMemory};
use partition_tree::Tree;
use saliency::{saliency, saliency_in_threads};
use std::alloc::Global;
use std::thread::Threads;

// A graph of fewer edges is worked on in one thread: others would take longer to start than to do their share.
const FEW: u32 = 16_384;

/// Whether a graph has so many edges that threads are started for it.
pub(crate) fn is_large(graph: &Graph) -> bool {
    FEW <= graph.m()
}

/// The saliencies of a graph, of which the tree is its own, in threads where it is large. The error is want of memory.
#[tactic(auto, using(crate::proofs::SharedRoots::shared_roots))]
pub(crate) fn saliencies_of(
    rt: &(impl Threads + Sync),
    alloc: Global,
    graph: &Graph,
    tree: &Tree,
) -> Result<Vec<u64>, OutOfMemory>
    requires { IsTreeOf graph.now tree.now }
    ensures { IfOk result (λ values. values.items ≡ saliencies graph.now) }
{
    if is_large(graph) {
        saliency_in_threads(rt, alloc, graph, tree)
    } else {
        saliency(alloc, graph, tree)
    }
}

/// The attributes of the nodes of a graph's own tree, found in threads where the graph is large. The error is want of
/// memory.
pub(crate) fn attributes_of(
    rt: &(impl Threads + Sync),
    alloc: Global,
    graph: &Graph,
    tree: &Tree,
) -> Result<Attributes, OutOfMemory>
    requires { tree.now ≡ graph_tree graph.now }
    ensures { IfOk result (λ attributes. attributes ≡ attributes_of graph.now) }
{
    if is_large(graph) {
        Attributes::of_in_threads(rt, alloc, graph, tree)
    } else {
        Attributes::of(alloc, graph, tree)
    }
}
