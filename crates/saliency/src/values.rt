ghost use Rattle.std.specs.Prelude.{◌≡◌, ◌<◌, length, IfOk};
ghost use Rattle.hg_base.specs.Graph.{first_end, second_end};
ghost use Rattle.tree_laws.specs.Tree.{graph_tree};
ghost use Rattle.edge_laws.specs.Saliencies.{saliency, saliencies};
ghost use Rattle.saliency.specs.EdgeSaliency.{CanValue, IsValue};
ghost use Rattle.saliency.specs.Values.{IsLowestAltitude, EndsShareRoots, AreLowestAltitudes, AreSaliencies};

use hg_base::{Graph, OutOfMemory};
use partition_tree::{Ancestors, Tree};
use rayon::prelude::*;
use std::alloc::{AllocError, Global};
use std::thread::Threads;

/// The saliency of each edge for a tree, by edge number: the altitude of the lowest common ancestor of its ends
/// (Perret and others, Higra, 2019). The leaves of the tree are the vertices, and the ends of each edge must have one
/// root. For the graph's own tree it is the least number k such that the edges of weight at most k join the ends.
pub fn saliency(alloc: Global, graph: &Graph, tree: &Tree) -> Result<Vec<u64>, OutOfMemory>
    requires leaves { tree.now.leaves ≡ graph.now.n }
    requires roots { EndsShareRoots graph.now tree.now }
    ensures lowest { IfOk result (λ values. AreLowestAltitudes graph.now tree.now values.items) }
    ensures least { tree.now ≡ graph_tree graph.now → IfOk result (λ values. AreSaliencies graph.now values.items) }
    ensures saliencies { tree.now ≡ graph_tree graph.now → IfOk result (λ values. values.items ≡ saliencies graph.now) }
{
    let ancestors = Ancestors::of(alloc, tree)?;
    values(alloc, graph, tree, &ancestors).map_err(|_| OutOfMemory)
}

/// The same values, found in as many threads as can be had.
pub fn saliency_in_threads(
    rt: &(impl Threads + Sync),
    alloc: Global,
    graph: &Graph,
    tree: &Tree,
) -> Result<Vec<u64>, OutOfMemory>
    requires leaves { tree.now.leaves ≡ graph.now.n }
    requires roots { EndsShareRoots graph.now tree.now }
    ensures lowest { IfOk result (λ values. AreLowestAltitudes graph.now tree.now values.items) }
    ensures least { tree.now ≡ graph_tree graph.now → IfOk result (λ values. AreSaliencies graph.now values.items) }
    ensures saliencies { tree.now ≡ graph_tree graph.now → IfOk result (λ values. values.items ≡ saliencies graph.now) }
{
    let ancestors = Ancestors::of(alloc, tree)?;
    values_in_threads(rt, alloc, graph, tree, &ancestors).map_err(|_| OutOfMemory)
}

fn values(
    alloc: Global,
    graph: &Graph,
    tree: &Tree,
    ancestors: &Ancestors,
) -> Result<Vec<u64>, AllocError>
    requires ancestors { ancestors.now ≡ tree.now }
    requires leaves { tree.now.leaves ≡ graph.now.n }
    requires roots { EndsShareRoots graph.now tree.now }
    ensures lowest { IfOk result (λ values. AreLowestAltitudes graph.now tree.now values.items) }
    ensures least { tree.now ≡ graph_tree graph.now → IfOk result (λ values. AreSaliencies graph.now values.items) }
    ensures saliencies { tree.now ≡ graph_tree graph.now → IfOk result (λ values. values.items ≡ saliencies graph.now) }
{
    let mut values = Vec::with_capacity(alloc, graph.m() as usize)?;
    for e in 0..graph.m() {
        values.push(value(graph, tree, ancestors, e))?;
    }
    Ok(values)
}

fn values_in_threads(
    rt: &(impl Threads + Sync),
    alloc: Global,
    graph: &Graph,
    tree: &Tree,
    ancestors: &Ancestors,
) -> Result<Vec<u64>, AllocError>
    requires ancestors { ancestors.now ≡ tree.now }
    requires leaves { tree.now.leaves ≡ graph.now.n }
    requires roots { EndsShareRoots graph.now tree.now }
    ensures lowest { IfOk result (λ values. AreLowestAltitudes graph.now tree.now values.items) }
    ensures least { tree.now ≡ graph_tree graph.now → IfOk result (λ values. AreSaliencies graph.now values.items) }
    ensures saliencies { tree.now ≡ graph_tree graph.now → IfOk result (λ values. values.items ≡ saliencies graph.now) }
{
    let mut values = vec![in alloc; 0; graph.m() as usize]?;
    fill(rt, graph, tree, ancestors, &mut values);
    Ok(values)
}

// Puts the saliency of each edge in its place.
fn fill(
    rt: &(impl Threads + Sync),
    graph: &Graph,
    tree: &Tree,
    ancestors: &Ancestors,
    values: &mut [u64],
)
    requires ancestors { ancestors.now ≡ tree.now }
    requires leaves { tree.now.leaves ≡ graph.now.n }
    requires roots { EndsShareRoots graph.now tree.now }
    requires all { length values.old ≡ length graph.now.edges }
    ensures lowest { AreLowestAltitudes graph.now tree.now values.new }
    ensures saliencies { tree.now ≡ graph_tree graph.now → values.new ≡ saliencies graph.now }
{
    graph.keeps_its_rules();
    par_for_each_mut(
        rt,
        values,
        |edge: usize, place: &mut u64|
            requires { CanValue graph.now tree.now ancestors.now edge }
            ensures { IsValue graph.entry.now tree.entry.now edge place.new }
        {
            *place = value(graph, tree, ancestors, edge as u32);
        },
    );
}

// The saliency of edge e.
fn value(graph: &Graph, tree: &Tree, ancestors: &Ancestors, e: u32) -> u64
    requires ancestors { ancestors.now ≡ tree.now }
    requires within { e < length graph.now.edges }
    requires leaves { tree.now.leaves ≡ graph.now.n }
    requires roots { EndsShareRoots graph.now tree.now }
    ensures lowest { IsLowestAltitude tree.now (first_end graph.now e) (second_end graph.now e) result }
    ensures saliency { tree.now ≡ graph_tree graph.now → result ≡ saliency graph.now e }
{
    let edge = graph.edge(e);
    let leaves = tree.leaves();
    prove!(edge.u < leaves && edge.v < leaves);
    let node = ancestors.lca(edge.u, edge.v).unwrap();
    tree.altitude(node)
}
