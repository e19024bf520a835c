ghost use Rattle.std.specs.Prelude.{◌≡◌, ◌==◌, ℕ, ◌<◌, ◌≤◌, not, IfOk, length, false, get_or, filter};
ghost use Rattle.std.specs.List.{range_with_len};
ghost use Rattle.hg_base.specs.Graph.{first_end, second_end};
ghost use Rattle.tree_laws.specs.Tree.{graph_tree};
ghost use Rattle.edge_order.specs.Order.{order_of};
ghost use Rattle.watershed_cut.specs.MinimumLabels.{minima_of};
ghost use Rattle.watershed_cut.specs.Plateaus.{HasTwoEnds};
ghost use Rattle.watershed_cut.specs.NearestHolders.{edges_cut_by};
ghost use Rattle.watershed_cut.specs.Watershed.{IsWatershed, tree_labelling, watershed_of};

use crate::cuts::Watershed;
use crate::forest::{chosen_edges, vertex_labels};
use crate::minima::Minima;
use crate::nearest::nearest_holders;
use edge_order::Order;
use hg_base::{Graph, Labels, OutOfMemory};
use partition_tree::Tree;
use std::alloc::{AllocError, Global};

/// The watershed cut of a graph, of which order, tree and minima are its own. The forest holds the joining edges outside
/// the minima of which at least one end is joined, by edges of lower rank, to no vertex of a minimum. It is rooted in the
/// minima and weighs no more than any forest that is rooted so, and the cut lies between its trees (Cousty and others,
/// Watershed Cuts, 2009). The error is want of memory.
#[tactic(auto, using(crate::proofs::PlantedTrees::watershed_made))]
pub fn watershed(
    alloc: Global,
    graph: &Graph,
    order: &Order,
    tree: &Tree,
    minima: &Minima,
) -> Result<Watershed, OutOfMemory>
    requires order { order.now ≡ order_of graph.now }
    requires tree { tree.now ≡ graph_tree graph.now }
    requires minima { minima.now ≡ minima_of graph.now }
    ensures watershed { IfOk result (λ watershed. watershed ≡ watershed_of graph.now) }
    ensures least { IfOk result (λ watershed. IsWatershed graph.now watershed) }
{
    let _ = order;
    graph.keeps_its_rules();
    by_tree(alloc, graph, tree, minima).map_err(|_| OutOfMemory)
}

/// The labels of a graph's watershed cut alone, without its forest and its cut edges. Tree and minima are the graph's own.
/// The error is want of memory.
pub fn watershed_labels(
    alloc: Global,
    graph: &Graph,
    tree: &Tree,
    minima: &Minima,
) -> Result<Labels, OutOfMemory>
    requires tree { tree.now ≡ graph_tree graph.now }
    requires minima { minima.now ≡ minima_of graph.now }
    ensures { IfOk result (λ labels. labels ≡ tree_labelling graph.now) }
{
    labels_by_tree(alloc, graph, tree, minima).map_err(|_| OutOfMemory)
}

fn labels_by_tree(
    alloc: Global,
    graph: &Graph,
    tree: &Tree,
    minima: &Minima,
) -> Result<Labels, AllocError>
    requires tree { tree.now ≡ graph_tree graph.now }
    requires minima { minima.now ≡ minima_of graph.now }
    ensures { IfOk result (λ labels. labels ≡ tree_labelling graph.now) }
{
    graph.keeps_its_rules();
    let near = nearest_holders(alloc, tree, minima)?;
    let labels = vertex_labels(alloc, graph, tree, minima, &near)?;
    Ok(Labels::new(labels, minima.count()))
}

fn by_tree(
    alloc: Global,
    graph: &Graph,
    tree: &Tree,
    minima: &Minima,
) -> Result<Watershed, AllocError>
    requires tree { tree.now ≡ graph_tree graph.now }
    requires minima { minima.now ≡ minima_of graph.now }
    ensures { IfOk result (λ watershed. watershed ≡ watershed_of graph.now) }
{
    graph.keeps_its_rules();
    let near = nearest_holders(alloc, tree, minima)?;
    let chosen = chosen_edges(alloc, graph, tree, minima, &near)?;
    let forest = numbers_of(alloc, &chosen)?;
    let labels = vertex_labels(alloc, graph, tree, minima, &near)?;
    let cut = cut_edges(alloc, graph, &labels)?;
    let labels = Labels::new(labels, minima.count());
    Ok(Watershed::new(labels, cut, forest))
}

// The numbers that are marked.
fn numbers_of(alloc: Global, marks: &[bool]) -> Result<Vec<u32>, AllocError>
    requires { length marks.now ≤ 4194304 }
    ensures { IfOk result (λ numbers. numbers.items ≡ filter (λ e. get_or marks.now e false) (range_with_len 0 (length marks.now))) }
{
    let mut numbers = Vec::new(alloc);
    for e in 0..marks.len() as u32 {
        if marks[e as usize] {
            numbers.push(e)?;
        }
    }
    Ok(numbers)
}

// The edges whose ends have different labels.
fn cut_edges(alloc: Global, graph: &Graph, labels: &[u32]) -> Result<Vec<u32>, AllocError>
    requires { length labels.now ≡ graph.now.n }
    ensures ends { IfOk result (λ cut. (e : ℕ) → e < length graph.now.edges → HasTwoEnds graph.now e) }
    ensures cut { IfOk result (λ cut. cut.items ≡ edges_cut_by graph.now labels.now) }
{
    let mut cut = Vec::new(alloc);
    for e in 0..graph.m() {
        if is_cut_edge(graph, labels, e) {
            cut.push(e)?;
        }
    }
    Ok(cut)
}

// Whether the ends of edge e have different labels.
fn is_cut_edge(graph: &Graph, labels: &[u32], e: u32) -> bool
    requires within { e < length graph.now.edges }
    requires labels { length labels.now ≡ graph.now.n }
    ensures ends { HasTwoEnds graph.now e }
    ensures cut { result ≡ not (get_or labels.now (first_end graph.now e) 0 == get_or labels.now (second_end graph.now e) 0) }
{
    let edge = graph.edge(e);
    labels[edge.u as usize] != labels[edge.v as usize]
}
