// The numbers of a summary that take long to find.
ghost use Rattle.std.specs.Prelude.{◌≡◌, ◌<◌, ◌≤◌, IfOk, get_or, length, sum};
ghost use Rattle.std.specs.Thread.{IsSync};
ghost use Rattle.edge_order.specs.Order.{order_of};
ghost use Rattle.edge_laws.specs.Saliencies.{saliencies};
ghost use Rattle.graph_hierarchy.specs.Hierarchies.{IsTreeOf};
ghost use Rattle.partition_tree.specs.TreeLists.{nodes};
ghost use Rattle.tree_laws.specs.Tree.{graph_tree};
ghost use Rattle.tree_laws.specs.Zones.{zones_of};
ghost use Rattle.higra_report.specs.Findings.{cut_numbers_of, findings_of};

use super::sides::{is_large, saliencies_of};
use edge_order::Order;
use forest_witness::witness;
use hg_base::{Graph, OutOfMemory};
use partition_tree::Tree;
use quasi_flat_zones::zones;
use std::alloc::Global;
use std::thread::{Threads, join};
use watershed_cut::{Minima, watershed};

/// Numbers of the zones, the saliencies and the watershed cut of a graph.
#[derive(Clone, Copy)]
pub(crate) struct Findings {
    /// How many nodes the zones have.
    pub zones: u64,
    /// The sum of the saliencies.
    pub saliency: u64,
    pub cut: CutNumbers,
}

/// Numbers of the watershed cut of a graph.
#[derive(Clone, Copy)]
pub(crate) struct CutNumbers {
    /// How many minima there are.
    pub minima: u64,
    /// How many edges the forest has.
    pub forest: u64,
    /// The sum of the weights of the forest's edges.
    pub weight: u64,
    /// How many edges the cut has.
    pub cut: u64,
}

/// The findings about a graph, whose order and tree these are, made side by side where it is large. The error is want of
/// memory.
pub(crate) fn find_numbers(
    rt: &(impl Threads + Sync),
    alloc: Global,
    graph: &Graph,
    order: &Order,
    tree: &Tree,
) -> Result<Findings, OutOfMemory>
    requires order { order.now ≡ order_of graph.now }
    requires tree { IsTreeOf graph.now tree.now }
    ensures { IfOk result (λ found. found ≡ findings_of graph.now) }
{
    if is_large(graph) {
        return side_by_side(rt, alloc, graph, order, tree);
    }
    Ok(Findings {
        zones: zone_count(alloc, graph, tree)?,
        saliency: saliency_sum(rt, alloc, graph, tree)?,
        cut: cut_numbers(alloc, graph, order, tree)?,
    })
}

// The findings about a graph, each made beside the others.
fn side_by_side<R: Threads + Sync>(
    rt: &R,
    alloc: Global,
    graph: &Graph,
    order: &Order,
    tree: &Tree,
) -> Result<Findings, OutOfMemory>
    requires order { order.now ≡ order_of graph.now }
    requires tree { IsTreeOf graph.now tree.now }
    ensures { IfOk result (λ found. found ≡ findings_of graph.now) }
{
    let zones = || -> Result<u64, OutOfMemory>
        requires { IsTreeOf graph.now tree.now }
        ensures { IfOk result (λ zones. zones ≡ nodes (zones_of (graph_tree graph.entry.now))) }
    { zone_count(alloc, graph, tree) };
    let others = || -> (Result<u64, OutOfMemory>, Result<CutNumbers, OutOfMemory>)
        requires { IsSync R.row × (order.now ≡ order_of graph.now) × IsTreeOf graph.now tree.now }
        ensures { IfOk result.0 (λ saliency. saliency ≡ sum (saliencies graph.entry.now)) × IfOk result.1 (λ cut. cut ≡ cut_numbers_of graph.entry.now) }
    { saliency_beside_cut(rt, alloc, graph, order, tree) };
    let (zones, (saliency, cut)) = join(rt, zones, others);
    Ok(Findings {
        zones: zones?,
        saliency: saliency?,
        cut: cut?,
    })
}

// The sum of the saliencies of a graph, and beside it the numbers of its watershed cut.
fn saliency_beside_cut<R: Threads + Sync>(
    rt: &R,
    alloc: Global,
    graph: &Graph,
    order: &Order,
    tree: &Tree,
) -> (Result<u64, OutOfMemory>, Result<CutNumbers, OutOfMemory>)
    requires order { order.now ≡ order_of graph.now }
    requires tree { IsTreeOf graph.now tree.now }
    ensures saliency { IfOk result.0 (λ saliency. saliency ≡ sum (saliencies graph.now)) }
    ensures cut { IfOk result.1 (λ cut. cut ≡ cut_numbers_of graph.now) }
{
    let saliency = || -> Result<u64, OutOfMemory>
        requires { IsSync R.row × IsTreeOf graph.now tree.now }
        ensures { IfOk result (λ saliency. saliency ≡ sum (saliencies graph.entry.now)) }
    { saliency_sum(rt, alloc, graph, tree) };
    let cut = || -> Result<CutNumbers, OutOfMemory>
        requires { (order.now ≡ order_of graph.now) × IsTreeOf graph.now tree.now }
        ensures { IfOk result (λ cut. cut ≡ cut_numbers_of graph.entry.now) }
    { cut_numbers(alloc, graph, order, tree) };
    join(rt, saliency, cut)
}

// How many nodes the zones of a graph's tree have.
#[tactic(auto, using(crate::proofs::CutLemmas::zones_are))]
fn zone_count(alloc: Global, graph: &Graph, tree: &Tree) -> Result<u64, OutOfMemory>
    requires { IsTreeOf graph.now tree.now }
    ensures { IfOk result (λ zones. zones ≡ nodes (zones_of (graph_tree graph.now))) }
{
    let _ = graph;
    let zones = zones(alloc, tree)?;
    Ok(u64::from(zones.nodes()))
}

// The numbers of the watershed cut of a graph.
fn cut_numbers(
    alloc: Global,
    graph: &Graph,
    order: &Order,
    tree: &Tree,
) -> Result<CutNumbers, OutOfMemory>
    requires order { order.now ≡ order_of graph.now }
    requires tree { IsTreeOf graph.now tree.now }
    ensures { IfOk result (λ cut. cut ≡ cut_numbers_of graph.now) }
{
    let minima = Minima::of(alloc, graph, order, tree)?;
    let watershed = watershed(alloc, graph, order, tree, &minima)?;
    Ok(CutNumbers {
        minima: u64::from(minima.count()),
        forest: watershed.forest().len() as u64,
        weight: witness(graph, &minima, &watershed),
        cut: watershed.cut().len() as u64,
    })
}

// The sum of the saliencies of a graph, of which the tree is its own.
fn saliency_sum(
    rt: &(impl Threads + Sync),
    alloc: Global,
    graph: &Graph,
    tree: &Tree,
) -> Result<u64, OutOfMemory>
    requires { IsTreeOf graph.now tree.now }
    ensures { IfOk result (λ saliency. saliency ≡ sum (saliencies graph.now)) }
{
    let values = saliencies_of(rt, alloc, graph, tree)?;
    Ok(total(graph, &values))
}

// The sum of the saliencies of a graph, which these are.
#[tactic(auto, using(crate::proofs::SummaryLemmas::total_more))]
fn total(graph: &Graph, values: &[u64]) -> u64
    requires { values.now ≡ saliencies graph.now }
    ensures { result ≡ sum values.now }
{
    let mut total = 0;
    for e in 0..graph.m() {
        total += saliency_of(graph, values, e);
    }
    total
}

// The saliency of edge e, which is no greater than its weight.
#[tactic(auto, using(crate::proofs::SummaryLemmas::values_length))]
fn saliency_of(graph: &Graph, values: &[u64], e: u32) -> u64
    requires within { e < length graph.now.edges }
    requires values { values.now ≡ saliencies graph.now }
    ensures value { result ≡ get_or values.now e 0 }
    ensures small { result ≤ 4294967295 }
{
    let weight = u64::from(graph.edge(e).w);
    let value = values[e as usize];
    prove!(value <= weight);
    value
}
