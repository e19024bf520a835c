// The summary of a graph.
ghost use Rattle.std.specs.Prelude.{◌≡◌, IfOk, max};
ghost use Rattle.edge_order.specs.Order.{order_of};
ghost use Rattle.graph_hierarchy.specs.Hierarchies.{IsTreeOf};
ghost use Rattle.higra_report.specs.Summary.{greatest, summary_of, summary_report};

use super::findings::find_numbers;
use edge_order::Order;
use hg_base::{Graph, OutOfMemory, push_headed_line};
use partition_tree::Tree;
use report_lines::Pieces;
use std::alloc::{AllocError, Global};
use std::thread::Threads;

/// Counts and sums of what the other reports write one by one.
#[derive(Clone, Copy)]
pub(crate) struct Summary {
    pub vertices: u64,
    pub edges: u64,
    /// How many nodes the tree has.
    pub nodes: u64,
    /// How many nodes its zones have.
    pub zones: u64,
    /// The greatest altitude.
    pub root: u64,
    /// The sum of the saliencies.
    pub saliency: u64,
    /// How many minima there are.
    pub minima: u64,
    /// How many edges the forest has.
    pub forest: u64,
    /// The sum of the weights of the forest's edges.
    pub weight: u64,
    /// How many edges the cut has.
    pub cut: u64,
}

/// The summary of a graph, whose order and tree these are. The error is want of memory.
pub(crate) fn summary_of(
    rt: &(impl Threads + Sync),
    alloc: Global,
    graph: &Graph,
    order: &Order,
    tree: &Tree,
) -> Result<Summary, OutOfMemory>
    requires order { order.now ≡ order_of graph.now }
    requires tree { IsTreeOf graph.now tree.now }
    ensures { IfOk result (λ summary. summary ≡ summary_of graph.now) }
{
    let found = find_numbers(rt, alloc, graph, order, tree)?;
    Ok(Summary {
        vertices: u64::from(graph.n()),
        edges: u64::from(graph.m()),
        nodes: u64::from(tree.nodes()),
        zones: found.zones,
        root: greatest_altitude(tree),
        saliency: found.saliency,
        minima: found.cut.minima,
        forest: found.cut.forest,
        weight: found.cut.weight,
        cut: found.cut.cut,
    })
}

// The greatest altitude of a tree.
fn greatest_altitude(tree: &Tree) -> u64
    ensures { result ≡ greatest tree.now.altitudes }
{
    let mut greatest = 0;
    for i in 0..tree.nodes() {
        greatest = greater(greatest, tree.altitude(i));
    }
    greatest
}

// The greater of two numbers.
fn greater(first: u64, second: u64) -> u64
    ensures { result ≡ max first second }
{
    if first < second { second } else { first }
}

/// The text of a summary, in one piece: a line for each number, with its word. The error is want of memory.
pub(crate) fn summary_pieces(alloc: Global, summary: &Summary) -> Result<Pieces, OutOfMemory>
    ensures { IfOk result (λ pieces. pieces ≡ summary_report summary.now) }
{
    one_piece(alloc, summary).map_err(|_| OutOfMemory)
}

fn one_piece(alloc: Global, summary: &Summary) -> Result<Pieces, AllocError>
    ensures { IfOk result (λ pieces. pieces ≡ summary_report summary.now) }
{
    Pieces::of(alloc, summary_text(alloc, summary)?)
}

fn summary_text(alloc: Global, summary: &Summary) -> Result<Vec<u8>, AllocError>
    ensures { IfOk result (λ text. text.items ≡ summary_report summary.now) }
{
    let mut text = Vec::new(alloc);
    push_headed_line(&mut text, "vertices", &[summary.vertices])?;
    push_headed_line(&mut text, "edges", &[summary.edges])?;
    push_headed_line(&mut text, "nodes", &[summary.nodes])?;
    push_headed_line(&mut text, "zones", &[summary.zones])?;
    push_headed_line(&mut text, "root", &[summary.root])?;
    push_headed_line(&mut text, "saliency", &[summary.saliency])?;
    push_headed_line(&mut text, "minima", &[summary.minima])?;
    push_headed_line(&mut text, "forest", &[summary.forest])?;
    push_headed_line(&mut text, "weight", &[summary.weight])?;
    push_headed_line(&mut text, "cut", &[summary.cut])?;
    Ok(text)
}
