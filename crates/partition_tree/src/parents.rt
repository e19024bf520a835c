// The parents of all nodes, found in one thread or in several.
ghost use Rattle.std.specs.Prelude.{◌≡◌, ◌+◌, ◌<◌, ◌++◌, map, vec_len, length, IfOk, OnOk};
ghost use Rattle.std.specs.List.{range_with_len};
ghost use Rattle.node_region.specs.Pool.{count};
ghost use Rattle.partition_tree.specs.CellNodes.{AreCellNodes, inner_parent, leaf_parent, node_parents};

use crate::cell_nodes::{CellNodes, node_or};
use crate::edges::Edges;
use border_climb::Part;
use rayon::prelude::*;
use std::alloc::{AllocError, Global};
use std::thread::Threads;

/// The parents of the leaves, and behind them those of the inner nodes.
pub(crate) fn parents<E: Edges>(
    alloc: Global,
    edges: &E,
    part: &Part,
    numbering: &CellNodes,
) -> Result<Vec<u32>, AllocError>
    requires linked { AreCellNodes part.now numbering.now.made.items numbering.now.numbers.items }
    requires places { count part.now.region ≡ E.vertices edges.now }
    ensures { IfOk result (λ parents. parents.items ≡ node_parents (E.vertices edges.now) (E.place_at edges.now) part.now.region numbering.now.made.items numbering.now.numbers.items) }
{
    let mut parents = leaf_parents(alloc, edges, part, numbering)?;
    push_inner_parents(part, numbering, &mut parents)?;
    Ok(parents)
}

/// The same list, of which each place is filled by itself, in as many threads as can be had.
pub(crate) fn parents_in_threads<E: Edges>(
    rt: &(impl Threads + Sync),
    alloc: Global,
    edges: &E,
    part: &Part,
    numbering: &CellNodes,
) -> Result<Vec<u32>, AllocError>
    requires linked { AreCellNodes part.now numbering.now.made.items numbering.now.numbers.items }
    requires places { count part.now.region ≡ E.vertices edges.now }
    ensures { IfOk result (λ parents. parents.items ≡ node_parents (E.vertices edges.now) (E.place_at edges.now) part.now.region numbering.now.made.items numbering.now.numbers.items) }
{
    let n = edges.n() as usize;
    let mut parents = vec![in alloc; 0; n + numbering.made.len()]?;
    fill(rt, edges, part, numbering, &mut parents);
    Ok(parents)
}

// The node above a leaf, or the leaf itself where there is none.
fn leaf_parent<E: Edges>(edges: &E, part: &Part, numbering: &CellNodes, vertex: u32) -> u32
    requires linked { AreCellNodes part.now numbering.now.made.items numbering.now.numbers.items }
    requires places { count part.now.region ≡ E.vertices edges.now }
    requires leaf { vertex < E.vertices edges.now }
    ensures { result ≡ leaf_parent (E.place_at edges.now) part.now.region numbering.now.numbers.items vertex }
{
    let above = part.up_of_place(edges.place(vertex));
    node_or(vertex, above, &numbering.numbers)
}

// The node above the inner node that is made i-th, or that node itself where there is none.
fn inner_parent(part: &Part, numbering: &CellNodes, i: usize) -> u32
    requires linked { AreCellNodes part.now numbering.now.made.items numbering.now.numbers.items }
    requires node { i < vec_len numbering.now.made }
    ensures { result ≡ inner_parent (count part.now.region) part.now.region numbering.now.made.items numbering.now.numbers.items i }
{
    let own = part.count() + i as u32;
    node_or(own, part.up_of_cell(numbering.made[i]), &numbering.numbers)
}

// The parents of the leaves, with room for those of the other nodes.
fn leaf_parents<E: Edges>(
    alloc: Global,
    edges: &E,
    part: &Part,
    numbering: &CellNodes,
) -> Result<Vec<u32>, AllocError>
    requires linked { AreCellNodes part.now numbering.now.made.items numbering.now.numbers.items }
    requires places { count part.now.region ≡ E.vertices edges.now }
    ensures { IfOk result (λ parents. parents.items ≡ map (leaf_parent (E.place_at edges.now) part.now.region numbering.now.numbers.items) (range_with_len 0 (E.vertices edges.now))) }
{
    let n = edges.n();
    let mut parents = Vec::with_capacity(alloc, n as usize + numbering.made.len())?;
    for vertex in 0..n {
        parents.push(leaf_parent(edges, part, numbering, vertex))?;
    }
    Ok(parents)
}

// Appends the parents of the inner nodes.
fn push_inner_parents(
    part: &Part,
    numbering: &CellNodes,
    parents: &mut Vec<u32>,
) -> Result<(), AllocError>
    requires { AreCellNodes part.now numbering.now.made.items numbering.now.numbers.items }
    ensures { OnOk result (parents.new.items ≡ parents.old.items ++ map (inner_parent (count part.now.region) part.now.region numbering.now.made.items numbering.now.numbers.items) (range_with_len 0 (vec_len numbering.now.made))) }
{
    for i in 0..numbering.made.len() {
        parents.push(inner_parent(part, numbering, i))?;
    }
    Ok(())
}

// Puts the parent of each node in its place.
fn fill<E: Edges>(
    rt: &(impl Threads + Sync),
    edges: &E,
    part: &Part,
    numbering: &CellNodes,
    parents: &mut [u32],
)
    requires linked { AreCellNodes part.now numbering.now.made.items numbering.now.numbers.items }
    requires places { count part.now.region ≡ E.vertices edges.now }
    requires all { length parents.old ≡ E.vertices edges.now + vec_len numbering.now.made }
    ensures { parents.new ≡ node_parents (E.vertices edges.now) (E.place_at edges.now) part.now.region numbering.now.made.items numbering.now.numbers.items }
{
    let (leaves, inner) = parents.split_at_mut(edges.n() as usize);
    fill_leaves(rt, edges, part, numbering, leaves);
    fill_inner(rt, part, numbering, inner);
}

// Puts the parent of each leaf in its place.
fn fill_leaves<E: Edges>(
    rt: &(impl Threads + Sync),
    edges: &E,
    part: &Part,
    numbering: &CellNodes,
    leaves: &mut [u32],
)
    requires linked { AreCellNodes part.now numbering.now.made.items numbering.now.numbers.items }
    requires places { count part.now.region ≡ E.vertices edges.now }
    requires all { length leaves.old ≡ E.vertices edges.now }
    ensures { leaves.new ≡ map (leaf_parent (E.place_at edges.now) part.now.region numbering.now.numbers.items) (range_with_len 0 (E.vertices edges.now)) }
{
    par_for_each_mut(
        rt,
        leaves,
        |vertex: usize, parent: &mut u32|
            requires { AreCellNodes part.now numbering.now.made.items numbering.now.numbers.items × (count part.now.region ≡ E.vertices edges.now) × (vertex < E.vertices edges.now) }
            ensures { parent.new ≡ leaf_parent (E.place_at edges.entry.now) part.entry.now.region numbering.entry.now.numbers.items vertex }
        {
            *parent = leaf_parent(edges, part, numbering, vertex as u32);
        },
    );
}

// Puts the parent of each inner node in its place.
fn fill_inner(rt: &(impl Threads + Sync), part: &Part, numbering: &CellNodes, inner: &mut [u32])
    requires linked { AreCellNodes part.now numbering.now.made.items numbering.now.numbers.items }
    requires all { length inner.old ≡ vec_len numbering.now.made }
    ensures { inner.new ≡ map (inner_parent (count part.now.region) part.now.region numbering.now.made.items numbering.now.numbers.items) (range_with_len 0 (vec_len numbering.now.made)) }
{
    par_for_each_mut(
        rt,
        inner,
        |i: usize, parent: &mut u32|
            requires { AreCellNodes part.now numbering.now.made.items numbering.now.numbers.items × (i < vec_len numbering.now.made) }
            ensures { parent.new ≡ inner_parent (count part.entry.now.region) part.entry.now.region numbering.entry.now.made.items numbering.entry.now.numbers.items i }
        {
            *parent = inner_parent(part, numbering, i);
        },
    );
}
