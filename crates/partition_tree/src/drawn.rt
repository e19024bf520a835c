ghost use Rattle.std.specs.Prelude.{◌≡◌, ◌≤◌, IfOk};
ghost use Rattle.node_region.specs.Pool.{count};
ghost use Rattle.partition_tree.specs.CellNodes.{AreCells, AreListsOfPart, AreCellNodes, node_parents};

use crate::cell_nodes::{CellNodes, cells_by_rank};
use crate::edges::Edges;
use crate::parents::{parents, parents_in_threads};
use border_climb::Part;
use std::alloc::{AllocError, Global};
use std::thread::Threads;

/// The lists of a tree: each node's parent and altitude, and each inner node's maker.
#[derive(Drop)]
pub(crate) struct TreeLists {
    pub(crate) parents: Vec<u32>,
    pub(crate) altitudes: Vec<u64>,
    pub(crate) makers: Vec<u32>,
}

/// The lists of the tree of a part that was given edges of so many ranks.
pub(crate) fn drawn<E: Edges>(
    alloc: Global,
    edges: &E,
    part: &Part,
    ranks: usize,
) -> Result<TreeLists, AllocError>
    requires cells { AreCells part.now (E.len edges.now) }
    requires places { count part.now.region ≡ E.vertices edges.now }
    requires ranks { ranks ≡ E.len edges.now }
    requires few { ranks ≤ 4194304 }
    ensures { IfOk result (λ lists. AreListsOfPart part.now (E.vertices edges.now) ranks (E.place_at edges.now) (E.altitude_at edges.now) (E.number_at edges.now) lists.parents.items lists.altitudes.items lists.makers.items) }
{
    let numbering = cell_nodes_of(alloc, edges, part, ranks)?;
    let parents = parents(alloc, edges, part, &numbering)?;
    Ok(TreeLists {
        parents,
        altitudes: numbering.altitudes,
        makers: numbering.makers,
    })
}

/// The same lists, with the parents found in as many threads as can be had.
pub(crate) fn drawn_in_threads<E: Edges>(
    rt: &(impl Threads + Sync),
    alloc: Global,
    edges: &E,
    part: &Part,
    ranks: usize,
) -> Result<TreeLists, AllocError>
    requires cells { AreCells part.now (E.len edges.now) }
    requires places { count part.now.region ≡ E.vertices edges.now }
    requires ranks { ranks ≡ E.len edges.now }
    requires few { ranks ≤ 4194304 }
    ensures { IfOk result (λ lists. AreListsOfPart part.now (E.vertices edges.now) ranks (E.place_at edges.now) (E.altitude_at edges.now) (E.number_at edges.now) lists.parents.items lists.altitudes.items lists.makers.items) }
{
    let numbering = cell_nodes_of(alloc, edges, part, ranks)?;
    let parents = parents_in_threads(rt, alloc, edges, part, &numbering)?;
    Ok(TreeLists {
        parents,
        altitudes: numbering.altitudes,
        makers: numbering.makers,
    })
}

// The numbering of the cells of a part that was given edges of so many ranks.
fn cell_nodes_of<E: Edges>(
    alloc: Global,
    edges: &E,
    part: &Part,
    ranks: usize,
) -> Result<CellNodes, AllocError>
    requires cells { AreCells part.now (E.len edges.now) }
    requires ranks { ranks ≡ E.len edges.now }
    requires few { ranks ≤ 4194304 }
    ensures linked { IfOk result (λ numbering. AreCellNodes part.now numbering.made.items numbering.numbers.items) }
    ensures drawn { IfOk result (λ numbering. AreListsOfPart part.now (E.vertices edges.now) ranks (E.place_at edges.now) (E.altitude_at edges.now) (E.number_at edges.now) (node_parents (E.vertices edges.now) (E.place_at edges.now) part.now.region numbering.made.items numbering.numbers.items) numbering.altitudes.items numbering.makers.items) }
{
    let cells = cells_by_rank(alloc, part, ranks)?;
    CellNodes::of(alloc, edges, part, &cells)
}
