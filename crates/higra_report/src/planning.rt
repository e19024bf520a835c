// The order and the tree of an input's graph, made over its tiles.
ghost use Rattle.std.specs.Prelude.{◌≡◌, ◌*◌, ◌≤◌};
ghost use Rattle.graph_hierarchy.specs.Tilings.{AreTiles};
ghost use Rattle.higra_report.specs.Planning.{IsPlanned};

use super::fault::ReportFault;
use graph_hierarchy::{GraphHierarchy, Tiling};
use hg_base::{Gate, Graph};
use pgm_reader::Picture;
use std::alloc::Global;
use std::thread::Threads;

/// The order and the tree of an edge list's graph, made in blocks of `tile` vertices by so many workers, who pass the gate.
/// The input's fault is TooManyTiles, with the count, exactly where there are more than 65,536. Memory may run out.
pub(crate) fn edges_hierarchy<G: Gate>(
    rt: &(impl Threads + Sync),
    alloc: Global,
    graph: &Graph,
    tile: u32,
    workers: u32,
    gate: &G,
) -> Result<GraphHierarchy, ReportFault>
    requires tile { 1 ≤ tile }
    requires some { 1 ≤ workers }
    requires few { workers ≤ 64 }
    ensures { IsPlanned graph.now (Tiling.Blocks tile) workers result }
{
    hierarchy_in(rt, alloc, graph, Tiling::Blocks(tile), workers, gate)
}

/// The order and the tree of a graph over the pixels of a picture, made in squares of side `tile` by so many workers, who
/// pass the gate. The input's fault is TooManyTiles, with the count, exactly where there are more than 65,536. Memory may
/// run out.
pub fn pixels_hierarchy<G: Gate>(
    rt: &(impl Threads + Sync),
    alloc: Global,
    picture: &Picture,
    graph: &Graph,
    tile: u32,
    workers: u32,
    gate: &G,
) -> Result<GraphHierarchy, ReportFault>
    requires tile { 1 ≤ tile }
    requires pixels { picture.now.width * picture.now.height ≡ graph.now.n }
    requires some { 1 ≤ workers }
    requires few { workers ≤ 64 }
    ensures { IsPlanned graph.now (Tiling.Squares picture.now.width picture.now.height tile) workers result }
{
    let squares = Tiling::Squares {
        width: picture.width(),
        height: picture.height(),
        side: tile,
    };
    hierarchy_in(rt, alloc, graph, squares, workers, gate)
}

// The order and the tree of a graph, made in these tiles.
#[tactic(auto, using(crate::proofs::PlanningLemmas::planned_is, crate::proofs::PlanningLemmas::plan_refused))]
fn hierarchy_in<G: Gate>(
    rt: &(impl Threads + Sync),
    alloc: Global,
    graph: &Graph,
    tiling: Tiling,
    workers: u32,
    gate: &G,
) -> Result<GraphHierarchy, ReportFault>
    requires tiling { AreTiles tiling graph.now.n }
    requires some { 1 ≤ workers }
    requires few { workers ≤ 64 }
    ensures { IsPlanned graph.now tiling workers result }
{
    let made = GraphHierarchy::of(rt, alloc, graph, tiling, workers, gate)?;
    Ok(made)
}
