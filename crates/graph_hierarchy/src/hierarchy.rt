// The order and the tree of a graph.
ghost use Rattle.std.specs.Prelude.{◌≡◌, ◌≤◌, IfOk};
ghost use Rattle.border_climb.specs.Stands.{Stands};
ghost use Rattle.edge_order.specs.Order.{order_of};
ghost use Rattle.merge_board.specs.Fits.{Fits};
ghost use Rattle.tile_plan.specs.Plan.{IsAnswer, IsPlan, edges_at, root};
ghost use Rattle.graph_hierarchy.specs.Hierarchies.{IsHierarchyMade, IsTreeOf};
ghost use Rattle.graph_hierarchy.specs.Tilings.{AreTiles, plan_order, plan_in, receipt_over};

use super::fault::HierarchyFault;
use super::tiling::Tiling;
use border_climb::Part;
use edge_order::Order;
use hg_base::{Gate, Graph, OutOfMemory};
use merge_board::{Board, Receipt, hierarchy};
use partition_tree::Tree;
use std::alloc::Global;
use std::thread::Threads;
use tile_plan::{Plan, PlanFault};

/// The order of a graph's edges, the graph's tree, and the receipt of the board on which the tree was made.
#[derive(Drop)]
pub struct GraphHierarchy {
    pub order: Order,
    pub tree: Tree,
    pub receipt: Receipt,
}

impl GraphHierarchy {
    /// That of a graph, made in these tiles by so many workers, from 1 to 64, who pass the gate; squares are of as many
    /// pixels as the graph has vertices. Order and tree are the graph's, whatever the tiles and the workers.
    ///
    /// The fault is TooManyTiles, with the count, exactly where there are more than 65,536. Memory may run out.
    #[tactic(auto, using(crate::proofs::HierarchyLemmas::order_over, crate::proofs::HierarchyLemmas::hierarchy_is, crate::proofs::HierarchyLemmas::hierarchy_refused))]
    pub fn of<G: Gate>(
        rt: &(impl Threads + Sync),
        alloc: Global,
        graph: &Graph,
        tiling: Tiling,
        workers: u32,
        gate: &G,
    ) -> Result<GraphHierarchy, HierarchyFault>
        requires tiling { AreTiles tiling graph.now.n }
        requires some { 1 ≤ workers }
        requires few { workers ≤ 64 }
        ensures { IsHierarchyMade graph.now tiling workers result }
    {
        let order = Order::of(rt, alloc, graph)?;
        let plan = plan_of(rt, alloc, graph, &order, tiling)?;
        let (tree, receipt) = tree_of(rt, alloc, graph, &order, &plan, workers, gate)?;
        Ok(GraphHierarchy {
            order,
            tree,
            receipt,
        })
    }
}

// The plan of a graph in these tiles.
fn plan_of(
    rt: &(impl Threads + Sync),
    alloc: Global,
    graph: &Graph,
    order: &Order,
    tiling: Tiling,
) -> Result<Plan, PlanFault>
    requires tiling { AreTiles tiling graph.now.n }
    requires order { order.now ≡ order_of graph.now }
    ensures { IsAnswer (plan_in graph.now tiling) result }
{
    match tiling {
        Tiling::Blocks(size) => Plan::blocks_in_threads(rt, alloc, graph, order, size),
        Tiling::Squares {
            width,
            height,
            side,
        } => Plan::squares_in_threads(rt, alloc, graph, order, width, height, side),
    }
}

// The tree of a planned graph, made by so many workers on the board of the plan, and the receipt of the board.
#[tactic(auto, using(crate::proofs::HierarchyLemmas::tree_is))]
fn tree_of<G: Gate>(
    rt: &(impl Threads + Sync),
    alloc: Global,
    graph: &Graph,
    order: &Order,
    plan: &Plan,
    workers: u32,
    gate: &G,
) -> Result<(Tree, Receipt), OutOfMemory>
    requires order { order.now ≡ order_of graph.now }
    requires plan { order.now ≡ plan_order plan.now }
    requires some { 1 ≤ workers }
    requires few { workers ≤ 64 }
    ensures tree { IfOk result (λ made. IsTreeOf graph.now made.0) }
    ensures receipt { IfOk result (λ made. made.1 ≡ receipt_over plan.now workers) }
{
    let (part, receipt) = merged(rt, alloc, plan, workers, gate)?;
    let tree = Tree::of_part_in_threads(rt, alloc, order, plan, &part)?;
    tree.keeps_its_rules();
    graph.keeps_its_rules();
    Ok((tree, receipt))
}

// The part that so many workers leave on the board of a plan, and the receipt of the board.
fn merged<G: Gate>(
    rt: &(impl Threads + Sync),
    alloc: Global,
    plan: &Plan,
    workers: u32,
    gate: &G,
) -> Result<(Part, Receipt), OutOfMemory>
    requires some { 1 ≤ workers }
    requires few { workers ≤ 64 }
    ensures plan { IfOk result (λ _. IsPlan plan.now) }
    ensures part { IfOk result (λ made. Fits plan.now (root plan.now) made.0) }
    ensures stands { IfOk result (λ made. Stands made.0 (edges_at plan.now (root plan.now))) }
    ensures receipt { IfOk result (λ made. made.1 ≡ receipt_over plan.now workers) }
{
    plan.keeps_its_rules();
    let (board, mut seats) = Board::set_up(alloc, plan, workers)?;
    hierarchy(rt, &board, &mut seats, plan, gate);
    Ok(board.close(plan, seats))
}
