ghost use Rattle.std.specs.Prelude.{◌≡◌, ℕ, length, IfOk};
ghost use Rattle.hg_base.specs.Graph.{WeightedGraph};
ghost use Rattle.tree_laws.specs.Tree.{tree_of, graph_tree, IsFrontTree};
ghost use Rattle.edge_laws.specs.Rank.{ranked};
ghost use Rattle.node_region.specs.Pool.{count};
ghost use Rattle.border_climb.specs.Stands.{Stands};
ghost use Rattle.edge_order.specs.Order.{order_of, number_at_rank};
ghost use Rattle.tile_plan.specs.Plan.{edges_at, place_of, root, vertices};
ghost use Rattle.partition_tree.specs.CellNodes.{AreListsOfPart};
ghost use Rattle.partition_tree.specs.RankWeights.{weight_at};

use crate::drawn::{TreeLists, drawn, drawn_in_threads};
use crate::edges::Edges;
use crate::tree::Tree;
use border_climb::Part;
use edge_order::Order;
use hg_base::OutOfMemory;
use std::alloc::{AllocError, Global};
use std::thread::Threads;
use tile_plan::Plan;

// The parents in a tree of fewer edges are found in one thread: others would take longer to start than to do their share.
const FEW: u32 = 16_384;

impl Tree {
    /// The binary partition tree of the graph of a plan, from the part that took in the lots of all parts of the
    /// plan (Najman, Cousty and Perret, Playing with Kruskal, 2013). The order is that of the same graph. The error
    /// is want of memory.
    pub fn of_part(
        alloc: Global,
        order: &Order,
        plan: &Plan,
        part: &Part,
    ) -> Result<Tree, OutOfMemory>
        requires vertices { order.now.n ≡ vertices plan.now }
        requires edges { order.now.edges ≡ plan.now.edges }
        requires first { part.now.region.first ≡ 0 }
        requires places { count part.now.region ≡ vertices plan.now }
        requires stands { Stands part.now (edges_at plan.now (root plan.now)) }
        ensures tree { IfOk result (λ tree. tree ≡ tree_of (vertices plan.now) plan.now.edges) }
        ensures fronts { IfOk result (λ tree. IsFrontTree tree (vertices plan.now) plan.now.edges) }
        ensures graph { (g : WeightedGraph) → order.now ≡ order_of g → IfOk result (λ tree. tree ≡ graph_tree g) }
        ensures graph_fronts { (g : WeightedGraph) → order.now ≡ order_of g → IfOk result (λ tree. IsFrontTree tree g.n (ranked g)) }
    {
        tree_of_part(alloc, order, plan, part).map_err(|_| OutOfMemory)
    }

    /// The same tree as that of `of_part`, whose parents are found in as many threads as can be had, where there are many
    /// edges. The error is want of memory.
    pub fn of_part_in_threads(
        rt: &(impl Threads + Sync),
        alloc: Global,
        order: &Order,
        plan: &Plan,
        part: &Part,
    ) -> Result<Tree, OutOfMemory>
        requires vertices { order.now.n ≡ vertices plan.now }
        requires edges { order.now.edges ≡ plan.now.edges }
        requires first { part.now.region.first ≡ 0 }
        requires places { count part.now.region ≡ vertices plan.now }
        requires stands { Stands part.now (edges_at plan.now (root plan.now)) }
        ensures tree { IfOk result (λ tree. tree ≡ tree_of (vertices plan.now) plan.now.edges) }
        ensures fronts { IfOk result (λ tree. IsFrontTree tree (vertices plan.now) plan.now.edges) }
        ensures graph { (g : WeightedGraph) → order.now ≡ order_of g → IfOk result (λ tree. tree ≡ graph_tree g) }
        ensures graph_fronts { (g : WeightedGraph) → order.now ≡ order_of g → IfOk result (λ tree. IsFrontTree tree g.n (ranked g)) }
    {
        if order.len() < FEW {
            return Tree::of_part(alloc, order, plan, part);
        }
        tree_of_part_in_threads(rt, alloc, order, plan, part).map_err(|_| OutOfMemory)
    }
}

// The edges of a plan by rank.
#[derive(Clone, Copy)]
struct PlanEdges<'a> {
    order: &'a Order,
    plan: &'a Plan,
}

impl Edges for PlanEdges<'_> {
    ghost vertices = { λ s. vertices s.plan.now };

    ghost len = { λ s. length s.order.now.edges };

    ghost place_at = { λ s. place_of s.plan.now };

    ghost altitude_at = { λ s. weight_at s.order.now };

    ghost number_at = { λ s. number_at_rank s.order.now };

    fn n(&self) -> u32 {
        self.plan.n()
    }

    fn place(&self, vertex: u32) -> u32 {
        self.plan.place_of(vertex)
    }

    fn altitude(&self, rank: u32) -> u64 {
        u64::from(self.order.at(rank).w)
    }

    fn number(&self, rank: u32) -> u32 {
        self.order.edge_at(rank)
    }
}

// The tree of a part that stands for all edges of a plan.
fn tree_of_part(alloc: Global, order: &Order, plan: &Plan, part: &Part) -> Result<Tree, AllocError>
    requires vertices { order.now.n ≡ vertices plan.now }
    requires edges { order.now.edges ≡ plan.now.edges }
    requires first { part.now.region.first ≡ 0 }
    requires places { count part.now.region ≡ vertices plan.now }
    requires stands { Stands part.now (edges_at plan.now (root plan.now)) }
    ensures tree { IfOk result (λ tree. tree ≡ tree_of (vertices plan.now) plan.now.edges) }
    ensures fronts { IfOk result (λ tree. IsFrontTree tree (vertices plan.now) plan.now.edges) }
{
    plan.keeps_its_rules();
    let edges = PlanEdges { order, plan };
    let lists = drawn(alloc, &edges, part, order.len() as usize)?;
    Ok(tree_of_lists(order, plan, part, lists))
}

// The same tree, with the parents found in as many threads as can be had.
fn tree_of_part_in_threads(
    rt: &(impl Threads + Sync),
    alloc: Global,
    order: &Order,
    plan: &Plan,
    part: &Part,
) -> Result<Tree, AllocError>
    requires vertices { order.now.n ≡ vertices plan.now }
    requires edges { order.now.edges ≡ plan.now.edges }
    requires first { part.now.region.first ≡ 0 }
    requires places { count part.now.region ≡ vertices plan.now }
    requires stands { Stands part.now (edges_at plan.now (root plan.now)) }
    ensures tree { IfOk result (λ tree. tree ≡ tree_of (vertices plan.now) plan.now.edges) }
    ensures fronts { IfOk result (λ tree. IsFrontTree tree (vertices plan.now) plan.now.edges) }
{
    plan.keeps_its_rules();
    let edges = PlanEdges { order, plan };
    let lists = drawn_in_threads(rt, alloc, &edges, part, order.len() as usize)?;
    Ok(tree_of_lists(order, plan, part, lists))
}

// The tree of the lists that were drawn of such a part.
fn tree_of_lists(order: &Order, plan: &Plan, part: &Part, lists: TreeLists) -> Tree
    requires vertices { order.now.n ≡ vertices plan.now }
    requires edges { order.now.edges ≡ plan.now.edges }
    requires first { part.now.region.first ≡ 0 }
    requires places { count part.now.region ≡ vertices plan.now }
    requires stands { Stands part.now (edges_at plan.now (root plan.now)) }
    requires drawn { (ranks : ℕ) × ((ranks ≡ length order.now.edges) × AreListsOfPart part.now (vertices plan.now) ranks (place_of plan.now) (weight_at order.now) (number_at_rank order.now) lists.parents.items lists.altitudes.items lists.makers.items) }
    ensures tree { result ≡ tree_of (vertices plan.now) plan.now.edges }
    ensures fronts { IsFrontTree result (vertices plan.now) plan.now.edges }
{
    let n = plan.n();
    order.keeps_its_rules();
    Tree::new(n, lists.parents, lists.altitudes, lists.makers)
}
