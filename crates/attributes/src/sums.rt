ghost use Rattle.std.specs.Prelude.{◌≡◌, IfOk};
ghost use Rattle.tree_laws.specs.Tree.{graph_tree};
ghost use Rattle.std.specs.Thread.{IsSync};
ghost use Rattle.attributes.specs.declared.gather.Operation.TheVariants as operations;
ghost use Rattle.attributes.specs.Gathering.{AreOfLeaves, CanGather};
ghost use Rattle.attributes.specs.Sums.{AreSums};

use crate::floors::floors;
use crate::gather::{Operation, gathered};
use crate::leaves::{areas, products};
use hg_base::Graph;
use partition_tree::Tree;
use std::alloc::{AllocError, Global};
use std::thread::{Threads, join};

/// For each node the sums of its vertices' areas and of their areas times their floors, and the lowest of their floors.
#[derive(Drop)]
pub(crate) struct NodeSums {
    pub(crate) areas: Vec<u64>,
    pub(crate) products: Vec<u64>,
    pub(crate) lowest: Vec<u64>,
}

impl NodeSums {
    // The sums of the nodes of the graph's own tree.
    pub(crate) fn of(alloc: Global, graph: &Graph, tree: &Tree) -> Result<NodeSums, AllocError>
        requires { tree.now ≡ graph_tree graph.now }
        ensures { IfOk result (λ sums. AreSums graph.now tree.now sums.areas.items sums.products.items sums.lowest.items) }
    {
        graph.keeps_its_rules();
        let floors = floors(alloc, graph)?;
        let areas = areas(alloc, graph)?;
        let products = products(alloc, &areas, &floors)?;
        Ok(NodeSums {
            areas: gathered(alloc, tree, Operation::Sum, &areas)?,
            products: gathered(alloc, tree, Operation::Sum, &products)?,
            lowest: gathered(alloc, tree, Operation::Least, &floors)?,
        })
    }
    // The same sums, each found beside the others.
    pub(crate) fn of_in_threads(
        rt: &(impl Threads + Sync),
        alloc: Global,
        graph: &Graph,
        tree: &Tree,
    ) -> Result<NodeSums, AllocError>
        requires { tree.now ≡ graph_tree graph.now }
        ensures { IfOk result (λ sums. AreSums graph.now tree.now sums.areas.items sums.products.items sums.lowest.items) }
    {
        graph.keeps_its_rules();
        let floors = floors(alloc, graph)?;
        let areas = areas(alloc, graph)?;
        let products = products(alloc, &areas, &floors)?;
        side_by_side(rt, alloc, tree, &areas, &products, &floors)
    }
}

// For each node the values of the leaves below it put together, those of each kind beside the others.
fn side_by_side<R: Threads + Sync>(
    rt: &R,
    alloc: Global,
    tree: &Tree,
    areas: &[u64],
    products: &[u64],
    floors: &[u64],
) -> Result<NodeSums, AllocError>
    requires leaves { CanGather operations.Sum tree.now areas.now × CanGather operations.Sum tree.now products.now × CanGather operations.Least tree.now floors.now }
    ensures { IfOk result (λ sums. AreOfLeaves operations.Sum tree.now areas.now sums.areas.items × AreOfLeaves operations.Sum tree.now products.now sums.products.items × AreOfLeaves operations.Least tree.now floors.now sums.lowest.items) }
{
    let lowest = || -> Result<Vec<u64>, AllocError>
        requires { CanGather operations.Least tree.now floors.now }
        ensures { IfOk result (λ lowest. AreOfLeaves operations.Least tree.entry.now floors.entry.now lowest.items) }
    { gathered(alloc, tree, Operation::Least, floors) };
    let sums = || -> (Result<Vec<u64>, AllocError>, Result<Vec<u64>, AllocError>)
        requires { IsSync R.row × CanGather operations.Sum tree.now areas.now × CanGather operations.Sum tree.now products.now }
        ensures { IfOk result.0 (λ sums. AreOfLeaves operations.Sum tree.entry.now areas.entry.now sums.items) × IfOk result.1 (λ sums. AreOfLeaves operations.Sum tree.entry.now products.entry.now sums.items) }
    { areas_beside_products(rt, alloc, tree, areas, products) };
    let (lowest, (areas, products)) = join(rt, lowest, sums);
    Ok(NodeSums {
        areas: areas?,
        products: products?,
        lowest: lowest?,
    })
}

// For each node the sum of the areas of the leaves below it, and beside it the sum of their products.
fn areas_beside_products(
    rt: &(impl Threads + Sync),
    alloc: Global,
    tree: &Tree,
    areas: &[u64],
    products: &[u64],
) -> (Result<Vec<u64>, AllocError>, Result<Vec<u64>, AllocError>)
    requires areas { CanGather operations.Sum tree.now areas.now }
    requires products { CanGather operations.Sum tree.now products.now }
    ensures areas { IfOk result.0 (λ sums. AreOfLeaves operations.Sum tree.now areas.now sums.items) }
    ensures products { IfOk result.1 (λ sums. AreOfLeaves operations.Sum tree.now products.now sums.items) }
{
    let areas = || -> Result<Vec<u64>, AllocError>
        requires { CanGather operations.Sum tree.now areas.now }
        ensures { IfOk result (λ sums. AreOfLeaves operations.Sum tree.entry.now areas.entry.now sums.items) }
    { gathered(alloc, tree, Operation::Sum, areas) };
    let products = || -> Result<Vec<u64>, AllocError>
        requires { CanGather operations.Sum tree.now products.now }
        ensures { IfOk result (λ sums. AreOfLeaves operations.Sum tree.entry.now products.entry.now sums.items) }
    { gathered(alloc, tree, Operation::Sum, products) };
    join(rt, areas, products)
}
