// The hierarchical watersheds of a graph, and the trees that are cut.
ghost use Rattle.std.specs.Prelude.{◌≡◌, ◌^◌, ◌<◌, All, IfOk, length};
ghost use Rattle.std.specs.Thread.{IsSync};
ghost use Rattle.attributes.specs.Attributes.{attributes_of};
ghost use Rattle.edge_order.specs.Order.{order_of};
ghost use Rattle.extinction.specs.HierarchicalWatershed.{hierarchical_of};
ghost use Rattle.extinction.specs.Survivors.{extinctions_of};
ghost use Rattle.tree_laws.specs.Levels.{AltitudesRise};
ghost use Rattle.tree_laws.specs.Tree.{graph_tree};
ghost use Rattle.partition_tree.specs.TreeLists.{nodes};
ghost use Rattle.watershed_cut.specs.MinimumLabels.{minima_of};
ghost use Rattle.graph_hierarchy.specs.Hierarchies.{IsTreeOf};
ghost use Rattle.higra_report.specs.Reports.{cut_tree, graph_energies, regions};

use super::sides::{attributes_of, is_large};
use attributes::Attributes;
use edge_order::Order;
use energy_cut::node_energies;
use extinction::{extinctions, hierarchical};
use hg_base::{Graph, Kind, Labels, OutOfMemory};
use partition_tree::Tree;
use saliency::cut;
use std::alloc::{AllocError, Global};
use std::thread::{Threads, join};
use watershed_cut::Minima;

/// The minima of a graph, and the attributes of the nodes of its tree.
#[derive(Drop)]
pub struct Basins {
    pub attributes: Attributes,
    pub minima: Minima,
}

impl Basins {
    /// Those of a graph, of which order and tree are its own, found side by side where it has many edges. The error is
    /// want of memory.
    pub fn of(
        rt: &(impl Threads + Sync),
        alloc: Global,
        graph: &Graph,
        order: &Order,
        tree: &Tree,
    ) -> Result<Basins, OutOfMemory>
        requires order { order.now ≡ order_of graph.now }
        requires tree { tree.now ≡ graph_tree graph.now }
        ensures attributes { IfOk result (λ basins. basins.attributes ≡ attributes_of graph.now) }
        ensures minima { IfOk result (λ basins. basins.minima ≡ minima_of graph.now) }
    {
        if is_large(graph) {
            return side_by_side(rt, alloc, graph, order, tree);
        }
        let attributes = Attributes::of(alloc, graph, tree)?;
        let minima = Minima::of(alloc, graph, order, tree)?;
        Ok(Basins { attributes, minima })
    }

    /// The hierarchical watershed of the graph by a kind. The error is want of memory.
    pub fn hierarchy(
        &self,
        alloc: Global,
        graph: &Graph,
        tree: &Tree,
        kind: Kind,
    ) -> Result<Tree, OutOfMemory>
        requires tree { tree.now ≡ graph_tree graph.now }
        requires attributes { self.now.attributes ≡ attributes_of graph.now }
        requires minima { self.now.minima ≡ minima_of graph.now }
        ensures hierarchy { IfOk result (λ hierarchy. hierarchy ≡ hierarchical_of graph.now kind) }
        ensures rises { IfOk result (λ hierarchy. AltitudesRise hierarchy) }
    {
        hierarchical(alloc, graph, tree, &self.attributes, &self.minima, kind)
    }

    /// The extinctions of its minima by a kind, by label.
    pub(crate) fn extinctions(
        &self,
        alloc: Global,
        graph: &Graph,
        tree: &Tree,
        kind: Kind,
    ) -> Result<Vec<u64>, OutOfMemory>
        requires tree { IsTreeOf graph.now tree.now }
        requires attributes { self.now.attributes ≡ attributes_of graph.now }
        requires minima { self.now.minima ≡ minima_of graph.now }
        ensures { IfOk result (λ values. values.items ≡ extinctions_of graph.now kind) }
    {
        let _ = graph;
        extinctions(alloc, tree, &self.attributes, &self.minima, kind)
    }
}

// The basins of a graph, whose attributes and minima are found side by side.
fn side_by_side<R: Threads + Sync>(
    rt: &R,
    alloc: Global,
    graph: &Graph,
    order: &Order,
    tree: &Tree,
) -> Result<Basins, OutOfMemory>
    requires order { order.now ≡ order_of graph.now }
    requires tree { tree.now ≡ graph_tree graph.now }
    ensures attributes { IfOk result (λ basins. basins.attributes ≡ attributes_of graph.now) }
    ensures minima { IfOk result (λ basins. basins.minima ≡ minima_of graph.now) }
{
    let attributes = || -> Result<Attributes, OutOfMemory>
        requires { IsSync R.row × (tree.now ≡ graph_tree graph.now) }
        ensures { IfOk result (λ attributes. attributes ≡ attributes_of graph.entry.now) }
    { Attributes::of_in_threads(rt, alloc, graph, tree) };
    let minima = || -> Result<Minima, OutOfMemory>
        requires { (order.now ≡ order_of graph.now) × (tree.now ≡ graph_tree graph.now) }
        ensures { IfOk result (λ minima. minima ≡ minima_of graph.entry.now) }
    { Minima::of(alloc, graph, order, tree) };
    let (attributes, minima) = join(rt, attributes, minima);
    Ok(Basins {
        attributes: attributes?,
        minima: minima?,
    })
}

/// The hierarchical watershed of a graph by a kind and the extinctions of its minima, found side by side where the graph is
/// large. The error is want of memory.
pub(crate) fn hierarchy_and_extinctions(
    rt: &(impl Threads + Sync),
    alloc: Global,
    graph: &Graph,
    tree: &Tree,
    basins: &Basins,
    kind: Kind,
) -> Result<(Tree, Vec<u64>), OutOfMemory>
    requires tree { IsTreeOf graph.now tree.now }
    requires attributes { basins.now.attributes ≡ attributes_of graph.now }
    requires minima { basins.now.minima ≡ minima_of graph.now }
    ensures hierarchy { IfOk result (λ found. found.0 ≡ hierarchical_of graph.now kind) }
    ensures extinctions { IfOk result (λ found. found.1.items ≡ extinctions_of graph.now kind) }
{
    if is_large(graph) {
        return hierarchy_beside_extinctions(rt, alloc, graph, tree, basins, kind);
    }
    let values = basins.extinctions(alloc, graph, tree, kind)?;
    let hierarchy = basins.hierarchy(alloc, graph, tree, kind)?;
    Ok((hierarchy, values))
}

// The hierarchical watershed, and beside it the extinctions.
fn hierarchy_beside_extinctions(
    rt: &(impl Threads + Sync),
    alloc: Global,
    graph: &Graph,
    tree: &Tree,
    basins: &Basins,
    kind: Kind,
) -> Result<(Tree, Vec<u64>), OutOfMemory>
    requires tree { IsTreeOf graph.now tree.now }
    requires attributes { basins.now.attributes ≡ attributes_of graph.now }
    requires minima { basins.now.minima ≡ minima_of graph.now }
    ensures hierarchy { IfOk result (λ found. found.0 ≡ hierarchical_of graph.now kind) }
    ensures extinctions { IfOk result (λ found. found.1.items ≡ extinctions_of graph.now kind) }
{
    let values = || -> Result<Vec<u64>, OutOfMemory>
        requires { IsTreeOf graph.now tree.now × (basins.now.attributes ≡ attributes_of graph.now) × (basins.now.minima ≡ minima_of graph.now) }
        ensures { IfOk result (λ values. values.items ≡ extinctions_of graph.entry.now kind) }
    { basins.extinctions(alloc, graph, tree, kind) };
    let hierarchy = || -> Result<Tree, OutOfMemory>
        requires { (tree.now ≡ graph_tree graph.now) × (basins.now.attributes ≡ attributes_of graph.now) × (basins.now.minima ≡ minima_of graph.now) }
        ensures { IfOk result (λ hierarchy. hierarchy ≡ hierarchical_of graph.entry.now kind) }
    { basins.hierarchy(alloc, graph, tree, kind) };
    let (values, hierarchy) = join(rt, values, hierarchy);
    Ok((hierarchy?, values?))
}

/// The labels of the regions of a graph's own tree, or of its hierarchical watershed by a kind, at a level.
#[tactic(auto, using(crate::proofs::CutLemmas::regions_own, crate::proofs::CutLemmas::regions_by))]
pub(crate) fn regions(
    rt: &(impl Threads + Sync),
    alloc: Global,
    graph: &Graph,
    order: &Order,
    tree: &Tree,
    kind: Option<Kind>,
    level: u64,
) -> Result<Labels, OutOfMemory>
    requires order { order.now ≡ order_of graph.now }
    requires tree { IsTreeOf graph.now tree.now }
    ensures { IfOk result (λ labels. labels ≡ regions (cut_tree kind graph.now) level) }
{
    match kind {
        None => cut(alloc, tree, level),
        Some(kind) => {
            let basins = Basins::of(rt, alloc, graph, order, tree)?;
            let hierarchy = basins.hierarchy(alloc, graph, tree, kind)?;
            cut(alloc, &hierarchy, level)
        }
    }
}

/// The energies of the nodes of a graph's tree, with a penalty for each region.
#[tactic(auto, using(crate::proofs::EnergyLemmas::altitudes_low, crate::proofs::EnergyLemmas::areas_each, crate::proofs::EnergyLemmas::areas_small, crate::proofs::EnergyLemmas::energies_made, crate::proofs::EnergyLemmas::energies_each))]
pub(crate) fn energies(
    rt: &(impl Threads + Sync),
    alloc: Global,
    graph: &Graph,
    tree: &Tree,
    penalty: u64,
) -> Result<Vec<u128>, OutOfMemory>
    requires { IsTreeOf graph.now tree.now }
    ensures energies { IfOk result (λ energies. energies.items ≡ graph_energies graph.now penalty) }
    ensures one_each { IfOk result (λ energies. length energies.items ≡ nodes tree.now) }
    ensures below { IfOk result (λ energies. All (λ e. e < 2 ^ 65) energies.items) }
{
    graph.keeps_its_rules();
    let attributes = attributes_of(rt, alloc, graph, tree)?;
    let areas = node_areas(alloc, tree, &attributes)?;
    node_energies(alloc, tree, &areas, penalty)
}

// The areas of the nodes of a tree.
fn node_areas(alloc: Global, tree: &Tree, attributes: &Attributes) -> Result<Vec<u64>, OutOfMemory>
    requires { length attributes.now.areas ≡ nodes tree.now }
    ensures { IfOk result (λ areas. areas.items ≡ attributes.now.areas) }
{
    areas_of(alloc, tree, attributes).map_err(|_| OutOfMemory)
}

#[tactic(auto, using(crate::proofs::EnergyLemmas::areas_more))]
fn areas_of(alloc: Global, tree: &Tree, attributes: &Attributes) -> Result<Vec<u64>, AllocError>
    requires { length attributes.now.areas ≡ nodes tree.now }
    ensures { IfOk result (λ areas. areas.items ≡ attributes.now.areas) }
{
    let nodes = tree.nodes();
    let mut areas = Vec::with_capacity(alloc, nodes as usize)?;
    for i in 0..nodes {
        areas.push(attributes.area(i))?;
    }
    Ok(areas)
}
