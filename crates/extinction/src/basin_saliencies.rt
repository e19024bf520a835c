ghost use Rattle.std.specs.Prelude.{◌≡◌, ◌<◌, length, get_or, IfOk};
ghost use Rattle.hg_base.specs.Graph.{first_end, second_end};
ghost use Rattle.tree_laws.specs.Tree.{graph_tree};
ghost use Rattle.attributes.specs.Attributes.{attributes_of};
ghost use Rattle.watershed_cut.specs.MinimumLabels.{minima_of};
ghost use Rattle.watershed_cut.specs.Watershed.{tree_labelling};
ghost use Rattle.saliency.specs.Values.{AreLowestAltitudes};
ghost use Rattle.extinction.specs.HierarchicalWatershed.{hierarchical_of};
ghost use Rattle.extinction.specs.Basins.{BasinsShareRoots, IsBasinAltitude, AreBasinAltitudes, CanBasinValue};
ghost use Rattle.extinction.specs.Persistence.{persistences_of};

use crate::basin_edges::{basin_of, basin_tree};
use crate::persist::persistence;
use attributes::Attributes;
use hg_base::{Graph, Kind, Labels, OutOfMemory};
use partition_tree::{Ancestors, Tree};
use rayon::prelude::*;
use std::alloc::{AllocError, Global};
use std::thread::{Threads, join};
use watershed_cut::{Minima, watershed_labels};

/// The saliency of each edge of a graph in its hierarchical watershed, by edge number: the altitude of the lowest common
/// ancestor of its ends (Perret and others, Higra, 2019). Tree, attributes and minima are the graph's own. They are found
/// over the basins of its watershed cut, in as many threads as can be had, and the hierarchical watershed isn't made. The
/// error is want of memory.
pub fn hierarchical_saliencies(
    rt: &(impl Threads + Sync),
    alloc: Global,
    graph: &Graph,
    tree: &Tree,
    attributes: &Attributes,
    minima: &Minima,
    kind: Kind,
) -> Result<Vec<u64>, OutOfMemory>
    requires tree { tree.now ≡ graph_tree graph.now }
    requires attributes { attributes.now ≡ attributes_of graph.now }
    requires minima { minima.now ≡ minima_of graph.now }
    ensures { IfOk result (λ values. AreLowestAltitudes graph.now (hierarchical_of graph.now kind) values.items) }
{
    graph.keeps_its_rules();
    let (labels, persistences) = labels_beside_persistences(
        rt, alloc, graph, tree, attributes, minima, kind,
    )?;
    let basins = basin_tree(alloc, graph, tree, &labels, &persistences, kind)?;
    let ancestors = Ancestors::of(alloc, &basins)?;
    altitudes(rt, alloc, graph, &labels, &basins, &ancestors)
}

// The labels of a graph's watershed cut, and beside them the persistences of the inner nodes of its tree.
fn labels_beside_persistences(
    rt: &(impl Threads + Sync),
    alloc: Global,
    graph: &Graph,
    tree: &Tree,
    attributes: &Attributes,
    minima: &Minima,
    kind: Kind,
) -> Result<(Labels, Vec<u64>), OutOfMemory>
    requires tree { tree.now ≡ graph_tree graph.now }
    requires attributes { attributes.now ≡ attributes_of graph.now }
    requires minima { minima.now ≡ minima_of graph.now }
    ensures labels { IfOk result (λ found. found.0 ≡ tree_labelling graph.now) }
    ensures persistences { IfOk result (λ found. found.1.items ≡ persistences_of graph.now kind) }
{
    let labels = || -> Result<Labels, OutOfMemory>
        requires { (tree.now ≡ graph_tree graph.now) × (minima.now ≡ minima_of graph.now) }
        ensures { IfOk result (λ labels. labels ≡ tree_labelling graph.entry.now) }
    { watershed_labels(alloc, graph, tree, minima) };
    let persistences = || -> Result<Vec<u64>, OutOfMemory>
        requires { (tree.now ≡ graph_tree graph.now) × (attributes.now ≡ attributes_of graph.now) × (minima.now ≡ minima_of graph.now) }
        ensures { IfOk result (λ values. values.items ≡ persistences_of graph.entry.now kind) }
    { graph_persistences(alloc, graph, tree, attributes, minima, kind) };
    let (labels, persistences) = join(rt, labels, persistences);
    Ok((labels?, persistences?))
}

// The persistences of a graph, of which tree, attributes and minima are its own.
fn graph_persistences(
    alloc: Global,
    graph: &Graph,
    tree: &Tree,
    attributes: &Attributes,
    minima: &Minima,
    kind: Kind,
) -> Result<Vec<u64>, OutOfMemory>
    requires tree { tree.now ≡ graph_tree graph.now }
    requires attributes { attributes.now ≡ attributes_of graph.now }
    requires minima { minima.now ≡ minima_of graph.now }
    ensures { IfOk result (λ values. values.items ≡ persistences_of graph.now kind) }
{
    graph.keeps_its_rules();
    persistence(alloc, tree, attributes, minima, kind)
}

// The value of each edge by a tree over the basins.
fn altitudes(
    rt: &(impl Threads + Sync),
    alloc: Global,
    graph: &Graph,
    labels: &Labels,
    basins: &Tree,
    ancestors: &Ancestors,
) -> Result<Vec<u64>, OutOfMemory>
    requires ancestors { ancestors.now ≡ basins.now }
    requires labels { length labels.now.labels ≡ graph.now.n }
    requires leaves { basins.now.leaves ≡ labels.now.count }
    requires roots { BasinsShareRoots graph.now labels.now basins.now }
    ensures { IfOk result (λ values. AreBasinAltitudes graph.now labels.now basins.now values.items) }
{
    altitudes_in_threads(rt, alloc, graph, labels, basins, ancestors).map_err(|_| OutOfMemory)
}

fn altitudes_in_threads(
    rt: &(impl Threads + Sync),
    alloc: Global,
    graph: &Graph,
    labels: &Labels,
    basins: &Tree,
    ancestors: &Ancestors,
) -> Result<Vec<u64>, AllocError>
    requires ancestors { ancestors.now ≡ basins.now }
    requires labels { length labels.now.labels ≡ graph.now.n }
    requires leaves { basins.now.leaves ≡ labels.now.count }
    requires roots { BasinsShareRoots graph.now labels.now basins.now }
    ensures { IfOk result (λ values. AreBasinAltitudes graph.now labels.now basins.now values.items) }
{
    let mut values = vec![in alloc; 0; graph.m() as usize]?;
    fill(rt, graph, labels, basins, ancestors, &mut values);
    Ok(values)
}

// Puts the value of each edge in its place.
fn fill(
    rt: &(impl Threads + Sync),
    graph: &Graph,
    labels: &Labels,
    basins: &Tree,
    ancestors: &Ancestors,
    values: &mut [u64],
)
    requires ancestors { ancestors.now ≡ basins.now }
    requires labels { length labels.now.labels ≡ graph.now.n }
    requires leaves { basins.now.leaves ≡ labels.now.count }
    requires roots { BasinsShareRoots graph.now labels.now basins.now }
    requires all { length values.old ≡ length graph.now.edges }
    ensures { AreBasinAltitudes graph.now labels.now basins.now values.new }
{
    graph.keeps_its_rules();
    par_for_each_mut(
        rt,
        values,
        |edge: usize, place: &mut u64|
            requires { CanBasinValue graph.now labels.now basins.now ancestors.now edge }
            ensures { IsBasinAltitude labels.entry.now basins.entry.now (first_end graph.entry.now edge) (second_end graph.entry.now edge) place.new }
        {
            *place = altitude(graph, labels, basins, ancestors, edge as u32);
        },
    );
}

// The value of edge e: 0 where one basin has both of its ends, and else the altitude of the lowest common ancestor of the
// basins that have them.
fn altitude(graph: &Graph, labels: &Labels, basins: &Tree, ancestors: &Ancestors, e: u32) -> u64
    requires ancestors { ancestors.now ≡ basins.now }
    requires labels { length labels.now.labels ≡ graph.now.n }
    requires leaves { basins.now.leaves ≡ labels.now.count }
    requires roots { BasinsShareRoots graph.now labels.now basins.now }
    requires within { e < length graph.now.edges }
    ensures { IsBasinAltitude labels.now basins.now (first_end graph.now e) (second_end graph.now e) result }
{
    let edge = graph.edge(e);
    let (a, b) = (basin_of(labels, edge.u), basin_of(labels, edge.v));
    if a == b {
        return 0;
    }
    let leaves = basins.leaves();
    prove!(a < leaves && b < leaves);
    let node = ancestors.lca(a, b).unwrap();
    basins.altitude(node)
}
