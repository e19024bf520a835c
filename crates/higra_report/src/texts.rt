// The texts of the reports about a graph, of which order and tree are its own.
ghost use Rattle.std.specs.Prelude.{◌≡◌, IfOk};
ghost use Rattle.attributes.specs.Attributes.{attributes_of};
ghost use Rattle.attributes.specs.Report.{attributes_report};
ghost use Rattle.edge_order.specs.Order.{order_of};
ghost use Rattle.energy_cut.specs.Report.{energy_report};
ghost use Rattle.extinction.specs.HierarchicalWatershed.{hierarchical_of};
ghost use Rattle.extinction.specs.Report.{hierarchical_report};
ghost use Rattle.extinction.specs.Survivors.{extinctions_of};
ghost use Rattle.tree_laws.specs.Levels.{AltitudesRise};
ghost use Rattle.tree_laws.specs.Tree.{graph_tree};
ghost use Rattle.tree_laws.specs.Zones.{zones_of};
ghost use Rattle.label_writer.specs.Report.{labels_report};
ghost use Rattle.partition_tree.specs.Report.{tree_report};
ghost use Rattle.watershed_cut.specs.Forest.{forest};
ghost use Rattle.watershed_cut.specs.MinimumLabels.{minima_of};
ghost use Rattle.watershed_cut.specs.Report.{minima_report, watershed_report};
ghost use Rattle.watershed_cut.specs.Rooted.{cost};
ghost use Rattle.watershed_cut.specs.Watershed.{watershed_of};
ghost use Rattle.graph_hierarchy.specs.Hierarchies.{IsTreeOf};
ghost use Rattle.higra_report.specs.Reports.{cut_tree, graph_energies, graph_energy_cut, regions, text_of};
ghost use Rattle.higra_report.specs.Theorems.{IsHierarchy};

use super::hierarchies::{Basins, energies, hierarchy_and_extinctions, regions};
use super::sides::{attributes_of, saliencies_of};
use super::summary::{summary_of, summary_pieces};
use attributes::attributes_pieces;
use edge_order::Order;
use energy_cut::{energy_pieces, least_cut};
use extinction::hierarchical_pieces;
use forest_witness::witness;
use hg_base::{Graph, Kind, OutOfMemory};
use higra_words::Report;
use label_writer::labels_pieces;
use partition_tree::{Tree, tree_pieces};
use quasi_flat_zones::zones;
use report_lines::Pieces;
use saliency::saliency_pieces;
use std::alloc::Global;
use std::thread::Threads;
use watershed_cut::{Minima, minima_pieces, watershed, watershed_pieces};

/// The text of a report about a graph, of which order and tree are its own. A component tree is no report about a graph,
/// and has no text here.
#[tactic(auto, using(crate::proofs::HierarchyLemmas::is_hierarchy, crate::proofs::SharedRoots::shared_roots), unfolding(crate::specs::Reports::text_of))]
pub(crate) fn text_of(
    rt: &(impl Threads + Sync),
    alloc: Global,
    report: Report,
    graph: &Graph,
    order: &Order,
    tree: &Tree,
) -> Result<Pieces, OutOfMemory>
    requires order { order.now ≡ order_of graph.now }
    requires tree { IsTreeOf graph.now tree.now }
    ensures text { IfOk result (λ text. text ≡ text_of report graph.now) }
    ensures hierarchy { IfOk result (λ _. IsHierarchy graph.now) }
{
    match report {
        Report::Tree => tree_pieces(rt, alloc, tree),
        Report::Zones => zones_text(rt, alloc, graph, tree),
        Report::Saliency => saliency_pieces(rt, alloc, &saliencies_of(rt, alloc, graph, tree)?),
        Report::Attributes => {
            attributes_pieces(rt, alloc, &attributes_of(rt, alloc, graph, tree)?)
        }
        Report::Minima => minima_pieces(rt, alloc, &Minima::of(alloc, graph, order, tree)?),
        Report::Watershed => watershed_text(rt, alloc, graph, order, tree),
        Report::Hierarchical(kind) => hierarchical_text(rt, alloc, graph, order, tree, kind),
        Report::Cut(kind, level) => regions_text(rt, alloc, graph, order, tree, kind, level),
        Report::Summary => summary_pieces(alloc, &summary_of(rt, alloc, graph, order, tree)?),
        Report::Mintree | Report::Maxtree => Ok(Pieces::new(alloc)),
        Report::Energy(penalty) => energy_text(rt, alloc, graph, tree, penalty),
    }
}

// The text of the zones of a graph's tree.
#[tactic(auto, using(crate::proofs::CutLemmas::zones_are))]
fn zones_text(
    rt: &(impl Threads + Sync),
    alloc: Global,
    graph: &Graph,
    tree: &Tree,
) -> Result<Pieces, OutOfMemory>
    requires { IsTreeOf graph.now tree.now }
    ensures { IfOk result (λ text. text ≡ tree_report (zones_of (graph_tree graph.now))) }
{
    let _ = graph;
    let zones = zones(alloc, tree)?;
    tree_pieces(rt, alloc, &zones)
}

// The text of the watershed cut.
fn watershed_text(
    rt: &(impl Threads + Sync),
    alloc: Global,
    graph: &Graph,
    order: &Order,
    tree: &Tree,
) -> Result<Pieces, OutOfMemory>
    requires order { order.now ≡ order_of graph.now }
    requires tree { tree.now ≡ graph_tree graph.now }
    ensures { IfOk result (λ text. text ≡ watershed_report (watershed_of graph.now) (minima_of graph.now).count (cost graph.now (forest graph.now))) }
{
    let minima = Minima::of(alloc, graph, order, tree)?;
    let watershed = watershed(alloc, graph, order, tree, &minima)?;
    let weight = witness(graph, &minima, &watershed);
    watershed_pieces(rt, alloc, &watershed, &minima, weight)
}

// The text of the hierarchical watershed of a kind.
fn hierarchical_text(
    rt: &(impl Threads + Sync),
    alloc: Global,
    graph: &Graph,
    order: &Order,
    tree: &Tree,
    kind: Kind,
) -> Result<Pieces, OutOfMemory>
    requires order { order.now ≡ order_of graph.now }
    requires tree { IsTreeOf graph.now tree.now }
    ensures { IfOk result (λ text. text ≡ hierarchical_report (hierarchical_of graph.now kind) (extinctions_of graph.now kind)) }
{
    let basins = Basins::of(rt, alloc, graph, order, tree)?;
    let (hierarchy, values) = hierarchy_and_extinctions(rt, alloc, graph, tree, &basins, kind)?;
    hierarchical_pieces(rt, alloc, &hierarchy, &values)
}

// The text of the regions of a tree at a level.
fn regions_text(
    rt: &(impl Threads + Sync),
    alloc: Global,
    graph: &Graph,
    order: &Order,
    tree: &Tree,
    kind: Option<Kind>,
    level: u64,
) -> Result<Pieces, OutOfMemory>
    requires order { order.now ≡ order_of graph.now }
    requires tree { IsTreeOf graph.now tree.now }
    ensures { IfOk result (λ text. text ≡ labels_report (regions (cut_tree kind graph.now) level)) }
{
    labels_pieces(
        rt,
        alloc,
        &regions(rt, alloc, graph, order, tree, kind, level)?,
    )
}

// The text of the least cut with a penalty for each region.
#[tactic(auto, using(crate::proofs::EnergyLemmas::least_cut_is))]
fn energy_text(
    rt: &(impl Threads + Sync),
    alloc: Global,
    graph: &Graph,
    tree: &Tree,
    penalty: u64,
) -> Result<Pieces, OutOfMemory>
    requires tree { IsTreeOf graph.now tree.now }
    ensures { IfOk result (λ text. text ≡ energy_report (graph_energy_cut graph.now penalty) (graph_energies graph.now penalty)) }
{
    let energies = energies(rt, alloc, graph, tree, penalty)?;
    let cut = least_cut(alloc, tree, &energies)?;
    energy_pieces(rt, alloc, &cut, &energies)
}
