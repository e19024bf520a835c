// Drawing a report as a picture.
ghost use Rattle.std.specs.Prelude.{◌≡◌, ◌*◌, true, IfOk, length};
ghost use Rattle.edge_order.specs.Order.{order_of};
ghost use Rattle.tree_laws.specs.Tree.{graph_tree};
ghost use Rattle.pgm_reader.specs.Grid as grid;
ghost use Rattle.watershed_cut.specs.Watershed.{watershed_of};
ghost use Rattle.higra_report.specs.Drawing.{AreLabelsDrawn, IsDrawn};
ghost use Rattle.higra_input.specs.Inputs.{input_graph};
ghost use Rattle.graph_hierarchy.specs.Hierarchies.{IsTreeOf};
ghost use Rattle.higra_report.specs.Reports.{IsReportIn, component_side, cut_tree, graph_energy_cut, labels_of, request_receipt, regions};
ghost use Rattle.higra_words.specs.Request.{can_be_drawn};
ghost use Rattle.higra_words.specs.Allowed.{CanReport};
ghost use Rattle.higra_report.specs.Theorems.{HasComponents, IsHierarchy};

use super::fault::ReportFault;
use super::hierarchies::{energies, regions};
use super::planning::pixels_hierarchy;
use edge_order::Order;
use energy_cut::least_cut;
use graph_hierarchy::GraphHierarchy;
use hg_base::{FaultKind, Gate, Graph, InputFault, Kind, Labels};
use higra_input::Input;
use higra_words::{Form, Report, Request};
use label_writer::{LabelFault, write_pgm};
use merge_board::Receipt;
use partition_tree::Tree;
use pgm_reader::{Picture, graph_of};
use report_lines::Pieces;
use std::alloc::Global;
use std::thread::Threads;
use watershed_cut::{Minima, watershed};

const NOT_A_PICTURE: InputFault = InputFault {
    kind: FaultKind::NotAPicture,
    at: 0,
    value: 0,
};

/// The picture of a report about an input: each pixel of a picture has its label as sample. And the receipt of the board
/// on which the tree was made; the workers pass the gate.
///
/// The input's fault is NotAPicture exactly where it is an edge list; else TooManyTiles exactly where there are more
/// than 65,536 tiles; else TooManyLabels exactly where there are more than 65,535 labels. Memory may run out.
#[tactic(auto, unfolding(crate::specs::Reports::picture_of))]
pub(crate) fn picture_about<G: Gate>(
    rt: &(impl Threads + Sync),
    alloc: Global,
    request: &Request,
    input: &Input,
    gate: &G,
) -> Result<(Pieces, Receipt), ReportFault>
    requires request { CanReport request.now }
    requires drawn { can_be_drawn request.now.report ≡ true }
    ensures picture { IsReportIn Form.Pgm request.now.tile request.now.report input.now result }
    ensures receipt { IfOk result (λ made. made.1 ≡ request_receipt request.now input.now) }
    ensures hierarchy { IfOk result (λ _. IsHierarchy (input_graph input.now)) }
    ensures components { IfOk result (λ _. HasComponents (component_side request.now.report) input.now) }
{
    match input {
        Input::Edges(_) => Err(ReportFault::Input(NOT_A_PICTURE)),
        Input::Picture(picture) => drawing(rt, alloc, request, picture, gate),
    }
}

// The picture of a report about a picture, and the receipt.
#[tactic(auto, using(crate::proofs::PlanningLemmas::pixels_in, crate::proofs::DrawingLemmas::drawn_alone))]
fn drawing<G: Gate>(
    rt: &(impl Threads + Sync),
    alloc: Global,
    request: &Request,
    picture: &Picture,
    gate: &G,
) -> Result<(Pieces, Receipt), ReportFault>
    requires request { CanReport request.now }
    requires drawn { can_be_drawn request.now.report ≡ true }
    ensures picture { IsReportIn Form.Pgm request.now.tile request.now.report (Input.Picture picture.now) result }
    ensures receipt { IfOk result (λ made. made.1 ≡ request_receipt request.now (Input.Picture picture.now)) }
    ensures hierarchy { IfOk result (λ _. IsHierarchy (input_graph (Input.Picture picture.now))) }
    ensures components { IfOk result (λ _. HasComponents (component_side request.now.report) (Input.Picture picture.now)) }
{
    let graph = graph_of(rt, alloc, picture)?;
    let (tile, workers) = (request.tile, request.workers);
    let GraphHierarchy {
        order,
        tree,
        receipt,
    } = pixels_hierarchy(rt, alloc, picture, &graph, tile, workers, gate)?;
    let pieces = draw_report(rt, alloc, request.report, &graph, &order, &tree, picture)?;
    Ok((pieces, receipt))
}

// The picture of the labels of a report about a picture, whose graph, order and tree these are.
fn draw_report(
    rt: &(impl Threads + Sync),
    alloc: Global,
    report: Report,
    graph: &Graph,
    order: &Order,
    tree: &Tree,
    picture: &Picture,
) -> Result<Pieces, ReportFault>
    requires drawn { can_be_drawn report ≡ true }
    requires graph { graph.now ≡ grid.graph_of picture.now }
    requires order { order.now ≡ order_of graph.now }
    requires tree { IsTreeOf graph.now tree.now }
    ensures { AreLabelsDrawn (labels_of report graph.now) picture.now result }
{
    match report {
        Report::Watershed => draw_watershed(alloc, graph, order, tree, picture),
        Report::Cut(kind, level) => {
            draw_regions(rt, alloc, graph, order, tree, kind, level, picture)
        }
        Report::Energy(penalty) => draw_energy_cut(rt, alloc, graph, tree, penalty, picture),
        Report::Tree
        | Report::Zones
        | Report::Saliency
        | Report::Attributes
        | Report::Minima
        | Report::Hierarchical(_)
        | Report::Summary
        | Report::Mintree
        | Report::Maxtree => unreachable!(),
    }
}

// The picture of the labels of the regions at a level.
#[tactic(auto, using(crate::proofs::DrawingLemmas::region_pixels))]
fn draw_regions(
    rt: &(impl Threads + Sync),
    alloc: Global,
    graph: &Graph,
    order: &Order,
    tree: &Tree,
    kind: Option<Kind>,
    level: u64,
    picture: &Picture,
) -> Result<Pieces, ReportFault>
    requires graph { graph.now ≡ grid.graph_of picture.now }
    requires order { order.now ≡ order_of graph.now }
    requires tree { IsTreeOf graph.now tree.now }
    ensures { IsDrawn (regions (cut_tree kind graph.now) level) picture.now result }
{
    let labels = regions(rt, alloc, graph, order, tree, kind, level)?;
    draw(alloc, &labels, picture)
}

// The picture of the labels of the watershed cut of a picture, whose graph, order and tree these are.
fn draw_watershed(
    alloc: Global,
    graph: &Graph,
    order: &Order,
    tree: &Tree,
    picture: &Picture,
) -> Result<Pieces, ReportFault>
    requires graph { graph.now ≡ grid.graph_of picture.now }
    requires order { order.now ≡ order_of graph.now }
    requires tree { tree.now ≡ graph_tree graph.now }
    ensures { IsDrawn (watershed_of graph.now).labels picture.now result }
{
    let minima = Minima::of(alloc, graph, order, tree)?;
    let watershed = watershed(alloc, graph, order, tree, &minima)?;
    draw(alloc, watershed.labels(), picture)
}

// The picture of the labels of the least cut of a picture's graph, with a penalty for each region.
#[tactic(auto, using(crate::proofs::DrawingLemmas::energy_pixels, crate::proofs::EnergyLemmas::least_cut_is))]
fn draw_energy_cut(
    rt: &(impl Threads + Sync),
    alloc: Global,
    graph: &Graph,
    tree: &Tree,
    penalty: u64,
    picture: &Picture,
) -> Result<Pieces, ReportFault>
    requires graph { graph.now ≡ grid.graph_of picture.now }
    requires tree { IsTreeOf graph.now tree.now }
    ensures { IsDrawn (graph_energy_cut graph.now penalty).labels picture.now result }
{
    let energies = energies(rt, alloc, graph, tree, penalty)?;
    let cut = least_cut(alloc, tree, &energies)?;
    draw(alloc, cut.labels(), picture)
}

// The picture of these labels, one for each pixel of a picture.
#[tactic(auto, using(crate::proofs::DrawingLemmas::few_labels, crate::proofs::DrawingLemmas::many_labels))]
fn draw(alloc: Global, labels: &Labels, picture: &Picture) -> Result<Pieces, ReportFault>
    requires { picture.now.width * picture.now.height ≡ length labels.now.labels }
    ensures { IsDrawn labels.now picture.now result }
{
    match write_pgm(alloc, labels, picture.width(), picture.height()) {
        Ok(bytes) => Ok(Pieces::of(alloc, bytes)?),
        Err(LabelFault::TooManyLabels(count)) => Err(ReportFault::Input(InputFault {
            kind: FaultKind::TooManyLabels,
            at: 0,
            value: u64::from(count),
        })),
        Err(LabelFault::OutOfMemory) => Err(ReportFault::OutOfMemory),
    }
}
