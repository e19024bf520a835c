// Drawing the contours of an input.
ghost use Rattle.std.specs.Prelude.{◌≡◌, IfOk};
ghost use Rattle.contour_map.specs.Drawn.{AreContoursIn};
ghost use Rattle.edge_order.specs.Order.{order_of};
ghost use Rattle.extinction.specs.HierarchicalWatershed.{hierarchical_of};
ghost use Rattle.tree_laws.specs.Tree.{graph_tree};
ghost use Rattle.pgm_reader.specs.Grid as grid;
ghost use Rattle.higra_input.specs.Inputs.{input_graph};
ghost use Rattle.graph_hierarchy.specs.Hierarchies.{IsTreeOf};
ghost use Rattle.higra_report.specs.Reports.{cut_tree};
ghost use Rattle.higra_report.specs.Theorems.{IsHierarchy};
ghost use Rattle.contour_run.specs.Drawing.{AreDrawn, contours_receipt};
ghost use Rattle.contour_run.specs.Running.{CanDraw};

use super::request::ContourRequest;
use contour_map::{draw_contours, draw_saliencies};
use edge_order::Order;
use extinction::hierarchical_saliencies;
use graph_hierarchy::GraphHierarchy;
use hg_base::{FaultKind, Gate, Graph, InputFault, Kind, OutOfMemory};
use higra_input::Input;
use higra_report::{Basins, ReportFault, pixels_hierarchy};
use merge_board::Receipt;
use partition_tree::Tree;
use pgm_reader::{Picture, graph_of};
use std::alloc::Global;
use std::thread::Threads;

/// The contours of an input, as the bytes of a PGM picture, and the receipt of the board on which the tree of its graph was
/// made; the workers pass the gate.
///
/// The input's fault is NotAPicture exactly where it is an edge list; else TooManyTiles exactly where there are more than
/// 65,536 tiles. Memory may run out.
pub fn draw<G: Gate>(
    rt: &(impl Threads + Sync),
    alloc: Global,
    request: &ContourRequest,
    input: &Input,
    gate: &G,
) -> Result<(Vec<u8>, Receipt), ReportFault>
    requires { CanDraw request.now }
    ensures drawn { AreDrawn request.now input.now result }
    ensures receipt { IfOk result (λ drawn. drawn.1 ≡ contours_receipt request.now input.now) }
    ensures hierarchy { IfOk result (λ _. IsHierarchy (input_graph input.now)) }
{
    match input {
        Input::Edges(_) => Err(ReportFault::Input(InputFault {
            kind: FaultKind::NotAPicture,
            at: 0,
            value: 0,
        })),
        Input::Picture(picture) => draw_picture(rt, alloc, request, picture, gate),
    }
}

// The contours of a picture, and the receipt.
fn draw_picture<G: Gate>(
    rt: &(impl Threads + Sync),
    alloc: Global,
    request: &ContourRequest,
    picture: &Picture,
    gate: &G,
) -> Result<(Vec<u8>, Receipt), ReportFault>
    requires { CanDraw request.now }
    ensures drawn { AreDrawn request.now (Input.Picture picture.now) result }
    ensures receipt { IfOk result (λ drawn. drawn.1 ≡ contours_receipt request.now (Input.Picture picture.now)) }
    ensures hierarchy { IfOk result (λ _. IsHierarchy (input_graph (Input.Picture picture.now))) }
{
    let graph = graph_of(rt, alloc, picture)?;
    let (tile, workers) = (request.tile, request.workers);
    let GraphHierarchy {
        order,
        tree,
        receipt,
    } = pixels_hierarchy(rt, alloc, picture, &graph, tile, workers, gate)?;
    let bytes = contours_by(rt, alloc, request.kind, picture, &graph, &order, &tree)?;
    Ok((bytes, receipt))
}

// The contours of a picture, whose graph, order and tree these are, in the tree of a kind.
fn contours_by(
    rt: &(impl Threads + Sync),
    alloc: Global,
    kind: Option<Kind>,
    picture: &Picture,
    graph: &Graph,
    order: &Order,
    tree: &Tree,
) -> Result<Vec<u8>, OutOfMemory>
    requires graph { graph.now ≡ grid.graph_of picture.now }
    requires order { order.now ≡ order_of graph.now }
    requires tree { IsTreeOf graph.now tree.now }
    ensures { IfOk result (λ bytes. AreContoursIn picture.now (cut_tree kind graph.now) bytes.items) }
{
    match kind {
        None => altitude_contours(rt, alloc, picture, graph, tree),
        Some(kind) => hierarchy_contours(rt, alloc, kind, picture, graph, order, tree),
    }
}

// The contours in the graph's own tree.
fn altitude_contours(
    rt: &(impl Threads + Sync),
    alloc: Global,
    picture: &Picture,
    graph: &Graph,
    tree: &Tree,
) -> Result<Vec<u8>, OutOfMemory>
    requires graph { graph.now ≡ grid.graph_of picture.now }
    requires tree { IsTreeOf graph.now tree.now }
    ensures { IfOk result (λ bytes. AreContoursIn picture.now (graph_tree graph.now) bytes.items) }
{
    draw_contours(rt, alloc, picture, graph, tree)
}

// The contours in the graph's hierarchical watershed by a kind. That tree isn't made: the saliencies are found over the basins
// of its watershed cut.
fn hierarchy_contours(
    rt: &(impl Threads + Sync),
    alloc: Global,
    kind: Kind,
    picture: &Picture,
    graph: &Graph,
    order: &Order,
    tree: &Tree,
) -> Result<Vec<u8>, OutOfMemory>
    requires graph { graph.now ≡ grid.graph_of picture.now }
    requires order { order.now ≡ order_of graph.now }
    requires tree { IsTreeOf graph.now tree.now }
    ensures { IfOk result (λ bytes. AreContoursIn picture.now (hierarchical_of graph.now kind) bytes.items) }
{
    let basins = Basins::of(rt, alloc, graph, order, tree)?;
    let (attributes, minima) = (&basins.attributes, &basins.minima);
    let values = hierarchical_saliencies(rt, alloc, graph, tree, attributes, minima, kind)?;
    draw_saliencies(rt, alloc, picture, &values)
}
