// The component trees of a picture.
ghost use Rattle.std.specs.Prelude.{◌≡◌, ◌*◌, Some, IfOk, length};
ghost use Rattle.component_tree.specs.Components.{IsComponentTree};
ghost use Rattle.component_tree.specs.MinTree.{component_tree_of, value_at};
ghost use Rattle.component_tree.specs.Report.{components_report};
ghost use Rattle.component_tree.specs.Weighed.{weighed_graph};
ghost use Rattle.edge_laws.specs.Rank.{ranked};
ghost use Rattle.higra_input.specs.Inputs.{input_graph};
ghost use Rattle.higra_report.specs.Reports.{IsReportIn, component_side, request_receipt};
ghost use Rattle.graph_hierarchy.specs.Hierarchies.{IsTreeOf};
ghost use Rattle.higra_words.specs.Allowed.{CanReport};
ghost use Rattle.higra_report.specs.Theorems.{HasComponents, IsHierarchy};

use super::fault::ReportFault;
use super::planning::pixels_hierarchy;
use component_tree::{Side, Values, component_tree, components_pieces, weighed};
use graph_hierarchy::GraphHierarchy;
use hg_base::{FaultKind, Gate, Graph, InputFault, OutOfMemory};
use higra_input::Input;
use higra_words::{Form, Report, Request};
use merge_board::Receipt;
use partition_tree::Tree;
use pgm_reader::{Picture, graph_of};
use report_lines::Pieces;
use std::alloc::{AllocError, Global};
use std::thread::Threads;

/// The side of which a report is the component tree, if it is one.
pub(crate) fn component_side(report: Report) -> Option<Side>
    ensures { result ≡ component_side report }
{
    match report {
        Report::Mintree => Some(Side::Min),
        Report::Maxtree => Some(Side::Max),
        _ => None,
    }
}

/// The text of the component tree of a picture, and the receipt of the board on which the tree of its weighed graph was
/// made; the workers pass the gate.
///
/// The input's fault is NotAPicture exactly where it is an edge list; else TooManyTiles exactly where there are more than
/// 65,536 tiles. Memory may run out.
#[tactic(auto, using(crate::proofs::ComponentLemmas::edges_refused))]
pub(crate) fn components_about<G: Gate>(
    rt: &(impl Threads + Sync),
    alloc: Global,
    request: &Request,
    side: Side,
    input: &Input,
    gate: &G,
) -> Result<(Pieces, Receipt), ReportFault>
    requires request { CanReport request.now }
    requires side { component_side request.now.report ≡ Some side }
    ensures text { IsReportIn Form.Text request.now.tile request.now.report input.now result }
    ensures receipt { IfOk result (λ made. made.1 ≡ request_receipt request.now input.now) }
    ensures hierarchy { IfOk result (λ _. IsHierarchy (input_graph input.now)) }
    ensures components { IfOk result (λ _. HasComponents (component_side request.now.report) input.now) }
{
    match input {
        Input::Edges(_) => Err(ReportFault::Input(InputFault {
            kind: FaultKind::NotAPicture,
            at: 0,
            value: 0,
        })),
        Input::Picture(picture) => components_of(rt, alloc, request, side, picture, gate),
    }
}

// The same of a picture.
#[tactic(auto, using(crate::proofs::ComponentLemmas::components_text_is, crate::proofs::ComponentLemmas::has_components, crate::proofs::ComponentLemmas::picture_accepted, crate::proofs::ComponentLemmas::weighed_pixels, crate::proofs::ComponentLemmas::weighed_edges, crate::proofs::PlanningLemmas::receipt_squares))]
fn components_of<G: Gate>(
    rt: &(impl Threads + Sync),
    alloc: Global,
    request: &Request,
    side: Side,
    picture: &Picture,
    gate: &G,
) -> Result<(Pieces, Receipt), ReportFault>
    requires request { CanReport request.now }
    requires side { component_side request.now.report ≡ Some side }
    ensures text { IsReportIn Form.Text request.now.tile request.now.report (Input.Picture picture.now) result }
    ensures receipt { IfOk result (λ made. made.1 ≡ request_receipt request.now (Input.Picture picture.now)) }
    ensures hierarchy { IfOk result (λ _. IsHierarchy (input_graph (Input.Picture picture.now))) }
    ensures components { IfOk result (λ _. HasComponents (component_side request.now.report) (Input.Picture picture.now)) }
{
    let values = values_of(alloc, picture)?;
    let graph = graph_of(rt, alloc, picture)?;
    let weighed = weighed(alloc, &graph, &values, side)?;
    let (tile, workers) = (request.tile, request.workers);
    let GraphHierarchy { tree, receipt, .. } = pixels_hierarchy(
        rt, alloc, picture, &weighed, tile, workers, gate,
    )?;
    let pieces = components_text(rt, alloc, side, &values, &graph, &weighed, &tree)?;
    Ok((pieces, receipt))
}

// The text of the component tree of a graph's vertices by their values, from the tree of the graph that was weighed.
fn components_text(
    rt: &(impl Threads + Sync),
    alloc: Global,
    side: Side,
    values: &Values,
    graph: &Graph,
    weighed: &Graph,
    tree: &Tree,
) -> Result<Pieces, OutOfMemory>
    requires values { length values.now ≡ graph.now.n }
    requires weighed { weighed.now ≡ weighed_graph side values.now graph.now }
    requires tree { IsTreeOf weighed.now tree.now }
    ensures text { IfOk result (λ pieces. pieces ≡ components_report side (component_tree_of side values.now graph.now)) }
    ensures components { IfOk result (λ _. IsComponentTree side (value_at values.now) graph.now.n (ranked graph.now) (component_tree_of side values.now graph.now)) }
    ensures hierarchy { IfOk result (λ _. IsHierarchy graph.now) }
{
    graph.keeps_its_rules();
    let components = component_tree(alloc, values, side, weighed, tree)?;
    components_pieces(rt, alloc, &components, side)
}

// The samples of a picture as values of its pixels.
#[tactic(auto, using(crate::proofs::EnergyLemmas::areas_more))]
fn values_of(alloc: Global, picture: &Picture) -> Result<Values, AllocError>
    ensures samples { IfOk result (λ values. values ≡ picture.now.samples) }
    ensures one_each { IfOk result (λ values. length values ≡ picture.now.width * picture.now.height) }
{
    let count = picture.width() * picture.height();
    let mut values = Vec::with_capacity(alloc, count as usize)?;
    for i in 0..count {
        values.push(u32::from(picture.sample(i)))?;
    }
    Ok(Values::new(values))
}
