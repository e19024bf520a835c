// Making a report.
ghost use Rattle.std.specs.Prelude.{◌≡◌, Some, None, IfOk};
ghost use Rattle.edge_order.specs.Order.{order_of};
ghost use Rattle.graph_hierarchy.specs.Hierarchies.{IsTreeOf};
ghost use Rattle.hg_base.specs.declared.fault.InputFault.{InputFault};
ghost use Rattle.higra_input.specs.Inputs.{input_graph};
ghost use Rattle.higra_report.specs.Reports.{IsReportIn, component_side, request_receipt, refusal, report_of, text_of};
ghost use Rattle.higra_words.specs.Allowed.{CanReport};
ghost use Rattle.higra_report.specs.Theorems.{HasComponents, IsHierarchy};

use super::components::{component_side, components_about};
use super::drawing::picture_about;
use super::fault::ReportFault;
use super::planning::{edges_hierarchy, pixels_hierarchy};
use super::texts::text_of;
use graph_hierarchy::GraphHierarchy;
use hg_base::{Gate, Graph, OutOfMemory};
use higra_input::Input;
use higra_words::{Form, Report, Request};
use merge_board::Receipt;
use pgm_reader::graph_of;
use report_lines::Pieces;
use std::alloc::Global;
use std::thread::Threads;

/// The bytes of the report that is asked for, about this input, and the receipt of the board on which its tree was made:
/// how many tiles the input has, how many workers were asked for and how many edges the graph has. The workers pass the
/// gate.
///
/// A picture is drawn of a picture alone, and of at most 65,535 labels; a component tree is of a picture alone; and a plan
/// has at most 65,536 tiles. Else the input has the fault NotAPicture, TooManyTiles or TooManyLabels, the first of these
/// that it has. Memory may run out.
#[tactic(auto, using(crate::proofs::RefusalLemmas::refused_for), unfolding(crate::specs::Reports::refusal, crate::specs::Reports::report_of))]
pub fn report<G: Gate>(
    rt: &(impl Threads + Sync),
    alloc: Global,
    request: &Request,
    input: &Input,
    gate: &G,
) -> Result<(Vec<u8>, Receipt), ReportFault>
    requires { CanReport request.now }
    ensures accepted { IfOk result (λ _. refusal request.now input.now ≡ None) }
    ensures bytes { IfOk result (λ made. made.0.items ≡ report_of request.now input.now) }
    ensures refused { (fault : InputFault) → result ≡ Err (ReportFault.Input fault) → refusal request.now input.now ≡ Some fault }
    ensures receipt { IfOk result (λ made. made.1 ≡ request_receipt request.now input.now) }
    ensures hierarchy { IfOk result (λ _. IsHierarchy (input_graph input.now)) }
    ensures components { IfOk result (λ _. HasComponents (component_side request.now.report) input.now) }
{
    match report_in_pieces(rt, alloc, request, input, gate) {
        Ok((pieces, receipt)) => Ok((pieces.joined(alloc)?, receipt)),
        Err(fault) => Err(fault),
    }
}

/// The same report in pieces.
pub fn report_in_pieces<G: Gate>(
    rt: &(impl Threads + Sync),
    alloc: Global,
    request: &Request,
    input: &Input,
    gate: &G,
) -> Result<(Pieces, Receipt), ReportFault>
    requires { CanReport request.now }
    ensures report { IsReportIn request.now.form request.now.tile request.now.report input.now result }
    ensures receipt { IfOk result (λ made. made.1 ≡ request_receipt request.now input.now) }
    ensures hierarchy { IfOk result (λ _. IsHierarchy (input_graph input.now)) }
    ensures components { IfOk result (λ _. HasComponents (component_side request.now.report) input.now) }
{
    match request.form {
        Form::Text => text_about(rt, alloc, request, input, gate),
        Form::Pgm => picture_about(rt, alloc, request, input, gate),
    }
}

// The text of a report about an input, and the receipt.
fn text_about<G: Gate>(
    rt: &(impl Threads + Sync),
    alloc: Global,
    request: &Request,
    input: &Input,
    gate: &G,
) -> Result<(Pieces, Receipt), ReportFault>
    requires { CanReport request.now }
    ensures text { IsReportIn Form.Text request.now.tile request.now.report input.now result }
    ensures receipt { IfOk result (λ made. made.1 ≡ request_receipt request.now input.now) }
    ensures hierarchy { IfOk result (λ _. IsHierarchy (input_graph input.now)) }
    ensures components { IfOk result (λ _. HasComponents (component_side request.now.report) input.now) }
{
    match component_side(request.report) {
        Some(side) => components_about(rt, alloc, request, side, input, gate),
        None => text_about_graph(rt, alloc, request, input, gate),
    }
}

// The text of a report about the graph of an input, and the receipt.
#[tactic(auto, using(crate::proofs::ComponentLemmas::graph_accepted, crate::proofs::ComponentLemmas::graph_refused, crate::proofs::ComponentLemmas::graph_text, crate::proofs::ComponentLemmas::no_components, crate::proofs::PlanningLemmas::receipt_squares, crate::proofs::PlanningLemmas::pixels_in, crate::proofs::PlanningLemmas::edges_in))]
fn text_about_graph<G: Gate>(
    rt: &(impl Threads + Sync),
    alloc: Global,
    request: &Request,
    input: &Input,
    gate: &G,
) -> Result<(Pieces, Receipt), ReportFault>
    requires request { CanReport request.now }
    requires graph { component_side request.now.report ≡ None }
    ensures text { IsReportIn Form.Text request.now.tile request.now.report input.now result }
    ensures receipt { IfOk result (λ made. made.1 ≡ request_receipt request.now input.now) }
    ensures hierarchy { IfOk result (λ _. IsHierarchy (input_graph input.now)) }
    ensures components { IfOk result (λ _. HasComponents (component_side request.now.report) input.now) }
{
    match input {
        Input::Edges(graph) => {
            let made = edges_hierarchy(rt, alloc, graph, request.tile, request.workers, gate)?;
            Ok(text(rt, alloc, request.report, graph, made)?)
        }
        Input::Picture(picture) => {
            let graph = graph_of(rt, alloc, picture)?;
            let (tile, workers) = (request.tile, request.workers);
            let made = pixels_hierarchy(rt, alloc, picture, &graph, tile, workers, gate)?;
            Ok(text(rt, alloc, request.report, &graph, made)?)
        }
    }
}

// The text of a report about a graph, whose order and tree these are, and the receipt.
fn text(
    rt: &(impl Threads + Sync),
    alloc: Global,
    report: Report,
    graph: &Graph,
    made: GraphHierarchy,
) -> Result<(Pieces, Receipt), OutOfMemory>
    requires order { made.order ≡ order_of graph.now }
    requires tree { IsTreeOf graph.now made.tree }
    ensures text { IfOk result (λ told. told.0 ≡ text_of report graph.now) }
    ensures receipt { IfOk result (λ told. told.1 ≡ made.receipt) }
    ensures hierarchy { IfOk result (λ _. IsHierarchy graph.now) }
{
    let GraphHierarchy {
        order,
        tree,
        receipt,
    } = made;
    let text = text_of(rt, alloc, report, graph, &order, &tree)?;
    Ok((text, receipt))
}
