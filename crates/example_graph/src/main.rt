//! The tree of a graph that is made in code, its zones, and its regions at a level.
#![tactic(auto)]

use graph_hierarchy::{GraphHierarchy, Tiling};
use hg_base::{Edge, Graph, OpenGate, Sink, StdSink, write_all};
use label_writer::write_labels;
use partition_tree::write_tree;
use quasi_flat_zones::zones;
use saliency::cut;
use std::alloc::Global;
use std::process::ExitCode;
use std::thread::Threads;

// The weights of the edges of a ring: each vertex is joined to the next one, and the last to the first.
const WEIGHTS: [u32; 12] = [3, 1, 4, 1, 5, 9, 2, 6, 5, 3, 5, 8];

fn write_reports(rt: &(impl Threads + Sync), alloc: Global, out: &mut impl Sink) -> Option<()> {
    let mut edges = Vec::new(alloc);
    for u in 0..12_u32 {
        let (v, w) = ((u + 1) % 12, WEIGHTS[u as usize]);
        edges.push(Edge { u, v, w }).ok()?;
    }
    let graph = Graph::from_edges(12, edges).ok()?;
    let made = GraphHierarchy::of(rt, alloc, &graph, Tiling::Blocks(4), 2, &OpenGate).ok()?;
    let zones = zones(alloc, &made.tree).ok()?;
    let regions = cut(alloc, &made.tree, 4).ok()?;
    write_all(out, &write_tree(alloc, &made.tree).ok()?).ok()?;
    write_all(out, &write_tree(alloc, &zones).ok()?).ok()?;
    write_all(out, &write_labels(alloc, &regions).ok()?).ok()
}

fn main(rt: HostRuntime) -> ExitCode {
    let mut out = StdSink::new(rt.stdout());
    match write_reports(&rt, rt.alloc(), &mut out) {
        Some(()) => ExitCode::SUCCESS,
        None => ExitCode::FAILURE,
    }
}
