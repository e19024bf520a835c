//! How many regions a made picture has at a level, and the labels of its watershed cut, row by row.
#![tactic(auto)]

use graph_hierarchy::{GraphHierarchy, Tiling};
use hg_base::OpenGate;
use pgm_reader::{graph_of, make_picture};
use saliency::cut;
use std::alloc::Global;
use std::io::Print;
use std::process::ExitCode;
use std::thread::Threads;
use watershed_cut::{Minima, watershed};

const SIDE: u32 = 8;

fn print_labels(rt: &(impl Print + Threads + Sync), alloc: Global) -> Option<()> {
    let picture = make_picture(alloc, SIDE, 1).ok()?;
    let graph = graph_of(rt, alloc, &picture).ok()?;
    let squares = Tiling::Squares {
        width: SIDE,
        height: SIDE,
        side: 4,
    };
    let made = GraphHierarchy::of(rt, alloc, &graph, squares, 2, &OpenGate).ok()?;
    let regions = cut(alloc, &made.tree, 40).ok()?;
    println!(rt; "{} regions at level 40", regions.count()).ok()?;
    let minima = Minima::of(alloc, &graph, &made.order, &made.tree).ok()?;
    let watershed = watershed(alloc, &graph, &made.order, &made.tree, &minima).ok()?;
    for row in watershed.labels().as_slice().chunks(SIDE as usize) {
        println!(rt; "{row:?}").ok()?;
    }
    Some(())
}

fn main(rt: HostRuntime) -> ExitCode {
    match print_labels(&rt, rt.alloc()) {
        Some(()) => ExitCode::SUCCESS,
        None => ExitCode::FAILURE,
    }
}
