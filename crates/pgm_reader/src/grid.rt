ghost use Rattle.std.specs.Prelude.{◌≡◌, ◌*◌, ◌<◌, ◌≤◌, ◌++◌, map, IfOk, OnOk};
ghost use Rattle.pgm_reader.specs.Grid.{right_of, below_of, link_of, links, edge_between, graph_of};

use crate::picture::Picture;
use hg_base::{Edge, Graph, OutOfMemory};
use rayon::prelude::*;
use std::alloc::{AllocError, Global};
use std::thread::Threads;

// Puts the edge between a pixel and its neighbour to the right at the end, without its weight, if there is one.
fn push_right(edges: &mut Vec<Edge>, width: u32, pixel: u32) -> Result<(), AllocError>
    requires some_width { 1 ≤ width }
    requires few { pixel < 1048576 }
    ensures { OnOk result (map link_of edges.new.items ≡ map link_of edges.old.items ++ right_of width pixel) }
{
    if pixel % width + 1 < width {
        edges.push(between(pixel, pixel + 1))?;
    }
    Ok(())
}

// Puts the edge between a pixel and its neighbour below at the end, without its weight, if there is one.
fn push_below(edges: &mut Vec<Edge>, width: u32, height: u32, pixel: u32) -> Result<(), AllocError>
    requires some_width { 1 ≤ width }
    requires narrow { width ≤ 1048576 }
    requires few { pixel < 1048576 }
    ensures { OnOk result (map link_of edges.new.items ≡ map link_of edges.old.items ++ below_of width height pixel) }
{
    if pixel / width + 1 < height {
        edges.push(between(pixel, pixel + width))?;
    }
    Ok(())
}

// The edge between two pixels, whose weight isn't known yet.
fn between(u: u32, v: u32) -> Edge
    ensures { link_of result ≡ (u, v) }
{
    Edge { u, v, w: 0 }
}

// The edges between neighbours of a picture, in raster order: to the right before below. Their weights aren't known yet.
fn links(alloc: Global, width: u32, height: u32) -> Result<Vec<Edge>, AllocError>
    requires some_width { 1 ≤ width }
    requires some_height { 1 ≤ height }
    requires pixels { width * height ≤ 1048576 }
    ensures { IfOk result (λ v. map link_of v.items ≡ links width height) }
{
    let pixels = width * height;
    let mut edges = Vec::with_capacity(alloc, (2 * pixels - width - height) as usize)?;
    for pixel in 0..pixels {
        push_right(&mut edges, width, pixel)?;
        push_below(&mut edges, width, height, pixel)?;
    }
    Ok(edges)
}

// Gives each edge its weight, in as many threads as can be had.
fn weigh(rt: &(impl Threads + Sync), picture: &Picture, edges: &mut [Edge])
    requires some_width { 1 ≤ picture.now.width }
    requires links { map link_of edges.old ≡ links picture.now.width picture.now.height }
    ensures { edges.new ≡ map (edge_between picture.now.samples) (links picture.now.width picture.now.height) }
{
    par_for_each_mut(
        rt,
        edges,
        |_place: usize, edge: &mut Edge|
            requires { (edge.old.u < picture.now.width * picture.now.height) × (edge.old.v < picture.now.width * picture.now.height) }
            ensures { edge.new ≡ edge_between picture.entry.now.samples (link_of edge.old) }
        {
            let w = u32::from(picture.sample(edge.u).abs_diff(picture.sample(edge.v)));
            edge.w = w;
        },
    );
}

/// The edges of a picture's graph.
fn edges(
    rt: &(impl Threads + Sync),
    alloc: Global,
    picture: &Picture,
) -> Result<Vec<Edge>, AllocError>
    ensures { IfOk result (λ v. v.items ≡ map (edge_between picture.now.samples) (links picture.now.width picture.now.height)) }
{
    let mut edges = links(alloc, picture.width(), picture.height())?;
    weigh(rt, picture, &mut edges);
    Ok(edges)
}

fn graph(rt: &(impl Threads + Sync), alloc: Global, picture: &Picture) -> Result<Graph, AllocError>
    ensures { IfOk result (λ g. g ≡ graph_of picture.now) }
{
    let edges = edges(rt, alloc, picture)?;
    Ok(Graph::new(picture.width() * picture.height(), edges))
}

/// The graph of a picture: its pixels in raster order are the vertices, and each pixel is joined to the one to its
/// right and the one below it, if there are such, by an edge that weighs the absolute difference of the two samples.
/// The error is want of memory.
pub fn graph_of(
    rt: &(impl Threads + Sync),
    alloc: Global,
    picture: &Picture,
) -> Result<Graph, OutOfMemory>
    ensures { IfOk result (λ g. g ≡ graph_of picture.now) }
{
    graph(rt, alloc, picture).map_err(|_| OutOfMemory)
}
