ghost use Rattle.std.specs.Prelude.{◌≡◌, ℕ, ◌*◌, ◌-◌, ◌/◌, ◌%◌, ◌<◌, ◌≤◌, IfOk, length};
ghost use Rattle.contour_map.specs.Places.{AreEdgeValues};
ghost use Rattle.contour_map.specs.Contours.{IsContourMap, contour_map, point_value};

use crate::places::EdgeValues;
use hg_base::OutOfMemory;
use rayon::prelude::*;
use std::alloc::{AllocError, Global};
use std::marker::Model;
use std::thread::Threads;

/// A contour map of a picture: a value for each point of its Khalimsky grid, rows from the top, points from the left. The
/// points are the pixels, the places between two neighbours, and the corners where four pixels meet.
#[derive(Drop)]
pub struct ContourMap {
    pub(crate) columns: u32,
    pub(crate) rows: u32,
    pub(crate) points: Vec<u64>,
}

impl Model for ContourMap {
    ghost use Rattle.contour_map.specs.Contours.{PointGrid};

    ghost Value = { PointGrid };

    ghost view = { λ m. record { columns = m.columns; rows = m.rows; points = m.points.items } };
}

impl ContourMap {
    /// The contour map of a picture of this width and height in pixels, by the values of its graph's edges, which are in
    /// order of number: 0 at each pixel, at each place the value of the edge between its two neighbours, and at each corner
    /// the greatest of the four places around it. The error is want of memory.
    pub fn of(
        alloc: Global,
        width: u32,
        height: u32,
        values: &[u64],
    ) -> Result<ContourMap, OutOfMemory>
        requires { AreEdgeValues width height values.now }
        ensures map { IfOk result (λ map. map ≡ contour_map width height values.now) }
        ensures contours { IfOk result (λ map. IsContourMap width height values.now map) }
    {
        let edges = EdgeValues {
            width,
            height,
            values,
        };
        map_of(alloc, &edges).map_err(|_| OutOfMemory)
    }

    /// The same map, whose points are found in as many threads as can be had.
    pub fn of_in_threads(
        rt: &(impl Threads + Sync),
        alloc: Global,
        width: u32,
        height: u32,
        values: &[u64],
    ) -> Result<ContourMap, OutOfMemory>
        requires values { AreEdgeValues width height values.now }
        ensures map { IfOk result (λ map. map ≡ contour_map width height values.now) }
        ensures contours { IfOk result (λ map. IsContourMap width height values.now map) }
    {
        let edges = EdgeValues {
            width,
            height,
            values,
        };
        map_in_threads(rt, alloc, &edges).map_err(|_| OutOfMemory)
    }
}

// The contour map by the values of the edges.
fn map_of(alloc: Global, edges: &EdgeValues) -> Result<ContourMap, AllocError>
    requires { AreEdgeValues edges.now.width edges.now.height edges.now.values.now }
    ensures map { IfOk result (λ map. map ≡ contour_map edges.now.width edges.now.height edges.now.values.now) }
    ensures contours { IfOk result (λ map. IsContourMap edges.now.width edges.now.height edges.now.values.now map) }
{
    let points = points(alloc, edges)?;
    Ok(map_with(edges, points))
}

// The contour map of these points.
fn map_with(edges: &EdgeValues, points: Vec<u64>) -> ContourMap
    requires values { AreEdgeValues edges.now.width edges.now.height edges.now.values.now }
    requires points { points.items ≡ (contour_map edges.now.width edges.now.height edges.now.values.now).points }
    ensures map { result ≡ contour_map edges.now.width edges.now.height edges.now.values.now }
    ensures contours { IsContourMap edges.now.width edges.now.height edges.now.values.now result }
{
    ContourMap {
        columns: 2 * edges.width - 1,
        rows: 2 * edges.height - 1,
        points,
    }
}

// The value of each point of the grid.
fn points(alloc: Global, edges: &EdgeValues) -> Result<Vec<u64>, AllocError>
    requires { AreEdgeValues edges.now.width edges.now.height edges.now.values.now }
    ensures { IfOk result (λ points. points.items ≡ (contour_map edges.now.width edges.now.height edges.now.values.now).points) }
{
    let count = point_count(edges);
    let mut points = Vec::with_capacity(alloc, count as usize)?;
    for i in 0..count {
        points.push(point(edges, i))?;
    }
    Ok(points)
}

// The contour map by the values of the edges, whose points are found in threads.
fn map_in_threads(
    rt: &(impl Threads + Sync),
    alloc: Global,
    edges: &EdgeValues,
) -> Result<ContourMap, AllocError>
    requires { AreEdgeValues edges.now.width edges.now.height edges.now.values.now }
    ensures map { IfOk result (λ map. map ≡ contour_map edges.now.width edges.now.height edges.now.values.now) }
    ensures contours { IfOk result (λ map. IsContourMap edges.now.width edges.now.height edges.now.values.now map) }
{
    let points = points_in_threads(rt, alloc, edges)?;
    Ok(map_with(edges, points))
}

// The value of each point of the grid, found in threads.
fn points_in_threads(
    rt: &(impl Threads + Sync),
    alloc: Global,
    edges: &EdgeValues,
) -> Result<Vec<u64>, AllocError>
    requires { AreEdgeValues edges.now.width edges.now.height edges.now.values.now }
    ensures { IfOk result (λ points. points.items ≡ (contour_map edges.now.width edges.now.height edges.now.values.now).points) }
{
    let mut points = vec![in alloc; 0; point_count(edges) as usize]?;
    fill(rt, edges, &mut points);
    Ok(points)
}

// Puts the value of each point in its place.
fn fill(rt: &(impl Threads + Sync), edges: &EdgeValues, points: &mut [u64])
    requires values { AreEdgeValues edges.now.width edges.now.height edges.now.values.now }
    requires all { length points.old ≡ (2 * edges.now.width - 1) * (2 * edges.now.height - 1) }
    ensures { points.new ≡ (contour_map edges.now.width edges.now.height edges.now.values.now).points }
{
    par_for_each_mut(
        rt,
        points,
        |i: usize, place: &mut u64|
            requires { AreEdgeValues edges.now.width edges.now.height edges.now.values.now × (i < (2 * edges.now.width - 1) * (2 * edges.now.height - 1)) }
            ensures { place.new ≡ point_value edges.entry.now.width edges.entry.now.height edges.entry.now.values.now (i % (2 * edges.entry.now.width - 1)) (i / (2 * edges.entry.now.width - 1)) }
        {
            *place = point(edges, i as u32);
        },
    );
}

// How many points the grid has.
fn point_count(edges: &EdgeValues) -> u32
    requires { AreEdgeValues edges.now.width edges.now.height edges.now.values.now }
    ensures count { result ≡ (2 * edges.now.width - 1) * (2 * edges.now.height - 1) }
    ensures few { result ≤ 4194304 }
{
    (2 * edges.width - 1) * (2 * edges.height - 1)
}

// The value of point i, by rows.
fn point(edges: &EdgeValues, i: u32) -> u64
    requires values { AreEdgeValues edges.now.width edges.now.height edges.now.values.now }
    requires within { i < (2 * edges.now.width - 1) * (2 * edges.now.height - 1) }
    ensures { result ≡ point_value edges.now.width edges.now.height edges.now.values.now (i % (2 * edges.now.width - 1)) (i / (2 * edges.now.width - 1)) }
{
    let columns = 2 * edges.width - 1;
    edges.point(i % columns, i / columns)
}
