ghost use Rattle.std.specs.Prelude.{◌≡◌, ◌*◌, ◌≤◌};
ghost use Rattle.edge_order.specs.Order.{order_of};

use crate::graphs::graph_of;
use edge_order::Order;
use hg_base::{Graph, PlacedEdge};
use std::alloc::{AllocError, Global};
use std::process::Abort;
use std::test::Fail;
use std::thread::Threads;
use tile_plan::{Plan, PlanFault, Side};

// The edges of a picture of equal samples, 4 pixels wide and 2 high: each pixel's edge to the right, then down.
const PICTURE: [(u32, u32, u32); 10] = [
    (0, 1, 0),
    (0, 4, 0),
    (1, 2, 0),
    (1, 5, 0),
    (2, 3, 0),
    (2, 6, 0),
    (3, 7, 0),
    (4, 5, 0),
    (5, 6, 0),
    (6, 7, 0),
];

// What a plan tells of a part.
struct Told {
    range: (u32, u32),
    parent: Option<(u32, Side)>,
    edges: usize,
}

// The two squares, and both together.
static PARTS: [Told; 3] = [
    Told {
        range: (0, 4),
        parent: Some((2, Side::Left)),
        edges: 4,
    },
    Told {
        range: (4, 4),
        parent: Some((2, Side::Right)),
        edges: 4,
    },
    Told {
        range: (0, 8),
        parent: None,
        edges: 2,
    },
];

// The edges between the two squares.
const LOT: [PlacedEdge; 2] = [
    PlacedEdge {
        rank: 2,
        a: 1,
        b: 4,
    },
    PlacedEdge {
        rank: 8,
        a: 3,
        b: 6,
    },
];

// The vertex at each place.
static VERTICES: [u32; 8] = [0, 1, 4, 5, 2, 3, 6, 7];

// Compares the places of a plan of eight vertices.
fn compare_places(rt: &impl Abort, plan: &Plan) {
    assert!(rt; plan.n() == 8);
    for place in 0..8 {
        let vertex = VERTICES[place as usize];
        assert!(rt; vertex < 8);
        assert!(rt; plan.vertex_at(place) == vertex);
        assert!(rt; plan.place_of(vertex) == place);
    }
}

// Compares what a plan of two squares tells of each part.
fn compare_parts(rt: &impl Abort, plan: &Plan) {
    assert!(rt; plan.root() == 2);
    for part in 0..3 {
        let told = &PARTS[part as usize];
        assert!(rt; plan.range(part) == told.range);
        assert!(rt; plan.parent(part) == told.parent);
        assert!(rt; plan.lot(part).len() == told.edges);
    }
}

#[test]
fn two_squares(rt: HostRuntime) -> Result<(), Fail> {
    let graph = graph_of(&rt, rt.alloc(), 8, &PICTURE)?;
    let order = Order::of(&rt, rt.alloc(), &graph)?;
    assert!(rt; graph.n() == 8);
    let plan = Plan::squares(rt.alloc(), &graph, &order, 4, 2, 2)?;
    compare_places(&rt, &plan);
    compare_parts(&rt, &plan);
    assert!(rt; plan.tiles() == 2);
    assert!(rt; plan.children(2) == (0, 1));
    assert!(rt; plan.lot(2) == LOT.as_slice());
    let rooms = [plan.room_of(0), plan.room_of(1)];
    assert!(rt; (rooms[0].places, rooms[0].chunks) == (8, 2));
    assert!(rt; (rooms[1].places, rooms[1].chunks) == (4, 1));
    Ok(())
}

// How many tiles the plan of a graph without edges has, as a picture or in blocks of one vertex.
fn tiles(
    rt: &(impl Abort + Threads + Sync),
    alloc: Global,
    n: u32,
    shape: Option<(u32, u32, u32)>,
) -> Result<u32, PlanFault>
    requires some { 1 ≤ n }
    requires few { n ≤ 1048576 }
{
    let graph = Graph::new(n, Vec::new(alloc));
    let order = Order::of(rt, alloc, &graph).or(Err(PlanFault::OutOfMemory))?;
    let Some((width, height, tile)) = shape else {
        return Ok(Plan::blocks(alloc, &graph, &order, 1)?.tiles());
    };
    assert!(rt; u64::from(width) * u64::from(height) == u64::from(n) && 1 <= tile);
    Ok(Plan::squares(alloc, &graph, &order, width, height, tile)?.tiles())
}

// How many vertices there are, their picture and the side of its squares, and how many tiles.
static TILES: [(u32, Option<(u32, u32, u32)>, Result<u32, PlanFault>); 5] = [
    (1, None, Ok(1)),
    (65536, None, Ok(65536)),
    (65537, None, Err(PlanFault::TooManyTiles(65537))),
    (
        262144,
        Some((512, 512, 1)),
        Err(PlanFault::TooManyTiles(262144)),
    ),
    (262144, Some((512, 512, 64)), Ok(64)),
];

#[test]
fn at_most_65536_tiles(rt: HostRuntime) {
    for (n, shape, answer) in TILES {
        assert!(rt; 1 <= n && n <= 1048576);
        assert!(rt; tiles(&rt, rt.alloc(), n, shape) == answer);
    }
}

// A path of `n` vertices, whose edges have mixed weights.
fn path(rt: &impl Abort, alloc: Global, n: u32) -> Result<Graph, AllocError> {
    assert!(rt; 1 <= n && n <= 65536);
    let mut rows = Vec::new(alloc);
    for u in 0..n - 1 {
        rows.push((u, u + 1, u * 31 % 17))?;
    }
    graph_of(rt, alloc, n, &rows)
}

// Compares the parts of two plans.
fn compare_ranges(rt: &impl Abort, one: &Plan, other: &Plan) {
    let root = one.root();
    assert!(rt; root == other.root());
    for part in 0..=root {
        assert!(rt; one.range(part) == other.range(part));
        assert!(rt; one.lot(part) == other.lot(part));
    }
}

// Compares what two plans tell.
fn compare(rt: &impl Abort, one: &Plan, other: &Plan) {
    assert!(rt; one.tiles() == other.tiles());
    assert!(rt; one.n() == other.n());
    compare_ranges(rt, one, other);
    for vertex in 0..one.n() {
        assert!(rt; one.place_of(vertex) == other.place_of(vertex));
    }
}

// Compares the plans in blocks that are made with and without threads.
fn compare_blocks(
    rt: &(impl Abort + Threads + Sync),
    alloc: Global,
    graph: &Graph,
    order: &Order,
    tile: u32,
) -> Result<(), Fail>
    requires tile { 1 ≤ tile }
    requires order { order.now ≡ order_of graph.now }
{
    let one = Plan::blocks(alloc, graph, order, tile)?;
    let other = Plan::blocks_in_threads(rt, alloc, graph, order, tile)?;
    compare(rt, &one, &other);
    Ok(())
}

// Compares the plans in squares that are made with and without threads.
fn compare_squares(
    rt: &(impl Abort + Threads + Sync),
    alloc: Global,
    graph: &Graph,
    order: &Order,
    width: u32,
    height: u32,
    tile: u32,
) -> Result<(), Fail>
    requires tile { 1 ≤ tile }
    requires order { order.now ≡ order_of graph.now }
    requires pixels { width * height ≡ graph.now.n }
{
    let one = Plan::squares(alloc, graph, order, width, height, tile)?;
    let other = Plan::squares_in_threads(rt, alloc, graph, order, width, height, tile)?;
    compare(rt, &one, &other);
    Ok(())
}

// Compares the plans of a path that are made with and without threads.
fn compare_forms(
    rt: &(impl Abort + Threads + Sync),
    alloc: Global,
    (width, height): (u32, u32),
    tile: u32,
) -> Result<(), Fail> {
    assert!(rt; 1 <= tile && 1 <= width && 1 <= height);
    assert!(rt; u64::from(width) * u64::from(height) <= 65536);
    let graph = path(rt, alloc, width * height)?;
    let order = Order::of(rt, alloc, &graph)?;
    assert!(rt; width * height == graph.n());
    compare_blocks(rt, alloc, &graph, &order, tile)?;
    compare_squares(rt, alloc, &graph, &order, width, height, tile)
}

#[test]
fn the_same_in_threads(rt: HostRuntime) -> Result<(), Fail> {
    for (picture, tile) in [
        ((1, 1), 1),
        ((2, 1), 1),
        ((3, 2), 2),
        ((64, 63), 5),
        ((160, 128), 5),
    ] {
        compare_forms(&rt, rt.alloc(), picture, tile)?;
    }
    Ok(())
}
