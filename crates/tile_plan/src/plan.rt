ghost use Rattle.std.specs.Prelude.{◌≡◌, ℕ, ◌+◌, ◌-◌, ◌*◌, ◌<◌, ◌≤◌, IfOk, length, map, Some};
ghost use Rattle.edge_laws.specs.Edges.{ListedEdge};
ghost use Rattle.hg_base.specs.Lists.{IsIn};
ghost use Rattle.edge_laws.specs.Placed.{placed};
ghost use Rattle.edge_laws.specs.Rising.{IsRising};
ghost use Rattle.edge_order.specs.Order.{order_of};
ghost use Rattle.tile_plan.specs.Grids.{IsSmall, tiles_in};
ghost use Rattle.tile_plan.specs.TiledPictures.{IsFrame, grid_in, vertices_in};
ghost use Rattle.tile_plan.specs.Placing.{AreKeys, IsTable};
ghost use Rattle.tile_plan.specs.Plan.{TilePlan, IsAnswer, IsEdgeAmong, IsLargestFrom, IsPlan, blocks, end_place, first_place, grid_of, home, left, lot_edges, parent_and_side, place_of, right, room_places, room_tiles, root, squares, tile_count, vertices};
ghost use Rattle.tile_plan.specs.PlanFields.{HoldsLots, HoldsPlaces};

use crate::fault::PlanFault;
use crate::filling::{Filling, InThreads, InTurn};
use crate::frame::Frame;
use crate::site::{Grid, Row, Side, Site};
use crate::{lists, placing, tables};
use edge_order::Order;
use hg_base::{Graph, PlacedEdge, Room};
use std::alloc::{AllocError, Global};
use std::marker::Model;
use std::snapshot::Snapshot;
use std::thread::Threads;

// The plan of a graph of fewer edges is made in one thread: others would take longer to start than to do their share.
const FEW: u32 = 16_384;

// The first place of each tile, and the place of each vertex.
#[derive(Drop)]
struct Places {
    starts: Vec<u32>,
    places: Vec<u32>,
}

// The lots of all parts end to end, and where each begins.
#[derive(Drop)]
struct Lots {
    starts: Vec<u32>,
    edges: Vec<PlacedEdge>,
}

/// A plan: the tiles of a picture of vertices, how they are merged two by two, and the lot of edges that each tile
/// and each merge takes in. Vertices have places, which list the tiles one after the other.
#[derive(Drop)]
pub struct Plan {
    frame: Frame,
    tiles: u32,
    // The parts by number.
    rows: Vec<Row>,
    places: Places,
    lots: Lots,
    // The edges as contracts see them.
    order: Snapshot<Order>,
}

impl Model for Plan {
    ghost use Rattle.tile_plan.specs.Plan.{TilePlan};

    ghost Value = { TilePlan };

    ghost use Rattle.tile_plan.specs.PlanFields.{plan_of, HoldsPlan};

    ghost view = { plan_of };

    ghost invariant = { HoldsPlan };
}

// The places of the vertices, by the tile of each.
fn places_of(alloc: Global, tiles: u32, homes: &[u32]) -> Result<Places, AllocError>
    requires few { length homes.now ≤ 1048576 }
    requires tiles { tiles ≤ 65536 }
    requires homes { AreKeys tiles homes.now }
    ensures { IfOk result (λ places. (q : TilePlan) → tiles ≡ tile_count q → IsTable (home q) (vertices q) homes.now → HoldsPlaces q places) }
{
    let starts = placing::starts(alloc, homes, tiles)?;
    let places = placing::places(alloc, homes, &starts)?;
    Ok(Places { starts, places })
}

// The lots of all parts, by the tile and the place of each vertex.
fn lots_of<W: Filling>(
    filling: &W,
    alloc: Global,
    graph: &Graph,
    order: &Order,
    grid: Grid,
    homes: &[u32],
    places: &[u32],
) -> Result<Lots, AllocError>
    requires ready { W.ready }
    requires order { order.now ≡ order_of graph.now }
    requires small { IsSmall grid }
    requires homes { AreKeys (tiles_in grid) homes.now }
    requires vertices { order.now.n ≡ length homes.now }
    requires places { length places.now ≡ length homes.now }
    ensures rising { IfOk result (λ _. IsRising order.now.edges) }
    ensures edges { IfOk result (λ _. (e : ListedEdge) → IsIn e order.now.edges → IsEdgeAmong order.now.n e) }
    ensures few { IfOk result (λ _. length order.now.edges ≤ 4194304) }
    ensures lots { IfOk result (λ lots. (q : TilePlan) → IsPlan q → q.edges ≡ order.now.edges → grid ≡ grid_of q
        → IsTable (home q) (vertices q) homes.now → IsTable (place_of q) (vertices q) places.now → HoldsLots q lots) }
{
    let numbers = lists::lot_numbers(filling, alloc, graph, order, grid, homes)?;
    let starts = placing::starts(alloc, &numbers, 2 * grid.tiles() - 1)?;
    let edges = lists::lots(filling, alloc, order, &numbers, &starts, places)?;
    Ok(Lots { starts, edges })
}

impl Plan {
    /// The plan of a graph whose tiles are blocks of `tile` vertices: vertex v is in tile v / `tile`. The order is the graph's.
    pub fn blocks(alloc: Global, graph: &Graph, order: &Order, tile: u32) -> Result<Plan, PlanFault>
        requires tile { 1 ≤ tile }
        requires order { order.now ≡ order_of graph.now }
        ensures { IsAnswer (blocks graph.now tile) result }
    {
        Plan::over(&InTurn, alloc, graph, order, Frame::row(graph, tile))
    }

    /// `blocks` in as many threads as can be had, where the graph has many edges.
    pub fn blocks_in_threads(
        rt: &(impl Threads + Sync),
        alloc: Global,
        graph: &Graph,
        order: &Order,
        tile: u32,
    ) -> Result<Plan, PlanFault>
        requires tile { 1 ≤ tile }
        requires order { order.now ≡ order_of graph.now }
        ensures { IsAnswer (blocks graph.now tile) result }
    {
        Plan::over_in_threads(rt, alloc, graph, order, Frame::row(graph, tile))
    }

    /// The plan of a graph whose vertices are the pixels of a picture, row after row, and whose tiles are squares of
    /// side `tile`, cut off at the picture's right and lower edge. The order is the graph's.
    pub fn squares(
        alloc: Global,
        graph: &Graph,
        order: &Order,
        width: u32,
        height: u32,
        tile: u32,
    ) -> Result<Plan, PlanFault>
        requires tile { 1 ≤ tile }
        requires order { order.now ≡ order_of graph.now }
        requires pixels { width * height ≡ graph.now.n }
        ensures { IsAnswer (squares graph.now width height tile) result }
    {
        let frame = Frame::picture(graph, width, height, tile);
        Plan::over(&InTurn, alloc, graph, order, frame)
    }

    /// `squares` in as many threads as can be had, where the graph has many edges.
    pub fn squares_in_threads(
        rt: &(impl Threads + Sync),
        alloc: Global,
        graph: &Graph,
        order: &Order,
        width: u32,
        height: u32,
        tile: u32,
    ) -> Result<Plan, PlanFault>
        requires tile { 1 ≤ tile }
        requires order { order.now ≡ order_of graph.now }
        requires pixels { width * height ≡ graph.now.n }
        ensures { IsAnswer (squares graph.now width height tile) result }
    {
        let frame = Frame::picture(graph, width, height, tile);
        Plan::over_in_threads(rt, alloc, graph, order, frame)
    }

    // The plan over a frame, in as many threads as can be had where the graph has many edges.
    fn over_in_threads(
        rt: &(impl Threads + Sync),
        alloc: Global,
        graph: &Graph,
        order: &Order,
        frame: Frame,
    ) -> Result<Plan, PlanFault>
        requires order { order.now ≡ order_of graph.now }
        requires frame { IsFrame frame }
        requires vertices { order.now.n ≡ vertices_in frame }
        ensures { IsAnswer (record { frame = frame; edges = order.now.edges }) result }
    {
        if order.len() < FEW {
            return Plan::over(&InTurn, alloc, graph, order, frame);
        }
        let threads = InThreads { rt };
        Plan::over(&threads, alloc, graph, order, frame)
    }

    // The plan over a frame.
    fn over<W: Filling>(
        filling: &W,
        alloc: Global,
        graph: &Graph,
        order: &Order,
        frame: Frame,
    ) -> Result<Plan, PlanFault>
        requires ready { W.ready }
        requires order { order.now ≡ order_of graph.now }
        requires frame { IsFrame frame }
        requires vertices { order.now.n ≡ vertices_in frame }
        ensures { IsAnswer (record { frame = frame; edges = order.now.edges }) result }
    {
        let tiles = frame.tiles();
        if tiles > 65536 {
            return Err(PlanFault::TooManyTiles(u64::from(tiles)));
        }
        Plan::laid(filling, alloc, graph, order, frame).map_err(|_| PlanFault::OutOfMemory)
    }

    fn laid<W: Filling>(
        filling: &W,
        alloc: Global,
        graph: &Graph,
        order: &Order,
        frame: Frame,
    ) -> Result<Plan, AllocError>
        requires ready { W.ready }
        requires order { order.now ≡ order_of graph.now }
        requires frame { IsFrame frame }
        requires vertices { order.now.n ≡ vertices_in frame }
        requires small { IsSmall (grid_in frame) }
        ensures { IfOk result (λ plan. plan ≡ record { frame = frame; edges = order.now.edges }) }
    {
        let grid = frame.grid();
        let tiles = grid.tiles();
        let rows = tables::parts(alloc, grid)?;
        let numbers = tables::tile_numbers(alloc, grid)?;
        let homes = lists::homes(filling, alloc, frame, grid, &numbers)?;
        let places = places_of(alloc, tiles, &homes)?;
        let lots = lots_of(filling, alloc, graph, order, grid, &homes, &places.places)?;
        Ok(Plan {
            frame,
            tiles,
            rows,
            places,
            lots,
            order: Snapshot::of(order),
        })
    }

    /// Does nothing. It stands where only this is needed: what every plan keeps to, `IsPlan`.
    #[inline(always)]
    pub fn keeps_its_rules(&self)
        ensures plan { IsPlan self.now }
    {
        let _ = &self.tiles;
    }

    /// How many tiles there are: parts 0 to `tiles()` - 1. The other parts are merges.
    pub fn tiles(&self) -> u32
        ensures value { result ≡ tile_count self.now }
        ensures plan { IsPlan self.now }
    {
        self.tiles
    }

    /// How many vertices, and so places, there are.
    pub fn n(&self) -> u32
        ensures value { result ≡ vertices self.now }
        ensures plan { IsPlan self.now }
    {
        self.frame.width * self.frame.height
    }

    /// The last part, in which all are.
    pub fn root(&self) -> u32
        ensures { result ≡ root self.now }
    {
        2 * self.tiles - 2
    }

    /// The halves of a merge: the left one and the right one.
    pub fn children(&self, p: u32) -> (u32, u32)
        requires merge { tile_count self.now ≤ p }
        requires part { p ≤ root self.now }
        ensures { result ≡ (left self.now p, right self.now p) }
    {
        let row = self.rows[p as usize];
        (row.left, row.right)
    }

    /// The merge of which a part is a half, and which half it is. The root has none.
    pub fn parent(&self, p: u32) -> Option<(u32, Side)>
        requires { p ≤ root self.now }
        ensures { result ≡ parent_and_side self.now p }
    {
        if p == self.root() {
            return None;
        }
        let Site { parent, side, .. } = self.rows[p as usize].site;
        Some((parent, side))
    }

    /// The edges that a part takes in, between places, in rising rank: those with both ends in a tile, or with one
    /// end in each half of a merge.
    pub fn lot(&self, p: u32) -> &[PlacedEdge]
        requires { p ≤ root self.now }
        ensures value { result.now ≡ map placed (lot_edges self.now p) }
        ensures rising { IsRising (lot_edges self.now p) }
    {
        let first = self.lots.starts[p as usize] as usize;
        let end = self.lots.starts[p as usize + 1] as usize;
        &self.lots.edges[first..end]
    }

    /// The place of a vertex.
    pub fn place_of(&self, v: u32) -> u32
        requires { v < vertices self.now }
        ensures value { result ≡ place_of self.now v }
        ensures below { result < vertices self.now }
    {
        self.places.places[v as usize]
    }

    /// The vertex at a place: it is searched among all.
    pub fn vertex_at(&self, place: u32) -> u32
        requires { place < vertices self.now }
        ensures value { place_of self.now result ≡ place }
        ensures below { result < vertices self.now }
    {
        placing::first_at(&self.places.places, place) as u32
    }

    /// The places that a part covers: the first, and how many.
    pub fn range(&self, p: u32) -> (u32, u32)
        requires { p ≤ root self.now }
        ensures { result ≡ (first_place self.now p, end_place self.now p - first_place self.now p) }
    {
        let row = self.rows[p as usize];
        let first = self.places.starts[row.site.first_tile as usize];
        let end = self.places.starts[(row.site.first_tile + row.tiles) as usize];
        (first, end - first)
    }

    /// How many places and tiles the largest part has whose first tile is `t`.
    pub fn room_of(&self, t: u32) -> Room
        requires { t < tile_count self.now }
        ensures value { result ≡ record { places = room_places self.now t; chunks = room_tiles self.now t } }
        ensures largest { IsLargestFrom self.now t result.chunks }
    {
        let chunks = self.rows[t as usize].site.room;
        let first = self.places.starts[t as usize];
        let end = self.places.starts[(t + chunks) as usize];
        Room {
            places: end - first,
            chunks,
        }
    }
}
