ghost use Rattle.std.specs.Prelude.{◌≡◌, ℕ, ◌+◌, ◌-◌, ◌*◌, ◌<◌, ◌≤◌, ◌==◌, IfOk, get_or, length, map, filter, slice_index, slice_range};
ghost use Rattle.hg_base.specs.declared.graph.PlacedEdge.{PlacedEdge};
ghost use Rattle.edge_order.specs.Order.{number_at_rank, order_of};
ghost use Rattle.edge_laws.specs.Edges.{ListedEdge, renamed};
ghost use Rattle.hg_base.specs.Lists.{IsIn};
ghost use Rattle.edge_laws.specs.Placed.{placed};
ghost use Rattle.edge_laws.specs.Rising.{IsRising};
ghost use Rattle.tile_plan.specs.Grids.{IsSmall, lot_in, root_of, rows_of, tile_in, tiles_in};
ghost use Rattle.tile_plan.specs.TiledPictures.{grid_in, home_in, IsFrame, vertices_in};
ghost use Rattle.tile_plan.specs.Placing.{AreKeys, IsTable, start_by};
ghost use Rattle.tile_plan.specs.Plan.{IsEdgeAmong};
ghost use Rattle.tile_plan.specs.Dealing.{IsLotOf, laid};

use crate::filling::Filling;
use crate::frame::Frame;
use crate::placing;
use crate::site::{Grid, Row, Side, Site, find, lot_of};
use edge_order::Order;
use hg_base::{Graph, PlacedEdge};
use std::alloc::{AllocError, Global};

// Where the root of a plan of `n` tiles stands.
fn root(n: u32) -> Site
    requires some { 1 ≤ n }
    requires few { n ≤ 65536 }
    ensures { result ≡ root_of n }
{
    Site {
        first_tile: 0,
        first_merge: 0,
        parent: 2 * n - 1,
        side: Side::Left,
        room: n,
    }
}

// The table of all parts.
pub(crate) fn parts(alloc: Global, grid: Grid) -> Result<Vec<Row>, AllocError>
    requires { IsSmall grid }
    ensures { IfOk result (λ v. v.items ≡ rows_of grid) }
{
    let n = grid.tiles();
    let mut parts = Vec::with_capacity(alloc, 2 * n as usize - 1)?;
    for part in 0..2 * n - 1 {
        parts.push(find(n, grid, root(n), part))?;
    }
    Ok(parts)
}

// The number of the tile at each place of the grid, row after row.
pub(crate) fn tile_numbers(alloc: Global, grid: Grid) -> Result<Vec<u32>, AllocError>
    requires { IsSmall grid }
    ensures { IfOk result (λ v. IsTable (tile_in grid) (tiles_in grid) v.items) }
{
    let n = grid.tiles();
    let mut numbers = Vec::with_capacity(alloc, n as usize)?;
    for place in 0..n {
        numbers.push(grid.tile_at(place % grid.columns, place / grid.columns))?;
    }
    Ok(numbers)
}

// The tile of a vertex.
pub(crate) fn home(frame: Frame, grid: Grid, numbers: &[u32], vertex: u32) -> u32
    requires frame { IsFrame frame }
    requires grid { grid ≡ grid_in frame }
    requires small { IsSmall grid }
    requires numbers { IsTable (tile_in grid) (tiles_in grid) numbers.now }
    requires vertex { vertex < vertices_in frame }
    ensures { result ≡ home_in frame vertex }
{
    let column = vertex % frame.width / frame.side;
    let row = vertex / frame.width / frame.side;
    let place = row * grid.columns + column;
    numbers[place as usize]
}

// The part in whose lot an edge between two tiles is.
fn lot_between(grid: Grid, first: u32, second: u32) -> u32
    requires small { IsSmall grid }
    requires first { first < tiles_in grid }
    requires second { second < tiles_in grid }
    ensures value { result ≡ lot_in grid first second }
    ensures below { result < 2 * tiles_in grid - 1 }
{
    if first == second {
        return first;
    }
    let n = grid.tiles();
    lot_of(n, grid, root(n), first, second)
}

// The part in whose lot an edge is, by the tiles of the vertices.
pub(crate) fn lot_at(graph: &Graph, grid: Grid, homes: &[u32], number: u32) -> u32
    requires small { IsSmall grid }
    requires homes { AreKeys (tiles_in grid) homes.now }
    requires vertices { graph.now.n ≡ length homes.now }
    requires number { number < length graph.now.edges }
    ensures { IsLotOf grid homes.now graph.now.edges number result }
{
    let edge = graph.edge(number);
    lot_between(grid, homes[edge.u as usize], homes[edge.v as usize])
}

// What is kept of the edge at a rank, of a list by number.
pub(crate) fn kept_at(order: &Order, own: &[u32], rank: u32) -> u32
    requires own { length own.now ≡ length order.now.edges }
    requires rank { rank < length order.now.edges }
    ensures { result ≡ slice_index own.now (number_at_rank order.now rank) }
{
    own[order.edge_at(rank) as usize]
}

// The edge of a rank, between places.
pub(crate) fn laid(order: &Order, places: &[u32], rank: u32) -> PlacedEdge
    requires rank { rank < length order.now.edges }
    requires vertices { order.now.n ≡ length places.now }
    ensures { result ≡ laid places.now order.now.edges rank }
{
    let edge = order.at(rank);
    PlacedEdge {
        rank,
        a: places[edge.u as usize],
        b: places[edge.v as usize],
    }
}
