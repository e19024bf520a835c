// Filling the long lists of a plan in place, one element after another or in threads.
ghost use Rattle.std.specs.Prelude.{◌≡◌, ℕ, ◌<◌, ◌≤◌, ⊤, get_or, length, slice_index};
ghost use Rattle.std.specs.Thread.{IsSync};
ghost use Rattle.hg_base.specs.declared.graph.PlacedEdge.{PlacedEdge};
ghost use Rattle.edge_order.specs.Order.{number_at_rank};
ghost use Rattle.tile_plan.specs.Grids.{IsSmall, tile_in, tiles_in};
ghost use Rattle.tile_plan.specs.TiledPictures.{grid_in, home_in, IsFrame, vertices_in};
ghost use Rattle.tile_plan.specs.Placing.{AreKeys, IsTable};
ghost use Rattle.tile_plan.specs.Dealing.{IsLotOf, laid};

use crate::frame::Frame;
use crate::site::Grid;
use crate::tables::{home, kept_at, laid, lot_at};
use edge_order::Order;
use hg_base::{Graph, PlacedEdge};
use rayon::prelude::*;
use std::thread::Threads;

// A way to fill lists.
pub(crate) trait Filling {
    // That the way can be taken.
    ghost ready: { Type 0 };

    // Makes each number the tile of the vertex.
    fn settle(&self, frame: Frame, grid: Grid, numbers: &[u32], homes: &mut [u32])
        requires ready { ready }
        requires frame { IsFrame frame }
        requires grid { grid ≡ grid_in frame }
        requires small { IsSmall grid }
        requires numbers { IsTable (tile_in grid) (tiles_in grid) numbers.now }
        requires len { length homes.old ≡ vertices_in frame }
        ensures { (i : ℕ) → i < vertices_in frame → slice_index homes.new i ≡ home_in frame i };

    // Makes each number that of the part in whose lot the edge of this number is.
    fn number_lots(&self, graph: &Graph, grid: Grid, homes: &[u32], numbers: &mut [u32])
        requires ready { ready }
        requires small { IsSmall grid }
        requires homes { AreKeys (tiles_in grid) homes.now }
        requires vertices { graph.now.n ≡ length homes.now }
        requires few { length graph.now.edges ≤ 4194304 }
        requires len { length numbers.old ≡ length graph.now.edges }
        ensures { (i : ℕ) → i < length graph.now.edges → IsLotOf grid homes.now graph.now.edges i (slice_index numbers.new i) };

    // Makes each number what is kept of the edge of this rank.
    fn rank_lots(&self, order: &Order, own: &[u32], numbers: &mut [u32])
        requires ready { ready }
        requires own { length own.now ≡ length order.now.edges }
        requires few { length order.now.edges ≤ 4194304 }
        requires len { length numbers.old ≡ length order.now.edges }
        ensures { (i : ℕ) → i < length order.now.edges → slice_index numbers.new i ≡ slice_index own.now (number_at_rank order.now i) };

    // Makes each edge that of its rank, between places.
    fn lay(&self, order: &Order, places: &[u32], ranks: &[u32], lots: &mut [PlacedEdge])
        requires ready { ready }
        requires ranks { AreKeys (length order.now.edges) ranks.now }
        requires vertices { order.now.n ≡ length places.now }
        requires len { length lots.old ≡ length ranks.now }
        ensures { (i : ℕ) (d : PlacedEdge) → i < length ranks.now → get_or lots.new i d ≡ laid places.now order.now.edges (slice_index ranks.now i) };
}

// One element after another.
#[derive(Drop)]
pub(crate) struct InTurn;

impl Filling for InTurn {
    ghost ready = { ⊤ };

    fn settle(&self, frame: Frame, grid: Grid, numbers: &[u32], homes: &mut [u32]) {
        for vertex in 0..homes.len() {
            homes[vertex] = home(frame, grid, numbers, vertex as u32);
        }
    }

    fn number_lots(&self, graph: &Graph, grid: Grid, homes: &[u32], numbers: &mut [u32]) {
        for number in 0..numbers.len() {
            numbers[number] = lot_at(graph, grid, homes, number as u32);
        }
    }

    fn rank_lots(&self, order: &Order, own: &[u32], numbers: &mut [u32]) {
        for rank in 0..numbers.len() {
            numbers[rank] = kept_at(order, own, rank as u32);
        }
    }

    fn lay(&self, order: &Order, places: &[u32], ranks: &[u32], lots: &mut [PlacedEdge]) {
        for place in 0..lots.len() {
            lots[place] = laid(order, places, ranks[place]);
        }
    }
}

// In a thread for each processor.
#[derive(Drop)]
pub(crate) struct InThreads<'a, R> {
    pub(crate) rt: &'a R,
}

impl<R: Threads + Sync> Filling for InThreads<'_, R> {
    ghost ready = { IsSync R.row };

    fn settle(&self, frame: Frame, grid: Grid, numbers: &[u32], homes: &mut [u32]) {
        par_for_each_mut(
            self.rt,
            homes,
            |vertex: usize, tile: &mut u32|
                requires { IsFrame frame × (grid ≡ grid_in frame) × IsSmall grid × IsTable (tile_in grid) (tiles_in grid) numbers.now × (vertex < vertices_in frame) }
                ensures { tile.new ≡ home_in frame vertex }
            {
                *tile = home(frame, grid, numbers, vertex as u32);
            },
        );
    }

    fn number_lots(&self, graph: &Graph, grid: Grid, homes: &[u32], numbers: &mut [u32]) {
        par_for_each_mut(
            self.rt,
            numbers,
            |number: usize, lot: &mut u32|
                requires { IsSmall grid × AreKeys (tiles_in grid) homes.now × (graph.now.n ≡ length homes.now) × (number < length graph.now.edges) × (number < 4194304) }
                ensures { IsLotOf grid homes.entry.now graph.entry.now.edges number lot.new }
            {
                *lot = lot_at(graph, grid, homes, number as u32);
            },
        );
    }

    fn rank_lots(&self, order: &Order, own: &[u32], numbers: &mut [u32]) {
        par_for_each_mut(
            self.rt,
            numbers,
            |rank: usize, lot: &mut u32|
                requires { (length own.now ≡ length order.now.edges) × (rank < length order.now.edges) × (rank < 4194304) }
                ensures { lot.new ≡ slice_index own.entry.now (number_at_rank order.entry.now rank) }
            {
                *lot = kept_at(order, own, rank as u32);
            },
        );
    }

    fn lay(&self, order: &Order, places: &[u32], ranks: &[u32], lots: &mut [PlacedEdge]) {
        par_for_each_mut(
            self.rt,
            lots,
            |place: usize, lot: &mut PlacedEdge|
                requires { (place < length ranks.now) × (slice_index ranks.now place < length order.now.edges) × (order.now.n ≡ length places.now) }
                ensures { lot.new ≡ laid places.entry.now order.entry.now.edges (slice_index ranks.entry.now place) }
            {
                *lot = laid(order, places, ranks[place]);
            },
        );
    }
}
