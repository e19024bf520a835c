// The lists of a plan that have an element for each vertex or edge, and so are long.
ghost use Rattle.std.specs.Prelude.{◌≡◌, ℕ, ◌+◌, ◌-◌, ◌*◌, ◌<◌, ◌≤◌, ◌==◌, IfOk, length, map, filter, slice_index, slice_range};
ghost use Rattle.edge_order.specs.Order.{order_of};
ghost use Rattle.edge_laws.specs.Edges.{ListedEdge, renamed};
ghost use Rattle.hg_base.specs.Lists.{IsIn};
ghost use Rattle.edge_laws.specs.Placed.{placed};
ghost use Rattle.edge_laws.specs.Rising.{IsRising};
ghost use Rattle.tile_plan.specs.Grids.{IsSmall, lot_in, tile_in, tiles_in};
ghost use Rattle.tile_plan.specs.TiledPictures.{grid_in, home_in, IsFrame, vertices_in};
ghost use Rattle.tile_plan.specs.Placing.{AreKeys, IsTable, start_by};
ghost use Rattle.tile_plan.specs.Plan.{IsEdgeAmong};

use crate::filling::Filling;
use crate::frame::Frame;
use crate::placing;
use crate::site::Grid;
use edge_order::Order;
use hg_base::{Graph, PlacedEdge};
use std::alloc::{AllocError, Global};

// The tile of each vertex.
pub(crate) fn homes<W: Filling>(
    filling: &W,
    alloc: Global,
    frame: Frame,
    grid: Grid,
    numbers: &[u32],
) -> Result<Vec<u32>, AllocError>
    requires ready { W.ready }
    requires frame { IsFrame frame }
    requires grid { grid ≡ grid_in frame }
    requires small { IsSmall grid }
    requires numbers { IsTable (tile_in grid) (tiles_in grid) numbers.now }
    ensures { IfOk result (λ v. IsTable (home_in frame) (vertices_in frame) v.items) }
{
    let mut homes = vec![in alloc; 0; (frame.width * frame.height) as usize]?;
    filling.settle(frame, grid, numbers, &mut homes);
    Ok(homes)
}

// The part in whose lot each edge is, by number.
fn lots_by_number<W: Filling>(
    filling: &W,
    alloc: Global,
    graph: &Graph,
    grid: Grid,
    homes: &[u32],
) -> Result<Vec<u32>, AllocError>
    requires ready { W.ready }
    requires small { IsSmall grid }
    requires homes { AreKeys (tiles_in grid) homes.now }
    requires vertices { graph.now.n ≡ length homes.now }
    ensures numbers { IfOk result (λ v. v.items ≡ map (λ e. lot_in grid (slice_index homes.now e.u) (slice_index homes.now e.v)) graph.now.edges) }
    ensures below { IfOk result (λ v. AreKeys (2 * tiles_in grid - 1) v.items) }
{
    let mut numbers = vec![in alloc; 0; graph.m() as usize]?;
    filling.number_lots(graph, grid, homes, &mut numbers);
    Ok(numbers)
}

// The part in whose lot each edge is, by rank.
pub(crate) fn lot_numbers<W: Filling>(
    filling: &W,
    alloc: Global,
    graph: &Graph,
    order: &Order,
    grid: Grid,
    homes: &[u32],
) -> Result<Vec<u32>, AllocError>
    requires ready { W.ready }
    requires order { order.now ≡ order_of graph.now }
    requires small { IsSmall grid }
    requires homes { AreKeys (tiles_in grid) homes.now }
    requires vertices { order.now.n ≡ length homes.now }
    ensures numbers { IfOk result (λ v. v.items ≡ map (λ e. lot_in grid (slice_index homes.now e.u) (slice_index homes.now e.v)) order.now.edges) }
    ensures below { IfOk result (λ v. AreKeys (2 * tiles_in grid - 1) v.items) }
    ensures few { IfOk result (λ _. length order.now.edges ≤ 4194304) }
    ensures rising { IfOk result (λ _. IsRising order.now.edges) }
    ensures edges { IfOk result (λ _. (e : ListedEdge) → IsIn e order.now.edges → IsEdgeAmong order.now.n e) }
{
    graph.keeps_its_rules();
    let own = lots_by_number(filling, alloc, graph, grid, homes)?;
    let mut numbers = vec![in alloc; 0; order.len() as usize]?;
    filling.rank_lots(order, &own, &mut numbers);
    Ok(numbers)
}

// The edges between places, by lots and in a lot by rank.
pub(crate) fn lots<W: Filling>(
    filling: &W,
    alloc: Global,
    order: &Order,
    numbers: &[u32],
    starts: &[u32],
    places: &[u32],
) -> Result<Vec<PlacedEdge>, AllocError>
    requires ready { W.ready }
    requires few { length numbers.now ≤ 4194304 }
    requires numbers { length numbers.now ≡ length order.now.edges }
    requires lots { (i : ℕ) → i < length numbers.now → slice_index numbers.now i + 1 < length starts.now }
    requires starts { IsTable (start_by (slice_index numbers.now) (length numbers.now)) (length starts.now) starts.now }
    requires vertices { order.now.n ≡ length places.now }
    ensures len { IfOk result (λ v. length v.items ≡ length order.now.edges) }
    ensures lots { IfOk result (λ v. (lot : ListedEdge → ℕ) → numbers.now ≡ map lot order.now.edges → (i : ℕ) → i + 1 < length starts.now →
        slice_range v.items (slice_index starts.now i) (slice_index starts.now (i + 1))
        ≡ map placed (renamed (slice_index places.now) (filter (λ e. lot e == i) order.now.edges))) }
{
    let ranks = placing::in_order(alloc, numbers, starts)?;
    let none = PlacedEdge {
        rank: 0,
        a: 0,
        b: 0,
    };
    let mut lots = vec![in alloc; none; ranks.len()]?;
    filling.lay(order, places, &ranks, &mut lots);
    Ok(lots)
}
