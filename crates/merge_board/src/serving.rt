ghost use Rattle.std.specs.Prelude.{◌≡◌, ℕ, ◌+◌, ◌-◌, ◌*◌, ◌<◌, ◌≤◌, Some, None, false};
ghost use Rattle.tile_plan.specs.Plan.{IsPlan, left, part_count, right, tile_count};
ghost use Rattle.merge_board.specs.Fits.{Fits, Opened};
ghost use Rattle.merge_board.specs.Seats.{IsSeatOf, IsReady, IsDone};

use crate::arrival::Arrival;
use crate::board::Board;
use crate::seat::Seat;
use border_climb::{Part, build_tile, join};
use hg_base::{Gate, GateEvent};
use tile_plan::Plan;

// Arrives with a part, and goes on with what is joined above it until a sibling is missing or all is joined.
fn hand_on<G: Gate>(board: &Board, plan: &Plan, seat: &mut Seat, gate: &G, number: u32, part: Part)
    requires seat { IsSeatOf seat.old board.now }
    requires plan { plan.now ≡ board.now.plan }
    requires hand { seat.old.view.hand ≡ Some number }
    requires whole { IsPlan board.now.plan }
    requires part { number < part_count board.now.plan }
    requires fits { Fits board.now.plan number part }
    ensures seat { IsSeatOf seat.new board.now }
    ensures idle { seat.new.view.hand ≡ None }
    ensures kept { (seat.new.view.number ≡ seat.old.view.number) × ((seat.new.view.missed ≡ seat.old.view.missed) × (seat.new.view.seen ≡ seat.old.view.seen)) }
{
    let arrival = board.arrive(plan, seat, part);
    gate.pass(seat.number(), GateEvent::Arrived(number));
    let Arrival::Both {
        number: merge,
        left,
        right,
    } = arrival
    else {
        return;
    };
    gate.pass(seat.number(), GateEvent::Merging(merge));
    let part = merged(plan, merge, left, right);
    hand_on(board, plan, seat, gate, merge, part);
}

/// Draws tiles and builds them, arrives and joins until a draw misses. The gate is passed after each draw that gave a
/// tile, after each arrival and before each join.
pub fn serve<G: Gate>(board: &Board, plan: &Plan, seat: &mut Seat, gate: &G)
    requires seat { IsSeatOf seat.old board.now }
    requires plan { plan.now ≡ board.now.plan }
    requires ready { IsReady seat.old }
    ensures seat { IsSeatOf seat.new board.now }
    ensures done { IsDone seat.new }
    ensures number { seat.new.view.number ≡ seat.old.view.number }
{
    while let Some(part) = board.draw(plan, seat) {
        let Some(tile) = seat.hand() else {
            unreachable!()
        };
        gate.pass(seat.number(), GateEvent::Drew(tile));
        let part = built(plan, tile, part);
        hand_on(board, plan, seat, gate, tile, part);
    }
}

/// A tile's part, once the tile's lot was given to it: that is the part of the tile.
pub fn built(plan: &Plan, tile: u32, part: Part) -> Part
    requires tile { tile < tile_count plan.now }
    requires opened { Opened plan.now tile part }
    ensures fits { Fits plan.now tile result }
    ensures plan { IsPlan plan.now }
{
    plan.keeps_its_rules();
    build_tile(part, tile, plan.lot(tile))
}

/// Both halves of a merge, joined by the merge's lot: that is the part of the merge.
pub fn merged(plan: &Plan, merge: u32, left_half: Part, right_half: Part) -> Part
    requires merge { tile_count plan.now ≤ merge }
    requires part { merge < part_count plan.now }
    requires left { Fits plan.now (left plan.now merge) left_half }
    requires right { Fits plan.now (right plan.now merge) right_half }
    ensures { Fits plan.now merge result }
{
    plan.keeps_its_rules();
    join(left_half, right_half, merge, plan.lot(merge))
}
