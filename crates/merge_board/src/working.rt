ghost use Rattle.std.specs.Thread.{IsSync};
ghost use Rattle.std.specs.Prelude.{◌≡◌, All};
ghost use Rattle.merge_board.specs.Seats.{IsReady, IsDone, AreAllSeats};
ghost use Rattle.merge_board.specs.Serving.{AreReady, AreServed, seat_numbers};

use crate::board::Board;
use crate::seat::Seat;
use crate::seats::Seats;
use crate::serving::serve;
use hg_base::Gate;
use std::thread::{Threads, join_mut};
use tile_plan::Plan;

/// Has all seats of a board serve it until each has missed, in threads of their own where threads can be had: no tile
/// is left to draw then, each part has arrived, and the board may be closed. It takes no memory, and waits for nothing
/// but its own workers. The gate is passed by each seat as in `serve`.
///
/// All seats are in, idle and have not missed. They stay in, in the order in which they were.
pub fn hierarchy<G: Gate>(
    rt: &(impl Threads + Sync),
    board: &Board,
    seats: &mut Seats,
    plan: &Plan,
    gate: &G,
)
    requires plan { plan.now ≡ board.now.plan }
    requires all { AreAllSeats seats.old board.now }
    requires ready { All IsReady seats.old }
    ensures all { AreAllSeats seats.new board.now }
    ensures done { All IsDone seats.new }
    ensures numbers { seat_numbers seats.new ≡ seat_numbers seats.old }
{
    serve_all(rt, board, plan, gate, seats.list.as_mut_slice());
}

// Has each of these seats serve the board, in a thread of its own where one can be had.
fn serve_all<R: Threads + Sync, G: Gate>(
    rt: &R,
    board: &Board,
    plan: &Plan,
    gate: &G,
    seats: &mut [Seat],
)
    requires plan { plan.now ≡ board.now.plan }
    requires ready { AreReady seats.old board.now }
    ensures { AreServed seats.old seats.new board.now }
{
    match seats {
        [] => (),
        [seat] => serve(board, plan, seat, gate),
        _ => {
            let (front, back) = seats.split_at_mut(seats.len() / 2);
            join_mut(
                rt,
                &mut ||
                    requires { IsSync R.row × IsSync G.row × (plan.now ≡ board.now.plan) × AreReady front.now board.now }
                    ensures { AreServed front.entry.now front.exit.now board.entry.now }
                { serve_all(rt, board, plan, gate, front) },
                &mut ||
                    requires { IsSync R.row × IsSync G.row × (plan.now ≡ board.now.plan) × AreReady back.now board.now }
                    ensures { AreServed back.entry.now back.exit.now board.entry.now }
                { serve_all(rt, board, plan, gate, back) },
            );
        }
    }
}
