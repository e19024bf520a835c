ghost use Rattle.std.specs.Prelude.{◌≡◌, ◌+◌, ◌<◌, ◌≤◌, [], All, IfOk, replicate, reverse};
ghost use Rattle.std.specs.List.{range_with_len};
ghost use Rattle.merge_board.specs.Opening.{IsUndrawn};
ghost use Rattle.merge_board.specs.Seats.{AreAllSeats, IsReady, IsSeatOf, first_view, fresh_seats, split_left, split_right};
ghost use Rattle.merge_board.specs.Serving.{seat_numbers};

use crate::board::Board;
use crate::rule::OneWorker;
use crate::seat::Seat;
use crate::seats::Seats;
use crate::slots::opened_slots;
use crate::view::Key;
use atomic_table::Table;
use hg_base::OutOfMemory;
use std::alloc::Global;
use std::snapshot::Snapshot;
use tile_plan::Plan;

impl Board {
    /// Sets up the board of a plan and its seats, one for each worker. No tile is drawn; all seats are in, and each is
    /// idle and has not missed. The first that goes out is number 0, the last number `workers` - 1. All memory of the
    /// run is taken here, once: each tile's part, the table and the seats. The error is want of it.
    pub fn set_up(alloc: Global, plan: &Plan, workers: u32) -> Result<(Board, Seats), OutOfMemory>
        requires some { 1 ≤ workers }
        requires few { workers ≤ 64 }
        ensures plan { IfOk result (λ made. made.0.plan ≡ plan.now) }
        ensures workers { IfOk result (λ made. made.0.workers ≡ workers) }
        ensures seats { IfOk result (λ made. AreAllSeats made.1 made.0) }
        ensures ready { IfOk result (λ made. All IsReady made.1) }
        ensures numbers { IfOk result (λ made. seat_numbers made.1 ≡ reverse (range_with_len 0 workers)) }
        ensures unseen { IfOk result (λ made. All (λ seat. seat.view.seen ≡ 0) made.1) }
        ensures undrawn { IfOk result (λ made. IsUndrawn made.0 made.1) }
    {
        let seats = vacant_seats(alloc)?;
        let (board, first) = opened_board(alloc, plan, workers)?;
        let seats = dealt(&board, first, seats);
        Ok((board, seats))
    }
}

// Place for as many seats as a board can have, and none in.
fn vacant_seats(alloc: Global) -> Result<Seats, OutOfMemory>
    ensures { IfOk result (λ seats. seats ≡ []) }
{
    let list = Vec::with_capacity(alloc, 64).map_err(|_| OutOfMemory)?;
    Ok(Seats { list })
}

// The table of a board, with the seat that stands for all of its workers.
fn opened_board(alloc: Global, plan: &Plan, workers: u32) -> Result<(Board, Seat), OutOfMemory>
    requires some { 1 ≤ workers }
    requires few { workers ≤ 64 }
    ensures plan { IfOk result (λ made. made.0.plan ≡ plan.now) }
    ensures workers { IfOk result (λ made. made.0.workers ≡ workers) }
    ensures seat { IfOk result (λ made. made.1 ≡ record { table = made.0.table; view = first_view plan.now workers }) }
{
    let words = zeros(alloc, plan.tiles())?;
    let slots = opened_slots(alloc, plan)?;
    let key = Key {
        plan: Snapshot::of(plan),
        workers,
    };
    let Ok((table, token)) = Table::new(alloc, words.as_slice(), slots, &key) else {
        return Err(OutOfMemory);
    };
    let seat = Seat {
        token,
        number: 0,
        hand: None,
        missed: false,
    };
    Ok((Board { table, workers }, seat))
}

// The words of a board of so many tiles at the start: that of the draws, one for each merge, and that of the root's
// arrival.
fn zeros(alloc: Global, tiles: u32) -> Result<Vec<u64>, OutOfMemory>
    ensures { IfOk result (λ words. words.items ≡ replicate (tiles + 1) 0) }
{
    Vec::from_elem(alloc, 0u64, tiles as usize + 1).map_err(|_| OutOfMemory)
}

// Deals the first seat's workers out, one to each seat; the first keeps one, and is the last in the list.
fn dealt(board: &Board, mut first: Seat, mut seats: Seats) -> Seats
    requires first { first ≡ record { table = board.now.table; view = first_view board.now.plan board.now.workers } }
    requires none { seats ≡ [] }
    ensures { result ≡ fresh_seats board.now }
{
    let mut share = board.workers;
    while 1 < share {
        share -= 1;
        seats.put_back(split_off(board, &mut first, share));
    }
    seats.put_back(first);
    seats
}

// Hands the last of a seat's workers to a new seat, which has the number of workers that are left.
fn split_off(board: &Board, seat: &mut Seat, number: u32) -> Seat
    requires seat { IsSeatOf seat.old board.now }
    requires ready { IsReady seat.old }
    requires share { seat.old.view.share ≡ number + 1 }
    requires left { 1 ≤ number }
    ensures old { seat.new ≡ record { table = seat.old.table; view = split_left seat.old.view } }
    ensures new { result ≡ record { table = seat.old.table; view = split_right seat.old.view } }
{
    let shared = &board.table.shared;
    let token = shared.split_seat::<OneWorker>(&mut seat.token);
    Seat {
        token,
        number,
        hand: None,
        missed: false,
    }
}
