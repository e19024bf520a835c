ghost use Rattle.std.specs.Prelude.{◌≡◌, ℕ, ◌+◌, ◌<◌, ◌≤◌, All, length, slice_index_or, true, false};
ghost use mathlib.Core.Option.{some};
ghost use lib.ListN.{get_elem?};
ghost use Rattle.border_climb.specs.Stands.{Stands};
ghost use Rattle.tile_plan.specs.Plan.{root, post, edges_at, tile_count, part_count};
ghost use Rattle.merge_board.specs.Fits.{Fits};
ghost use Rattle.merge_board.specs.Seats.{IsSeatOf, IsDone, AreAllSeats};

use crate::board::Board;
use crate::rule::AllWorkers;
use crate::seat::Seat;
use crate::seats::Seats;
use atomic_table::Closed;
use border_climb::Part;
use std::alloc::Global;
use std::marker::Model;
use tile_plan::Plan;

/// What a closed board leaves: how many tiles, workers and edges it had. Only closing a board makes one.
#[derive(Debug, Drop)]
pub struct Receipt {
    tiles: u32,
    workers: u32,
    edges: u64,
}

impl Model for Receipt {
    ghost use Rattle.merge_board.specs.Seats.{ReceiptState};

    ghost Value = { ReceiptState };

    ghost use Rattle.merge_board.specs.ReceiptFields.{receipt_of};

    ghost view = { receipt_of };
}

impl Receipt {
    /// How many tiles the board's plan has.
    pub fn tiles(&self) -> u32
        ensures { result ≡ self.now.tiles }
    {
        self.tiles
    }

    /// How many workers the board had.
    pub fn workers(&self) -> u32
        ensures { result ≡ self.now.workers }
    {
        self.workers
    }

    /// How many edges were taken in.
    pub fn edges(&self) -> u64
        ensures { result ≡ self.now.edges }
    {
        self.edges
    }
}

impl Board {
    /// Takes the whole part off a board of which all seats are in, idle and have missed. It stands for all edges of
    /// the plan, its lots are the plan's post-order, and its receipt has the board's numbers.
    pub fn close(self, plan: &Plan, seats: Seats) -> (Part, Receipt)
        requires plan { plan.now ≡ self.plan }
        requires all { AreAllSeats seats self }
        requires done { All IsDone seats }
        ensures part { Fits self.plan (root self.plan) result.0 }
        ensures stands { Stands result.0 (edges_at self.plan (root self.plan)) }
        ensures lots { result.0.lots ≡ post self.plan (root self.plan) }
        ensures given { result.0.given ≡ length self.plan.edges }
        ensures receipt { result.1 ≡ record { tiles = tile_count self.plan; workers = self.workers; edges = length self.plan.edges } }
    {
        let tiles = plan.tiles();
        let workers = self.workers;
        let seat = one_for_all(&self, seats);
        let part = root_part(self, plan, seat);
        let edges = part.given();
        (
            part,
            Receipt {
                tiles,
                workers,
                edges,
            },
        )
    }
}

// Joins all seats into one, which stands for as many workers at least as there were seats.
fn one_for_all(board: &Board, mut seats: Seats) -> Seat
    requires some_seat { 1 ≤ length seats }
    requires each { All (λ seat. IsSeatOf seat board.now) seats }
    requires done { All IsDone seats }
    ensures seat { IsSeatOf result board.now }
    ensures done { IsDone result }
    ensures share { length seats ≤ result.view.share }
{
    let Some(mut seat) = seats.take() else {
        unreachable!()
    };
    seat.stands_for_some();
    while let Some(other) = seats.take() {
        take_in(board, &mut seat, other);
    }
    seat
}

// Joins another seat into this one.
fn take_in(board: &Board, seat: &mut Seat, other: Seat)
    requires seat { IsSeatOf seat.old board.now }
    requires other { IsSeatOf other board.now }
    requires done { IsDone seat.old }
    requires other_done { IsDone other }
    ensures seat { IsSeatOf seat.new board.now }
    ensures done { IsDone seat.new }
    ensures share { seat.old.view.share + 1 ≤ seat.new.view.share }
{
    let Seat { token, .. } = other;
    let shared = &board.table.shared;
    shared.join_seat::<AllWorkers>(&mut seat.token, token);
}

// Takes the root's part off the board of one seat that stands for all workers and has missed.
fn root_part(board: Board, plan: &Plan, seat: Seat) -> Part
    requires plan { plan.now ≡ board.plan }
    requires seat { IsSeatOf seat board }
    requires done { IsDone seat }
    requires all { board.workers ≤ seat.view.share }
    ensures { Fits board.plan (root board.plan) result }
{
    let root = plan.root() as usize;
    let Board { table, .. } = board;
    let Seat { token, .. } = seat;
    let closed = table.close_with(token);
    let Some(part) = emptied(closed, root) else {
        unreachable!()
    };
    part
}

// Empties all slots, and gives what one of them had.
fn emptied(mut closed: Closed<Option<Part>, Global>, kept: usize) -> Option<Part>
    requires full { (k : ℕ) → k < closed.slots.len → slice_index_or closed.slots.filled k false ≡ true }
    requires kept { kept < closed.slots.len }
    ensures { get_elem? (closed.slots.items) kept ≡ some result }
{
    let part = closed.take(kept);
    let mut slot = 0;
    while slot < closed.slot_count() {
        if slot != kept {
            drop(closed.take(slot));
        }
        slot += 1;
    }
    closed.free();
    part
}
