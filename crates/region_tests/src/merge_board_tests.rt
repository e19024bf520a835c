ghost use Rattle.std.specs.Prelude.{◌≡◌, ℕ, ◌+◌, ◌<◌, ◌≤◌, All, Some, None, false, length};
ghost use Rattle.node_region.specs.Pool.{IsCovered};
ghost use Rattle.merge_board.specs.Fits.{Fits};
ghost use Rattle.merge_board.specs.Seats.{IsSeatOf, IsReady, IsDone};

use crate::chains::chain;
use crate::gates::{Kind, Meeting, Slow};
use crate::graphs::graph_of;
use border_climb::Part;
use edge_order::Order;
use hg_base::{Gate, OpenGate};
use merge_board::{Arrival, Board, Seat, Seats, built, hierarchy, merged};
use std::alloc::{AllocError, Global};
use std::process::Abort;
use std::test::Fail;
use std::thread::Threads;
use tile_plan::Plan;

// The ends and weights of the edges of a cycle of four vertices.
const CYCLE: [(u32, u32, u32); 4] = [(0, 1, 5), (2, 3, 6), (1, 2, 1), (0, 3, 2)];

// Those of a path of fourteen vertices.
const PATH: [(u32, u32, u32); 13] = [
    (0, 1, 12),
    (1, 2, 0),
    (2, 3, 11),
    (3, 4, 1),
    (4, 5, 10),
    (5, 6, 2),
    (6, 7, 9),
    (7, 8, 3),
    (8, 9, 8),
    (9, 10, 4),
    (10, 11, 7),
    (11, 12, 5),
    (12, 13, 6),
];

// What is told of the parts of both: how many edges were taken in, the lots, and the ranks of each vertex' chain.
const CYCLE_PART: &str = "4 edges, lots 0 1 2; 1 2; 0 2; 0 2; 1 2";

const PATH_PART: &str =
    "13 edges, lots 0 1 7 2 3 8 9 4 5 10 6 11 12; 12; 0 11 12; 0 11 12; 1 10 11 12; 1 10 11 12; 2 9 10 11 12; 2 9 10 11 12; 3 8 9 10 11 12; 3 8 9 10 11 12; 4 7 8 9 10 11 12; 4 7 8 9 10 11 12; 5 6 7 8 9 10 11 12; 5 6 7 8 9 10 11 12; 6 7 8 9 10 11 12";

// The plan over blocks of two vertices of the graph with these edges.
fn plan_of(
    rt: &(impl Abort + Threads + Sync),
    alloc: Global,
    n: u32,
    rows: &[(u32, u32, u32)],
) -> Result<Plan, Fail> {
    let graph = graph_of(rt, alloc, n, rows)?;
    let order = Order::of(rt, alloc, &graph)?;
    Ok(Plan::blocks(alloc, &graph, &order, 2)?)
}

// Takes a seat out, which has this number.
fn taken(rt: &impl Abort, board: &Board, seats: &mut Seats, number: u32) -> Seat
    requires each { All (λ seat. IsSeatOf seat board.now) seats.old }
    requires ready { All IsReady seats.old }
    ensures seat { IsSeatOf result board.now }
    ensures is_ready { IsReady result }
    ensures left { length seats.new + 1 ≡ length seats.old }
    ensures each { All (λ seat. IsSeatOf seat board.now) seats.new }
    ensures ready { All IsReady seats.new }
{
    let seat = seats.take().expect(rt, "a seat is in");
    assert!(rt; seat.number() == number);
    assert!(rt; seat.is_idle() && !seat.has_missed());
    seat
}

// Puts a seat back that has missed.
fn put_back(board: &Board, seats: &mut Seats, seat: Seat)
    requires each { All (λ seat. IsSeatOf seat board.now) seats.old }
    requires done { All IsDone seats.old }
    requires seat { IsSeatOf seat board.now }
    requires is_done { IsDone seat }
    requires few { length seats.old < board.now.workers }
    ensures count { length seats.new ≡ length seats.old + 1 }
    ensures each { All (λ seat. IsSeatOf seat board.now) seats.new }
    ensures done { All IsDone seats.new }
{
    let _ = board;
    seats.put_back(seat);
}

// Draws a tile, which has this number, and builds it.
fn drawn(rt: &impl Abort, board: &Board, plan: &Plan, seat: &mut Seat, tile: u32) -> Part
    requires seat { IsSeatOf seat.old board.now }
    requires plan { plan.now ≡ board.now.plan }
    requires ready { IsReady seat.old }
    ensures seat { IsSeatOf seat.new board.now }
    ensures hand { seat.new.view.hand ≡ Some tile }
    ensures fresh { seat.new.view.missed ≡ false }
    ensures fits { Fits board.now.plan tile result }
{
    let part = board.draw(plan, seat).expect(rt, "a tile is left");
    assert!(rt; seat.hand() == Some(tile));
    built(plan, tile, part)
}

// A draw that misses.
fn miss(rt: &impl Abort, board: &Board, plan: &Plan, seat: &mut Seat)
    requires seat { IsSeatOf seat.old board.now }
    requires plan { plan.now ≡ board.now.plan }
    requires ready { IsReady seat.old }
    ensures seat { IsSeatOf seat.new board.now }
    ensures done { IsDone seat.new }
{
    let None = board.draw(plan, seat) else {
        panic!(rt; "a tile is left")
    };
}

// Arrives with a part whose sibling is missing.
fn arrive_first(rt: &impl Abort, board: &Board, plan: &Plan, seat: &mut Seat, part: Part)
    requires seat { IsSeatOf seat.old board.now }
    requires plan { plan.now ≡ board.now.plan }
    requires hand { (i : ℕ) × ((seat.old.view.hand ≡ Some i) × Fits board.now.plan i part) }
    ensures seat { IsSeatOf seat.new board.now }
    ensures ready { IsReady seat.new }
{
    let Arrival::Waits = board.arrive(plan, seat, part) else {
        panic!(rt; "the sibling is missing")
    };
}

// Arrives with a part whose sibling has arrived, and joins both to the merge of this number.
fn arrive_second(
    rt: &impl Abort,
    board: &Board,
    plan: &Plan,
    seat: &mut Seat,
    part: Part,
    merge: u32,
) -> Part
    requires seat { IsSeatOf seat.old board.now }
    requires plan { plan.now ≡ board.now.plan }
    requires hand { (i : ℕ) × ((seat.old.view.hand ≡ Some i) × Fits board.now.plan i part) }
    ensures seat { IsSeatOf seat.new board.now }
    ensures hand { seat.new.view.hand ≡ Some merge }
    ensures fresh { seat.new.view.missed ≡ false }
    ensures fits { Fits board.now.plan merge result }
{
    let Arrival::Both {
        number,
        left,
        right,
    } = board.arrive(plan, seat, part)
    else {
        panic!(rt; "the sibling has arrived")
    };
    let tiles = plan.tiles();
    assert!(rt; number == merge);
    assert!(rt; 1 <= tiles && tiles <= merge && merge <= plan.root());
    merged(plan, merge, left, right)
}

// Arrives with the root.
fn arrive_last(rt: &impl Abort, board: &Board, plan: &Plan, seat: &mut Seat, part: Part)
    requires seat { IsSeatOf seat.old board.now }
    requires plan { plan.now ≡ board.now.plan }
    requires hand { (i : ℕ) × ((seat.old.view.hand ≡ Some i) × Fits board.now.plan i part) }
    ensures seat { IsSeatOf seat.new board.now }
    ensures ready { IsReady seat.new }
{
    let Arrival::Whole = board.arrive(plan, seat, part) else {
        panic!(rt; "the part is the root")
    };
}

// Puts the ranks of a place's chain behind a text.
fn push_chain(alloc: Global, text: &mut String, part: &Part, place: u32) -> Result<(), AllocError>
    requires { IsCovered part.now.region place }
{
    text.push(';')?;
    for rank in chain(alloc, part, place)?.iter() {
        write!(text, " {rank}")?;
    }
    Ok(())
}

// The lots and the number of edges.
fn heading(alloc: Global, part: &Part) -> Result<String, AllocError> {
    let mut text = format!(in alloc; "{} edges, lots", part.given())?;
    for lot in part.lots() {
        write!(text, " {lot}")?;
    }
    Ok(text)
}

// What a part has.
fn told(rt: &impl Abort, alloc: Global, part: &Part) -> Result<String, AllocError> {
    assert!(rt; part.first() == 0);
    let mut text = heading(alloc, part)?;
    for place in 0..part.count() {
        push_chain(alloc, &mut text, part, place)?;
    }
    Ok(text)
}

// A part has what is written here.
fn tells(rt: &impl Abort, alloc: Global, part: &Part, text: &str) -> Result<(), AllocError> {
    let told = told(rt, alloc, part)?;
    assert!(rt; told.as_str() == text);
    Ok(())
}

#[test]
fn two_seats(rt: HostRuntime) -> Result<(), Fail> {
    let plan = plan_of(&rt, rt.alloc(), 4, &CYCLE)?;
    let (board, mut seats) = Board::set_up(rt.alloc(), &plan, 2)?;
    assert!(rt; seats.count() == 2);
    let mut first = taken(&rt, &board, &mut seats, 0);
    let mut second = taken(&rt, &board, &mut seats, 1);
    let None = seats.take() else {
        panic!(rt; "a seat is in")
    };
    assert!(rt; seats.count() == 0);
    let left = drawn(&rt, &board, &plan, &mut first, 0);
    let right = drawn(&rt, &board, &plan, &mut second, 1);
    arrive_first(&rt, &board, &plan, &mut first, left);
    let root = arrive_second(&rt, &board, &plan, &mut second, right, 2);
    arrive_last(&rt, &board, &plan, &mut second, root);
    miss(&rt, &board, &plan, &mut first);
    miss(&rt, &board, &plan, &mut second);
    put_back(&board, &mut seats, first);
    put_back(&board, &mut seats, second);
    let (part, receipt) = board.close(&plan, seats);
    assert!(rt; receipt.tiles() == 2 && receipt.workers() == 2 && receipt.edges() == 4);
    Ok(tells(&rt, rt.alloc(), &part, CYCLE_PART)?)
}

// So many workers make the part of which this is told.
fn makes<G: Gate>(
    rt: &(impl Abort + Threads + Sync),
    alloc: Global,
    plan: &Plan,
    workers: u32,
    gate: &G,
    text: &str,
) -> Result<(), Fail>
    requires some { 1 ≤ workers }
    requires few { workers ≤ 64 }
{
    let (board, mut seats) = Board::set_up(alloc, plan, workers)?;
    hierarchy(rt, &board, &mut seats, plan, gate);
    let (part, receipt) = board.close(plan, seats);
    assert!(rt; receipt.workers() == workers);
    Ok(tells(rt, alloc, &part, text)?)
}

#[test]
fn two_at_once(rt: HostRuntime) -> Result<(), Fail> {
    let plan = plan_of(&rt, rt.alloc(), 4, &CYCLE)?;
    let meeting = Meeting::new();
    makes(&rt, rt.alloc(), &plan, 2, &meeting, CYCLE_PART)?;
    assert!(rt; meeting.both_met(), "one worker after the other");
    Ok(())
}

// How many workers there are, which one is slow, and at what.
static SLOW: [(u32, u32, Kind); 15] = [
    (2, 0, Kind::Drew),
    (2, 0, Kind::Merging),
    (2, 0, Kind::Arrived),
    (2, 1, Kind::Drew),
    (2, 1, Kind::Merging),
    (2, 1, Kind::Arrived),
    (3, 0, Kind::Drew),
    (3, 0, Kind::Merging),
    (3, 0, Kind::Arrived),
    (3, 1, Kind::Drew),
    (3, 1, Kind::Merging),
    (3, 1, Kind::Arrived),
    (3, 2, Kind::Drew),
    (3, 2, Kind::Merging),
    (3, 2, Kind::Arrived),
];

// Whichever worker is slow, the part is always the same.
fn assert_slow(
    rt: &(impl Abort + Threads + Sync),
    alloc: Global,
    plan: &Plan,
    text: &str,
) -> Result<(), Fail> {
    for (workers, slow, kind) in SLOW {
        assert!(rt; 1 <= workers && workers <= 64);
        makes(rt, alloc, plan, workers, &Slow::new(slow, kind), text)?;
    }
    Ok(())
}

#[test]
fn slow_workers(rt: HostRuntime) -> Result<(), Fail> {
    let cycle = plan_of(&rt, rt.alloc(), 4, &CYCLE)?;
    assert!(rt; cycle.tiles() == 2);
    assert_slow(&rt, rt.alloc(), &cycle, CYCLE_PART)?;
    let path = plan_of(&rt, rt.alloc(), 14, &PATH)?;
    assert!(rt; path.tiles() == 7);
    assert_slow(&rt, rt.alloc(), &path, PATH_PART)?;
    makes(&rt, rt.alloc(), &path, 1, &OpenGate, PATH_PART)
}
