// Splicing an edge e into the chains of its ends a and b. The chain of a vertex lists the edges that lead out of its
// component as that grows with the rank, so two vertices that are joined have one chain from then on. This is why a
// splice is right:
// - Where the chains of a and b meet below e, edges of lower rank join the ends: e is redundant, and no chain changes.
// - Else what comes next below e stays. The last edges below e on either chain are followed by e now, which leads out of
//   both components and makes them one; so from e on there is one chain, for all vertices of both.
// - What comes next on it is the lower of what comes next on the two: an edge that leads out of a's component leads out
//   of the united one too, as long as edges up to it don't join a and b without e.
// - The first edge on both chains is the one that first joined a and b. It leads out of nothing any more, since e has
//   joined them before: it is dropped, and above it the chains were one already. Where one chain ends, the other goes on.
ghost use Rattle.std.specs.Prelude.{◌≡◌, ◌≢◌, ℕ, ◌<◌, ◌^◌, ◌⊎◌, Some, None, IfSome, IsTrue};
ghost use Rattle.edge_laws.specs.Edges.{ListedEdge, EdgeList};
ghost use Rattle.edge_laws.specs.Placed.{placed};
ghost use Rattle.node_region.specs.Pool.{IsCovered, IsUsed};
ghost use Rattle.border_climb.specs.Linked.{HasRank};
ghost use Rattle.border_climb.specs.Notes.{IsSound};
ghost use Rattle.border_climb.specs.Splicing.{up_of, rank_of, KeepsRange, SomeSeam, StepsTo, EndsIn, IsLinkedList, SomeList, CanOpen, IsSpliced};
ghost use Rattle.border_climb.specs.Climbs.{IsRead, with_up, opened_pool};

use crate::climbing::{Met, Seen, begin, climb, last_below};
use crate::given::Given;
use hg_base::PlacedEdge;
use node_region::{Cell, Region};

/// Where two chains are merged: the last cell that was linked, and what comes next on either chain.
#[derive(Clone, Copy)]
pub(crate) struct Seam {
    pub(crate) last: u32,
    pub(crate) first: Option<u32>,
    pub(crate) second: Option<u32>,
}

// What stands above the last cell of a place's chain, or above the place itself where there is none.
#[inline(always)]
fn up(region: &Region, place: u32, last: Option<u32>) -> Option<u32>
    requires place { IsCovered region.now place }
    requires last { IfSome last (IsUsed region.now) }
    ensures { result ≡ up_of region.now place last }
{
    match last {
        Some(id) => region.get(id).up,
        None => region.leaf(place),
    }
}

// Puts another number there.
#[inline(always)]
fn set_up(region: &mut Region, place: u32, last: Option<u32>, up: Option<u32>)
    requires place { IsCovered region.old place }
    requires last { IfSome last (IsUsed region.old) }
    ensures { region.new ≡ with_up region.old place last up }
{
    match last {
        Some(id) => {
            let rank = region.get(id).rank;
            region.set(id, Cell { rank, up });
        }
        None => region.set_leaf(place, up),
    }
}

// Puts another number above a cell.
#[inline(always)]
fn link(region: &mut Region, id: u32, up: Option<u32>)
    requires { IsUsed region.old id }
    ensures { region.new ≡ with_up region.old 0 (Some id) up }
{
    let rank = region.get(id).rank;
    region.set(id, Cell { rank, up });
}

// Links the seam to the lower of the two cells that come next, and runs up its chain to the last cell below the other.
fn advance(region: &mut Region, last: u32, low: Seen, high: Met) -> Seam
    requires seam { SomeSeam region.old last (Some low.met.id) (Some high.id) }
    requires low { IsRead region.old low }
    requires high { HasRank region.old high.id high.rank }
    requires lower { low.met.rank < high.rank }
    ensures steps { StepsTo region.old last (Some low.met.id) (Some high.id) region.new result.last result.first result.second }
    ensures rises { rank_of region.old last < rank_of region.new result.last }
    ensures small { rank_of region.new result.last < 2 ^ 32 }
    ensures range { KeepsRange region.old region.new }
{
    let next = climb(region, low, high.rank);
    link(region, last, Some(low.met.id));
    Seam {
        last: next.met.id,
        first: next.entry.cell.up,
        second: Some(high.id),
    }
}

// Which of the two cells that come next is the lower one, and a step from there.
fn step(region: &mut Region, last: u32, first: u32, second: u32) -> Seam
    requires seam { SomeSeam region.old last (Some first) (Some second) }
    requires two { first ≢ second }
    ensures steps { StepsTo region.old last (Some first) (Some second) region.new result.last result.first result.second }
    ensures rises { rank_of region.old last < rank_of region.new result.last }
    ensures small { rank_of region.new result.last < 2 ^ 32 }
    ensures range { KeepsRange region.old region.new }
{
    let entry = region.entry(first);
    let other_entry = region.entry(second);
    let one = Met {
        id: first,
        rank: entry.cell.rank,
    };
    let other = Met {
        id: second,
        rank: other_entry.cell.rank,
    };
    if one.rank < other.rank {
        advance(region, last, Seen { met: one, entry }, other)
    } else {
        let low = Seen {
            met: other,
            entry: other_entry,
        };
        advance(region, last, low, one)
    }
}

// Both chains come to one cell, whose edge joins no more: its number is given back.
fn replace(region: &mut Region, last: u32, id: u32) -> Given
    requires { SomeSeam region.old last (Some id) (Some id) }
    ensures ends { EndsIn region.old last (Some id) (Some id) region.new result }
    ensures range { KeepsRange region.old region.new }
{
    let Cell { rank, up } = region.get(id);
    link(region, last, up);
    region.give_back(id);
    Given::Replaced(rank)
}

// One of the two chains has ended: the seam is linked to the other.
fn finish(region: &mut Region, seam: Seam) -> Given
    requires seam { SomeSeam region.old seam.last seam.first seam.second }
    requires one { (seam.first ≡ None) ⊎ (seam.second ≡ None) }
    ensures ends { EndsIn region.old seam.last seam.first seam.second region.new result }
    ensures range { KeepsRange region.old region.new }
{
    match seam.first {
        Some(_) => link(region, seam.last, seam.first),
        None => link(region, seam.last, seam.second),
    }
    Given::Joined
}

// Merges two chains into one in rising rank.
fn merge(region: &mut Region, seam: Seam) -> Given
    requires { SomeSeam region.old seam.last seam.first seam.second }
    ensures ends { EndsIn region.old seam.last seam.first seam.second region.new result }
    ensures range { KeepsRange region.old region.new }
{
    let mut seam = seam;
    while let (Some(first), Some(second)) = (seam.first, seam.second) {
        if first == second {
            return replace(region, seam.last, first);
        }
        seam = step(region, seam.last, first, second);
    }
    finish(region, seam)
}

// Whether both are one cell.
#[inline(always)]
fn are_one(first: Option<u32>, second: Option<u32>) -> bool
    ensures one { IsTrue result → (id : ℕ) × ((first ≡ Some id) × (second ≡ Some id)) }
    ensures never { (id : ℕ) → first ≡ Some id → second ≡ Some id → IsTrue result }
{
    match (first, second) {
        (Some(one), Some(other)) => one == other,
        _ => false,
    }
}

// Takes a free number for a new cell of the edge's rank, and puts it above the last cells below it on both chains.
fn open(region: &mut Region, e: PlacedEdge, first: Option<u32>, second: Option<u32>) -> Seam
    requires a { IsCovered region.old e.a }
    requires b { IsCovered region.old e.b }
    requires first { IfSome first (IsUsed region.old) }
    requires second { IfSome second (IsUsed region.old) }
    requires list { SomeList region.old e.rank }
    ensures opened { region.new ≡ opened_pool region.old e.a e.b first second result.last e.rank }
    ensures can { CanOpen region.old e.a e.b first second result.last }
    ensures first { result.first ≡ up_of region.old e.a first }
    ensures second { result.second ≡ up_of region.old e.b second }
{
    region.keeps_its_rules();
    let above_first = up(region, e.a, first);
    let above_second = up(region, e.b, second);
    let cell = Cell {
        rank: e.rank,
        up: None,
    };
    let Some(id) = region.take(cell) else {
        unreachable!()
    };
    set_up(region, e.a, first, Some(id));
    set_up(region, e.b, second, Some(id));
    Seam {
        last: id,
        first: above_first,
        second: above_second,
    }
}

// Splices an edge into the chains.
pub(crate) fn splice(region: &mut Region, e: PlacedEdge) -> Given
    requires a { IsCovered region.old e.a }
    requires b { IsCovered region.old e.b }
    requires two { e.a ≢ e.b }
    requires sound { IsSound region.old }
    requires list { SomeList region.old e.rank }
    ensures spliced { (f : ListedEdge) (s : EdgeList) → placed f ≡ e → IsLinkedList region.old s e.rank → IsSpliced region.new f s result }
    ensures sound { IsSound region.new }
    ensures range { KeepsRange region.old region.new }
    ensures small { e.rank < 2 ^ 32 }
{
    let first_begun = begin(region, e.a, e.rank);
    let second_begun = begin(region, e.b, e.rank);
    let first = last_below(region, e.a, first_begun, e.rank);
    let second = last_below(region, e.b, second_begun, e.rank);
    if are_one(first, second) {
        return Given::Redundant;
    }
    let seam = open(region, e, first, second);
    merge(region, seam)
}
