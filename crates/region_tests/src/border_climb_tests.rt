ghost use Rattle.std.specs.Prelude.{◌≡◌, ◌≢◌, ◌<◌};
ghost use Rattle.edge_laws.specs.Edges.{EdgeList};
ghost use Rattle.node_region.specs.Pool.{fresh_pool};
ghost use Rattle.border_climb.specs.Parts.{CanTake, IsLot};

use crate::chains::chain;
use border_climb::{Given, Part, build_tile, join};
use hg_base::{PlacedEdge, Room};
use std::alloc::{AllocError, Global};
use std::process::Abort;
use std::test::Fail;

// The edges of a cycle of four places, by rank.
const LINKS: [PlacedEdge; 4] = [
    PlacedEdge {
        rank: 0,
        a: 1,
        b: 2,
    },
    PlacedEdge {
        rank: 1,
        a: 0,
        b: 3,
    },
    PlacedEdge {
        rank: 2,
        a: 0,
        b: 1,
    },
    PlacedEdge {
        rank: 3,
        a: 2,
        b: 3,
    },
];

// The number of components, and the ranks of the chain of each place, for the edges of the ranks whose bits are set.
static SETS: [(u32, [&[u32]; 4]); 16] = [
    (4, [&[], &[], &[], &[]]),
    (3, [&[], &[0], &[0], &[]]),
    (3, [&[1], &[], &[], &[1]]),
    (2, [&[1], &[0], &[0], &[1]]),
    (3, [&[2], &[2], &[], &[]]),
    (2, [&[2], &[0, 2], &[0, 2], &[]]),
    (2, [&[1, 2], &[2], &[], &[1, 2]]),
    (1, [&[1, 2], &[0, 2], &[0, 2], &[1, 2]]),
    (3, [&[], &[], &[3], &[3]]),
    (2, [&[], &[0, 3], &[0, 3], &[3]]),
    (2, [&[1, 3], &[], &[3], &[1, 3]]),
    (1, [&[1, 3], &[0, 3], &[0, 3], &[1, 3]]),
    (2, [&[2], &[2], &[3], &[3]]),
    (1, [&[2, 3], &[0, 2, 3], &[0, 2, 3], &[3]]),
    (1, [&[1, 2, 3], &[2, 3], &[3], &[1, 2, 3]]),
    (1, [&[1, 2], &[0, 2], &[0, 2], &[1, 2]]),
];

// The part is that of the edges of the ranks whose bits are set.
fn assert_set(rt: &impl Abort, alloc: Global, part: &Part, set: usize) -> Result<(), AllocError> {
    let (roots, chains) = &SETS[set % 16];
    assert!(rt; part.roots() == *roots);
    assert!(rt; part.given() == u64::from(set.count_ones()));
    assert!(rt; part.first() == 0);
    assert!(rt; part.count() == 4);
    for place in 0..4 {
        let ranks = chain(alloc, part, place)?;
        assert!(rt; ranks.as_slice() == chains[place as usize]);
    }
    Ok(())
}

// Gives a part each of the edges in turn, looks at the part after each, and tells what it answers.
fn give_each(
    rt: &impl Abort,
    alloc: Global,
    part: &mut Part,
    edges: &[PlacedEdge],
) -> Result<Vec<Given>, AllocError>
    requires { (s : EdgeList) × CanTake part.old edges.now s }
{
    let mut answers = Vec::new(alloc);
    let mut set = 0;
    for edge in edges {
        answers.push(part.give(*edge))?;
        set |= 1 << (edge.rank % 4);
        assert_set(rt, alloc, part, set)?;
    }
    Ok(answers)
}

// The edge of this rank.
fn link(rank: u32) -> PlacedEdge
    requires { rank < 4 }
    ensures rank { result.rank ≡ rank }
    ensures a { result.a < 4 }
    ensures b { result.b < 4 }
    ensures two { result.a ≢ result.b }
{
    LINKS[rank as usize]
}

// The edges of these ranks.
fn links(i: u32, j: u32, k: u32, l: u32) -> [PlacedEdge; 4]
    requires few { (i < 4) × (j < 4) × (k < 4) × (l < 4) }
    requires apart { (i ≢ j) × (i ≢ k) × (i ≢ l) × (j ≢ k) × (j ≢ l) × (k ≢ l) }
    ensures { IsLot (fresh_pool 0 4 (record { places = 4; chunks = 1 })) result }
{
    [link(i), link(j), link(k), link(l)]
}

// Whichever order the edges come in, the first three join, and the last one answers so.
fn assert_order(rt: &impl Abort, alloc: Global, ranks: [u32; 4], last: Given) -> Result<(), Fail> {
    let [i, j, k, l] = ranks;
    assert!(rt; i < 4 && j < 4 && k < 4 && l < 4);
    assert!(rt; i != j && i != k && i != l);
    assert!(rt; j != k && j != l && k != l);
    let edges = links(i, j, k, l);
    let mut part = Part::whole(alloc, 4)?;
    let answers = give_each(rt, alloc, &mut part, &edges)?;
    let expected = [Given::Joined, Given::Joined, Given::Joined, last];
    assert!(rt; answers.as_slice() == expected.as_slice());
    assert!(rt; part.lots().is_empty());
    Ok(())
}

// Each order in which the edges can come, and what the last of them is answered.
static ORDERS: [([u32; 4], Given); 24] = [
    ([0, 1, 2, 3], Given::Redundant),
    ([0, 1, 3, 2], Given::Replaced(3)),
    ([0, 2, 1, 3], Given::Redundant),
    ([0, 2, 3, 1], Given::Replaced(3)),
    ([0, 3, 1, 2], Given::Replaced(3)),
    ([0, 3, 2, 1], Given::Replaced(3)),
    ([1, 0, 2, 3], Given::Redundant),
    ([1, 0, 3, 2], Given::Replaced(3)),
    ([1, 2, 0, 3], Given::Redundant),
    ([1, 2, 3, 0], Given::Replaced(3)),
    ([1, 3, 0, 2], Given::Replaced(3)),
    ([1, 3, 2, 0], Given::Replaced(3)),
    ([2, 0, 1, 3], Given::Redundant),
    ([2, 0, 3, 1], Given::Replaced(3)),
    ([2, 1, 0, 3], Given::Redundant),
    ([2, 1, 3, 0], Given::Replaced(3)),
    ([2, 3, 0, 1], Given::Replaced(3)),
    ([2, 3, 1, 0], Given::Replaced(3)),
    ([3, 0, 1, 2], Given::Replaced(3)),
    ([3, 0, 2, 1], Given::Replaced(3)),
    ([3, 1, 0, 2], Given::Replaced(3)),
    ([3, 1, 2, 0], Given::Replaced(3)),
    ([3, 2, 0, 1], Given::Replaced(3)),
    ([3, 2, 1, 0], Given::Replaced(3)),
];

#[test]
fn orders(rt: HostRuntime) -> Result<(), Fail> {
    for (ranks, last) in ORDERS {
        assert_order(&rt, rt.alloc(), ranks, last)?;
    }
    Ok(())
}

// Two tiles of two places, each with the edge between them, and the border's two edges.
#[test]
fn tiles(rt: HostRuntime) -> Result<(), Fail> {
    let left = Part::of_tile(
        rt.alloc(),
        0,
        2,
        Room {
            places: 4,
            chunks: 2,
        },
    )?;
    let right = Part::of_tile(
        rt.alloc(),
        2,
        2,
        Room {
            places: 2,
            chunks: 1,
        },
    )?;
    let left = build_tile(left, 0, &LINKS[2..3]);
    let right = build_tile(right, 1, &LINKS[3..]);
    let whole = join(left, right, 2, &LINKS[..2]);
    assert!(rt; whole.lots() == [0, 1, 2].as_slice());
    Ok(assert_set(&rt, rt.alloc(), &whole, 15)?)
}
