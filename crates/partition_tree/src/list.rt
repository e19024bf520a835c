ghost use Rattle.std.specs.Prelude.{◌≡◌, length, IfOk};
ghost use Rattle.tree_laws.specs.Tree.{tree_of, IsFrontTree};
ghost use Rattle.node_region.specs.Pool.{count};
ghost use Rattle.border_climb.specs.Stands.{Stands};
ghost use Rattle.partition_tree.specs.Ranked.{IsRankedList, edge_at, edges_of};

use crate::block_keys::block_keys;
use crate::drawn::drawn;
use crate::edges::Edges;
use crate::tree::Tree;
use border_climb::Part;
use hg_base::{OutOfMemory, PlacedEdge};
use std::alloc::{AllocError, Global};

/// An edge of a list from which a tree is made: its two ends, its number and its altitude.
/// Its rank is its place in the list.
#[derive(Clone, Copy, Debug, PartialEq, Eq)]
pub struct Ranked {
    pub u: u32,
    pub v: u32,
    pub edge: u32,
    pub altitude: u64,
}

impl Tree {
    /// The binary partition tree of a list of edges over the vertices 0 to n - 1, where the place in the list is
    /// the rank (Najman, Cousty and Perret, Playing with Kruskal, 2013). The list's altitudes don't fall.
    pub fn of_list(alloc: Global, n: u32, list: &[Ranked]) -> Result<Tree, OutOfMemory>
        requires { IsRankedList n list.now }
        ensures tree { IfOk result (λ tree. tree ≡ tree_of n (edges_of list.now)) }
        ensures fronts { IfOk result (λ tree. IsFrontTree tree n (edges_of list.now)) }
    {
        let part = part_of(alloc, n, list)?;
        tree_of_part(alloc, &part, list).map_err(|_| OutOfMemory)
    }
}

// The part of n places to which the edges of the list were given.
fn part_of(alloc: Global, n: u32, list: &[Ranked]) -> Result<Part, OutOfMemory>
    requires { IsRankedList n list.now }
    ensures first { IfOk result (λ part. part.region.first ≡ 0) }
    ensures count { IfOk result (λ part. count part.region ≡ n) }
    ensures stands { IfOk result (λ part. Stands part (edges_of list.now)) }
{
    let mut part = Part::whole(alloc, n)?;
    let block_keys = block_keys(alloc, list).map_err(|_| OutOfMemory)?;
    for key in &block_keys {
        let e = list[key.rank as usize];
        part.give(PlacedEdge {
            rank: key.rank,
            a: e.u,
            b: e.v,
        });
    }
    Ok(part)
}

// A list of edges over the vertices 0 to n - 1, each of which is its own place.
#[derive(Clone, Copy)]
struct ListEdges<'a> {
    n: u32,
    list: &'a [Ranked],
}

impl Edges for ListEdges<'_> {
    ghost vertices = { λ s. s.n };

    ghost len = { λ s. length s.list.now };

    ghost place_at = { λ s v. v };

    ghost altitude_at = { λ s r. (edge_at s.list.now r).weight };

    ghost number_at = { λ s r. (edge_at s.list.now r).number };

    fn n(&self) -> u32 {
        self.n
    }

    fn place(&self, vertex: u32) -> u32 {
        vertex
    }

    fn altitude(&self, rank: u32) -> u64 {
        self.list[rank as usize].altitude
    }

    fn number(&self, rank: u32) -> u32 {
        self.list[rank as usize].edge
    }
}

// The tree of a part that was given the edges of a list.
fn tree_of_part(alloc: Global, part: &Part, list: &[Ranked]) -> Result<Tree, AllocError>
    requires first { part.now.region.first ≡ 0 }
    requires list { IsRankedList (count part.now.region) list.now }
    requires stands { Stands part.now (edges_of list.now) }
    ensures tree { IfOk result (λ tree. tree ≡ tree_of (count part.now.region) (edges_of list.now)) }
    ensures fronts { IfOk result (λ tree. IsFrontTree tree (count part.now.region) (edges_of list.now)) }
{
    let n = part.count();
    let edges = ListEdges { n, list };
    let lists = drawn(alloc, &edges, part, list.len())?;
    Ok(Tree::new(n, lists.parents, lists.altitudes, lists.makers))
}
