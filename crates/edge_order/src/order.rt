ghost use Rattle.std.specs.Prelude.{◌≡◌, ℕ, ◌+◌, ◌<◌, ◌≤◌, ◌∷◌, [], ◌++◌, length, map, take, slice_get, Some, IfOk, IsPermutation, All};
ghost use Rattle.hg_base.specs.Graph.{JoinsTwo, WeightedGraph, weight};
ghost use Rattle.edge_order.specs.Order.{order_of, number_at_rank, with_number, without_rank};
ghost use Rattle.edge_order.specs.Keys.{unpacked};
ghost use Rattle.edge_order.specs.Tables.{AreRising, keys_of, sorted_keys_of};

use crate::key::Key;
use hg_base::{Edge, Graph, OutOfMemory, RankedEdge};
use rayon::prelude::*;
use std::alloc::{AllocError, Global};
use std::marker::Model;
use std::thread::Threads;

// Fewer keys are sorted in one thread: others would take longer to start than to sort their share.
const FEW: usize = 16_384;

/// The edges of a graph in order of rank: by weight, then by number.
#[derive(Drop)]
pub struct Order {
    n: u32,
    // The weight and the number of each edge, by rank.
    keys: Vec<Key>,
    // The edges by number.
    edges: Vec<Edge>,
}

impl Model for Order {
    ghost use Rattle.edge_order.specs.Order.{EdgeOrder};

    ghost Value = { EdgeOrder };

    ghost use Rattle.edge_order.specs.OrderFields.{order_in, IsTable};

    ghost view = { order_in };

    ghost invariant = { IsTable };
}

/// The weight and the number of each edge, by number.
fn keys(alloc: Global, graph: &Graph) -> Result<Vec<Key>, AllocError>
    ensures { IfOk result (λ v. map unpacked v.items ≡ keys_of graph.now) }
{
    let mut keys = Vec::with_capacity(alloc, graph.m() as usize)?;
    for number in 0..graph.m() {
        keys.push(Key::new(graph.edge(number).w, number))?;
    }
    Ok(keys)
}

/// The weight and the number of each edge, by rank.
fn sorted_keys(
    rt: &(impl Threads + Sync),
    alloc: Global,
    graph: &Graph,
) -> Result<Vec<Key>, AllocError>
    ensures keys { IfOk result (λ v. map unpacked v.items ≡ sorted_keys_of graph.now) }
    ensures rising { IfOk result (λ v. AreRising v.items) }
{
    let mut keys = keys(alloc, graph)?;
    sort(rt, &mut keys);
    Ok(keys)
}

/// Sorts keys, in as many threads as can be had where there are many.
fn sort(rt: &(impl Threads + Sync), keys: &mut [Key])
    ensures permutation { IsPermutation keys.old keys.new }
    ensures len { length keys.new ≡ length keys.old }
    ensures rising { AreRising keys.new }
{
    if keys.len() < FEW {
        keys.sort_unstable();
    } else {
        par_sort_unstable(rt, keys);
    }
}

/// The edges by number.
fn edges(alloc: Global, graph: &Graph) -> Result<Vec<Edge>, AllocError>
    ensures edges { IfOk result (λ v. v.items ≡ graph.now.edges) }
    ensures ends { IfOk result (λ v. All (JoinsTwo graph.now.n) v.items) }
    ensures few { IfOk result (λ v. length v.items ≤ 4194304) }
{
    let mut edges = Vec::with_capacity(alloc, graph.m() as usize)?;
    for number in 0..graph.m() {
        edges.push(graph.edge(number))?;
    }
    Ok(edges)
}

impl Order {
    /// The order of all edges of a graph. The error is want of memory.
    pub fn of(
        rt: &(impl Threads + Sync),
        alloc: Global,
        graph: &Graph,
    ) -> Result<Order, OutOfMemory>
        ensures { IfOk result (λ order. order ≡ order_of graph.now) }
    {
        Order::from_graph(rt, alloc, graph).map_err(|_| OutOfMemory)
    }

    fn from_graph(
        rt: &(impl Threads + Sync),
        alloc: Global,
        graph: &Graph,
    ) -> Result<Order, AllocError>
        ensures { IfOk result (λ order. order ≡ order_of graph.now) }
    {
        let keys = sorted_keys(rt, alloc, graph)?;
        let edges = edges(alloc, graph)?;
        Ok(Order {
            n: graph.n(),
            keys,
            edges,
        })
    }

    /// Does nothing. It stands where only this is needed: the order is that of a graph, and has no more edges than that.
    #[inline(always)]
    pub fn keeps_its_rules(&self)
        ensures graph { (g : WeightedGraph) × (self.now ≡ order_of g) }
        ensures edges { length self.now.edges ≤ 4194304 }
    {
        let _ = &self.n;
    }

    /// The number of edges.
    pub fn len(&self) -> u32
        ensures value { result ≡ length self.now.edges }
        ensures edges { result ≤ 4194304 }
        ensures graph { (g : WeightedGraph) × (self.now ≡ order_of g) }
    {
        self.edges.len() as u32
    }

    /// The edge at rank `k`.
    pub fn at(&self, k: u32) -> RankedEdge
        requires { k < length self.now.edges }
        ensures value { slice_get self.now.edges k ≡ Some (with_number result (number_at_rank self.now k)) }
        ensures rank { result.rank ≡ k }
        ensures ends { JoinsTwo self.now.n (without_rank result) }
        ensures next { let edge = with_number result (number_at_rank self.now k) in
            take (k + 1) self.now.edges ≡ take k self.now.edges ++ edge ∷ [] }
    {
        let key = self.keys[k as usize];
        let Edge { u, v, .. } = self.edges[key.number() as usize];
        RankedEdge {
            rank: k,
            u,
            v,
            w: key.weight(),
        }
    }

    /// The number of the edge at rank `k`.
    pub fn edge_at(&self, k: u32) -> u32
        requires { k < length self.now.edges }
        ensures value { result ≡ number_at_rank self.now k }
        ensures below { result < length self.now.edges }
    {
        self.keys[k as usize].number()
    }

    /// The rank of edge number `e`.
    pub fn rank_of(&self, e: u32) -> u32
        requires { e < length self.now.edges }
        ensures value { number_at_rank self.now result ≡ e }
        ensures below { result < length self.now.edges }
        ensures only { (k : ℕ) → k < length self.now.edges → number_at_rank self.now k ≡ e → k ≡ result }
    {
        let key = Key::new(self.edges[e as usize].w, e);
        match self.keys.binary_search(&key) {
            Ok(rank) => rank as u32,
            Err(_) => unreachable!(),
        }
    }
}
