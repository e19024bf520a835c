ghost use Rattle.std.specs.Prelude.{◌≡◌, ◌↔◌, ℕ, ◌<◌, ◌≤◌, length, slice_get, Some, All, IfOk, IfErr, IsOk};
ghost use Rattle.hg_base.specs.Graph.{AreLight, IsGraph, JoinsTwo, with_unit_areas};
ghost use Rattle.hg_base.specs.GraphFaults.{IsGraphFault};

use super::graph_fault::{GraphFault, first_fault};
use std::marker::Model;

/// An edge of a graph: its two ends and its weight. Its number is its place in the graph's list.
#[derive(Clone, Copy, Debug, PartialEq, Eq)]
pub struct Edge {
    pub u: u32,
    pub v: u32,
    pub w: u32,
}

/// An edge and its rank: the number of edges that come before it by weight, then by number.
#[derive(Clone, Copy, Debug, PartialEq, Eq)]
pub struct RankedEdge {
    pub rank: u32,
    pub u: u32,
    pub v: u32,
    pub w: u32,
}

/// An edge between two places of a part, with its rank.
#[derive(Clone, Copy, Debug, PartialEq, Eq)]
pub struct PlacedEdge {
    pub rank: u32,
    pub a: u32,
    pub b: u32,
}

/// How many places and how many tiles a part can grow to.
#[derive(Clone, Copy, Debug, PartialEq, Eq)]
pub struct Room {
    pub places: u32,
    pub chunks: u32,
}

/// A graph with weighted edges and an area for each vertex. It is never empty: it has from 1 to
/// 1,048,576 vertices and at most 4,194,304 edges, whose ends are two different vertices.
#[derive(Drop)]
pub struct Graph {
    n: u32,
    // Where there are none, each area is 1.
    areas: Option<Vec<u32>>,
    edges: Vec<Edge>,
}

impl Model for Graph {
    ghost use Rattle.hg_base.specs.Graph.{WeightedGraph};

    ghost Value = { WeightedGraph };

    ghost use Rattle.hg_base.specs.GraphFields.{graph_in, AreOfGraph};

    ghost view = { graph_in };

    ghost invariant = { AreOfGraph };
}

impl Graph {
    /// The graph with these edges, in which each vertex has the area 1.
    pub fn new(n: u32, edges: Vec<Edge>) -> Graph
        requires { IsGraph (with_unit_areas n edges.items) }
        ensures { result ≡ with_unit_areas n edges.items }
    {
        read_weights(&edges);
        Graph {
            n,
            areas: None,
            edges,
        }
    }

    /// The graph with these edges, in which each vertex has the area 1, where they are those of a graph. Else what is wrong
    /// first: with the number of vertices, with that of edges, or with the first edge that doesn't join two vertices. It
    /// takes no memory.
    pub fn from_edges(n: u32, edges: Vec<Edge>) -> Result<Graph, GraphFault>
        ensures graph { IfOk result (λ graph. graph ≡ with_unit_areas n edges.items) }
        ensures accepted { IsOk result ↔ IsGraph (with_unit_areas n edges.items) }
        ensures fault { IfErr result (IsGraphFault n edges.items) }
    {
        match first_fault(n, &edges) {
            Some(fault) => Err(fault),
            None => Ok(Graph::new(n, edges)),
        }
    }

    /// The graph with these areas, one for each vertex, and these edges.
    pub fn with_areas(n: u32, areas: Vec<u32>, edges: Vec<Edge>) -> Graph
        requires { IsGraph (record { n = n; areas = areas.items; edges = edges.items }) }
        ensures { result ≡ record { n = n; areas = areas.items; edges = edges.items } }
    {
        read_weights(&edges);
        Graph {
            n,
            areas: Some(areas),
            edges,
        }
    }

    /// Does nothing. It stands where only this is needed: the graph keeps to its limits, `IsGraph`, and each weight is a
    /// number of 32 bits.
    #[inline(always)]
    pub fn keeps_its_rules(&self)
        ensures graph { IsGraph self.now }
        ensures light { AreLight self.now.edges }
        ensures some_vertex { 1 ≤ self.now.n }
        ensures vertices { self.now.n ≤ 1048576 }
        ensures edges { length self.now.edges ≤ 4194304 }
    {
        let _ = &self.n;
    }

    /// The number of vertices. The graph keeps to its limits.
    pub fn n(&self) -> u32
        ensures value { result ≡ self.now.n }
        ensures graph { IsGraph self.now }
        ensures some_vertex { 1 ≤ result }
        ensures vertices { result ≤ 1048576 }
    {
        self.n
    }

    /// The number of edges.
    pub fn m(&self) -> u32
        ensures value { result ≡ length self.now.edges }
        ensures edges { result ≤ 4194304 }
    {
        self.edges.len() as u32
    }

    /// The edges, each at the place of its number.
    pub fn edges(&self) -> &[Edge]
        ensures value { result.now ≡ self.now.edges }
        ensures edges { length result.now ≤ 4194304 }
        ensures ends { All (JoinsTwo self.now.n) result.now }
        ensures light { AreLight result.now }
    {
        &self.edges
    }

    /// The edge with this number.
    pub fn edge(&self, e: u32) -> Edge
        requires { e < length self.now.edges }
        ensures value { slice_get self.now.edges e ≡ Some result }
        ensures ends { JoinsTwo self.now.n result }
    {
        self.edges[e as usize]
    }

    /// The area of this vertex, from 1 to 4,096.
    pub fn area(&self, v: u32) -> u32
        requires { v < self.now.n }
        ensures area { slice_get self.now.areas v ≡ Some result }
        ensures positive { 1 ≤ result }
        ensures small { result ≤ 4096 }
    {
        match &self.areas {
            Some(areas) => areas[v as usize],
            None => 1,
        }
    }
}

// Reads each edge: its weight is a number of 32 bits.
fn read_weights(edges: &[Edge])
    ensures { AreLight edges.now }
{
    for e in 0..edges.len() {
        let _ = edge_at(edges, e);
    }
}

// The edge at a place of a list.
#[inline(always)]
fn edge_at(edges: &[Edge], e: usize) -> Edge
    requires { e < length edges.now }
    ensures { slice_get edges.now e ≡ Some result }
{
    edges[e]
}
