#![tactic(auto, unfolding(crate::specs::Parsing::reading_at, crate::specs::Parsing::settling, crate::specs::EdgeList::graph, crate::specs::EdgeList::several, crate::specs::EdgeList::edge))]

ghost use Rattle.std.specs.Prelude.{◌≡◌, ◌≢◌, ◌<◌, ◌≤◌, ◌↔◌, ◌⊎◌, ℕ, List, [], ◌∷◌, true, false, length, IsTrue, IfSome, Err};
ghost use Rattle.graph_reader.specs.Parsing.{Takes, TakesThree, IsNextEdge, TakesRoom, reading, is_over, is_out_of_memory, settling, graph_so_far};
ghost use Rattle.input_tokens.specs.Progress.{Answers};

use crate::rules;
use hg_base::{Edge, FaultKind, Graph, InputFault, ReadError};
use input_tokens::{Found, Token, truncated};
use std::alloc::Global;
use std::marker::Model;

/// Which token is read next, and what of an edge has been read.
#[derive(Clone, Copy)]
pub enum Stage {
    FirstWord,
    Vertices,
    Edges,
    Area,
    FirstEnd,
    /// The first end has been read.
    SecondEnd(u32),
    /// Both ends have been read.
    Weight(u32, u32),
    /// The reading has ended.
    Faulty(InputFault),
    /// There was no memory for the areas or the edges.
    OutOfMemory,
}

/// What has been read of an edge list, token by token. Memory is taken once, at the number of edges.
#[derive(Drop)]
pub struct Parser {
    alloc: Global,
    stage: Stage,
    with_areas: bool,
    n: u32,
    m: u32,
    areas: Vec<u32>,
    edges: Vec<Edge>,
}

impl Model for Parser {
    ghost use Rattle.graph_reader.specs.Parsing.{Parsing};

    ghost Value = { Parsing };

    ghost use Rattle.graph_reader.specs.ParserFields.{parsing_of, Keeps};

    ghost view = { parsing_of };

    ghost invariant = { Keeps };
}

impl Parser {
    /// Nothing has been read.
    pub fn new(alloc: Global) -> Parser
        ensures { result ≡ record { stage = Stage.FirstWord; with_areas = false; n = 0; m = 0; areas = []; edges = [] } }
    {
        Parser {
            alloc,
            stage: Stage::FirstWord,
            with_areas: false,
            n: 0,
            m: 0,
            areas: Vec::new(alloc),
            edges: Vec::new(alloc),
        }
    }

    /// Reads the next token. After a fault, or where memory ran out, nothing changes any more.
    pub fn take(&mut self, at: u64, token: Token)
        ensures { Takes self.old self.new at token }
    {
        match self.stage {
            Stage::FirstWord => self.take_first_word(at, token),
            Stage::Vertices => self.take_vertices(at, token),
            Stage::Edges => self.take_edges(at, token),
            Stage::Area => self.take_area(at, token),
            Stage::FirstEnd => self.take_first_end(at, token),
            Stage::SecondEnd(u) => self.take_second_end(u, at, token),
            Stage::Weight(u, v) => self.take_weight(u, v, at, token),
            Stage::Faulty(_) | Stage::OutOfMemory => {}
        }
    }

    /// Reads three tokens, as `take` does one after another.
    pub fn take_three(&mut self, u: Found, v: Found, w: Found)
        ensures { TakesThree self.old self.new u v w }
    {
        if let Some(edge) = self.next_edge(u, v, w) {
            self.edges.push_reserved(edge);
            return;
        }
        self.take(u.at, u.token);
        self.take(v.at, v.token);
        self.take(w.at, w.token);
    }

    // The edge that these tokens give, where one is read next.
    fn next_edge(&self, u: Found, v: Found, w: Found) -> Option<Edge>
        ensures { IfSome result (IsNextEdge self.now u v w) }
    {
        if !self.is_at_edge() {
            return None;
        }
        let Ok(first) = rules::first_end_read(self.n, u.at, u.token) else {
            return None;
        };
        let Ok(second) = rules::second_end_read(self.n, first, v.at, v.token) else {
            return None;
        };
        let Ok(weight) = rules::weight_read(w.at, w.token) else {
            return None;
        };
        Some(Edge {
            u: first,
            v: second,
            w: weight,
        })
    }

    /// Whether an edge is read next.
    pub fn is_at_edge(&self) -> bool
        ensures { IsTrue result → (self.now.stage ≡ Stage.FirstEnd) × (length self.now.edges < self.now.m) }
    {
        matches!(self.stage, Stage::FirstEnd) && self.edges.len() < self.m as usize
    }

    fn take_first_word(&mut self, at: u64, token: Token)
        requires { self.old.stage ≡ Stage.FirstWord }
        ensures { Takes self.old self.new at token }
    {
        match rules::first_word(at, token) {
            Ok(with_areas) => {
                self.with_areas = with_areas;
                self.stage = Stage::Vertices;
            }
            Err(fault) => self.stage = Stage::Faulty(fault),
        }
    }

    fn take_vertices(&mut self, at: u64, token: Token)
        requires { self.old.stage ≡ Stage.Vertices }
        ensures { Takes self.old self.new at token }
    {
        match rules::vertices(at, token) {
            Ok(n) => {
                self.n = n;
                self.stage = Stage::Edges;
            }
            Err(fault) => self.stage = Stage::Faulty(fault),
        }
    }

    fn take_edges(&mut self, at: u64, token: Token)
        requires { self.old.stage ≡ Stage.Edges }
        ensures { Takes self.old self.new at token }
    {
        match rules::edges(at, token) {
            Ok(m) => self.make_room(m),
            Err(fault) => self.stage = Stage::Faulty(fault),
        }
    }

    // Takes the memory for m edges, and for the areas where they are given.
    fn make_room(&mut self, m: u32)
        requires stage { self.old.stage ≡ Stage.Edges }
        requires edges { m ≤ 4194304 }
        ensures { TakesRoom self.old self.new m }
    {
        match Vec::with_capacity(self.alloc, m as usize) {
            Ok(edges) => self.edges = edges,
            Err(_) => {
                self.stage = Stage::OutOfMemory;
                return;
            }
        }
        self.m = m;
        if !self.with_areas {
            self.stage = Stage::FirstEnd;
            return;
        }
        match Vec::with_capacity(self.alloc, self.n as usize) {
            Ok(areas) => {
                self.areas = areas;
                self.stage = Stage::Area;
            }
            Err(_) => self.stage = Stage::OutOfMemory,
        }
    }

    fn take_area(&mut self, at: u64, token: Token)
        requires { self.old.stage ≡ Stage.Area }
        ensures { Takes self.old self.new at token }
    {
        match rules::area(at, token) {
            Ok(area) => {
                self.areas.push_reserved(area);
                if self.areas.len() == self.n as usize {
                    self.stage = Stage::FirstEnd;
                }
            }
            Err(fault) => self.stage = Stage::Faulty(fault),
        }
    }

    fn take_first_end(&mut self, at: u64, token: Token)
        requires { self.old.stage ≡ Stage.FirstEnd }
        ensures { Takes self.old self.new at token }
    {
        if self.edges.len() == self.m as usize {
            self.stage = Stage::Faulty(InputFault {
                kind: FaultKind::Trailing,
                at,
                value: 0,
            });
            return;
        }
        match rules::first_end_read(self.n, at, token) {
            Ok(u) => self.stage = Stage::SecondEnd(u),
            Err(fault) => self.stage = Stage::Faulty(fault),
        }
    }

    fn take_second_end(&mut self, u: u32, at: u64, token: Token)
        requires { self.old.stage ≡ Stage.SecondEnd u }
        ensures { Takes self.old self.new at token }
    {
        match rules::second_end_read(self.n, u, at, token) {
            Ok(v) => self.stage = Stage::Weight(u, v),
            Err(fault) => self.stage = Stage::Faulty(fault),
        }
    }

    fn take_weight(&mut self, u: u32, v: u32, at: u64, token: Token)
        requires { self.old.stage ≡ Stage.Weight u v }
        ensures { Takes self.old self.new at token }
    {
        match rules::weight_read(at, token) {
            Ok(w) => {
                self.edges.push_reserved(Edge { u, v, w });
                self.stage = Stage::FirstEnd;
            }
            Err(fault) => self.stage = Stage::Faulty(fault),
        }
    }

    /// Whether the number of edges, or a fault, has been read.
    pub fn is_settled(&self) -> bool
        ensures { result ≡ settling self.now.stage [] }
    {
        !matches!(
            self.stage,
            Stage::FirstWord | Stage::Vertices | Stage::Edges
        )
    }

    /// Whether there was no memory for the graph.
    pub fn is_out_of_memory(&self) -> bool
        ensures { result ≡ is_out_of_memory self.now.stage }
    {
        matches!(self.stage, Stage::OutOfMemory)
    }

    /// Whether no token changes anything any more: a fault is known, or memory ran out.
    pub fn is_over(&self) -> bool
        ensures { result ≡ is_over self.now.stage }
    {
        matches!(self.stage, Stage::Faulty(_) | Stage::OutOfMemory)
    }

    /// The graph, where the input ends at this place and has no further token. Takes no memory.
    pub fn finish(self, end: u64) -> Result<Graph, ReadError>
        ensures read { is_out_of_memory self.stage ≡ false → Answers result (reading self end []) }
        ensures memory { IsTrue (is_out_of_memory self.stage) ↔ (result ≡ Err ReadError.OutOfMemory) }
    {
        match self.stage {
            Stage::FirstWord => Err(ReadError::Fault(InputFault {
                kind: FaultKind::UnknownForm,
                at: end,
                value: 0,
            })),
            Stage::FirstEnd => {
                if self.edges.len() == self.m as usize {
                    Ok(self.into_graph())
                } else {
                    Err(truncated(end))
                }
            }
            Stage::Vertices
            | Stage::Edges
            | Stage::Area
            | Stage::SecondEnd(_)
            | Stage::Weight(_, _) => Err(truncated(end)),
            Stage::Faulty(fault) => Err(ReadError::Fault(fault)),
            Stage::OutOfMemory => Err(ReadError::OutOfMemory),
        }
    }

    fn into_graph(self) -> Graph
        requires stage { self.stage ≡ Stage.FirstEnd }
        requires all { length self.edges ≡ self.m }
        ensures { result ≡ graph_so_far self }
    {
        let Parser {
            alloc: _,
            stage: _,
            with_areas,
            n,
            m: _,
            areas,
            edges,
        } = self;
        if with_areas {
            Graph::with_areas(n, areas, edges)
        } else {
            Graph::new(n, edges)
        }
    }

    /// The graph, where the input ends at this place and this token is its last. Takes no memory.
    pub fn finish_with(self, at: u64, token: Token, end: u64) -> Result<Graph, ReadError>
        ensures read { is_out_of_memory self.stage ≡ false → (to : ℕ) →
            Answers result (reading self end (record { from = at; to = to; token = token } ∷ [])) }
        ensures memory { IsTrue (is_out_of_memory self.stage) ↔ (result ≡ Err ReadError.OutOfMemory) }
    {
        let mut parser = self;
        if matches!(parser.stage, Stage::Edges) {
            return parser.finish_at_edges(at, token, end);
        }
        parser.take(at, token);
        parser.finish(end)
    }

    // The last token is the number of edges: a graph without edges, or the input ends too early.
    fn finish_at_edges(self, at: u64, token: Token, end: u64) -> Result<Graph, ReadError>
        requires { self.stage ≡ Stage.Edges }
        ensures read { (to : ℕ) → Answers result (reading self end (record { from = at; to = to; token = token } ∷ [])) }
        ensures memory { result ≢ Err ReadError.OutOfMemory }
    {
        match rules::edges(at, token) {
            Ok(m) => {
                if m == 0 && !self.with_areas {
                    Ok(Graph::new(self.n, Vec::new(self.alloc)))
                } else {
                    Err(truncated(end))
                }
            }
            Err(fault) => Err(ReadError::Fault(fault)),
        }
    }
}
