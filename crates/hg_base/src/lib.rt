//! Graphs, labels, faults, the outside of a run, lines of text, and what every crate above cites of lists and of counting.
#![tactic(auto)]

mod fault;
mod gate;
mod graph;
mod graph_fault;
mod kind;
mod labels;
mod memory;
mod numbering;
mod outside;
mod standard;
mod text;

pub use fault::{Failed, FaultKind, InputFault, OutOfMemory, ReadError};
pub use gate::{Gate, GateEvent, OpenGate};
pub use graph::{Edge, Graph, PlacedEdge, RankedEdge, Room};
pub use graph_fault::GraphFault;
pub use kind::Kind;
pub use labels::Labels;
pub use memory::{MemSink, MemSource, QuietSource, TallySink};
pub use numbering::{Numbering, number_keys};
pub use outside::{Sink, Source, write_all};
pub use standard::{StdSink, StdSource};
pub use text::{push_headed_line, push_line};
