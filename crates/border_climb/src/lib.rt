//! Parts: the chains of a range of places. Edges are given in any order, and each is spliced in by climbing.
#![tactic(auto)]

mod building;
mod climbing;
mod given;
mod part;
mod splicing;

pub use building::{build_tile, join};
pub use given::Given;
pub use part::Part;
