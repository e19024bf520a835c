//! Edge lists, read whole or in pieces, with every fault at its place.
#![tactic(auto)]

mod decoder;
mod laws;
mod parser;
mod rules;

pub use decoder::{Decoder, read_graph};
pub use laws::{edge_lists_are_spellings, faults_are_the_first, pictures_are_no_edge_lists};
