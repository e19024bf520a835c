//! The input of a request: the graph of an edge list or a picture, read from a source to its end, or made.
#![tactic(auto)]

mod decoding;
mod fault;
mod getting;
mod input;
mod reading;

pub use fault::ReadFault;
pub use getting::input_for;
pub use input::Input;
