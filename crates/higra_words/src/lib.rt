//! The words of a command line, and the request that they give.
#![tactic(auto)]

mod asking;
mod command;
mod fault;
pub mod laws;
mod options;
mod request;
mod words;

pub use asking::request_of;
pub use command::{found_text, matches_by, with_option};
pub use fault::WordsFault;
pub use options::{cut_tree_named, made_by, tile_by, workers_by};
pub use request::{Form, Made, Report, Request};
pub use words::Words;
