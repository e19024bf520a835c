//! A pool of cells in chunks: what stands above each place of a part, and above each cell.
#![tactic(auto)]

mod cell;
mod chunk;
mod region;
mod tables;

pub use cell::{Cell, Entry, Hint};
pub use region::Region;
