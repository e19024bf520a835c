//! Attributes of the nodes of a graph's tree: area, volume and dynamics.
#![tactic(auto)]

mod floors;
mod gather;
mod laws;
mod leaves;
mod report;
mod sums;
mod table;

pub use laws::{floors_are_low, volume_by_area};
pub use report::{attributes_pieces, write_attributes};
pub use table::Attributes;
