//! Minima of a graph, the least forest that is rooted in them, and the watershed cut between its trees.
#![tactic(auto)]

mod cuts;
mod find;
mod forest;
mod laws;
mod minima;
mod nearest;
mod plateaus;
mod report;

pub use cuts::Watershed;
pub use find::{watershed, watershed_labels};
pub use laws::{forest_by_walks, labels_of_trees, least_forest, minima_by_walks, trees_of_minima};
pub use minima::Minima;
pub use report::{minima_pieces, watershed_pieces, write_minima, write_watershed};
