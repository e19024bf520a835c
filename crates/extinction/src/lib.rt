//! Persistences of a tree's nodes, extinctions of minima, and the hierarchical watershed of a graph.
#![tactic(auto)]

mod basin_edges;
mod basin_saliencies;
mod by_persistence;
mod deaths;
mod laws;
mod lowest;
mod pairs;
mod persist;
mod report;
mod survive;
mod values;

pub use basin_saliencies::hierarchical_saliencies;
pub use by_persistence::hierarchical;
pub use deaths::extinctions;
pub use hg_base::Kind;
pub use laws::{
    children_are_two, hierarchical_is_well_formed, holding_by_paths, joined_between_labels,
    level_zero_is_the_watershed, survivors_live_on,
};
pub use persist::persistence;
pub use report::{hierarchical_pieces, write_hierarchical};
