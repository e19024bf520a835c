//! The order and the tree of a graph, made by so many workers over the tiles of the graph.
#![tactic(auto)]

mod fault;
mod hierarchy;
mod tiling;

pub use fault::HierarchyFault;
pub use hierarchy::GraphHierarchy;
pub use tiling::Tiling;
