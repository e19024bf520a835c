//! Binary partition trees by altitude: made from a list of edges, read node by node, and written as a report.
#![tactic(auto)]

mod ancestors;
mod block_keys;
mod cell_nodes;
mod child_lists;
mod children;
mod drawn;
mod edges;
mod jump_pointers;
mod laws;
mod list;
mod parents;
mod passes;
mod plan;
mod report;
mod tree;

pub use ancestors::Ancestors;
pub use children::Children;
pub use laws::{tree_is_well_formed, tree_under_other_names};
pub use list::Ranked;
pub use passes::{own_numbers, send_down};
pub use report::{tree_pieces, write_tree};
pub use tree::Tree;
