//! Component trees of a graph's vertices by their values: min trees and max trees, over the tree of a graph whose edges
//! weigh what the values say.
#![tactic(auto)]

mod components;
mod laws;
mod nodes;
mod report;
mod side;
mod tree;
mod values;
mod weights;

pub use components::component_tree;
pub use laws::component_trees;
pub use report::{components_pieces, write_components};
pub use side::Side;
pub use tree::ComponentTree;
pub use values::Values;
pub use weights::weighed;
