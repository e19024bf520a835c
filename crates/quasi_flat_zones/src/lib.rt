//! Quasi-flat zones: a tree without the inner nodes that have their parent's altitude.
#![tactic(auto)]

mod lists;
mod numbers;
mod zone_tree;

pub use zone_tree::zones;
