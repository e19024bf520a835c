//! The order of a graph's edges: by weight, then by number.
#![tactic(auto)]

mod key;
mod order;

pub use order::Order;
