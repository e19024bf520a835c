//! The weight of a watershed's forest, with the theorem that no forest rooted in the minima weighs less.
#![tactic(auto)]

mod forest;
mod sums;

pub use forest::witness;
