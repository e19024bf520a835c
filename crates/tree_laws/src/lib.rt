//! The laws of parent trees: the tree of an edge list, and trees cut at a level.
#![tactic(auto)]

pub mod laws;
pub mod level_laws;
#[cfg(test)]
mod worked;
#[cfg(test)]
mod worked_levels;
