//! The laws of edge lists: who is joined, which edges join, the chain of a vertex, and what one more edge does.
#![tactic(auto)]

pub mod laws;
