//! Tests of the batch of edge lists.
#![tactic(auto)]

#[cfg(test)]
mod hg_batch_tests;
