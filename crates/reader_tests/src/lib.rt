//! Tests of the readers of edge lists and of pictures, as their callers see them. It has no code of its own.
#![tactic(auto)]

#[cfg(test)]
mod graph_reader_tests;
#[cfg(test)]
mod pgm_reader_tests;
