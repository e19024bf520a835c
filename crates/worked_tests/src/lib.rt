//! Tests of the whole program: worked inputs and outputs, inputs that are cut, calls outside that fail, and workers that
//! wait for each other.
#![tactic(auto)]

#[cfg(test)]
mod gate_tests;
#[cfg(test)]
mod outside_tests;
#[cfg(test)]
mod refusal_tests;
#[cfg(test)]
mod running;
#[cfg(test)]
mod tests;
