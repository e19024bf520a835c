//! Tests of the crates below a tree: regions and climbs, orders, plans, and the board and the shift on which workers meet.
#![tactic(auto)]

#[cfg(test)]
mod border_climb_tests;
#[cfg(test)]
mod callers;
#[cfg(test)]
mod chains;
#[cfg(test)]
mod edge_order_tests;
#[cfg(test)]
mod gates;
#[cfg(test)]
mod graphs;
#[cfg(test)]
mod job_shift_tests;
#[cfg(test)]
mod merge_board_tests;
#[cfg(test)]
mod node_region_tests;
#[cfg(test)]
mod tile_plan_tests;
