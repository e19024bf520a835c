//! The tile plan of a graph: tiles, merges, places and lots.
#![tactic(auto)]

mod fault;
mod filling;
mod frame;
pub mod laws;
mod lists;
mod placing;
mod plan;
mod site;
mod tables;

pub use fault::PlanFault;
pub use plan::Plan;
pub use site::Side;
