//! A report about an input: its bytes, and the receipt of the board on which its tree was made.
#![tactic(auto)]

mod components;
mod drawing;
mod fault;
mod findings;
mod hierarchies;
mod planning;
mod sides;
mod summary;
mod texts;
mod writing;

pub use fault::ReportFault;
pub use hierarchies::Basins;
pub use planning::pixels_hierarchy;
pub use writing::{report, report_in_pieces};
