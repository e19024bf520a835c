//! A whole run: from words and a source to a report and a status. The words, the input and the report have crates of their
//! own, whose calls stand here too.
#![tactic(auto)]

mod exiting;
mod fault;
mod line;
mod running;
mod status;

pub use exiting::exit_code;
pub use fault::WriteFault;
pub use hg_base::Kind;
pub use higra_input::{Input, ReadFault, input_for};
pub use higra_report::{Basins, ReportFault, ReportFault as RunFault, pixels_hierarchy, report};
pub use higra_words::{
    Form, Made, Report, Request, Words, WordsFault, cut_tree_named, found_text, laws, made_by,
    matches_by, request_of, tile_by, with_option, workers_by,
};
pub use line::{FaultLine, kind_name};
pub use running::{run, tell};
pub use status::Status;
