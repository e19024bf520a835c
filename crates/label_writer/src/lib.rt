//! Labels of vertices, written as a text and as a picture.
#![tactic(auto)]

mod picture;
mod report;

pub use picture::{LabelFault, push_header, push_sample, write_pgm};
pub use report::{labels_pieces, write_labels};
