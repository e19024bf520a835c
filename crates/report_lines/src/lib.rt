//! Reports as lists of lines, written whole or in pieces by several threads.
#![tactic(auto)]

mod labels;
mod lines;
mod pieces;
mod reports;
mod writer;

pub use labels::HeadedLabels;
pub use lines::Lines;
pub use pieces::{Pieces, write_pieces};
pub use reports::{pieces_of, text_of};
pub use writer::LineWriter;
