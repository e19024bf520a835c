//! Pictures in the binary form P5 of the PGM format, read whole or in pieces with every fault at its place; their
//! graphs; and pictures made from a seed.
#![tactic(auto)]

mod decoder;
mod form;
mod grid;
mod laws;
mod lexer;
mod made;
mod parser;
mod picture;
mod rules;
mod stage;

pub use decoder::{PictureDecoder, read_picture};
pub use form::is_picture;
pub use grid::graph_of;
pub use laws::{header_tokens_are_tokens, picture_faults_are_the_first, pictures_are_spellings};
pub use made::make_picture;
pub use picture::Picture;
