//! The tokens of an input, whole or in pieces, each at its place: words and numbers, with white space and comments
//! between them; and the rules that edge lists and pictures share.
#![tactic(auto)]

mod laws;
mod lexer;
mod rules;
mod runs;
mod space;
mod text;
mod token;

pub use laws::tokens_are_longest_runs;
pub use lexer::Lexer;
pub use rules::{number_read, truncated, within_limit};
pub use space::{is_line_end, is_space};
pub use text::Text;
pub use token::{Found, Token, TokenTriple};
