ghost use Rattle.std.specs.Prelude.{◌≡◌, ◌∷◌, [], List, ℕ};
ghost use Rattle.input_tokens.specs.Tokens.{meaning};
ghost use Rattle.input_tokens.specs.Lexing.{HasTenDigitsAtMost, BeginsToken, meaning_with};

use crate::token::Token;

const GRAPH2: [u8; 6] = [b'g', b'r', b'a', b'p', b'h', b'2'];

/// What the bytes of a token so far can become.
#[derive(Clone, Copy)]
pub enum Text {
    /// So many bytes of the word `graph2`.
    Word(u8),
    /// So many digits, at most ten, and their value.
    Number(u8, u64),
    /// Neither a word of the grammar nor a number, whatever follows.
    Other,
}

impl Text {
    /// The text of one byte.
    pub fn begun(b: u8) -> Text
        ensures valid { BeginsToken result }
        ensures meaning { (more : List ℕ) → meaning_with result more ≡ meaning (b ∷ more) }
    {
        if b.is_ascii_digit() {
            Text::Number(1, u64::from(b - b'0'))
        } else if b == b'g' {
            Text::Word(1)
        } else {
            Text::Other
        }
    }

    /// The text with one byte more.
    pub fn with(self, b: u8) -> Text
        requires { BeginsToken self }
        ensures valid { BeginsToken result }
        ensures meaning { (more : List ℕ) → meaning_with result more ≡ meaning_with self (b ∷ more) }
    {
        match self {
            Text::Word(length) => {
                if length < 6 && b == GRAPH2[length as usize] {
                    Text::Word(length + 1)
                } else {
                    Text::Other
                }
            }
            Text::Number(digits, value) => {
                if digits < 10 && b.is_ascii_digit() {
                    Text::Number(digits + 1, value * 10 + u64::from(b - b'0'))
                } else {
                    Text::Other
                }
            }
            Text::Other => Text::Other,
        }
    }

    /// What the text says, as a whole token.
    pub fn token(self) -> Token
        requires { BeginsToken self }
        ensures value { result ≡ meaning_with self [] }
        ensures digits { HasTenDigitsAtMost result }
    {
        match self {
            Text::Word(length) => {
                if length == 5 {
                    Token::Graph
                } else if length == 6 {
                    Token::GraphWithAreas
                } else {
                    Token::Other
                }
            }
            Text::Number(_, value) => Token::Number(value),
            Text::Other => Token::Other,
        }
    }
}
