ghost use Rattle.std.specs.Prelude.{◌≡◌, ◌+◌, ◌<◌, ◌≤◌, ◌∷◌, List, ℕ, length, take, MatchOption, IfSome};
ghost use Rattle.input_tokens.specs.Lexing.{BeginsToken, IsLexing, lexed, GoesOnAt, AreThree};

use crate::runs::{count_comment, count_spaces, leading_number, read_between, read_digits};
use crate::space::{is_line_end, is_space};
use crate::text::Text;
use crate::token::{Found, TokenTriple};

/// Where the reading stands among the tokens.
#[derive(Clone, Copy)]
pub enum Lexer {
    Between,
    Comment,
    /// Inside the token that begins at this place.
    Inside(u64, Text),
}

impl Lexer {
    /// Where the reading stands after the byte at this place, and the token that ended there.
    pub fn after(self, place: u64, b: u8) -> (Lexer, Option<Found>)
        requires { IsLexing self }
        ensures valid { IsLexing result.0 }
        ensures tokens { (rest : List ℕ) → MatchOption result.1
            (lexed self place (b ∷ rest) ≡ lexed result.0 (place + 1) rest)
            (λ found. lexed self place (b ∷ rest) ≡ record { from = found.at; to = place; token = found.token } ∷ lexed result.0 (place + 1) rest) }
    {
        match self {
            Lexer::Comment => {
                if is_line_end(b) {
                    (Lexer::Between, None)
                } else {
                    (Lexer::Comment, None)
                }
            }
            Lexer::Between => {
                if b == b'#' {
                    (Lexer::Comment, None)
                } else if is_space(b) {
                    (Lexer::Between, None)
                } else {
                    (Lexer::Inside(place, Text::begun(b)), None)
                }
            }
            Lexer::Inside(at, text) => Lexer::after_inside(at, text, place, b),
        }
    }

    /// Where the reading stands after a run of bytes that the piece begins with at this place and that end no
    /// token: white space, a comment or digits; and how many they are.
    pub fn after_run(self, place: u64, piece: &[u8]) -> (Lexer, usize)
        requires { IsLexing self }
        ensures valid { IsLexing result.0 }
        ensures count { result.1 ≤ length piece.now }
        ensures tokens { GoesOnAt place self result.0 (take result.1 piece.now) }
    {
        match self {
            Lexer::Between => read_between(place, piece),
            Lexer::Comment => (Lexer::Comment, count_comment(piece)),
            Lexer::Inside(at, Text::Number(digits, value)) => read_digits(at, digits, value, piece),
            Lexer::Inside(_, _) => (self, 0),
        }
    }

    /// The three numbers that the piece begins with at this place, between tokens, where white space may stand before
    /// the first, and one byte of it stands behind each. A function of its own, so that its sums stay in registers.
    #[inline(never)]
    pub fn three_numbers(self, place: u64, piece: &[u8]) -> Option<TokenTriple>
        requires { place + length piece.now ≤ 134217728 }
        ensures between { IfSome result (λ _. self ≡ Lexer.Between) }
        ensures count { IfSome result (λ r. (0 < r.count) × (r.count ≤ length piece.now)) }
        ensures tokens { IfSome result (λ r. AreThree place (take r.count piece.now) r.u r.v r.w) }
    {
        let Lexer::Between = self else {
            return None;
        };
        let spaces = count_spaces(piece);
        let (u, first) = leading_number(place + spaces as u64, &piece[spaces..])?;
        let one = spaces + first;
        let (v, second) = leading_number(place + one as u64, &piece[one..])?;
        let two = one + second;
        let (w, third) = leading_number(place + two as u64, &piece[two..])?;
        let count = two + third;
        Some(TokenTriple { u, v, w, count })
    }

    fn after_inside(at: u64, text: Text, place: u64, b: u8) -> (Lexer, Option<Found>)
        requires { BeginsToken text }
        ensures valid { IsLexing result.0 }
        ensures tokens { (rest : List ℕ) → MatchOption result.1
            (lexed (Lexer.Inside at text) place (b ∷ rest) ≡ lexed result.0 (place + 1) rest)
            (λ found. lexed (Lexer.Inside at text) place (b ∷ rest) ≡ record { from = found.at; to = place; token = found.token } ∷ lexed result.0 (place + 1) rest) }
    {
        if b == b'#' {
            let token = text.token();
            (Lexer::Comment, Some(Found { at, token }))
        } else if is_space(b) {
            let token = text.token();
            (Lexer::Between, Some(Found { at, token }))
        } else {
            (Lexer::Inside(at, text.with(b)), None)
        }
    }
}
