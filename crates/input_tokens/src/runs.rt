// Runs of bytes that end no token: white space, a comment, the digits of a number.
ghost use Rattle.std.specs.Prelude.{◌≡◌, ◌+◌, ◌<◌, ◌≤◌, ◌∷◌, [], List, ℕ, length, take, IfSome};
ghost use Rattle.input_tokens.specs.Lexing.{BeginsToken, IsLexing, GoesOnAt, GoesOn, placed_token, LexesTo};

use crate::lexer::Lexer;
use crate::space::{is_line_end, is_space};
use crate::text::Text;
use crate::token::Found;

// Reads the digits that go on with the number that begins at this place. Answers how many they are.
pub(crate) fn read_digits(at: u64, digits: u8, value: u64, piece: &[u8]) -> (Lexer, usize)
    requires { BeginsToken (Text.Number digits value) }
    ensures valid { IsLexing result.0 }
    ensures count { result.1 ≤ length piece.now }
    ensures tokens { GoesOn (Lexer.Inside at (Text.Number digits value)) result.0 (take result.1 piece.now) }
{
    let mut all = digits;
    let mut sum = value;
    let mut count = 0;
    while count < piece.len() && all < 10 && piece[count].is_ascii_digit() {
        sum = sum * 10 + u64::from(piece[count] - b'0');
        all += 1;
        count += 1;
    }
    (Lexer::Inside(at, Text::Number(all, sum)), count)
}

// Reads the number that begins at this place, with this digit, and goes on with the digits that the others
// begin with. Answers how many digits there are.
fn read_number(place: u64, first: u8, others: &[u8]) -> (Lexer, usize)
    requires least { 48 ≤ first }
    requires most { first ≤ 57 }
    ensures valid { IsLexing result.0 }
    ensures count { (1 ≤ result.1) × (result.1 ≤ length others.now + 1) }
    ensures tokens { GoesOnAt place Lexer.Between result.0 (take result.1 (first ∷ others.now)) }
{
    let (now, count) = read_digits(place, 1, u64::from(first - b'0'), others);
    (now, count + 1)
}

// The token that the piece begins with at this place, where it is a number and white space stands behind it; and
// how many bytes both are.
pub(crate) fn leading_number(place: u64, piece: &[u8]) -> Option<(Found, usize)>
    ensures count { IfSome result (λ r. (0 < r.1) × (r.1 ≤ length piece.now)) }
    ensures tokens { IfSome result (λ r. (to : ℕ) × LexesTo place (take r.1 piece.now) (placed_token r.0 to ∷ [])) }
{
    let (first, others) = piece.split_first()?;
    if !first.is_ascii_digit() {
        return None;
    }
    let (now, digits) = read_number(place, *first, others);
    let Lexer::Inside(at, text) = now else {
        return None;
    };
    if digits < piece.len() && is_space(piece[digits]) {
        let token = text.token();
        return Some((Found { at, token }, digits + 1));
    }
    None
}

// How many bytes of white space the piece begins with.
pub(crate) fn count_spaces(piece: &[u8]) -> usize
    ensures count { result ≤ length piece.now }
    ensures tokens { GoesOn Lexer.Between Lexer.Between (take result piece.now) }
{
    let mut count = 0;
    while count < piece.len() && is_space(piece[count]) {
        count += 1;
    }
    count
}

// How many bytes of a comment the piece begins with, before the end of the comment's line.
pub(crate) fn count_comment(piece: &[u8]) -> usize
    ensures count { result ≤ length piece.now }
    ensures tokens { GoesOn Lexer.Comment Lexer.Comment (take result piece.now) }
{
    let mut count = 0;
    while count < piece.len() && !is_line_end(piece[count]) {
        count += 1;
    }
    count
}

// Reads the white space that the piece begins with, or else the digits of a number that begins at this place.
// Answers how many bytes they are.
pub(crate) fn read_between(place: u64, piece: &[u8]) -> (Lexer, usize)
    ensures valid { IsLexing result.0 }
    ensures count { result.1 ≤ length piece.now }
    ensures tokens { GoesOnAt place Lexer.Between result.0 (take result.1 piece.now) }
{
    match piece.split_first() {
        Some((first, others)) if first.is_ascii_digit() => read_number(place, *first, others),
        _ => (Lexer::Between, count_spaces(piece)),
    }
}
