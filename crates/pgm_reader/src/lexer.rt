ghost use Rattle.std.specs.Prelude.{◌≡◌, ◌+◌, ◌∷◌, List, ℕ, Bool, false, true, IsTrue};
ghost use Rattle.input_tokens.specs.Lexing.{IsLexing};
ghost use Rattle.pgm_reader.specs.Pgm.{ends_token, cut};
ghost use Rattle.pgm_reader.specs.Lexing.{next_token, Steps, EndsWith};

use input_tokens::{Found, Lexer, Text, is_line_end, is_space};

/// What a byte does to a token.
#[derive(Clone, Copy)]
pub enum Step {
    /// The reading stands here after the byte.
    On(Lexer),
    /// The token ended before the byte.
    Ended(Found),
}

/// Whether a token ends before the byte: at white space, and where it is said also at a `#`.
pub fn ends_token(hash_ends: bool, b: u8) -> bool
    ensures { result ≡ ends_token hash_ends b }
{
    is_space(b) || (hash_ends && b == b'#')
}

/// Where the reading stands after a byte that ends a token.
pub fn behind(b: u8) -> Lexer
    ensures valid { IsLexing result }
    ensures tokens { (place : ℕ) (rest : List ℕ) (hash_ends : Bool) → IsTrue (ends_token true b) →
        cut hash_ends false place (b ∷ rest) ≡ next_token hash_ends result (place + 1) rest }
{
    if b == b'#' {
        Lexer::Comment
    } else {
        Lexer::Between
    }
}

/// What the byte at this place does, where the reading of a header stands here. Where it is said, a token ends also at
/// a `#`.
pub fn after(lexer: Lexer, hash_ends: bool, place: u64, b: u8) -> Step
    requires { IsLexing lexer }
    ensures { Steps hash_ends lexer place b result }
{
    match lexer {
        Lexer::Comment => {
            if is_line_end(b) {
                Step::On(Lexer::Between)
            } else {
                Step::On(Lexer::Comment)
            }
        }
        Lexer::Between => {
            if b == b'#' {
                Step::On(Lexer::Comment)
            } else if is_space(b) {
                Step::On(Lexer::Between)
            } else {
                Step::On(Lexer::Inside(place, Text::begun(b)))
            }
        }
        Lexer::Inside(at, text) => {
            if ends_token(hash_ends, b) {
                let token = text.token();
                Step::Ended(Found { at, token })
            } else {
                Step::On(Lexer::Inside(at, text.with(b)))
            }
        }
    }
}

/// The token that the end of the input ends, where the reading of a header stands here.
pub fn last(lexer: Lexer) -> Option<Found>
    requires { IsLexing lexer }
    ensures { EndsWith lexer result }
{
    match lexer {
        Lexer::Inside(at, text) => {
            let token = text.token();
            Some(Found { at, token })
        }
        Lexer::Between | Lexer::Comment => None,
    }
}
