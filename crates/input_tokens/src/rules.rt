#![tactic(auto, unfolding(crate::specs::Rules::number_read))]

ghost use Rattle.std.specs.Prelude.{◌≡◌, ◌<◌, ◌≤◌, ◌^◌, IfOk};
ghost use Rattle.input_tokens.specs.Lexing.{HasTenDigitsAtMost};
ghost use Rattle.input_tokens.specs.Rules.{number_read, within_limit};

use crate::token::Token;
use hg_base::{FaultKind, InputFault, ReadError};

/// The number that a token at this place says.
pub fn number_read(at: u64, token: Token) -> Result<u64, InputFault>
    ensures value { result ≡ number_read at token }
    ensures digits { HasTenDigitsAtMost token → IfOk result (λ n. n < 10 ^ 10) }
{
    match token {
        Token::Number(n) => Ok(n),
        Token::Graph | Token::GraphWithAreas | Token::Other => Err(InputFault {
            kind: FaultKind::BadNumber,
            at,
            value: 0,
        }),
    }
}

/// The number that was read at this place, up to a limit.
pub fn within_limit(limit: u32, at: u64, n: u64) -> Result<u32, InputFault>
    ensures value { result ≡ within_limit limit at n }
    ensures range { IfOk result (λ k. (k ≡ n) × (k ≤ limit)) }
{
    if n > u64::from(limit) {
        return Err(InputFault {
            kind: FaultKind::TooLarge,
            at,
            value: n,
        });
    }
    Ok(n as u32)
}

/// The error of an input that ends at this place, where more is wanted.
pub fn truncated(end: u64) -> ReadError
    ensures { result ≡ ReadError.Fault (record { kind = FaultKind.Truncated; at = end; value = 0 }) }
{
    ReadError::Fault(InputFault {
        kind: FaultKind::Truncated,
        at: end,
        value: 0,
    })
}
