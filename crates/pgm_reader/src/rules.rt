#![tactic(auto, unfolding(crate::specs::Pgm::width, crate::specs::Pgm::height, crate::specs::Pgm::greatest))]

ghost use Rattle.std.specs.Prelude.{◌≡◌, ◌*◌, ◌^◌, ◌<◌, ◌≤◌, IfOk, IfSome};
ghost use Rattle.input_tokens.specs.Lexing.{HasTenDigitsAtMost};
ghost use Rattle.pgm_reader.specs.Pgm.{width, height, greatest};

use hg_base::{FaultKind, InputFault};
use input_tokens::{Token, number_read, within_limit};

/// The number of pixels in a row.
pub fn width(at: u64, token: Token) -> Result<u32, InputFault>
    ensures value { result ≡ width at token }
    ensures range { IfOk result (λ w. (1 ≤ w) × (w ≤ 1048576)) }
{
    let w = number_read(at, token)?;
    if w == 0 {
        return Err(InputFault {
            kind: FaultKind::NoVertex,
            at,
            value: 0,
        });
    }
    within_limit(1_048_576, at, w)
}

/// The number of rows of a picture of this width.
pub fn height(w: u32, at: u64, token: Token) -> Result<u32, InputFault>
    requires some_width { 1 ≤ w }
    requires narrow { w ≤ 1048576 }
    requires digits { HasTenDigitsAtMost token }
    ensures value { result ≡ height w at token }
    ensures range { IfOk result (λ h. (1 ≤ h) × (w * h ≤ 1048576)) }
{
    let h = number_read(at, token)?;
    if h == 0 {
        return Err(InputFault {
            kind: FaultKind::NoVertex,
            at,
            value: 0,
        });
    }
    let pixels = u64::from(w) * h;
    if pixels > 1_048_576 {
        return Err(InputFault {
            kind: FaultKind::TooLarge,
            at,
            value: pixels,
        });
    }
    Ok(h as u32)
}

/// The greatest value that a sample may have.
pub fn greatest(at: u64, token: Token) -> Result<u16, InputFault>
    ensures value { result ≡ greatest at token }
    ensures range { IfOk result (λ max. 1 ≤ max) }
{
    let max = number_read(at, token)?;
    if max == 0 {
        return Err(InputFault {
            kind: FaultKind::BadNumber,
            at,
            value: 0,
        });
    }
    Ok(within_limit(65_535, at, max)? as u16)
}
