ghost use Rattle.std.specs.Prelude.{◌≡◌};
ghost use Rattle.pgm_reader.specs.Pgm.{is_picture};

use crate::lexer::ends_token;

/// Whether these bytes begin a picture: they begin with `P5`, and either end there or go on with white space or `#`.
pub fn is_picture(first: &[u8]) -> bool
    ensures { result ≡ is_picture first.now }
{
    first.starts_with(b"P5") && (first.len() == 2 || ends_token(true, first[2]))
}
