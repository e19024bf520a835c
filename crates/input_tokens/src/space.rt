ghost use Rattle.std.specs.Prelude.{◌≡◌};
ghost use Rattle.input_tokens.specs.Tokens.{is_space, is_line_end};

/// Whether the byte is white space: a space, a tab, a line feed or a carriage return.
pub fn is_space(b: u8) -> bool
    ensures { result ≡ is_space b }
{
    matches!(b, b' ' | b'\t' | b'\n' | b'\r')
}

/// Whether the byte ends a line: a line feed or a carriage return.
pub fn is_line_end(b: u8) -> bool
    ensures { result ≡ is_line_end b }
{
    matches!(b, b'\n' | b'\r')
}
