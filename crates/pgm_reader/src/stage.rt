use hg_base::InputFault;
use input_tokens::Lexer;

/// A number of a picture's header.
#[derive(Clone, Copy)]
pub enum Field {
    Width,
    Height,
    Greatest,
}

/// What is read next.
#[derive(Clone, Copy)]
pub enum Stage {
    /// A byte of `P5`.
    Form,
    /// The token of a field, as far as the reading stands.
    Header(Field, Lexer),
    /// The first byte of a sample, or the end.
    Samples,
    /// The second byte of a sample whose first byte is this.
    LowByte(u8),
    /// The reading has ended.
    Faulty(InputFault),
    /// There was no memory for the samples.
    OutOfMemory,
}
