/// What a token says.
#[derive(Clone, Copy)]
pub enum Token {
    /// The word `graph`.
    Graph,
    /// The word `graph2`.
    GraphWithAreas,
    /// One to ten digits.
    Number(u64),
    /// Anything else.
    Other,
}

/// A token that has ended, and the place of its first byte.
#[derive(Clone, Copy)]
pub struct Found {
    pub at: u64,
    pub token: Token,
}

/// Three tokens, and how many bytes they are with what ends them.
#[derive(Clone, Copy)]
pub struct TokenTriple {
    pub u: Found,
    pub v: Found,
    pub w: Found,
    pub count: usize,
}
