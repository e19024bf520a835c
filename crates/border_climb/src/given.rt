/// What an edge that was given did to the chains.
#[derive(Clone, Copy, Debug, PartialEq, Eq)]
pub enum Given {
    /// Its ends were joined by edges of lower rank: the chains stay.
    Redundant,
    /// It joins two components.
    Joined,
    /// Its ends were joined, and the edge of this rank no longer joins its own.
    Replaced(u32),
}
