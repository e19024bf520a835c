/// The cell of an edge: the edge's rank, and the number of the cell above it, if there is one.
#[derive(Clone, Copy, Debug, PartialEq, Eq)]
pub struct Cell {
    pub rank: u32,
    pub up: Option<u32>,
}

/// Where to look for a cell further up: a number, and which of the cells that had this number in turn is meant. The
/// rank tells how high that cell is before it is looked for; nothing rests on it.
#[derive(Clone, Copy, Debug, PartialEq, Eq)]
pub struct Hint {
    pub cell: u32,
    pub turn: u32,
    pub rank: u32,
}

/// All that is kept of a number that has a cell: the cell, how often the number was taken, and its hint.
#[derive(Clone, Copy, Debug, PartialEq, Eq)]
pub struct Entry {
    pub cell: Cell,
    pub turn: u32,
    pub hint: Option<Hint>,
}
