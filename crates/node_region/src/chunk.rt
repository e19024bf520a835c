ghost use Rattle.std.specs.Prelude.{◌≡◌, Some};
ghost use Rattle.node_region.specs.Tables.{cell_of, hint_kept, leaf_kept, finger_kept};

use crate::cell::{Cell, Hint};

/// All that is kept of a number, as plain words: an enum that holds a value would be copied byte by byte.
#[derive(Clone, Copy)]
pub(crate) struct Slot {
    pub(crate) rank: u32,
    // The cell above, where there is one. Of a number without a cell it is the free number that comes after it; what
    // the last free number tells means nothing.
    pub(crate) link: u32,
    // How often the number was taken.
    pub(crate) turn: u32,
    // Whether the number has a cell, whether one stands above that, and whether something is noted.
    pub(crate) used: bool,
    pub(crate) linked: bool,
    pub(crate) noted: bool,
    pub(crate) note: Hint,
}

/// All that is kept of a place: the number of the first cell above it, and a hint, each with whether there is one.
#[derive(Clone, Copy)]
pub(crate) struct Place {
    pub(crate) link: u32,
    pub(crate) linked: bool,
    pub(crate) noted: bool,
    pub(crate) note: Hint,
}

/// Where a number's entry is: in which table, and where in it.
#[derive(Clone, Copy)]
pub(crate) struct At {
    pub(crate) chunk: usize,
    pub(crate) index: usize,
}

/// The free numbers: how many there are, the first and the last. Where there are none, the two mean nothing.
#[derive(Clone, Copy)]
pub(crate) struct FreeList {
    pub(crate) count: u32,
    pub(crate) head: u32,
    pub(crate) tail: u32,
}

/// What is written where nothing is noted.
pub(crate) const NO_HINT: Hint = Hint {
    cell: 0,
    turn: 0,
    rank: 0,
};

impl Slot {
    // The cell, where there is one.
    #[inline(always)]
    pub(crate) fn cell(self) -> Option<Cell>
        ensures { result ≡ cell_of self }
    {
        if !self.used {
            return None;
        }
        let rank = self.rank;
        if self.linked {
            Some(Cell {
                rank,
                up: Some(self.link),
            })
        } else {
            Some(Cell { rank, up: None })
        }
    }

    // The entry with this cell.
    #[inline(always)]
    pub(crate) fn with_cell(self, cell: Cell) -> Slot
        ensures cell { cell_of result ≡ Some cell }
        ensures turn { result.turn ≡ self.turn }
        ensures hint { hint_kept result ≡ hint_kept self }
    {
        let slot = Slot {
            rank: cell.rank,
            used: true,
            ..self
        };
        match cell.up {
            Some(link) => Slot {
                link,
                linked: true,
                ..slot
            },
            None => Slot {
                linked: false,
                ..slot
            },
        }
    }

    // What is noted.
    #[inline(always)]
    pub(crate) fn hint(self) -> Option<Hint>
        ensures { result ≡ hint_kept self }
    {
        if self.noted { Some(self.note) } else { None }
    }

    // The entry with this note, or none.
    #[inline(always)]
    pub(crate) fn with_hint(self, hint: Option<Hint>) -> Slot
        ensures cell { cell_of result ≡ cell_of self }
        ensures link { result.link ≡ self.link }
        ensures turn { result.turn ≡ self.turn }
        ensures hint { hint_kept result ≡ hint }
    {
        match hint {
            Some(note) => Slot {
                noted: true,
                note,
                ..self
            },
            None => Slot {
                noted: false,
                ..self
            },
        }
    }
}

impl Place {
    // The number of the first cell above, where there is one.
    #[inline(always)]
    pub(crate) fn leaf(self) -> Option<u32>
        ensures { result ≡ leaf_kept self }
    {
        if self.linked { Some(self.link) } else { None }
    }

    // The entry with another number above, or none.
    #[inline(always)]
    pub(crate) fn with_leaf(self, leaf: Option<u32>) -> Place
        ensures leaf { leaf_kept result ≡ leaf }
        ensures finger { finger_kept result ≡ finger_kept self }
    {
        match leaf {
            Some(link) => Place {
                link,
                linked: true,
                ..self
            },
            None => Place {
                linked: false,
                ..self
            },
        }
    }

    // What is noted.
    #[inline(always)]
    pub(crate) fn finger(self) -> Option<Hint>
        ensures { result ≡ finger_kept self }
    {
        if self.noted { Some(self.note) } else { None }
    }

    // The entry with this note, or none.
    #[inline(always)]
    pub(crate) fn with_finger(self, finger: Option<Hint>) -> Place
        ensures leaf { leaf_kept result ≡ leaf_kept self }
        ensures finger { finger_kept result ≡ finger }
    {
        match finger {
            Some(note) => Place {
                noted: true,
                note,
                ..self
            },
            None => Place {
                noted: false,
                ..self
            },
        }
    }
}
