ghost use Rattle.std.specs.Prelude.{◌≡◌, ◌↔◌, ◌≤◌, None, true};

use crate::view::View;
use border_climb::Part;
use std::marker::Model;

pub(crate) type Token = atomic_table::Seat<Option<Part>, View>;

/// A worker's place at a board: what it has in its hand, and whether it has missed. A step on the board is made with
/// a seat, and a seat crosses threads.
#[derive(Drop)]
pub struct Seat {
    pub(crate) token: Token,
    pub(crate) number: u32,
    pub(crate) hand: Option<u32>,
    pub(crate) missed: bool,
}

impl Model for Seat {
    ghost use Rattle.merge_board.specs.Seats.{SeatState};

    ghost Value = { SeatState };

    ghost use Rattle.merge_board.specs.SeatFields.{seat_of, IsSeat};

    ghost view = { seat_of };

    ghost invariant = { IsSeat };
}

impl Seat {
    // Does nothing. It stands where only this is needed: the seat stands for one worker at least, and a board has no
    // more than 64.
    #[inline(always)]
    pub(crate) fn stands_for_some(&self)
        ensures some { 1 ≤ self.now.view.share }
        ensures few { self.now.view.workers ≤ 64 }
    {
        let _ = &self.number;
    }

    /// The seat's number, from 0 to one less than the board's number of workers.
    pub fn number(&self) -> u32
        ensures { result ≡ self.now.view.number }
    {
        self.number
    }

    /// The part in the seat's hand; none where it is idle.
    pub fn hand(&self) -> Option<u32>
        ensures { result ≡ self.now.view.hand }
    {
        self.hand
    }

    /// There is no part in the seat's hand.
    pub fn is_idle(&self) -> bool
        ensures { result ≡ true ↔ self.now.view.hand ≡ None }
    {
        self.hand.is_none()
    }

    /// A draw of this seat found no tile left.
    pub fn has_missed(&self) -> bool
        ensures { result ≡ self.now.view.missed }
    {
        self.missed
    }
}
