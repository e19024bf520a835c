ghost use Rattle.std.specs.Prelude.{◌≡◌, ◌<◌, ◌≤◌, ◌∷◌, ◌++◌, [], length, IfSome, IfNone};

use crate::seat::Seat;
use std::marker::Model;

/// The seats of a board that are in. The last one goes out first.
#[derive(Drop)]
pub struct Seats {
    pub(crate) list: Vec<Seat>,
}

impl Model for Seats {
    ghost use Rattle.merge_board.specs.Seats.{SeatState};
    ghost use Rattle.std.specs.Prelude.{List};

    ghost Value = { List SeatState };

    ghost use Rattle.merge_board.specs.SeatsFields.{seats_of, HasPlaces};

    ghost view = { seats_of };

    ghost invariant = { HasPlaces };
}

impl Seats {
    /// Hands out the last seat that is in; none where all are out.
    pub fn take(&mut self) -> Option<Seat>
        ensures some { IfSome result (λ seat. self.old ≡ self.new ++ seat ∷ []) }
        ensures none { IfNone result ((self.old ≡ []) × (self.new ≡ [])) }
    {
        self.list.pop()
    }

    /// Puts a seat back behind those that are in. Fewer are in than the board has workers.
    pub fn put_back(&mut self, seat: Seat)
        requires few { length self.old < seat.view.workers }
        ensures { self.new ≡ self.old ++ seat ∷ [] }
    {
        seat.stands_for_some();
        let Ok(()) = self.list.push(seat) else {
            unreachable!()
        };
    }

    /// How many seats are in.
    pub fn count(&self) -> u32
        ensures { result ≡ length self.now }
    {
        self.list.len() as u32
    }
}
