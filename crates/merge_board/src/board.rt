ghost use Rattle.std.specs.Prelude.{◌≡◌, ◌≢◌, ℕ, ◌+◌, ◌-◌, ◌*◌, ◌^◌, ◌%◌, ◌<◌, ◌≤◌, [], ◌∷◌, None, Some, false, IfSome, IfNone};
ghost use Rattle.tile_plan.specs.Plan.{IsPlan, part_count, root, parent, sibling, side};
ghost use Rattle.merge_board.specs.Fits.{Fits};
ghost use Rattle.merge_board.specs.Board.{door, toll};
ghost use Rattle.merge_board.specs.Steps.{AreTurns, ArrivesWith};
ghost use Rattle.merge_board.specs.Seats.{IsSeatOf};
ghost use Rattle.merge_board.specs.DrawsAndArrivals.{HasDrawn, HasMissed, IsArrival, HandsHalves, HoldsHalves};

use crate::arrival::Arrival;
use crate::place;
use crate::rule::{Arriving, BoardRule, Drawing};
use crate::seat::{Seat, Token};
use crate::view::{Key, View};
use atomic_table::Table;
use border_climb::Part;
use std::alloc::Global;
use std::marker::Model;
use tile_plan::{Plan, Side};

/// The board of a plan: workers draw tiles from it and hand parts over on it. All of its steps go through `&self`.
#[derive(Drop)]
pub struct Board {
    pub(crate) table: Table<Option<Part>, View, Key, BoardRule, Global>,
    pub(crate) workers: u32,
}

impl Model for Board {
    ghost use Rattle.merge_board.specs.Seats.{BoardState};

    ghost Value = { BoardState };

    ghost use Rattle.merge_board.specs.BoardFields.{board_of, IsBoardTable};

    ghost view = { board_of };

    ghost invariant = { IsBoardTable };
}

impl Board {
    /// Draws the next tile: its part, which stands for no edges yet, and which nobody else has. None where all tiles
    /// had been drawn at this step; the seat has missed then.
    pub fn draw(&self, plan: &Plan, seat: &mut Seat) -> Option<Part>
        requires seat { IsSeatOf seat.old self.now }
        requires plan { plan.now ≡ self.now.plan }
        requires idle { seat.old.view.hand ≡ None }
        requires fresh { seat.old.view.missed ≡ false }
        ensures seat { IsSeatOf seat.new self.now }
        ensures some { IfSome result (λ part. HasDrawn self.now.plan seat.old.view seat.new.view part) }
        ensures none { IfNone result (HasMissed self.now.plan seat.old.view seat.new.view) }
    {
        let shared = &self.table.shared;
        let found = shared.fetch_add::<Drawing>(&mut seat.token, 0, 1);
        if u64::from(plan.tiles()) <= found {
            seat.missed = true;
            return None;
        }
        let tile = found as u32;
        seat.hand = Some(tile);
        shared.exchange(&mut seat.token, tile as usize, None)
    }

    /// Arrives with the part in the seat's hand. A seat with a part has not missed, and has not afterwards.
    pub fn arrive(&self, plan: &Plan, seat: &mut Seat, part: Part) -> Arrival
        requires seat { IsSeatOf seat.old self.now }
        requires plan { plan.now ≡ self.now.plan }
        requires hand { (i : ℕ) × ((seat.old.view.hand ≡ Some i) × Fits self.now.plan i part) }
        ensures seat { IsSeatOf seat.new self.now }
        ensures fresh { seat.new.view.missed ≡ false }
        ensures arrival { (i : ℕ) → seat.old.view.hand ≡ Some i → IsArrival self.now.plan i seat.old.view seat.new.view result }
    {
        let Some(number) = seat.hand else {
            unreachable!()
        };
        let found = self.put_down(plan, &mut seat.token, number, part);
        if number == plan.root() {
            seat.hand = None;
            return Arrival::Whole;
        }
        if found == 0 {
            seat.hand = None;
            return Arrival::Waits;
        }
        let (parent, _) = place::parent(plan, number);
        seat.hand = Some(parent);
        self.take_halves(plan, &mut seat.token, number)
    }

    // Puts a part into its slot and adds its toll to the word of the merge above it, in one step giving back the
    // slots that the seat holds; or, where the sibling has arrived, taking the sibling's and the merge's.
    fn put_down(&self, plan: &Plan, token: &mut Token, number: u32, part: Part) -> u64
        requires token { (token.old.table_id ≡ self.now.table) × (token.old.me.0.plan ≡ self.now.plan) }
        requires plan { plan.now ≡ self.now.plan }
        requires hand { token.old.me.0.hand ≡ Some number }
        requires part { number < part_count self.now.plan }
        requires turns { AreTurns self.now.plan (Some number) token.old.me.1 }
        requires fits { Fits self.now.plan number part }
        ensures token { (token.new.table_id ≡ token.old.table_id) × (token.new.id ≡ token.old.id) }
        ensures plan { IsPlan self.now.plan }
        ensures arrives { ArrivesWith number (token.old.me.0, (number, Some part) ∷ []) result token.new.me }
    {
        let shared = &self.table.shared;
        let word = place::door(plan, number);
        let toll = place::toll(plan, number);
        shared.exchange(token, number as usize, Some(part));
        token.turn();
        shared.fetch_add::<Arriving>(token, word, toll)
    }

    // Takes both halves of the merge above a part out of their slots.
    fn take_halves(&self, plan: &Plan, token: &mut Token, number: u32) -> Arrival
        requires token { token.old.table_id ≡ self.now.table }
        requires plan { plan.now ≡ self.now.plan }
        requires part { number < part_count self.now.plan }
        requires inner { number ≢ root self.now.plan }
        requires held { HoldsHalves self.now.plan number token.old.me.1 }
        ensures token { (token.new.table_id ≡ token.old.table_id) × (token.new.id ≡ token.old.id) }
        ensures slots { token.new.me ≡ (token.old.me.0, (parent self.now.plan number, None) ∷ (sibling self.now.plan number, None) ∷ (number, None) ∷ []) }
        ensures halves { HandsHalves self.now.plan number result }
    {
        let shared = &self.table.shared;
        let (parent, side) = place::parent(plan, number);
        let sibling = place::sibling(plan, number);
        token.turn();
        let other = shared.exchange(token, sibling as usize, None);
        token.turn();
        let own = shared.exchange(token, number as usize, None);
        token.turn();
        let (Some(own), Some(other)) = (own, other) else {
            unreachable!()
        };
        match side {
            Side::Left => Arrival::Both {
                number: parent,
                left: own,
                right: other,
            },
            Side::Right => Arrival::Both {
                number: parent,
                left: other,
                right: own,
            },
        }
    }
}
