ghost use Rattle.merge_board.specs.RuleOfKey.{rule_of, first_of};
ghost use Rattle.merge_board.specs.Steps.{Draws, Arrives};
ghost use Rattle.merge_board.specs.Seats.{split_left, split_right, joined_seats, left_over};

use crate::view::{Key, View};
use atomic_table::{Join, Play, Split, TableRule};
use border_climb::Part;

// The rule of the board.
pub(crate) struct BoardRule;

impl TableRule<Option<Part>, View, Key> for BoardRule {
    ghost holds = { rule_of };

    ghost first = { first_of };
}

// What a draw tells, and what an arrival tells.
pub(crate) struct Drawing;

impl Play<Option<Part>, View> for Drawing {
    ghost then = { λ _ me n after. Draws me n after };
}

pub(crate) struct Arriving;

impl Play<Option<Part>, View> for Arriving {
    ghost then = { λ _ me n after. Arrives me n after };
}

// How a seat is split, and how two are joined.
pub(crate) struct OneWorker;

impl Split<View> for OneWorker {
    ghost left = { split_left };

    ghost right = { split_right };
}

pub(crate) struct AllWorkers;

impl Join<View> for AllWorkers {
    ghost both = { joined_seats };

    ghost spent = { left_over };
}
