ghost use Rattle.job_shift.specs.RuleOfKey.{rule_of, first_of};
ghost use Rattle.job_shift.specs.Steps.{Steps};
ghost use Rattle.job_shift.specs.Hands.{split_left, split_right, joined_hands, left_over};

use crate::view::{HandView, Key};
use atomic_table::{Join, Play, Split, TableRule};

// The rule of a shift.
pub(crate) struct ShiftRule;

impl TableRule<(), HandView, Key> for ShiftRule {
    ghost holds = { rule_of };

    ghost first = { first_of };
}

// What a step tells.
pub(crate) struct Stepping;

impl Play<(), HandView> for Stepping {
    ghost then = { λ _ me n after. Steps me n after };
}

// How a hand is split, and how two are joined.
pub(crate) struct OneWorker;

impl Split<HandView> for OneWorker {
    ghost left = { split_left };

    ghost right = { split_right };
}

pub(crate) struct AllWorkers;

impl Join<HandView> for AllWorkers {
    ghost both = { joined_hands };

    ghost spent = { left_over };
}
