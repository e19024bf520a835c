ghost use Rattle.std.specs.Prelude.{◌≡◌, ◌<◌, ◌≤◌, false, IfSome, IfNone};
ghost use Rattle.job_shift.specs.Hands.{IsHandOf};
ghost use Rattle.job_shift.specs.HandedNumbers.{Gets, Misses};

use crate::hand::Hand;
use crate::rule::{ShiftRule, Stepping};
use crate::view::{HandView, Key};
use atomic_table::Table;
use std::alloc::Global;
use std::marker::Model;

pub(crate) type NumberTable = Table<(), HandView, Key, ShiftRule, Global>;

/// A shift: workers draw the numbers of its jobs from one word, each number once. All of its steps go through `&self`.
#[derive(Drop)]
pub struct Shift {
    pub(crate) table: NumberTable,
    pub(crate) count: u32,
    pub(crate) answer: Vec<u32>,
}

impl Model for Shift {
    ghost use Rattle.job_shift.specs.Hands.{ShiftState};

    ghost Value = { ShiftState };

    ghost use Rattle.job_shift.specs.ShiftFields.{shift_of, IsShiftTable};

    ghost view = { shift_of };

    ghost invariant = { IsShiftTable };
}

impl Shift {
    /// Draws the next number. None where all numbers had been handed out at this step; the hand has missed then, and
    /// what it got stays.
    pub fn next(&self, hand: &mut Hand) -> Option<u32>
        requires hand { IsHandOf hand.old self.now }
        requires fresh { hand.old.view.missed ≡ false }
        ensures hand { IsHandOf hand.new self.now }
        ensures some { IfSome result (λ n. Gets hand.old.view hand.new.view n) }
        ensures none { IfNone result (Misses hand.old.view hand.new.view) }
    {
        let found = self
            .table
            .shared
            .fetch_add::<Stepping>(&mut hand.token, 0, 1);
        if u64::from(self.count) <= found {
            hand.missed = true;
            return None;
        }
        let number = found as u32;
        hand.handed.push_reserved(number);
        Some(number)
    }
}
