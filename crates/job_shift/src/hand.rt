ghost use Rattle.std.specs.Prelude.{◌≡◌, ◌<◌, All};
ghost use Rattle.job_shift.specs.Hands.{handed};

use crate::view::HandView;
use std::marker::Model;

pub(crate) type Token = atomic_table::Seat<(), HandView>;

/// A worker's hand in a shift: the numbers that it got, and whether it has missed. A step of the shift is made with a
/// hand, and a hand crosses threads.
#[derive(Drop)]
pub struct Hand {
    pub(crate) token: Token,
    pub(crate) number: u32,
    pub(crate) missed: bool,
    pub(crate) handed: Vec<u32>,
}

impl Model for Hand {
    ghost use Rattle.job_shift.specs.Hands.{HandState};

    ghost Value = { HandState };

    ghost use Rattle.job_shift.specs.HandFields.{hand_of, IsHand};

    ghost view = { hand_of };

    ghost invariant = { IsHand };
}

impl Hand {
    /// The hand's number, from 0 to one less than the shift's number of workers.
    pub fn number(&self) -> u32
        ensures { result ≡ self.now.view.number }
    {
        self.number
    }

    /// A step of this hand found that all numbers had been handed out.
    pub fn has_missed(&self) -> bool
        ensures { result ≡ self.now.view.missed }
    {
        self.missed
    }

    /// The numbers that this hand got, in order.
    pub fn handed(&self) -> &[u32]
        ensures value { result.now ≡ handed self.now }
        ensures below { All (λ n. n < self.now.view.count) result.now }
    {
        self.handed.as_slice()
    }
}
