ghost use Rattle.std.specs.Prelude.{◌≡◌, ℕ, ◌<◌, ◌≤◌, [], true, All, length, slice_index};
ghost use Rattle.job_shift.specs.Times.{jobs, times};
ghost use Rattle.job_shift.specs.Hands.{AreAllHands, HasMissed, handed, joined_hands};
ghost use Rattle.job_shift.specs.HandedNumbers.{IsHandedTo};
ghost use Rattle.job_shift.specs.Finishing.{IsHandAt, entered, handed_among, with_each};

use crate::hand::{Hand, Token};
use crate::rule::AllWorkers;
use crate::shift::{NumberTable, Shift};

impl Shift {
    /// Ends a shift of which all hands are in and have missed: for each number, the number of the hand that got it.
    pub fn finish(self, hands: Vec<Hand>) -> Vec<u32>
        requires all { AreAllHands hands.items self }
        requires missed { All HasMissed hands.items }
        ensures count { length result.items ≡ self.count }
        ensures each { (i : ℕ) → i < self.count → IsHandedTo hands.items i (slice_index result.items i) }
    {
        let Shift { table, answer, .. } = self;
        let answer = answered(answer, &hands);
        let token = one_for_all(&table, hands);
        end(table, token);
        answer
    }
}

// Enters the number of each hand at the numbers that it got.
fn answered(mut answer: Vec<u32>, hands: &[Hand]) -> Vec<u32>
    requires { All (λ hand. hand.view.count ≡ length answer.items) hands.now }
    ensures { result.items ≡ entered hands.now answer.items }
{
    for hand in hands {
        enter(&mut answer, hand);
    }
    answer
}

// Enters the number of a hand at the numbers that it got.
fn enter(answer: &mut [u32], hand: &Hand)
    requires { hand.now.view.count ≡ length answer.old }
    ensures { answer.new ≡ with_each hand.now.view.number (handed hand.now) answer.old }
{
    for &number in hand.handed() {
        answer[number as usize] = hand.number();
    }
}

// Joins all hands into one seat, which stands for as many workers at least as there were hands, and has all that they
// got.
fn one_for_all(table: &NumberTable, mut hands: Vec<Hand>) -> Token
    requires some { 1 ≤ length hands.items }
    requires each { All (λ hand. IsHandAt hand table.now.shared.table_id) hands.items }
    requires missed { All HasMissed hands.items }
    requires word { table.now.shared.table_id.words ≡ 1 }
    ensures table { result.table_id ≡ table.now.shared.table_id }
    ensures missed { result.me.0.missed ≡ true }
    ensures share { length hands.items ≤ result.me.0.share }
    ensures got { (j : ℕ) → times j (jobs result.me.0) ≡ handed_among hands.items j }
{
    let Some(hand) = hands.pop() else {
        unreachable!()
    };
    let mut token = token_of(hand);
    while let Some(other) = hands.pop() {
        take_in(table, &mut token, token_of(other));
    }
    token
}

// The seat of a hand.
fn token_of(hand: Hand) -> Token
    ensures table { result.table_id ≡ hand.table }
    ensures view { result.me.0 ≡ hand.view }
    ensures slots { result.me.1 ≡ [] }
    ensures share { 1 ≤ result.me.0.share }
{
    let Hand { token, .. } = hand;
    token
}

// Joins another seat into this one.
fn take_in(table: &NumberTable, token: &mut Token, other: Token)
    requires table { (token.old.table_id ≡ table.now.shared.table_id) × (other.table_id ≡ table.now.shared.table_id) }
    requires word { table.now.shared.table_id.words ≡ 1 }
    requires missed { (token.old.me.0.missed ≡ true) × (other.me.0.missed ≡ true) }
    requires share { 1 ≤ token.old.me.0.share }
    requires slots { other.me.1 ≡ [] }
    ensures table { token.new.table_id ≡ token.old.table_id }
    ensures view { token.new.me.0 ≡ joined_hands token.old.me.0 other.me.0 }
{
    table.shared.join_seat::<AllWorkers>(token, other);
}

// Closes a table of which one seat stands for all workers and has missed: it got each number once.
fn end(table: NumberTable, token: Token)
    requires table { token.table_id ≡ table.shared.table_id }
    requires slots { table.shared.table_id.slots ≡ 0 }
    requires missed { token.me.0.missed ≡ true }
    requires all { table.shared.key.workers ≤ token.me.0.share }
    ensures { (j : ℕ) → j < table.shared.key.count → times j (jobs token.me.0) ≡ 1 }
{
    let closed = table.close_with(token);
    closed.free();
}
