ghost use Rattle.std.specs.Prelude.{◌≡◌, ◌+◌, ◌≤◌, All, IfOk, [], replicate, vec_capacity};
ghost use Rattle.std.specs.List.{range_with_len};
ghost use Rattle.job_shift.specs.Hands.{AreAllHands, IsFresh, IsHandOf, first_view, fresh_hands, hand_numbers, split_left, split_right};
ghost use Rattle.job_shift.specs.HandedNumbers.{IsUnstarted};

use crate::hand::Hand;
use crate::rule::OneWorker;
use crate::shift::Shift;
use crate::view::Key;
use atomic_table::Table;
use hg_base::OutOfMemory;
use std::alloc::Global;

impl Shift {
    /// Starts a shift of so many jobs with one hand for each worker, numbered from 0 in the list's order. No number is
    /// handed out, and no hand has missed. All memory of the shift is taken here: each hand has room for all numbers.
    /// The error is want of it.
    pub fn start(alloc: Global, count: u32, workers: u32) -> Result<(Shift, Vec<Hand>), OutOfMemory>
        requires some_job { 1 ≤ count }
        requires few_jobs { count ≤ 4096 }
        requires some_worker { 1 ≤ workers }
        requires few_workers { workers ≤ 64 }
        ensures count { IfOk result (λ made. made.0.count ≡ count) }
        ensures workers { IfOk result (λ made. made.0.workers ≡ workers) }
        ensures hands { IfOk result (λ made. AreAllHands made.1.items made.0) }
        ensures fresh { IfOk result (λ made. All IsFresh made.1.items) }
        ensures unstarted { IfOk result (λ made. IsUnstarted made.1.items made.0) }
        ensures numbers { IfOk result (λ made. hand_numbers made.1.items ≡ range_with_len 0 workers) }
    {
        let (shift, first) = opened_shift(alloc, count, workers)?;
        let hands = dealt(alloc, &shift, first, workers)?;
        Ok((shift, hands))
    }
}

// The table of a shift, with the hand that stands for all of its workers.
fn opened_shift(alloc: Global, count: u32, workers: u32) -> Result<(Shift, Hand), OutOfMemory>
    requires some_job { 1 ≤ count }
    requires few_jobs { count ≤ 4096 }
    requires some_worker { 1 ≤ workers }
    requires few_workers { workers ≤ 64 }
    ensures count { IfOk result (λ made. made.0.count ≡ count) }
    ensures workers { IfOk result (λ made. made.0.workers ≡ workers) }
    ensures hand { IfOk result (λ made. made.1 ≡ record { table = made.0.table; view = first_view count workers }) }
{
    let answer = Vec::from_elem(alloc, 0u32, count as usize).map_err(|_| OutOfMemory)?;
    let handed = room_for(alloc, count)?;
    let key = Key { count, workers };
    let Ok((table, token)) = Table::new(alloc, &[0], Vec::new(alloc), &key) else {
        return Err(OutOfMemory);
    };
    let hand = Hand {
        token,
        number: 0,
        missed: false,
        handed,
    };
    Ok((
        Shift {
            table,
            count,
            answer,
        },
        hand,
    ))
}

// Room for so many numbers.
fn room_for(alloc: Global, count: u32) -> Result<Vec<u32>, OutOfMemory>
    ensures empty { IfOk result (λ list. list.items ≡ []) }
    ensures room { IfOk result (λ list. count ≤ vec_capacity list) }
{
    Vec::with_capacity(alloc, count as usize).map_err(|_| OutOfMemory)
}

// Deals the first hand's workers out, one to each hand; the first keeps one.
fn dealt(
    alloc: Global,
    shift: &Shift,
    mut first: Hand,
    workers: u32,
) -> Result<Vec<Hand>, OutOfMemory>
    requires workers { workers ≡ shift.now.workers }
    requires first { first ≡ record { table = shift.now.table; view = first_view shift.now.count shift.now.workers } }
    ensures { IfOk result (λ hands. hands.items ≡ fresh_hands shift.now) }
{
    let mut hands = Vec::with_capacity(alloc, workers as usize).map_err(|_| OutOfMemory)?;
    let mut share = workers;
    while 1 < share {
        share -= 1;
        let handed = room_for(alloc, shift.count)?;
        let hand = split_off(shift, &mut first, share, handed);
        hands.push(hand).map_err(|_| OutOfMemory)?;
    }
    hands.push(first).map_err(|_| OutOfMemory)?;
    hands.reverse();
    Ok(hands)
}

// Hands the last of a hand's workers to a new hand, which has the number of workers that are left.
fn split_off(shift: &Shift, hand: &mut Hand, number: u32, handed: Vec<u32>) -> Hand
    requires hand { IsHandOf hand.old shift.now }
    requires fresh { IsFresh hand.old }
    requires share { hand.old.view.share ≡ number + 1 }
    requires left { 1 ≤ number }
    requires empty { handed.items ≡ [] }
    requires room { shift.now.count ≤ vec_capacity handed }
    ensures old { hand.new ≡ record { table = hand.old.table; view = split_left hand.old.view } }
    ensures new { result ≡ record { table = hand.old.table; view = split_right hand.old.view } }
{
    let token = shift.table.shared.split_seat::<OneWorker>(&mut hand.token);
    Hand {
        token,
        number,
        missed: false,
        handed,
    }
}
