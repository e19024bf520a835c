use std::collections::LinkedList;

/// The number of a job was handed to the hand of a number.
pub struct Pair {
    /// The job's number.
    pub job: u32,
    /// The hand's number.
    pub hand: u32,
}

/// What a hand's view knows: the hand's number, how many workers it stands for, whether it has missed, the pairs of
/// what it got, the shift's numbers of jobs and of workers, and the number that its last step found. No value of it
/// is ever made.
pub struct HandView {
    /// The hand's number.
    pub number: u32,
    /// How many workers it stands for; 0 where it was joined into another.
    pub share: u32,
    /// A step of it found all numbers handed out.
    pub missed: bool,
    /// What it got, in order, or what the hands got that were joined into it.
    pub pairs: LinkedList<Pair>,
    /// How many jobs the shift has.
    pub count: u32,
    /// How many workers the shift has.
    pub workers: u32,
    /// How many steps had been made at its last step.
    pub found: u64,
}

/// What a shift is told once: its numbers of jobs and of workers.
#[derive(Clone, Copy, Debug, PartialEq, Eq)]
pub struct Key {
    pub(crate) count: u32,
    pub(crate) workers: u32,
}
