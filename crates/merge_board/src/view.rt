use std::snapshot::Snapshot;
use tile_plan::Plan;

/// What a seat's view knows: the seat's number, the part in its hand, whether it has missed, how many workers it
/// stands for, how many draws it has seen, the board's plan and number of workers, and the number that its last step
/// on a word found. No value of it is ever made.
pub struct View {
    /// The seat's number.
    pub number: u32,
    /// The part in its hand; none where it is idle.
    pub hand: Option<u32>,
    /// A draw of it found no tile left.
    pub missed: bool,
    /// How many workers it stands for; 0 where it was joined into another.
    pub share: u32,
    /// All draws before this one are known to have been made.
    pub seen: u32,
    /// The board's plan.
    pub plan: Plan,
    /// How many workers the board has.
    pub workers: u32,
    /// The number that its last step on a word found.
    pub found: u64,
}

/// What a board is told once: its plan and its number of workers.
#[derive(Drop)]
pub struct Key {
    pub(crate) plan: Snapshot<Plan>,
    pub(crate) workers: u32,
}
