use border_climb::Part;

/// What an arrival finds.
#[derive(Drop)]
pub enum Arrival {
    /// The sibling has not arrived: the part stays on the board, and the seat is idle.
    Waits,
    /// Both halves of this merge have arrived: here they are, and the merge is the seat's new hand.
    Both {
        number: u32,
        left: Part,
        right: Part,
    },
    /// The part is the root: the board has all, and the seat is idle.
    Whole,
}
