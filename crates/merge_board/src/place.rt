//! Where the parts of a plan stand on its board.
ghost use Rattle.std.specs.Prelude.{◌≡◌, ◌≢◌, ◌<◌, ◌≤◌};
ghost use Rattle.tile_plan.specs.Plan.{IsPlan, part_count, root, parent, sibling, side, tile_count};
ghost use Rattle.merge_board.specs.Board.{door, toll};

use tile_plan::{Plan, Side};

// The merge above a part that is not the root, and which of its halves the part is.
pub(crate) fn parent(plan: &Plan, number: u32) -> (u32, Side)
    requires plan { IsPlan plan.now }
    requires part { number < part_count plan.now }
    requires inner { number ≢ root plan.now }
    ensures parent { result.0 ≡ parent plan.now number }
    ensures side { result.1 ≡ side plan.now number }
    ensures merge { tile_count plan.now ≤ result.0 }
    ensures last { result.0 < part_count plan.now }
{
    let Some(above) = plan.parent(number) else {
        unreachable!()
    };
    above
}

// The other half of the merge above a part that is not the root.
pub(crate) fn sibling(plan: &Plan, number: u32) -> u32
    requires plan { IsPlan plan.now }
    requires part { number < part_count plan.now }
    requires inner { number ≢ root plan.now }
    ensures { result ≡ sibling plan.now number }
{
    let (parent, side) = parent(plan, number);
    let (left, right) = plan.children(parent);
    match side {
        Side::Left => right,
        Side::Right => left,
    }
}

// The word to which a part's arrival adds.
pub(crate) fn door(plan: &Plan, number: u32) -> usize
    requires plan { IsPlan plan.now }
    requires part { number < part_count plan.now }
    ensures { result ≡ door plan.now number }
{
    let tiles = plan.tiles();
    if number == plan.root() {
        return tiles as usize;
    }
    let (parent, _) = parent(plan, number);
    (parent + 1 - tiles) as usize
}

// What a part's arrival adds: 1 for a left half and the root, 2 for a right half.
pub(crate) fn toll(plan: &Plan, number: u32) -> u64
    requires plan { IsPlan plan.now }
    requires part { number < part_count plan.now }
    ensures { result ≡ toll plan.now number }
{
    if number == plan.root() {
        return 1;
    }
    match parent(plan, number).1 {
        Side::Left => 1,
        Side::Right => 2,
    }
}
