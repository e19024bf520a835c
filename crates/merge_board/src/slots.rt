ghost use Rattle.std.specs.Prelude.{◌≡◌, ◌+◌, ◌++◌, ◌<◌, ◌≤◌, IfOk, None, length, replicate, vec_capacity};
ghost use Rattle.tile_plan.specs.Plan.{tile_count, part_count};
ghost use Rattle.merge_board.specs.Fits.{Opened};
ghost use Rattle.merge_board.specs.Opening.{AreOpened, AreOpenedTiles};

use border_climb::Part;
use hg_base::OutOfMemory;
use std::alloc::Global;
use tile_plan::Plan;

// The slots of a board at the start: each tile's part, and none for each merge.
pub(crate) fn opened_slots(alloc: Global, plan: &Plan) -> Result<Vec<Option<Part>>, OutOfMemory>
    ensures { IfOk result (λ slots. AreOpened plan.now slots.items) }
{
    let merges = plan.tiles() - 1;
    let mut slots = opened_tiles(alloc, plan)?;
    push_empty(&mut slots, merges);
    Ok(slots)
}

// Each tile's part, with place for a slot for each merge.
fn opened_tiles(alloc: Global, plan: &Plan) -> Result<Vec<Option<Part>>, OutOfMemory>
    ensures tiles { IfOk result (λ slots. AreOpenedTiles plan.now (tile_count plan.now) slots.items) }
    ensures places { IfOk result (λ slots. part_count plan.now ≤ vec_capacity slots) }
{
    let tiles = plan.tiles();
    let parts = 2 * tiles as usize - 1;
    let mut slots = Vec::with_capacity(alloc, parts).map_err(|_| OutOfMemory)?;
    for tile in 0..tiles {
        slots.push_reserved(Some(opened_tile(alloc, plan, tile)?));
    }
    Ok(slots)
}

// Puts empty slots behind others, whose list has place for them.
fn push_empty(slots: &mut Vec<Option<Part>>, count: u32)
    requires places { length slots.old.items + count ≤ vec_capacity slots.old }
    ensures { slots.new.items ≡ slots.old.items ++ replicate count None }
{
    for _ in 0..count {
        slots.push_reserved(None);
    }
}

// A tile's part, to which no edge was given, with the room to grow that the tile's part ever needs.
fn opened_tile(alloc: Global, plan: &Plan, tile: u32) -> Result<Part, OutOfMemory>
    requires tile { tile < tile_count plan.now }
    ensures { IfOk result (λ part. Opened plan.now tile part) }
{
    plan.keeps_its_rules();
    let (first, count) = plan.range(tile);
    let room = plan.room_of(tile);
    Part::of_tile(alloc, first, count, room)
}
