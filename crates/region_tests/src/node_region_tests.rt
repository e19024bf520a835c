ghost use Rattle.std.specs.Prelude.{◌≡◌, ◌+◌, ◌≤◌};
ghost use Rattle.node_region.specs.Pool.{IsCovered, IsUsed, IsNextTo, appended};

use hg_base::Room;
use node_region::{Cell, Hint, Region};
use std::alloc::Global;
use std::process::Abort;
use std::test::Fail;

const CELL: Cell = Cell { rank: 7, up: None };

/// A region without cells, with room for so many places and chunks.
fn region(
    rt: &impl Abort,
    alloc: Global,
    first: u32,
    count: u32,
    places: u32,
    chunks: u32,
) -> Region {
    assert!(rt; 1 <= count && count <= places && first < 100 && places < 100);
    assert!(rt; 1 <= chunks && chunks < 100);
    Region::for_tile(alloc, first, count, Room { places, chunks }).expect(rt, "ample memory")
}

/// One region behind another.
fn append(rt: &impl Abort, left: Region, right: Region) -> Region {
    let places = left.count() + right.count();
    let chunks = left.chunks() + right.chunks();
    assert!(rt; right.first() == left.first() + left.count());
    assert!(rt; places <= left.room().places && chunks <= left.room().chunks);
    left.append(right)
}

/// Stops where the region doesn't have the number.
fn check_covered(rt: &impl Abort, region: &Region, id: u32)
    ensures { IsCovered region.now id }
{
    assert!(rt; region.first() <= id && id - region.first() < region.count());
}

/// Stops where the number has no cell, or wasn't taken that often.
fn check_used(rt: &impl Abort, region: &Region, id: u32, turn: u32)
    ensures { IsUsed region.now id }
{
    let found = region.find(Hint {
        cell: id,
        turn,
        rank: 0,
    });
    assert!(rt; found.is_some());
}

#[test]
fn numbers_are_taken_in_order(rt: HostRuntime) -> Result<(), Fail> {
    let mut small = region(&rt, rt.alloc(), 0, 2, 2, 1);
    for expected in [Some(0), Some(1), None] {
        assert!(rt; small.take(CELL) == expected);
    }
    check_used(&rt, &small, 0, 1);
    small.give_back(0);
    assert!(rt; small.take(CELL) == Some(0));
    Ok(())
}

#[test]
fn free_numbers_run_over_chunks(rt: HostRuntime) -> Result<(), Fail> {
    let one = region(&rt, rt.alloc(), 0, 2, 5, 3);
    let two = region(&rt, rt.alloc(), 2, 1, 3, 2);
    let three = region(&rt, rt.alloc(), 3, 2, 2, 1);
    let mut all = append(&rt, one, append(&rt, two, three));
    assert!(rt; all.first() == 0 && all.count() == 5);
    assert!(rt; all.chunks() == 3 && all.free_count() == 5);
    for expected in [Some(0), Some(1), Some(2), Some(3), Some(4), None] {
        assert!(rt; all.take(CELL) == expected);
    }
    check_used(&rt, &all, 3, 1);
    all.give_back(3);
    check_used(&rt, &all, 1, 1);
    all.give_back(1);
    assert!(rt; all.take(CELL) == Some(1));
    assert!(rt; all.take(CELL) == Some(3));
    Ok(())
}

#[test]
fn what_is_noted_is_read(rt: HostRuntime) -> Result<(), Fail> {
    let mut region = region(&rt, rt.alloc(), 4, 2, 2, 1);
    let hint = Hint {
        cell: 4,
        turn: 1,
        rank: 7,
    };
    check_covered(&rt, &region, 4);
    region.set_leaf(4, Some(5));
    region.set_finger(4, Some(hint));
    region.set_hint(4, Some(hint));
    assert!(rt; region.leaf(4) == Some(5) && region.turn(4) == 0);
    assert!(rt; region.finger(4) == Some(hint) && region.hint(4) == Some(hint));
    assert!(rt; region.find(hint) == None && region.cell(4) == None);
    assert!(rt; region.take(CELL) == Some(4));
    assert!(rt; region.find(hint) == Some(CELL));
    check_used(&rt, &region, 4, 1);
    let other = Cell {
        rank: 9,
        up: Some(5),
    };
    region.set(4, other);
    assert!(rt; region.get(4) == other);
    region.give_back(4);
    assert!(rt; region.find(hint) == None);
    assert!(rt; region.take(CELL) == Some(4));
    assert!(rt; region.find(hint) == None);
    check_covered(&rt, &region, 4);
    assert!(rt; region.hint(4) == None && region.turn(4) == 2);
    assert!(rt; region.cell(4) == Some(CELL) && region.leaf(4) == Some(5));
    Ok(())
}
