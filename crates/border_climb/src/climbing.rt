ghost use Rattle.std.specs.Prelude.{◌≡◌, ℕ, ◌<◌, ◌≤◌, Some, IfSome, IfNone};
ghost use Rattle.node_region.specs.Pool.{IsCovered, IsUsed, IsPool, cell_at, leaf_of, turn_of};
ghost use Rattle.border_climb.specs.Notes.{IsClimbable, IsNoted, IsSound};
ghost use Rattle.border_climb.specs.Climbs.{EndsClimb, IsBelow, IsNamed, IsRead, IsSeen, IsFurther, IsClimbed, IsClimbBegun, IsTop, DiffersInNotes};

use node_region::{Entry, Hint, Region};

/// A cell that was met: its number and its rank.
#[derive(Clone, Copy)]
pub(crate) struct Met {
    pub(crate) id: u32,
    pub(crate) rank: u32,
}

/// A cell that was met, and all that was read there.
#[derive(Clone, Copy)]
pub(crate) struct Seen {
    pub(crate) met: Met,
    pub(crate) entry: Entry,
}

// The cell that a link leads to, if its rank is below r.
#[inline(always)]
fn below(region: &Region, link: Option<u32>, r: u32) -> Option<Seen>
    requires { IfSome link (IsUsed region.now) }
    ensures some { IfSome result (λ next. IsBelow region.now link r next.met) }
    ensures read { IfSome result (IsRead region.now) }
    ensures none { IfNone result (EndsClimb region.now link r) }
{
    let id = link?;
    let entry = region.entry(id);
    let rank = entry.cell.rank;
    if rank < r {
        let met = Met { id, rank };
        Some(Seen { met, entry })
    } else {
        None
    }
}

// The cell that a note means, if it is still there and its rank is below r. A note that tells a higher rank is passed
// over with no look at its cell.
#[inline(always)]
fn noted(region: &Region, note: Option<Hint>, r: u32) -> Option<Seen>
    ensures named { IfSome result (λ next. IsNamed region.now note next.met) }
    ensures read { IfSome result (IsRead region.now) }
    ensures low { IfSome result (λ next. next.met.rank < r) }
{
    let hint = note?;
    if hint.turn == u32::MAX {
        return None;
    }
    if hint.rank >= r {
        return None;
    }
    let entry = region.find_entry(hint)?;
    let rank = entry.cell.rank;
    if rank < r {
        let met = Met {
            id: hint.cell,
            rank,
        };
        Some(Seen { met, entry })
    } else {
        None
    }
}

// The next cell of rank below r on the way up: the noted one, or the one above.
#[inline(always)]
fn ahead(region: &Region, here: Seen, r: u32) -> Option<Seen>
    requires seen { IsSeen region.now here }
    requires climbable { IsClimbable region.now here.met.rank }
    ensures further { IfSome result (λ next. IsFurther region.now here.met next.met) }
    ensures read { IfSome result (IsRead region.now) }
    ensures low { IfSome result (λ next. next.met.rank < r) }
    ensures none { IfNone result (EndsClimb region.now here.entry.cell.up r) }
{
    match noted(region, here.entry.hint, r) {
        Some(next) => Some(next),
        None => below(region, here.entry.cell.up, r),
    }
}

// Notes the next cell at the one that waits; where none does, this cell waits.
#[inline(always)]
fn pass(region: &mut Region, waiting: Option<Met>, here: Met, next: Seen) -> Option<Met>
    requires further { IfSome waiting (λ low. IsFurther region.old low next.met) }
    requires turn { turn_of region.old next.met.id ≡ next.entry.turn }
    ensures noted { (l : ℕ) → IfSome waiting (λ low. l ≤ low.rank) → IsNoted region.old region.new l }
    ensures waiting { IfSome result (λ low. low ≡ here) }
{
    let Some(low) = waiting else {
        return Some(here);
    };
    let hint = Hint {
        cell: next.met.id,
        turn: next.entry.turn,
        rank: next.met.rank,
    };
    region.set_hint(low.id, Some(hint));
    None
}

// Climbs from a cell to the last one of rank below r. Notes of cells further up are taken as short cuts, and every
// second step makes one over two steps, so that the next climb takes half as many.
#[inline(always)]
pub(crate) fn climb(region: &mut Region, start: Seen, r: u32) -> Seen
    requires climbable { IsClimbable region.old start.met.rank }
    requires seen { IsSeen region.old start }
    requires low { start.met.rank < r }
    ensures climbed { IsClimbed region.old start.met r result.met }
    ensures noted { IsNoted region.old region.new start.met.rank }
    ensures seen { IsSeen region.new result }
{
    let mut here = start;
    let mut waiting = None;
    loop {
        let Some(next) = ahead(region, here, r) else {
            return here;
        };
        waiting = pass(region, waiting, here.met, next);
        here = next;
    }
}

// Where a climb from a place to rank r begins: at the cell that is noted there, or at the first one.
#[inline(always)]
pub(crate) fn begin(region: &Region, place: u32, r: u32) -> Option<Seen>
    requires covered { IsCovered region.now place }
    requires sound { IsSound region.now }
    ensures { IsClimbBegun region.now place r result }
{
    match noted(region, region.finger(place), r) {
        Some(start) => Some(start),
        None => below(region, region.leaf(place), r),
    }
}

// The last cell of rank below r above a place, by a climb from where it begins. It is noted at the place, where the
// next climb to a higher rank begins.
#[inline(always)]
pub(crate) fn last_below(
    region: &mut Region,
    place: u32,
    begun: Option<Seen>,
    r: u32,
) -> Option<u32>
    requires covered { IsCovered region.old place }
    requires sound { IsSound region.old }
    requires begun { IsClimbBegun region.old place r begun }
    ensures top { IsTop region.old place r result }
    ensures notes { DiffersInNotes region.old region.new }
    ensures sound { IsSound region.new }
{
    let start = begun?;
    let last = climb(region, start, r);
    let hint = Hint {
        cell: last.met.id,
        turn: last.entry.turn,
        rank: last.met.rank,
    };
    region.set_finger(place, Some(hint));
    Some(last.met.id)
}
