ghost use Rattle.std.specs.Prelude.{◌≡◌, ◌≢◌, ℕ, ◌+◌, ◌<◌, ◌≤◌, ◌∷◌, [], length, Some, IfOk, IfSome, IfNone};
ghost use Rattle.node_region.specs.Tables.{cell_of, hint_kept, leaf_kept, finger_kept};
ghost use Rattle.node_region.specs.Pool.{IsCovered, IsUsed, IsPool, IsNextTo, IsKept, count, cell_at, leaf_of, turn_of, hint_of, finger_of, hinted_cell, fresh_pool, with_cell, with_taken, with_given_back, with_leaf, with_hint, with_finger, appended};

use crate::cell::{Cell, Entry, Hint};
use crate::chunk::{FreeList, Place, Slot};
use crate::tables::Tables;
use hg_base::{OutOfMemory, Room};
use std::alloc::{AllocError, Global};
use std::marker::Model;

/// A pool of cells. Places and cells have the same numbers, a range. Each place may have the number of a cell above
/// it, and each number may have a cell; those that have none are free.
///
/// Beside this each place and each number has a hint: where to look for a cell further up.
#[derive(Drop)]
pub struct Region {
    room: Room,
    free: FreeList,
    tables: Tables,
}

impl Model for Region {
    ghost use Rattle.node_region.specs.Pool.{CellPool};

    ghost Value = { CellPool };

    ghost use Rattle.node_region.specs.RegionFields.{pool_of, IsRegion};

    ghost view = { pool_of };

    ghost invariant = { IsRegion };
}

impl Region {
    /// A pool of `count` numbers from `first` on, in one chunk, with room to grow. No number has a cell, the free
    /// ones come in rising order, and nothing stands above any place. All memory that the pool will ever need beside
    /// that of the pools that are appended is taken here, and the error is want of it.
    pub fn for_tile(
        alloc: Global,
        first: u32,
        count: u32,
        room: Room,
    ) -> Result<Region, OutOfMemory>
        requires some_number { 1 ≤ count }
        requires few_numbers { count ≤ room.places }
        requires range { first + room.places ≤ 1048576 }
        requires some_chunk { 1 ≤ room.chunks }
        requires few_chunks { room.chunks ≤ 65536 }
        ensures { IfOk result (λ region. region ≡ fresh_pool first count room) }
    {
        Region::fresh(alloc, first, count, room).map_err(|_| OutOfMemory)
    }

    fn fresh(alloc: Global, first: u32, count: u32, room: Room) -> Result<Region, AllocError>
        requires some_number { 1 ≤ count }
        requires few_numbers { count ≤ room.places }
        requires range { first + room.places ≤ 1048576 }
        requires some_chunk { 1 ≤ room.chunks }
        requires few_chunks { room.chunks ≤ 65536 }
        ensures { IfOk result (λ region. region ≡ fresh_pool first count room) }
    {
        let tables = Tables::of_one(alloc, first, count, room.chunks)?;
        Ok(Region {
            room,
            free: FreeList {
                count,
                head: first,
                tail: first + count - 1,
            },
            tables,
        })
    }

    /// Gives the first free number this cell. It has no hint then. None exactly where no number is free, and then
    /// nothing changes.
    #[inline(always)]
    pub fn take(&mut self, cell: Cell) -> Option<u32>
        ensures none { IfNone result (self.old.free ≡ []) }
        ensures unchanged { IfNone result (self.new ≡ self.old) }
        ensures first { IfSome result (λ id. self.old.free ≡ id ∷ self.new.free) }
        ensures taken { IfSome result (λ id. self.new ≡ with_taken self.old id cell) }
        ensures covered { IfSome result (IsCovered self.old) }
    {
        if self.free.count == 0 {
            return None;
        }
        let id = self.free.head;
        let at = self.tables.locate(id);
        let slot = self.tables.slot(at);
        let fresh = Slot {
            turn: slot.turn.saturating_add(1),
            noted: false,
            ..slot
        };
        self.tables.set_slot(at, fresh.with_cell(cell));
        self.free.head = slot.link;
        self.free.count -= 1;
        Some(id)
    }

    /// Takes the cell of a number away. The number is the first free one then.
    #[inline(always)]
    pub fn give_back(&mut self, id: u32)
        requires { IsUsed self.old id }
        ensures { self.new ≡ with_given_back self.old id }
    {
        let at = self.tables.locate(id);
        let slot = self.tables.slot(at);
        self.tables.set_slot(
            at,
            Slot {
                used: false,
                link: self.free.head,
                ..slot
            },
        );
        self.free = put_in_front(self.free, id);
    }

    // All that is kept of a number.
    #[inline(always)]
    fn slot_of(&self, id: u32) -> Slot
        requires { IsCovered self.now id }
        ensures cell { cell_of result ≡ cell_at self.now id }
        ensures turn { result.turn ≡ turn_of self.now id }
        ensures hint { hint_kept result ≡ hint_of self.now id }
    {
        self.tables.slot(self.tables.locate(id))
    }

    // All that is kept of a place.
    #[inline(always)]
    fn place_of(&self, place: u32) -> Place
        requires { IsCovered self.now place }
        ensures leaf { leaf_kept result ≡ leaf_of self.now place }
        ensures finger { finger_kept result ≡ finger_of self.now place }
    {
        self.tables.place(self.tables.locate(place))
    }

    /// The cell of a number.
    #[inline(always)]
    pub fn get(&self, id: u32) -> Cell
        requires { IsUsed self.now id }
        ensures { cell_at self.now id ≡ Some result }
    {
        match self.slot_of(id).cell() {
            Some(cell) => cell,
            None => unreachable!(),
        }
    }

    /// The cell of a number, if it has one.
    #[inline(always)]
    pub fn cell(&self, id: u32) -> Option<Cell>
        requires { IsCovered self.now id }
        ensures { result ≡ cell_at self.now id }
    {
        self.slot_of(id).cell()
    }

    /// All that is kept of a number that has a cell, read at once.
    #[inline(always)]
    pub fn entry(&self, id: u32) -> Entry
        requires { IsUsed self.now id }
        ensures { IsKept self.now id result }
    {
        let slot = self.slot_of(id);
        match slot.cell() {
            Some(cell) => Entry {
                cell,
                turn: slot.turn,
                hint: slot.hint(),
            },
            None => unreachable!(),
        }
    }

    /// Gives a number that has a cell this one in its place.
    #[inline(always)]
    pub fn set(&mut self, id: u32, cell: Cell)
        requires { IsUsed self.old id }
        ensures { self.new ≡ with_cell self.old id (Some cell) }
    {
        let at = self.tables.locate(id);
        let slot = self.tables.slot(at);
        self.tables.set_slot(at, slot.with_cell(cell));
    }

    /// The number of the first cell above a place, if there is one.
    #[inline(always)]
    pub fn leaf(&self, place: u32) -> Option<u32>
        requires { IsCovered self.now place }
        ensures { result ≡ leaf_of self.now place }
    {
        self.place_of(place).leaf()
    }

    /// Puts the number of a cell above a place, or none.
    #[inline(always)]
    pub fn set_leaf(&mut self, place: u32, up: Option<u32>)
        requires { IsCovered self.old place }
        ensures { self.new ≡ with_leaf self.old place up }
    {
        let at = self.tables.locate(place);
        let entry = self.tables.place(at);
        self.tables.set_place(at, entry.with_leaf(up));
    }

    /// How often a number was taken. The count stands still at the greatest `u32`: from then on all cells of the number
    /// have one turn, and a hint of that turn no longer tells which of them it means.
    #[inline(always)]
    pub fn turn(&self, id: u32) -> u32
        requires { IsCovered self.now id }
        ensures { result ≡ turn_of self.now id }
    {
        self.slot_of(id).turn
    }

    /// What is noted at a number of a cell further up.
    #[inline(always)]
    pub fn hint(&self, id: u32) -> Option<Hint>
        requires { IsCovered self.now id }
        ensures { result ≡ hint_of self.now id }
    {
        self.slot_of(id).hint()
    }

    /// Notes at a number where a cell further up is, or nothing.
    #[inline(always)]
    pub fn set_hint(&mut self, id: u32, hint: Option<Hint>)
        requires { IsCovered self.old id }
        ensures { self.new ≡ with_hint self.old id hint }
    {
        let at = self.tables.locate(id);
        let slot = self.tables.slot(at);
        self.tables.set_slot(at, slot.with_hint(hint));
    }

    /// What is noted at a place of a cell further up.
    #[inline(always)]
    pub fn finger(&self, place: u32) -> Option<Hint>
        requires { IsCovered self.now place }
        ensures { result ≡ finger_of self.now place }
    {
        self.place_of(place).finger()
    }

    /// Notes at a place where a cell further up is, or nothing.
    #[inline(always)]
    pub fn set_finger(&mut self, place: u32, finger: Option<Hint>)
        requires { IsCovered self.old place }
        ensures { self.new ≡ with_finger self.old place finger }
    {
        let at = self.tables.locate(place);
        let entry = self.tables.place(at);
        self.tables.set_place(at, entry.with_finger(finger));
    }

    /// The cell that a hint means. None where its number isn't one of the pool's, has no cell, or was taken again.
    #[inline(always)]
    pub fn find(&self, hint: Hint) -> Option<Cell>
        ensures { result ≡ hinted_cell self.now hint }
    {
        Some(self.find_entry(hint)?.cell)
    }

    /// All that is kept of the number that a hint names. None where the cell that it means isn't there.
    #[inline(always)]
    pub fn find_entry(&self, hint: Hint) -> Option<Entry>
        ensures found { IfSome result (λ entry. hinted_cell self.now hint ≡ Some entry.cell) }
        ensures kept { IfSome result (IsKept self.now hint.cell) }
        ensures none { IfNone result (hinted_cell self.now hint ≡ None) }
    {
        if !self.tables.covers(hint.cell) {
            return None;
        }
        let slot = self.slot_of(hint.cell);
        match slot.cell() {
            Some(cell) if slot.turn == hint.turn => Some(Entry {
                cell,
                turn: slot.turn,
                hint: slot.hint(),
            }),
            _ => None,
        }
    }

    /// This pool and the other, which begins where this one ends. The other's free numbers come behind this one's,
    /// and the room is this one's. No cell is copied and no memory taken.
    pub fn append(self, other: Region) -> Region
        requires { IsNextTo self other }
        ensures { result ≡ appended self other }
    {
        let mut tables = self.tables.append(other.tables);
        let free = tables.link(self.free, other.free);
        Region {
            room: self.room,
            free,
            tables,
        }
    }

    /// Does nothing. It stands where only this is needed: what every region keeps to, `IsPool`.
    #[inline(always)]
    pub fn keeps_its_rules(&self)
        ensures pool { IsPool self.now }
    {
        let _ = &self.tables;
    }

    /// The first number.
    pub fn first(&self) -> u32
        ensures { result ≡ self.now.first }
    {
        self.tables.first
    }

    /// How many numbers there are.
    pub fn count(&self) -> u32
        ensures value { result ≡ count self.now }
        ensures pool { IsPool self.now }
    {
        self.tables.count
    }

    /// Of how many chunks the pool is made.
    pub fn chunks(&self) -> u32
        ensures { result ≡ self.now.chunks }
    {
        self.tables.firsts.len() as u32
    }

    /// How far the pool can grow.
    pub fn room(&self) -> Room
        ensures { result ≡ self.now.room }
    {
        self.room
    }

    /// How many numbers are free.
    pub fn free_count(&self) -> u32
        ensures { result ≡ length self.now.free }
    {
        self.free.count
    }
}

// A list of free numbers with one more in front.
fn put_in_front(free: FreeList, id: u32) -> FreeList
    requires { free.count < 1048577 }
    ensures count { result.count ≡ free.count + 1 }
    ensures head { result.head ≡ id }
    ensures only { free.count ≡ 0 → result.tail ≡ id }
    ensures tail { free.count ≢ 0 → result.tail ≡ free.tail }
{
    let tail = if free.count == 0 { id } else { free.tail };
    FreeList {
        count: free.count + 1,
        head: id,
        tail,
    }
}
