ghost use Rattle.std.specs.Prelude.{◌≡◌, ℕ, ◌+◌, ◌-◌, ◌<◌, ◌≤◌, ◌++◌, ◌∷◌, [], length, get_or, set, replicate, map, vec_capacity, IfOk, IsTrue, ◌↔◌};
ghost use Rattle.node_region.specs.Tables.{entries_of, start_of, entry_number, IsAt, AreInRow, AreInRow-prop, fresh_slots, fresh_place};

use crate::chunk::{At, FreeList, NO_HINT, Place, Slot};
use std::alloc::{AllocError, Global};

/// Tables one after another: each begins with the number after the last one of the table before it.
#[derive(Drop)]
pub(crate) struct Tables {
    pub(crate) first: u32,
    pub(crate) count: u32,
    // 2^32 through the length of the first table, and 1: by it the table of a number is guessed.
    pub(crate) scale: u64,
    // The first number of each table.
    pub(crate) firsts: Vec<u32>,
    pub(crate) slots: Vec<Vec<Slot>>,
    pub(crate) places: Vec<Vec<Place>>,
    ghost in_row: { AreInRow first firsts.items slots.items places.items } by { AreInRow-prop first firsts.items slots.items places.items },
    ghost counted: { count ≡ length (entries_of slots.items) },
    ghost some_number: { 1 ≤ count },
    ghost range: { first + count ≤ 1048576 },
}

impl Tables {
    ghost use Rattle.node_region.specs.Kept.{room_of, KeepsTables, CanLink, IsLinked};

    // One table of so many numbers, each free and followed by the next, with place for so many tables.
    pub(crate) fn of_one(
        alloc: Global,
        first: u32,
        count: u32,
        chunks: u32,
    ) -> Result<Tables, AllocError>
        requires some { 1 ≤ count }
        requires range { first + count ≤ 1048576 }
        requires chunks { 1 ≤ chunks }
        ensures slots { IfOk result (λ t. entries_of t.slots.items ≡ fresh_slots first count) }
        ensures places { IfOk result (λ t. entries_of t.places.items ≡ replicate count fresh_place) }
        ensures first { IfOk result (λ t. t.first ≡ first) }
        ensures one { IfOk result (λ t. length t.firsts.items ≡ 1) }
        ensures capacity { IfOk result (λ t. chunks ≤ room_of t) }
    {
        let slots = fresh_slots(alloc, first, count)?;
        let place = Place {
            link: 0,
            linked: false,
            noted: false,
            note: NO_HINT,
        };
        let places = vec![in alloc; place; count as usize]?;
        Ok(Tables {
            first,
            count,
            scale: (1 << 32) / u64::from(count) + 1,
            firsts: one_with_room(alloc, first, chunks as usize)?,
            slots: one_with_room(alloc, slots, chunks as usize)?,
            places: one_with_room(alloc, places, chunks as usize)?,
        })
    }

    // Whether the number is one of these.
    #[inline(always)]
    pub(crate) fn covers(&self, id: u32) -> bool
        ensures { IsTrue result ↔ ((self.now.first ≤ id) × (id < self.now.first + self.now.count)) }
    {
        self.first <= id && id - self.first < self.count
    }

    // Where the entry of a number is. Most tables are as long as the first, so one multiplication mostly tells which it
    // is; where it doesn't, they are searched.
    #[inline(always)]
    pub(crate) fn locate(&self, id: u32) -> At
        requires from { self.now.first ≤ id }
        requires below { id < self.now.first + self.now.count }
        ensures at { IsAt self.now.slots.items result }
        ensures number { self.now.first + entry_number self.now.slots.items result ≡ id }
        ensures within { entry_number self.now.slots.items result < length (entries_of self.now.slots.items) }
        ensures within_places { entry_number self.now.slots.items result < length (entries_of self.now.places.items) }
    {
        let distance = id - self.first;
        if self.firsts.len() == 1 {
            return At {
                chunk: 0,
                index: distance as usize,
            };
        }
        let guess = (u64::from(distance).wrapping_mul(self.scale) >> 32) as usize;
        if guess >= self.firsts.len() {
            return self.search(id);
        }
        let first = self.firsts[guess];
        if id < first || (id - first) as usize >= self.slots[guess].len() {
            return self.search(id);
        }
        At {
            chunk: guess,
            index: (id - first) as usize,
        }
    }

    // The same by a search for the last table that doesn't begin behind the number.
    fn search(&self, id: u32) -> At
        requires from { self.now.first ≤ id }
        requires below { id < self.now.first + self.now.count }
        ensures at { IsAt self.now.slots.items result }
        ensures number { self.now.first + entry_number self.now.slots.items result ≡ id }
        ensures within { entry_number self.now.slots.items result < length (entries_of self.now.slots.items) }
        ensures within_places { entry_number self.now.slots.items result < length (entries_of self.now.places.items) }
    {
        let mut low = 0;
        let mut high = self.firsts.len();
        while high - low > 1 {
            let middle = low + (high - low) / 2;
            if self.firsts[middle] <= id {
                low = middle;
            } else {
                high = middle;
            }
        }
        At {
            chunk: low,
            index: (id - self.firsts[low]) as usize,
        }
    }

    // The entry of a number.
    #[inline(always)]
    pub(crate) fn slot(&self, at: At) -> Slot
        requires { IsAt self.now.slots.items at }
        ensures { result ≡ get_or (entries_of self.now.slots.items) (entry_number self.now.slots.items at) result }
    {
        self.slots[at.chunk][at.index]
    }

    // The entry of a place.
    #[inline(always)]
    pub(crate) fn place(&self, at: At) -> Place
        requires { IsAt self.now.slots.items at }
        ensures { result ≡ get_or (entries_of self.now.places.items) (entry_number self.now.slots.items at) result }
    {
        self.places[at.chunk][at.index]
    }

    // Writes the entry of a number.
    #[inline(always)]
    pub(crate) fn set_slot(&mut self, at: At, slot: Slot)
        requires { IsAt self.old.slots.items at }
        ensures slots { entries_of self.new.slots.items ≡ set (entries_of self.old.slots.items) (entry_number self.old.slots.items at) slot }
        ensures places { entries_of self.new.places.items ≡ entries_of self.old.places.items }
        ensures kept { KeepsTables self.old self.new }
    {
        let table = &mut self.slots[at.chunk];
        table[at.index] = slot;
    }

    // Writes the entry of a place.
    #[inline(always)]
    pub(crate) fn set_place(&mut self, at: At, place: Place)
        requires { IsAt self.old.slots.items at }
        ensures places { entries_of self.new.places.items ≡ set (entries_of self.old.places.items) (entry_number self.old.slots.items at) place }
        ensures slots { entries_of self.new.slots.items ≡ entries_of self.old.slots.items }
        ensures kept { KeepsTables self.old self.new }
    {
        let table = &mut self.places[at.chunk];
        table[at.index] = place;
    }

    // Puts the other's tables behind these.
    pub(crate) fn append(self, other: Tables) -> Tables
        requires next { other.first ≡ self.first + self.count }
        requires range { self.first + self.count + other.count ≤ 1048576 }
        requires room { length self.firsts.items + length other.firsts.items ≤ room_of self }
        ensures slots { entries_of result.slots.items ≡ entries_of self.slots.items ++ entries_of other.slots.items }
        ensures places { entries_of result.places.items ≡ entries_of self.places.items ++ entries_of other.places.items }
        ensures first { result.first ≡ self.first }
        ensures chunks { length result.firsts.items ≡ length self.firsts.items + length other.firsts.items }
        ensures capacity { room_of self ≤ room_of result }
    {
        Tables {
            first: self.first,
            count: self.count + other.count,
            scale: self.scale,
            firsts: put_behind(self.firsts, other.firsts),
            slots: put_behind(self.slots, other.slots),
            places: put_behind(self.places, other.places),
        }
    }

    // Puts one list of free numbers behind another.
    pub(crate) fn link(&mut self, front: FreeList, behind: FreeList) -> FreeList
        requires { CanLink self.old front behind }
        ensures { IsLinked self.old front behind self.new result }
    {
        if front.count == 0 {
            return behind;
        }
        if behind.count == 0 {
            return front;
        }
        let at = self.locate(front.tail);
        let slot = self.slot(at);
        let link = behind.head;
        self.set_slot(at, Slot { link, ..slot });
        FreeList {
            count: front.count + behind.count,
            head: front.head,
            tail: behind.tail,
        }
    }
}

// A list of this item alone, with room for so many.
fn one_with_room<T: Drop>(alloc: Global, item: T, room: usize) -> Result<Vec<T>, AllocError>
    requires { 1 ≤ room }
    ensures items { IfOk result (λ v. v.items ≡ item ∷ []) }
    ensures capacity { IfOk result (λ v. room ≤ vec_capacity v) }
{
    let mut list = Vec::with_capacity(alloc, room)?;
    list.push_reserved(item);
    Ok(list)
}

// Moves items behind others, whose list has place for them.
fn put_behind<T: Drop>(front: Vec<T>, behind: Vec<T>) -> Vec<T>
    requires { length front.items + length behind.items ≤ vec_capacity front }
    ensures items { result.items ≡ front.items ++ behind.items }
    ensures capacity { vec_capacity front ≤ vec_capacity result }
{
    let mut list = front;
    for item in behind {
        list.push_reserved(item);
    }
    list
}

// So many free numbers that were never taken, each followed by the next.
fn fresh_slots(alloc: Global, first: u32, count: u32) -> Result<Vec<Slot>, AllocError>
    requires { first + count ≤ 1048576 }
    ensures { IfOk result (λ v. v.items ≡ fresh_slots first count) }
{
    let mut slots = Vec::with_capacity(alloc, count as usize)?;
    for id in first..first + count {
        slots.push(Slot {
            rank: 0,
            link: id + 1,
            turn: 0,
            used: false,
            linked: false,
            noted: false,
            note: NO_HINT,
        })?;
    }
    Ok(slots)
}
