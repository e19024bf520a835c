ghost use Rattle.std.specs.Prelude.{◌≡◌, ◌≢◌, ℕ, ◌+◌, ◌*◌, ◌-◌, ◌++◌, ◌<◌, ◌≤◌, ◌∷◌, [], length, vec_capacity, Some, IfOk, IfSome};
ghost use Rattle.edge_laws.specs.Edges.{ListedEdge, EdgeList, components};
ghost use Rattle.edge_laws.specs.Placed.{placed};
ghost use Rattle.node_region.specs.Pool.{IsCovered, IsUsed, IsPool, IsNextTo, cell_at, count, leaf_of, appended};
ghost use Rattle.border_climb.specs.Stands.{Stands, IsNewRank};
ghost use Rattle.border_climb.specs.Splicing.{rank_of};
ghost use Rattle.border_climb.specs.Parts.{IsAnswer, KeepsPart, AreUnited, SomeUnited, empty_part, above_cell};

use crate::given::Given;
use crate::splicing::splice;
use hg_base::{OutOfMemory, PlacedEdge, Room};
use node_region::{Cell, Region};
use std::alloc::Global;
use std::marker::Model;

/// The chains of a range of places, for the edges that were given so far. Following the numbers up from a place
/// meets the cells of the edges that join its component to another, in rising rank (Najman, Cousty and Perret 2013).
#[derive(Drop)]
pub struct Part {
    region: Region,
    lots: Vec<u32>,
    given: u64,
}

impl Model for Part {
    ghost use Rattle.border_climb.specs.Stands.{PartState};

    ghost Value = { PartState };

    ghost use Rattle.border_climb.specs.PartFields.{part_of, IsPart};

    ghost view = { part_of };

    ghost invariant = { IsPart };
}

impl Part {
    /// The part of `count` places from `first` on, to which no edge was given, with room to grow. All memory that it
    /// will ever need is taken here, and the error is want of it.
    pub fn of_tile(alloc: Global, first: u32, count: u32, room: Room) -> Result<Part, OutOfMemory>
        requires some_place { 1 ≤ count }
        requires few_places { count ≤ room.places }
        requires range { first + room.places ≤ 1048576 }
        requires some_chunk { 1 ≤ room.chunks }
        requires few_chunks { room.chunks ≤ 65536 }
        ensures part { IfOk result (λ part. part ≡ empty_part first count room) }
        ensures stands { IfOk result (λ part. Stands part []) }
    {
        let region = Region::for_tile(alloc, first, count, room)?;
        let lots = reserve(alloc, 2 * room.chunks as usize - 1)?;
        Ok(Part {
            region,
            lots,
            given: 0,
        })
    }

    /// The part of the places 0 to n - 1, to which no edge was given, with no room to grow.
    pub fn whole(alloc: Global, n: u32) -> Result<Part, OutOfMemory>
        requires some_place { 1 ≤ n }
        requires places { n ≤ 1048576 }
        ensures part { IfOk result (λ part. part ≡ empty_part 0 n (record { places = n; chunks = 1 })) }
        ensures stands { IfOk result (λ part. Stands part []) }
    {
        Part::of_tile(
            alloc,
            0,
            n,
            Room {
                places: n,
                chunks: 1,
            },
        )
    }

    /// Takes in an edge, of any rank that no edge before it had. `Redundant` says that edges of lower rank join its
    /// ends, `Joined` that no edges join them, and `Replaced` that the edges up to the rank that is told do, of
    /// which the last one then joins nothing any more. It takes no memory.
    pub fn give(&mut self, e: PlacedEdge) -> Given
        requires a { IsCovered self.old.region e.a }
        requires b { IsCovered self.old.region e.b }
        requires two { e.a ≢ e.b }
        requires stands { (s : EdgeList) × (Stands self.old s × IsNewRank e.rank s) }
        ensures stands { (f : ListedEdge) (s : EdgeList) → placed f ≡ e → Stands self.old s → IsNewRank e.rank s → Stands self.new (f ∷ s) }
        ensures answer { (s : EdgeList) → Stands self.old s → IsNewRank e.rank s → IsAnswer s e result }
        ensures kept { KeepsPart self.old self.new }
    {
        let answer = splice(&mut self.region, e);
        self.given += 1;
        answer
    }

    // This part and the other, which begins where this one ends, side by side.
    pub(crate) fn unite(self, other: Part) -> Part
        requires next { IsNextTo self.region other.region }
        requires lots { length self.lots + length other.lots < 2 * self.region.room.chunks }
        requires lists { SomeUnited self other }
        ensures region { result.region ≡ appended self.region other.region }
        ensures lots { result.lots ≡ self.lots ++ other.lots }
        ensures stands { (s r : EdgeList) → AreUnited self other s r → Stands result (s ++ r) }
    {
        self.region.keeps_its_rules();
        other.region.keeps_its_rules();
        let given = self.given + other.given;
        let lots = put_behind(self.lots, other.lots.as_slice());
        Part {
            region: self.region.append(other.region),
            lots,
            given,
        }
    }

    // Notes the number of a part that was taken in.
    pub(crate) fn note(&mut self, number: u32)
        requires { length self.old.lots < 2 * self.old.region.room.chunks - 1 }
        ensures { self.new ≡ record self.old { lots = self.old.lots ++ number ∷ [] } }
    {
        self.lots.push_reserved(number);
    }

    /// Does nothing. It stands where only this is needed: what the part's region keeps to, `IsPool`.
    #[inline(always)]
    pub fn keeps_its_rules(&self)
        ensures pool { IsPool self.now.region }
    {
        self.region.keeps_its_rules();
    }

    /// The first place that the part covers.
    pub fn first(&self) -> u32
        ensures { result ≡ self.now.region.first }
    {
        self.region.first()
    }

    /// How many places the part covers.
    pub fn count(&self) -> u32
        ensures value { result ≡ count self.now.region }
        ensures pool { IsPool self.now.region }
    {
        self.region.count()
    }

    /// The numbers of the parts that were taken in.
    pub fn lots(&self) -> &[u32]
        ensures { result.now ≡ self.now.lots }
    {
        self.lots.as_slice()
    }

    /// How many edges were given.
    pub fn given(&self) -> u64
        ensures { result ≡ self.now.given }
    {
        self.given
    }

    /// How many components there are. (The numbers below the first place count as components in the definition.)
    pub fn roots(&self) -> u32
        ensures free { result ≡ length self.now.region.free }
        ensures components { (s : EdgeList) → Stands self.now s → result + self.now.region.first ≡ components (self.now.region.first + count self.now.region) s }
    {
        self.region.keeps_its_rules();
        self.region.free_count()
    }

    /// The number of the first cell above a place, if there is one.
    pub fn up_of_place(&self, place: u32) -> Option<u32>
        requires { IsCovered self.now.region place }
        ensures value { result ≡ leaf_of self.now.region place }
        ensures used { IfSome result (IsUsed self.now.region) }
    {
        self.region.leaf(place)
    }

    /// The number of the next cell above a cell, if there is one. It has a higher rank.
    pub fn up_of_cell(&self, id: u32) -> Option<u32>
        requires { IsUsed self.now.region id }
        ensures value { result ≡ above_cell self.now.region id }
        ensures used { IfSome result (IsUsed self.now.region) }
        ensures higher { IfSome result (λ above. rank_of self.now.region id < rank_of self.now.region above) }
    {
        self.region.get(id).up
    }

    /// The cell of a number, if it has one.
    pub fn cell(&self, id: u32) -> Option<Cell>
        requires { IsCovered self.now.region id }
        ensures { result ≡ cell_at self.now.region id }
    {
        self.region.cell(id)
    }

    /// The rank of a cell's edge.
    pub fn rank_of_cell(&self, id: u32) -> u32
        requires { IsUsed self.now.region id }
        ensures { result ≡ rank_of self.now.region id }
    {
        self.region.get(id).rank
    }
}

// An empty list with place for so many numbers.
fn reserve(alloc: Global, places: usize) -> Result<Vec<u32>, OutOfMemory>
    ensures empty { IfOk result (λ lots. lots.items ≡ []) }
    ensures reserved { IfOk result (λ lots. vec_capacity lots ≡ places) }
{
    Vec::with_capacity(alloc, places).map_err(|_| OutOfMemory)
}

// Puts numbers behind others, whose list has place for them.
fn put_behind(front: Vec<u32>, behind: &[u32]) -> Vec<u32>
    requires { length front.items + length behind.now ≤ vec_capacity front }
    ensures items { result.items ≡ front.items ++ behind.now }
    ensures capacity { vec_capacity front ≤ vec_capacity result }
{
    let mut numbers = front;
    for number in behind {
        numbers.push_reserved(*number);
    }
    numbers
}
