ghost use Rattle.std.specs.Prelude.{◌≡◌, ℕ, ◌+◌, ◌*◌, ◌-◌, ◌≤◌, ◌∷◌, ◌++◌, [], length, map};
ghost use Rattle.edge_laws.specs.Edges.{EdgeList};
ghost use Rattle.edge_laws.specs.Placed.{placed};
ghost use Rattle.node_region.specs.Pool.{IsNextTo};
ghost use Rattle.border_climb.specs.Stands.{Stands};
ghost use Rattle.border_climb.specs.Splicing.{KeepsRange};
ghost use Rattle.border_climb.specs.Parts.{KeepsPart, CanTake, IsLot, CanJoin, SomeJoin, SumsUp};

use crate::part::Part;
use hg_base::PlacedEdge;

// Gives a part each of the edges in turn.
fn give_all(part: &mut Part, edges: &[PlacedEdge])
    requires { (s : EdgeList) × CanTake part.old edges.now s }
    ensures stands { (s t : EdgeList) → CanTake part.old edges.now s → map placed t ≡ edges.now → Stands part.new (s ++ t) }
    ensures kept { KeepsPart part.old part.new }
{
    for edge in edges {
        part.give(*edge);
    }
}

/// Gives a part that has taken in nothing the lot of its tile, and notes the tile's number. It takes no memory.
pub fn build_tile(part: Part, number: u32, lot: &[PlacedEdge]) -> Part
    requires no_lots { part.lots ≡ [] }
    requires no_edges { Stands part [] }
    requires lot { IsLot part.region lot.now }
    ensures stands { (s : EdgeList) → map placed s ≡ lot.now → Stands result s }
    ensures lots { result.lots ≡ number ∷ [] }
    ensures range { KeepsRange part.region result.region }
{
    let mut part = part;
    give_all(&mut part, lot);
    part.note(number);
    part
}

/// Joins a part and the one that begins where it ends: gives both together the border's edges, of which each has one
/// end in either, and notes the number of the part that is made. It takes no memory.
pub fn join(left: Part, right: Part, number: u32, border: &[PlacedEdge]) -> Part
    requires next { IsNextTo left.region right.region }
    requires left_lots { length left.lots ≡ 2 * left.region.chunks - 1 }
    requires right_lots { length right.lots ≡ 2 * right.region.chunks - 1 }
    requires lists { SomeJoin left right border.now }
    ensures stands { (s r b : EdgeList) → CanJoin left right border.now s r → map placed b ≡ border.now → Stands result ((s ++ r) ++ b) }
    ensures lots { result.lots ≡ (left.lots ++ right.lots) ++ number ∷ [] }
    ensures sums { SumsUp left right result }
    ensures given { result.given ≡ left.given + right.given + length border.now }
{
    left.keeps_its_rules();
    right.keeps_its_rules();
    let mut part = left.unite(right);
    give_all(&mut part, border);
    part.note(number);
    part
}
