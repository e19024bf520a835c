//! Laws of attributes. Each is the contract of a function that does nothing.
ghost use Rattle.std.specs.Prelude.{◌≡◌, ℕ, ◌+◌, ◌*◌, ◌<◌, ◌≤◌, length};
ghost use Rattle.std.specs.List.{sum_by};
ghost use Rattle.hg_base.specs.Graph.{WeightedGraph, IsGraph};
ghost use Rattle.tree_laws.specs.Tree.{IsAbove, graph_tree};
ghost use Rattle.attributes.specs.Attributes.{area, floor, vertices_below, area_of, volume_under, altitude_over};

/// No floor of a vertex below a node is above the altitude of the node's parent, so that the subtractions in volume and
/// dynamics cut nothing off.
pub fn floors_are_low()
    ensures { (g : WeightedGraph) (i x : ℕ) → IsGraph g → i < length (graph_tree g).parents → x < g.n → IsAbove (graph_tree g) i x →
        floor g x ≤ altitude_over (graph_tree g) i }
{}

/// The volume of a node and the sum of its vertices' areas times their floors are the area times the altitude over it.
pub fn volume_by_area()
    ensures { (g : WeightedGraph) (i : ℕ) → IsGraph g → i < length (graph_tree g).parents →
        volume_under g (altitude_over (graph_tree g) i) (vertices_below (graph_tree g) i) + sum_by (λ x. area g x * floor g x) (vertices_below (graph_tree g) i)
        ≡ altitude_over (graph_tree g) i * area_of g (vertices_below (graph_tree g) i) }
{}
