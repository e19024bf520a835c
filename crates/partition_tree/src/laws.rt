//! Laws of trees. Each is the contract of a function that does nothing.
ghost use Rattle.std.specs.Prelude.{◌≡◌, ℕ, ◌≤◌};
ghost use Rattle.edge_laws.specs.Edges.{EdgeList, AreApart, AreWithin};
ghost use Rattle.tree_laws.specs.Tree.{tree_of};
ghost use Rattle.tree_laws.specs.Levels.{AltitudesRise};
ghost use Rattle.edge_laws.specs.Saliency.{AreByWeight};
ghost use Rattle.partition_tree.specs.TreeLists.{IsWellFormed};
ghost use Rattle.partition_tree.specs.CellNodes.{IsPlacing, placed_tree};

/// The tree of an edge list is well formed, and where the weights don't fall with the rank, altitudes don't fall from
/// child to parent.
pub fn tree_is_well_formed()
    ensures well_formed { (n : ℕ) (s : EdgeList) → 1 ≤ n → n ≤ 1048576 → AreApart s → AreWithin n s → IsWellFormed (tree_of n s) }
    ensures rises { (n : ℕ) (s : EdgeList) → AreApart s → AreByWeight s → AltitudesRise (tree_of n s) }
{}

/// The tree of a list between places, where each vertex has a place of its own, is the tree of the same edges between
/// the vertices.
pub fn tree_under_other_names()
    ensures { (n : ℕ) (p : ℕ → ℕ) (s r : EdgeList) → IsPlacing n p s r → placed_tree n p s ≡ tree_of n r }
{}
