//! Laws of component trees. Each is the contract of a function that does nothing.
ghost use Rattle.std.specs.Prelude.{◌≡◌, ℕ, List, length};
ghost use Rattle.hg_base.specs.Graph.{WeightedGraph, IsGraph};
ghost use Rattle.edge_laws.specs.Rank.{ranked};
ghost use Rattle.component_tree.specs.declared.side.Side.{Side};
ghost use Rattle.component_tree.specs.Components.{ComponentLists, IsComponentTree};
ghost use Rattle.component_tree.specs.MinTree.{value_at, component_tree_of};
ghost use Rattle.component_tree.specs.Values.{AreValues};

/// A graph with a value for each vertex has one component tree of each side, and no other: that of `component_tree_of`.
pub fn component_trees()
    ensures is_one { (side : Side) (values : List ℕ) (g : WeightedGraph) → IsGraph g → AreValues values → length values ≡ g.n →
        IsComponentTree side (value_at values) g.n (ranked g) (component_tree_of side values g) }
    ensures only_one { (side : Side) (values : List ℕ) (g : WeightedGraph) (tree : ComponentLists) → IsGraph g → AreValues values → length values ≡ g.n →
        IsComponentTree side (value_at values) g.n (ranked g) tree → tree ≡ component_tree_of side values g }
{}
