//! Laws of the trees of edge lists. Each is the contract of a function that does nothing.
ghost use Rattle.std.specs.Prelude.{◌≡◌, ◌↔◌, ℕ, ◌+◌, ◌<◌, List, length};
ghost use Rattle.hg_base.specs.Graph.{WeightedGraph, IsGraph, first_end, second_end};
ghost use Rattle.edge_laws.specs.Edges.{ListedEdge, EdgeList, AreApart, AreWithin, component, joins};
ghost use Rattle.hg_base.specs.Lists.{IsIn};
ghost use Rattle.edge_laws.specs.Rank.{rank, ranked, front};
ghost use Rattle.tree_laws.specs.Tree.{altitude, AreLeavesBelow, IsFrontTree, tree_of, graph_tree, place, IsLowestAbove};
ghost use Rattle.edge_laws.specs.Saliency.{IsSaliency};

/// The vertex sets of the nodes of the tree are exactly the components of the fronts, each once. A leaf has
/// altitude 0, and another node the weight of the edge that made it.
pub fn tree_is_a_front_tree()
    ensures nodes { (n : ℕ) (s : EdgeList) → AreApart s → AreWithin n s → IsFrontTree (tree_of n s) n s }
    ensures leaf_altitudes { (n x : ℕ) (s : EdgeList) → x < n → altitude (tree_of n s) x ≡ 0 }
    ensures inner_altitudes { (n : ℕ) (s : EdgeList) (e : ListedEdge) → AreApart s → IsIn e (joins s) →
        altitude (tree_of n s) (n + place s e) ≡ e.weight }
{}

/// The front k of a graph holds its ranked edges of rank below k, and the components of the fronts are exactly the
/// leaves below the nodes of the graph's tree, each once.
pub fn components_of_the_fronts()
    ensures front { (g : WeightedGraph) (k : ℕ) (e : ListedEdge) → IsIn e (front g k) ↔ (IsIn e (ranked g) × (e.rank < k)) }
    ensures each_component { (g : WeightedGraph) (k x : ℕ) → IsGraph g → x < g.n →
        (i : ℕ) × ((i < length (graph_tree g).parents) × AreLeavesBelow (graph_tree g) i (component g.n (front g k) x)) }
    ensures each_node { (g : WeightedGraph) (i : ℕ) → IsGraph g → i < length (graph_tree g).parents →
        (k : ℕ) × ((x : ℕ) × ((x < g.n) × AreLeavesBelow (graph_tree g) i (component g.n (front g k) x))) }
    ensures once { (g : WeightedGraph) (i j : ℕ) (leaves : List ℕ) → IsGraph g → i < length (graph_tree g).parents → j < length (graph_tree g).parents →
        AreLeavesBelow (graph_tree g) i leaves → AreLeavesBelow (graph_tree g) j leaves → i ≡ j }
{}

/// The saliency of an edge is the altitude of the lowest common ancestor of its ends.
pub fn saliency_is_an_altitude()
    ensures { (g : WeightedGraph) (e i : ℕ) → IsGraph g → e < length g.edges →
        IsLowestAbove (graph_tree g) (first_end g e) (second_end g e) i → IsSaliency g e (altitude (graph_tree g) i) }
{}
