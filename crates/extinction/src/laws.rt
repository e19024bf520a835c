//! Laws of the definitions. Each is the contract of a function that does nothing.
ghost use Rattle.std.specs.Prelude.{◌≡◌, ◌↔◌, ℕ, ◌<◌, ◌≤◌, List, length, true, false, IsTrue, slice_index};
ghost use Rattle.hg_base.specs.Graph.{WeightedGraph, IsGraph};
ghost use Rattle.edge_laws.specs.Edges.{EdgeList, Joined};
ghost use Rattle.edge_laws.specs.Rank.{ranked};
ghost use Rattle.edge_laws.specs.Saliency.{at_most};
ghost use Rattle.tree_laws.specs.Tree.{ParentTree, graph_tree};
ghost use Rattle.tree_laws.specs.Levels.{IsClimbing, AltitudesRise, Shares};
ghost use Rattle.partition_tree.specs.TreeLists.{IsWellFormed};
ghost use Rattle.partition_tree.specs.Children.{child_count, IsChildAt};
ghost use Rattle.watershed_cut.specs.MinimumLabels.{LabelledMinima, minima_of};
ghost use Rattle.watershed_cut.specs.Watershed.{tree_label};
ghost use Rattle.hg_base.specs.declared.kind.Kind.{Kind};
ghost use Rattle.extinction.specs.Basins.{AreGrounded, AreBetween};
ghost use Rattle.extinction.specs.Holding.{HoldsMinimum, holds, least_held, child, child_holds, both_hold};
ghost use Rattle.extinction.specs.Survivors.{dying, living, survivor, survivors};
ghost use Rattle.extinction.specs.HierarchicalWatershed.{hierarchical_of};

/// The test of holding says what is said by paths: a node holds a minimum where all its vertices are below the node.
pub fn holding_by_paths()
    ensures { (t : ParentTree) (m : LabelledMinima) (i : ℕ) → IsClimbing t → t.leaves ≤ length t.parents → i < length t.parents →
        (IsTrue (holds t m i) ↔ ((label : ℕ) × HoldsMinimum t m i label)) }
{}

/// Each inner node of a graph's tree has two children; `child` names them.
pub fn children_are_two()
    ensures two { (g : WeightedGraph) (i : ℕ) → IsGraph g → g.n ≤ i → i < length (graph_tree g).parents → child_count (graph_tree g) i ≡ 2 }
    ensures named { (t : ParentTree) (i k j : ℕ) → IsWellFormed t → IsChildAt t i k j → child t i k ≡ j }
{}

/// The survivor of a node: where both children hold a minimum, that of the child that lives; where one does, that child's;
/// where none does, the least label that the node holds. A node that holds no minimum has 0, and no other.
pub fn survivors_live_on()
    ensures both { (t : ParentTree) (m : LabelledMinima) (values : List ℕ) (i : ℕ) → IsWellFormed t → i < length t.parents → both_hold t m i ≡ true →
        survivor t m values i ≡ survivor t m values (living t values (survivors t m values) i) }
    ensures first { (t : ParentTree) (m : LabelledMinima) (values : List ℕ) (i : ℕ) → IsWellFormed t → i < length t.parents →
        child_holds t m i 0 ≡ true → child_holds t m i 1 ≡ false → survivor t m values i ≡ survivor t m values (child t i 0) }
    ensures second { (t : ParentTree) (m : LabelledMinima) (values : List ℕ) (i : ℕ) → IsWellFormed t → i < length t.parents →
        child_holds t m i 0 ≡ false → child_holds t m i 1 ≡ true → survivor t m values i ≡ survivor t m values (child t i 1) }
    ensures own { (t : ParentTree) (m : LabelledMinima) (values : List ℕ) (i : ℕ) → IsWellFormed t → i < length t.parents →
        child_holds t m i 0 ≡ false → child_holds t m i 1 ≡ false → survivor t m values i ≡ least_held t m i }
    ensures none { (t : ParentTree) (m : LabelledMinima) (values : List ℕ) (i : ℕ) → IsWellFormed t → i < length t.parents →
        ((survivor t m values i ≡ 0) ↔ (holds t m i ≡ false)) }
{}

/// The hierarchical watershed is a well-formed tree whose altitudes don't fall from child to parent.
pub fn hierarchical_is_well_formed()
    ensures well_formed { (g : WeightedGraph) (kind : Kind) → IsGraph g → IsWellFormed (hierarchical_of g kind) }
    ensures rises { (g : WeightedGraph) (kind : Kind) → IsGraph g → AltitudesRise (hierarchical_of g kind) }
{}

/// Two vertices share a node of altitude 0 of the hierarchical watershed exactly where the watershed cut gives them one
/// label.
pub fn level_zero_is_the_watershed()
    ensures { (g : WeightedGraph) (kind : Kind) (x y : ℕ) → IsGraph g → x < g.n → y < g.n →
        (Shares (hierarchical_of g kind) 0 x y ↔ (tree_label g.n (ranked g) x ≡ tree_label g.n (ranked g) y)) }
{}

/// What the edges between the labels of some vertices join, by weight: two labels exactly where the edges themselves join
/// their vertices. The edges of weight 0 join exactly the vertices of one label.
pub fn joined_between_labels()
    ensures { (n : ℕ) (l : ℕ → ℕ) (s q : EdgeList) (k x y : ℕ) → AreGrounded n l s → AreBetween l s q → x < n → y < n →
        (Joined (at_most s k) x y ↔ Joined (at_most q k) (l x) (l y)) }
{}
