//! Laws of trees cut at a level. Each is the contract of a function that does nothing.
ghost use Rattle.std.specs.Prelude.{◌≡◌, ◌↔◌, ℕ, ◌<◌, ◌≤◌, length, IsTrue};
ghost use Rattle.edge_laws.specs.Edges.{EdgeList, AreApart, AreWithin, joined};
ghost use Rattle.tree_laws.specs.Tree.{ParentTree, altitude, IsAbove, tree_of, parent};
ghost use Rattle.edge_laws.specs.Saliency.{at_most, AreByWeight};
ghost use Rattle.tree_laws.specs.Zones.{keeps, next_kept, zones_of, AreZones};
ghost use Rattle.tree_laws.specs.Levels.{IsClimbing, AltitudesRise, Shares, shares, is_above, IsLevelTree};

/// The tests say exactly which node is above another, and which two share a node of the level.
pub fn shared_by_nodes()
    ensures above { (t : ParentTree) (i x : ℕ) → IsClimbing t → x < length t.parents → (IsTrue (is_above t i x) ↔ IsAbove t i x) }
    ensures shared { (t : ParentTree) (level x y : ℕ) → IsClimbing t → x < length t.parents → y < length t.parents → (IsTrue (shares t level x y) ↔ Shares t level x y) }
{}

/// Where weights don't fall with the rank, the nodes of the tree of an edge list tell who is joined by the edges of
/// weight at most k, for every k.
pub fn tree_by_weight_is_a_level_tree()
    ensures { (n : ℕ) (s : EdgeList) → AreApart s → AreWithin n s → AreByWeight s → IsLevelTree (tree_of n s) s }
{}

/// The new parent of a kept node is the first kept one after it on its path.
pub fn nearest_kept_ancestors()
    ensures here { (t : ParentTree) (i : ℕ) → IsClimbing t → i < length t.parents → IsTrue (keeps t (parent t i)) → next_kept t i ≡ parent t i }
    ensures further { (t : ParentTree) (i : ℕ) → IsClimbing t → i < length t.parents → ¬ IsTrue (keeps t (parent t i)) → next_kept t i ≡ next_kept t (parent t i) }
{}

/// Leaves share a node of a level exactly where the edges of weight at most the level join them.
pub fn shared_where_joined()
    ensures { (t : ParentTree) (s : EdgeList) (level x y : ℕ) → IsClimbing t → t.leaves ≤ length t.parents → IsLevelTree t s →
        x < t.leaves → y < t.leaves → shares t level x y ≡ joined (at_most s level) x y }
{}

/// Each component of the edges of weight at most k, for every k, is the leaves below exactly one node of the zones of a
/// level tree, and the leaves below each inner node of the zones are a component of the edges of weight at most its
/// altitude.
pub fn zones_are_components()
    ensures { (t : ParentTree) (s : EdgeList) → IsClimbing t → AltitudesRise t → t.leaves ≤ length t.parents →
        ((x : ℕ) → x < t.leaves → altitude t x ≡ 0) → IsLevelTree t s → AreZones (zones_of t) t.leaves s }
{}
