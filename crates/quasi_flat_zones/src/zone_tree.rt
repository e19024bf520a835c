ghost use Rattle.std.specs.Prelude.{◌≡◌, ℕ, IfOk};
ghost use Rattle.edge_laws.specs.Edges.{EdgeList, AreApart, AreWithin};
ghost use Rattle.tree_laws.specs.Tree.{tree_of};
ghost use Rattle.edge_laws.specs.Saliency.{AreByWeight};
ghost use Rattle.tree_laws.specs.Levels.{AltitudesRise};
ghost use Rattle.tree_laws.specs.Zones.{zones_of, AreZones};

use crate::lists::zone_lists;
use hg_base::OutOfMemory;
use partition_tree::Tree;
use std::alloc::Global;

/// The quasi-flat zones of a tree (Perret and others, Higra, 2019): its leaves, its roots, and the inner nodes whose
/// altitude differs from their parent's, each below the nearest kept one of its proper ancestors. Altitudes must not
/// fall from child to parent. Where the tree is that of a list of edges whose weights don't fall with the rank, each
/// component of the edges of weight at most k, for every whole number k, is the vertex set of exactly one node.
pub fn zones(alloc: Global, tree: &Tree) -> Result<Tree, OutOfMemory>
    requires { AltitudesRise tree.now }
    ensures zones { IfOk result (λ zones. zones ≡ zones_of tree.now) }
    ensures components { (n : ℕ) (s : EdgeList) → AreApart s → AreWithin n s → AreByWeight s → tree.now ≡ tree_of n s →
        IfOk result (λ zones. AreZones zones n s) }
{
    let lists = zone_lists(alloc, tree)?;
    Tree::from_lists(
        alloc,
        tree.leaves(),
        lists.parents,
        lists.altitudes,
        lists.makers,
    )
}
