ghost use Rattle.std.specs.Prelude.{◌≡◌, ℕ, ◌<◌, ◌≤◌, length, IfOk};
ghost use Rattle.std.specs.List.{range_with_len};
ghost use Rattle.edge_laws.specs.Edges.{EdgeList, AreApart, AreWithin, joined};
ghost use Rattle.hg_base.specs.Labels.{labelling};
ghost use Rattle.tree_laws.specs.Tree.{tree_of};
ghost use Rattle.edge_laws.specs.Saliency.{AreByWeight, at_most};
ghost use Rattle.tree_laws.specs.Levels.{AltitudesRise, shares};
ghost use Rattle.partition_tree.specs.TreeLists.{nodes, IsWellFormed};
ghost use Rattle.saliency.specs.Tops.{is_last_to, AreTops, AreFirstKeys};

use hg_base::{Labels, OutOfMemory, number_keys};
use partition_tree::{Tree, own_numbers, send_down};
use std::alloc::{AllocError, Global};

/// The regions of a tree cut at a level: two leaves are in one region where some node of altitude at most `level` is
/// above both. They are labelled 1, 2, .. in order of their least vertex. Altitudes must not fall from child to parent.
/// Where the tree is that of a list of edges whose weights don't fall with the rank, the regions are the components of
/// the edges of weight at most `level`.
pub fn cut(alloc: Global, tree: &Tree, level: u64) -> Result<Labels, OutOfMemory>
    requires { AltitudesRise tree.now }
    ensures regions { IfOk result (λ labels. labels ≡ labelling (shares tree.now level) tree.now.leaves) }
    ensures components { (n : ℕ) (s : EdgeList) → AreApart s → AreWithin n s → AreByWeight s → tree.now ≡ tree_of n s →
        IfOk result (λ labels. labels ≡ labelling (joined (at_most s level)) n) }
{
    regions(alloc, tree, level).map_err(|_| OutOfMemory)
}

fn regions(alloc: Global, tree: &Tree, level: u64) -> Result<Labels, AllocError>
    requires { AltitudesRise tree.now }
    ensures regions { IfOk result (λ labels. labels ≡ labelling (shares tree.now level) tree.now.leaves) }
    ensures components { (n : ℕ) (s : EdgeList) → AreApart s → AreWithin n s → AreByWeight s → tree.now ≡ tree_of n s →
        IfOk result (λ labels. labels ≡ labelling (joined (at_most s level)) n) }
{
    let tops = tops(alloc, tree, level)?;
    let keys = leaf_keys(alloc, tree.leaves(), &tops)?;
    let numbering = number_keys(alloc, &keys, tree.nodes())?;
    Ok(Labels::new(numbering.labels, numbering.count))
}

// For each node up to the level the last such node on its path.
fn tops(alloc: Global, tree: &Tree, level: u64) -> Result<Vec<u32>, AllocError>
    requires { AltitudesRise tree.now }
    ensures well_formed { IfOk result (λ tops. IsWellFormed tree.now) }
    ensures tops { IfOk result (λ tops. AreTops tree.now level tops.items) }
{
    let mut tops = own_numbers(alloc, tree.nodes())?;
    send_tops_down(tree, level, &mut tops);
    Ok(tops)
}

// Gives each node whose parent is up to the level its parent's top, from the roots down.
fn send_tops_down(tree: &Tree, level: u64, tops: &mut [u32])
    requires rise { AltitudesRise tree.now }
    requires own { tops.old ≡ range_with_len 0 (nodes tree.now) }
    ensures { AreTops tree.now level tops.new }
{
    send_down(
        tree,
        |i: u32|
            requires { i < nodes tree.now }
            ensures { result ≡ is_last_to tree.entry.now level i }
        { level < tree.altitude(tree.parent(i)) },
        tops,
    );
}

// The top of each leaf.
fn leaf_keys(alloc: Global, leaves: u32, tops: &[u32]) -> Result<Vec<Option<u32>>, AllocError>
    requires { leaves ≤ length tops.now }
    ensures { IfOk result (λ keys. AreFirstKeys leaves tops.now keys.items) }
{
    let mut keys = Vec::with_capacity(alloc, leaves as usize)?;
    for x in 0..leaves {
        keys.push(Some(tops[x as usize]))?;
    }
    Ok(keys)
}
