ghost use Rattle.std.specs.Prelude.{◌≡◌, ◌<◌, IfOk};
ghost use Rattle.std.specs.List.{range_with_len};
ghost use Rattle.tree_laws.specs.Levels.{AltitudesRise};
ghost use Rattle.partition_tree.specs.TreeLists.{nodes, IsWellFormed};
ghost use Rattle.watershed_cut.specs.Plateaus.{ends_plateau, ArePlateaus, AreOverLower, IsPlateauKey, ArePlateauKeys};

use partition_tree::{Tree, own_numbers, send_down};
use std::alloc::{AllocError, Global};

/// For each leaf the plateau of its parent, where no lower inner node is below it: the last node on its path that has
/// its altitude. Two leaves with one key are in one minimum, and a leaf without a key is in none.
pub(crate) fn plateau_keys(alloc: Global, tree: &Tree) -> Result<Vec<Option<u32>>, AllocError>
    requires { AltitudesRise tree.now }
    ensures well_formed { IfOk result (λ keys. IsWellFormed tree.now) }
    ensures keys { IfOk result (λ keys. ArePlateauKeys tree.now tree.now.leaves keys.items) }
{
    let tops = plateaus(alloc, tree)?;
    let over = over_lower(alloc, tree, &tops)?;
    leaf_keys(alloc, tree, &tops, &over)
}

// For each node the last node on its path that has its altitude.
fn plateaus(alloc: Global, tree: &Tree) -> Result<Vec<u32>, AllocError>
    requires { AltitudesRise tree.now }
    ensures well_formed { IfOk result (λ tops. IsWellFormed tree.now) }
    ensures tops { IfOk result (λ tops. ArePlateaus tree.now tops.items) }
{
    let mut tops = own_numbers(alloc, tree.nodes())?;
    send_plateaus_down(tree, &mut tops);
    Ok(tops)
}

// Gives each node of its parent's altitude its parent's plateau, from the roots down.
fn send_plateaus_down(tree: &Tree, tops: &mut [u32])
    requires rise { AltitudesRise tree.now }
    requires own { tops.old ≡ range_with_len 0 (nodes tree.now) }
    ensures { ArePlateaus tree.now tops.new }
{
    send_down(
        tree,
        |i: u32|
            requires { i < nodes tree.now }
            ensures { result ≡ ends_plateau tree.entry.now i }
        { tree.altitude(tree.parent(i)) != tree.altitude(i) },
        tops,
    );
}

// Which nodes are plateaus of the parent of a lower inner node.
fn over_lower(alloc: Global, tree: &Tree, tops: &[u32]) -> Result<Vec<bool>, AllocError>
    requires rise { AltitudesRise tree.now }
    requires tops { ArePlateaus tree.now tops.now }
    ensures { IfOk result (λ over. AreOverLower tree.now over.items) }
{
    let mut over = vec![in alloc; false; tree.nodes() as usize]?;
    for i in tree.leaves()..tree.nodes() {
        let parent = tree.parent(i);
        if tree.altitude(i) < tree.altitude(parent) {
            over[tops[parent as usize] as usize] = true;
        }
    }
    Ok(over)
}

// The key of each leaf.
fn leaf_keys(
    alloc: Global,
    tree: &Tree,
    tops: &[u32],
    over: &[bool],
) -> Result<Vec<Option<u32>>, AllocError>
    requires tops { ArePlateaus tree.now tops.now }
    requires over { AreOverLower tree.now over.now }
    ensures { IfOk result (λ keys. ArePlateauKeys tree.now tree.now.leaves keys.items) }
{
    let mut keys = Vec::with_capacity(alloc, tree.leaves() as usize)?;
    for x in 0..tree.leaves() {
        keys.push(leaf_key(tree, tops, over, x))?;
    }
    Ok(keys)
}

// The key of a leaf.
fn leaf_key(tree: &Tree, tops: &[u32], over: &[bool], x: u32) -> Option<u32>
    requires within { x < nodes tree.now }
    requires tops { ArePlateaus tree.now tops.now }
    requires over { AreOverLower tree.now over.now }
    ensures { IsPlateauKey tree.now x result }
{
    let top = tops[tree.parent(x) as usize];
    if over[top as usize] { None } else { Some(top) }
}
