ghost use Rattle.std.specs.Prelude.{◌≡◌, ◌<◌, ◌≤◌, length, get_or, false, IfOk};
ghost use Rattle.std.specs.List.{range_with_len};
ghost use Rattle.partition_tree.specs.TreeLists.{nodes, IsWellFormed};
ghost use Rattle.watershed_cut.specs.NearestHolders.{AreLeafHolders, AreHolders, AreNearestHolders};

use crate::minima::Minima;
use partition_tree::{Tree, own_numbers, send_down};
use std::alloc::{AllocError, Global};

/// For each node the nearest node on its path that is above a vertex in a minimum.
pub(crate) fn nearest_holders(
    alloc: Global,
    tree: &Tree,
    minima: &Minima,
) -> Result<Vec<u32>, AllocError>
    requires { length minima.now.vertices ≡ tree.now.leaves }
    ensures well_formed { IfOk result (λ near. IsWellFormed tree.now) }
    ensures near { IfOk result (λ near. AreNearestHolders tree.now minima.now.vertices near.items) }
{
    let holds = holders(alloc, tree, minima)?;
    let mut near = own_numbers(alloc, tree.nodes())?;
    send_nearest_down(tree, minima, &holds, &mut near);
    Ok(near)
}

// Which nodes are above a vertex in a minimum.
fn holders(alloc: Global, tree: &Tree, minima: &Minima) -> Result<Vec<bool>, AllocError>
    requires { length minima.now.vertices ≡ tree.now.leaves }
    ensures { IfOk result (λ holds. AreHolders tree.now minima.now.vertices holds.items) }
{
    let mut holds = leaf_holders(alloc, tree, minima)?;
    send_up(tree, minima, &mut holds);
    Ok(holds)
}

// Which leaves are in a minimum.
fn leaf_holders(alloc: Global, tree: &Tree, minima: &Minima) -> Result<Vec<bool>, AllocError>
    requires { length minima.now.vertices ≡ tree.now.leaves }
    ensures { IfOk result (λ holds. AreLeafHolders tree.now minima.now.vertices tree.now.leaves holds.items) }
{
    let mut holds = vec![in alloc; false; tree.nodes() as usize]?;
    for x in 0..tree.leaves() {
        holds[x as usize] = minima.label_of_vertex(x) != 0;
    }
    Ok(holds)
}

// Marks the parent of each node that is marked, from the leaves up.
fn send_up(tree: &Tree, minima: &Minima, holds: &mut [bool])
    requires { AreLeafHolders tree.now minima.now.vertices tree.now.leaves holds.old }
    ensures { AreHolders tree.now minima.now.vertices holds.new }
{
    let _ = minima;
    for i in 0..tree.nodes() {
        if holds[i as usize] {
            holds[tree.parent(i) as usize] = true;
        }
    }
}

// Gives each node that isn't marked its parent's nearest node, from the roots down.
fn send_nearest_down(tree: &Tree, minima: &Minima, holds: &[bool], near: &mut [u32])
    requires holds { AreHolders tree.now minima.now.vertices holds.now }
    requires own { near.old ≡ range_with_len 0 (nodes tree.now) }
    ensures { AreNearestHolders tree.now minima.now.vertices near.new }
{
    let _ = minima;
    send_down(
        tree,
        |i: u32|
            requires { i < length holds.now }
            ensures { result ≡ get_or holds.entry.now i false }
        { holds[i as usize] },
        near,
    );
}
