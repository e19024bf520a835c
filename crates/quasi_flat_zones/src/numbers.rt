ghost use Rattle.std.specs.Prelude.{◌≡◌, ◌<◌, IfOk};
ghost use Rattle.tree_laws.specs.Zones.{keeps};
ghost use Rattle.partition_tree.specs.TreeLists.{nodes, IsWellFormed};
ghost use Rattle.quasi_flat_zones.specs.ZoneNumbers.{zone_numbers, AreMarked, AreNearestNumbers};

use partition_tree::{Tree, send_down};
use std::alloc::{AllocError, Global};

/// Which nodes the zones keep.
pub(crate) fn kept_nodes(alloc: Global, tree: &Tree) -> Result<Vec<bool>, AllocError>
    ensures { IfOk result (λ marks. AreMarked tree.now marks.items) }
{
    let nodes = tree.nodes();
    let mut marks = Vec::with_capacity(alloc, nodes as usize)?;
    for i in 0..nodes {
        marks.push(is_kept(tree, i))?;
    }
    Ok(marks)
}

// Whether the zones keep node i: a leaf, a root, or a node of another altitude than its parent.
fn is_kept(tree: &Tree, i: u32) -> bool
    requires { i < nodes tree.now }
    ensures { result ≡ keeps tree.now i }
{
    let parent = tree.parent(i);
    i < tree.leaves() || parent == i || tree.altitude(i) != tree.altitude(parent)
}

/// Whether the zones keep node i, as it was marked.
pub(crate) fn keeps(tree: &Tree, marks: &[bool], i: u32) -> bool
    requires marks { AreMarked tree.now marks.now }
    requires within { i < nodes tree.now }
    ensures { result ≡ keeps tree.now i }
{
    let _ = tree;
    marks[i as usize]
}

/// For each node the new number of the nearest kept node at or above it.
pub(crate) fn nearest_numbers(
    alloc: Global,
    tree: &Tree,
    marks: &[bool],
) -> Result<Vec<u32>, AllocError>
    requires { AreMarked tree.now marks.now }
    ensures well_formed { IfOk result (λ numbers. IsWellFormed tree.now) }
    ensures nearest { IfOk result (λ numbers. AreNearestNumbers tree.now numbers.items) }
{
    let mut numbers = zone_numbers(alloc, tree, marks)?;
    send_numbers_down(tree, marks, &mut numbers);
    Ok(numbers)
}

// For each node how many kept ones have a lesser number.
fn zone_numbers(alloc: Global, tree: &Tree, marks: &[bool]) -> Result<Vec<u32>, AllocError>
    requires { AreMarked tree.now marks.now }
    ensures well_formed { IfOk result (λ numbers. IsWellFormed tree.now) }
    ensures numbers { IfOk result (λ numbers. numbers.items ≡ zone_numbers tree.now) }
{
    let nodes = tree.nodes();
    let mut numbers = Vec::with_capacity(alloc, nodes as usize)?;
    let mut kept = 0;
    for i in 0..nodes {
        numbers.push(kept)?;
        if keeps(tree, marks, i) {
            kept += 1;
        }
    }
    Ok(numbers)
}

// Gives each node that isn't kept its parent's number, from the roots down.
fn send_numbers_down(tree: &Tree, marks: &[bool], numbers: &mut [u32])
    requires marks { AreMarked tree.now marks.now }
    requires own { numbers.old ≡ zone_numbers tree.now }
    ensures { AreNearestNumbers tree.now numbers.new }
{
    send_down(
        tree,
        |i: u32|
            requires { AreMarked tree.now marks.now × (i < nodes tree.now) }
            ensures { result ≡ keeps tree.entry.now i }
        { keeps(tree, marks, i) },
        numbers,
    );
}
