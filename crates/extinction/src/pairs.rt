ghost use Rattle.std.specs.Prelude.{◌≡◌, ◌<◌, ◌≤◌, length, slice_set, IfOk};
ghost use Rattle.std.specs.List.{slice_index_or};
ghost use Rattle.partition_tree.specs.TreeLists.{nodes};
ghost use Rattle.extinction.specs.NodeSurvivors.{HasTwoEach, pair_of, AreChildPairs};

use partition_tree::Tree;
use std::alloc::{AllocError, Global};

/// The two children of each inner node, in rising order.
pub(crate) fn child_pairs(alloc: Global, tree: &Tree) -> Result<Vec<(u32, u32)>, AllocError>
    requires { HasTwoEach tree.now }
    ensures { IfOk result (λ pairs. AreChildPairs tree.now pairs.items) }
{
    let leaves = tree.leaves();
    let mut pairs = vec![in alloc; (0, 0); (tree.nodes() - leaves) as usize]?;
    for j in 0..tree.nodes() {
        let parent = tree.parent(j);
        if parent != j {
            put_last(&mut pairs, (parent - leaves) as usize, j);
        }
    }
    Ok(pairs)
}

// The second of a pair becomes its first, and j its second.
fn put_last(pairs: &mut [(u32, u32)], at: usize, j: u32)
    requires { at < length pairs.old }
    ensures { pairs.new ≡ slice_set pairs.old at ((slice_index_or pairs.old at (0, 0)).1, j) }
{
    let (_, last) = pairs[at];
    pairs[at] = (last, j);
}

/// The children of inner node i.
pub(crate) fn children(tree: &Tree, pairs: &[(u32, u32)], i: u32) -> (u32, u32)
    requires inner { tree.now.leaves ≤ i }
    requires within { i < nodes tree.now }
    requires pairs { AreChildPairs tree.now pairs.now }
    ensures first { result.0 ≡ (pair_of tree.now pairs.now i).0 }
    ensures second { result.1 ≡ (pair_of tree.now pairs.now i).1 }
    ensures first_less { result.0 < i }
    ensures second_less { result.1 < i }
{
    pairs[(i - tree.leaves()) as usize]
}
