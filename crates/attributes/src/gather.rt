ghost use Rattle.std.specs.Prelude.{◌≡◌, ℕ, ◌<◌, ◌≤◌, ◌^◌, length, slice_index, IfOk};
ghost use Rattle.std.specs.List.{range_with_len};
ghost use Rattle.partition_tree.specs.TreeLists.{nodes};
ghost use Rattle.attributes.specs.Gathering.{combined, neutral, gathered, AreGathered, AreOfLeaves};

use partition_tree::Tree;
use std::alloc::{AllocError, Global};

/// How two values are put together.
#[derive(Clone, Copy)]
pub(crate) enum Operation {
    Sum,
    Least,
}

impl Operation {
    // Both values put together.
    fn combined(self, a: u64, b: u64) -> u64
        requires { combined self a b < 2 ^ 64 }
        ensures { result ≡ combined self a b }
    {
        match self {
            Operation::Sum => a + b,
            Operation::Least => a.min(b),
        }
    }

    // The value that changes no other.
    fn neutral(self) -> u64
        ensures { result ≡ neutral self }
    {
        match self {
            Operation::Sum => 0,
            Operation::Least => u64::MAX,
        }
    }
}

/// For each node the values of the leaves below it, put together.
pub(crate) fn gathered(
    alloc: Global,
    tree: &Tree,
    operation: Operation,
    leaves: &[u64],
) -> Result<Vec<u64>, AllocError>
    requires one_each { length leaves.now ≡ tree.now.leaves }
    requires fits { gathered operation (λ x. slice_index leaves.now x) (range_with_len 0 tree.now.leaves) < 2 ^ 64 }
    ensures { IfOk result (λ sums. AreOfLeaves operation tree.now leaves.now sums.items) }
{
    let nodes = tree.nodes() as usize;
    let mut values = Vec::with_capacity(alloc, nodes)?;
    values.extend_from_slice(leaves)?;
    values.resize(nodes, operation.neutral())?;
    gather_up(tree, operation, &mut values);
    Ok(values)
}

// Puts each node's value together with those of the nodes below it, from the leaves up.
fn gather_up(tree: &Tree, operation: Operation, values: &mut [u64])
    requires one_each { length values.old ≡ nodes tree.now }
    requires fits { gathered operation (λ j. slice_index values.old j) (range_with_len 0 (nodes tree.now)) < 2 ^ 64 }
    ensures { AreGathered operation tree.now values.old values.new }
{
    for i in 0..tree.nodes() {
        let parent = tree.parent(i);
        if parent != i {
            let both = operation.combined(values[parent as usize], values[i as usize]);
            values[parent as usize] = both;
        }
    }
}
