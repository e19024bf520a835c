//! The pass over a tree's nodes from the roots down, on which those of the crates above stand.
ghost use Rattle.std.specs.Prelude.{◌≡◌, ℕ, ◌<◌, Bool, length, IfOk};
ghost use Rattle.std.specs.List.{range_with_len};
ghost use Rattle.partition_tree.specs.TreeLists.{nodes, IsWellFormed};
ghost use Rattle.partition_tree.specs.NearestStops.{AreOfStops, AnswersTest};

use crate::tree::Tree;
use std::alloc::{AllocError, Global};

/// The numbers below n, from which a pass starts that tells each node another one.
pub fn own_numbers(alloc: Global, n: u32) -> Result<Vec<u32>, AllocError>
    ensures { IfOk result (λ numbers. numbers.items ≡ range_with_len 0 n) }
{
    let mut numbers = Vec::with_capacity(alloc, n as usize)?;
    for i in 0..n {
        numbers.push(i)?;
    }
    Ok(numbers)
}

/// Gives each node the value of the nearest node on its path at which `stops` holds, or of the root where it holds at
/// none. A node is on its own path.
pub fn send_down<F: Fn(u32) -> bool>(tree: &Tree, stops: F, values: &mut [u32])
    requires callable { (i : ℕ) → i < nodes tree.now → F.pre stops i }
    requires one_each { length values.old ≡ nodes tree.now }
    ensures well_formed { IsWellFormed tree.now }
    ensures values { (test : ℕ → Bool) → AnswersTest (nodes tree.now) (F.post stops) test → AreOfStops tree.now test values.old values.new }
{
    for i in (0..tree.nodes()).rev() {
        if !stops(i) {
            values[i as usize] = values[tree.parent(i) as usize];
        }
    }
}
