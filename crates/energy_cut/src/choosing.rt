//! The nodes of the least cut: one pass up, one down, and one that collects.
ghost use Rattle.std.specs.Prelude.{◌≡◌, ℕ, ◌<◌, ◌≤◌, ◌^◌, All, length, IfOk, IfSome, Some, None, Option, false, filter, get_or, is_some, min, replicate, if◌then◌else◌};
ghost use Rattle.std.specs.List.{range_with_len};
ghost use Rattle.partition_tree.specs.TreeLists.{nodes, IsWellFormed};
ghost use Rattle.energy_cut.specs.LeastEnergies.{AreLeast, AreHighest, AreHighestKeepers, keeps_own, is_key};

use partition_tree::Tree;
use std::alloc::{AllocError, Global};

/// For each node the highest one of its path whose energy is no more than that of any cut below it.
pub(crate) fn tops(
    alloc: Global,
    tree: &Tree,
    energies: &[u128],
) -> Result<Vec<Option<u32>>, AllocError>
    requires one_each { length energies.now ≡ nodes tree.now }
    requires below { All (λ e. e < 2 ^ 65) energies.now }
    ensures well_formed { IfOk result (λ tops. IsWellFormed tree.now) }
    ensures tops { IfOk result (λ tops. AreHighestKeepers tree.now energies.now tops.items) }
{
    let least = least_energies(alloc, tree, energies)?;
    let mut tops = vec![in alloc; None; tree.nodes() as usize]?;
    send_down(tree, energies, &least, &mut tops);
    Ok(tops)
}

// For each node the least energy of a cut below it.
fn least_energies(alloc: Global, tree: &Tree, energies: &[u128]) -> Result<Vec<u128>, AllocError>
    requires one_each { length energies.now ≡ nodes tree.now }
    requires below { All (λ e. e < 2 ^ 65) energies.now }
    ensures { IfOk result (λ least. AreLeast tree.now energies.now least.items) }
{
    let mut least = vec![in alloc; 0; tree.nodes() as usize]?;
    gather_up(tree, energies, &mut least);
    Ok(least)
}

// Takes for each node its own energy or the sum of its children's least ones, and adds it to its parent's sum, from
// the leaves up.
fn gather_up(tree: &Tree, energies: &[u128], least: &mut [u128])
    requires one_each { length energies.now ≡ nodes tree.now }
    requires below { All (λ e. e < 2 ^ 65) energies.now }
    requires empty { least.old ≡ replicate (nodes tree.now) 0 }
    ensures { AreLeast tree.now energies.now least.new }
{
    let leaves = tree.leaves();
    for i in 0..tree.nodes() {
        let energy = energies[i as usize];
        let chosen = least_of(i < leaves, energy, least[i as usize]);
        least[i as usize] = chosen;
        let parent = tree.parent(i);
        if parent != i {
            least[parent as usize] += chosen;
        }
    }
}

// The energy of a leaf, or the least of that of another node and the sum of its children's.
fn least_of(is_leaf: bool, energy: u128, children: u128) -> u128
    ensures { result ≡ (if is_leaf then energy else min energy children) }
{
    if is_leaf {
        energy
    } else {
        energy.min(children)
    }
}

// Gives each node its parent's top, or else its own number where it keeps_own its own energy, from the roots down.
fn send_down(tree: &Tree, energies: &[u128], least: &[u128], tops: &mut [Option<u32>])
    requires energies { length energies.now ≡ nodes tree.now }
    requires least { length least.now ≡ nodes tree.now }
    requires empty { tops.old ≡ replicate (nodes tree.now) None }
    ensures { AreHighest tree.now (keeps_own energies.now least.now) tops.new }
{
    for i in (0..tree.nodes()).rev() {
        let above = tops[tree.parent(i) as usize];
        let keeps_own = least[i as usize] == energies[i as usize];
        tops[i as usize] = top_of(above, i, keeps_own);
    }
}

// The top of node i, where that of its parent is known.
fn top_of(above: Option<u32>, i: u32, keeps_own: bool) -> Option<u32>
    ensures { result ≡ (if is_some above then above else (if keeps_own then Some i else None)) }
{
    match above {
        Some(top) => Some(top),
        None if keeps_own => Some(i),
        None => None,
    }
}

/// The numbers below n that are keys, rising.
pub(crate) fn chosen(alloc: Global, keys: &[Option<u32>], n: u32) -> Result<Vec<u32>, AllocError>
    requires { All (λ (key : Option ℕ). IfSome key (λ k. k < n)) keys.now }
    ensures { IfOk result (λ nodes. nodes.items ≡ filter (is_key keys.now) (range_with_len 0 n)) }
{
    let mut marks = vec![in alloc; false; n as usize]?;
    mark(keys, &mut marks);
    marked(alloc, &marks)
}

// Marks the keys.
fn mark(keys: &[Option<u32>], marks: &mut [bool])
    requires below { All (λ (key : Option ℕ). IfSome key (λ k. k < length marks.old)) keys.now }
    requires empty { marks.old ≡ replicate (length marks.old) false }
    ensures { (i : ℕ) → i < length marks.new → get_or marks.new i false ≡ is_key keys.now i }
{
    for key in keys {
        if let Some(node) = *key {
            marks[node as usize] = true;
        }
    }
}

// The numbers that are marked, rising.
fn marked(alloc: Global, marks: &[bool]) -> Result<Vec<u32>, AllocError>
    requires { length marks.now < 2 ^ 32 }
    ensures { IfOk result (λ nodes. nodes.items ≡ filter (λ i. get_or marks.now i false) (range_with_len 0 (length marks.now))) }
{
    let mut nodes = Vec::new(alloc);
    for i in 0..marks.len() {
        if marks[i] {
            nodes.push(i as u32)?;
        }
    }
    Ok(nodes)
}
