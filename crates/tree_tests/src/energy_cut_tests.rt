ghost use Rattle.std.specs.Prelude.{◌≡◌, ℕ, ◌<◌, ◌^◌, All, true, vec_len};
ghost use Rattle.tree_laws.specs.Tree.{altitude};
ghost use Rattle.partition_tree.specs.TreeLists.{nodes};
ghost use Rattle.partition_tree.specs.Ranked.{IsRankedList};

use crate::graphs::{APART, PATH};
use energy_cut::{least_cut, node_energies, write_energy};
use partition_tree::{Ranked, Tree};
use std::alloc::Global;
use std::process::Abort;
use std::test::Fail;

// Whether all altitudes are below 2^32.
fn is_low(tree: &Tree) -> bool
    ensures { result ≡ true → (i : ℕ) → i < nodes tree.now → altitude tree.now i < 2 ^ 32 }
{
    for i in 0..tree.nodes() {
        if tree.altitude(i) >= 4_294_967_296 {
            return false;
        }
    }
    true
}

// The energies of the nodes of a tree with these areas.
fn energies(rt: &impl Abort, alloc: Global, tree: &Tree, areas: &[u64], penalty: u64) -> Vec<u128>
    ensures one_each { vec_len result ≡ nodes tree.now }
    ensures below { All (λ e. e < 2 ^ 65) result.items }
{
    assert!(rt; areas.len() == tree.nodes() as usize);
    assert!(rt; areas.iter().all(|area| *area <= 4_294_967_296));
    assert!(rt; is_low(tree));
    let energies = node_energies(alloc, tree, areas, penalty).expect(rt, "ample memory");
    assert!(rt; energies.len() == areas.len());
    energies
}

// Compares the report of the least cut of the tree of a list with a text.
fn assert_report(
    rt: &impl Abort,
    alloc: Global,
    n: u32,
    list: &[Ranked],
    areas: &[u64],
    penalty: u64,
    text: &str,
)
    requires { IsRankedList n list.now }
{
    let tree = Tree::of_list(alloc, n, list).expect(rt, "ample memory");
    let energies = energies(rt, alloc, &tree, areas, penalty);
    let cut = least_cut(alloc, &tree, &energies).expect(rt, "ample memory");
    let report = write_energy(alloc, &cut, &energies).expect(rt, "ample memory");
    assert_eq!(rt; report.as_slice(), text.as_bytes());
}

#[test]
fn reports_of_a_path(rt: HostRuntime) {
    let areas = [1, 1, 1, 1, 2, 2, 4];
    let report =
        "energy 4 4 0\nnode 0 0\nnode 1 0\nnode 2 0\nnode 3 0\nv 0 1\nv 1 2\nv 2 3\nv 3 4\n";
    assert_report(&rt, rt.alloc(), 4, &PATH, &areas, 0, report);
    let report = "energy 4 3 8\nnode 2 2\nnode 3 2\nnode 4 4\nv 0 1\nv 1 1\nv 2 2\nv 3 3\n";
    assert_report(&rt, rt.alloc(), 4, &PATH, &areas, 2, report);
    let report = "energy 4 1 34\nnode 6 34\nv 0 1\nv 1 1\nv 2 1\nv 3 1\n";
    assert_report(&rt, rt.alloc(), 4, &PATH, &areas, 14, report);
}

// There are two regions at least, and 64 bits don't hold their energies.
#[test]
fn reports_of_two_components(rt: HostRuntime) {
    let report =
        "energy 3 2 36893488147419103238\nnode 2 18446744073709551615\nnode 3 18446744073709551623\nv 0 1\nv 1 1\nv 2 2\n";
    assert_report(&rt, rt.alloc(), 3, &APART, &[1, 1, 1, 2], u64::MAX, report);
}

#[test]
fn readers(rt: HostRuntime) {
    let tree = Tree::of_list(rt.alloc(), 4, &PATH).expect(&rt, "ample memory");
    let energies = energies(&rt, rt.alloc(), &tree, &[1, 1, 1, 1, 2, 2, 4], 2);
    assert_eq!(rt; energies.as_slice(), [2, 2, 2, 2, 4, 6, 22].as_slice());
    let cut = least_cut(rt.alloc(), &tree, &energies).expect(&rt, "ample memory");
    assert_eq!(rt; cut.nodes(), [2, 3, 4].as_slice());
    assert_eq!(rt; cut.labels().count(), 3);
    assert_eq!(rt; cut.sum(), 8);
}

// No leaf is below node 2, which costs nothing.
#[test]
fn without_leaves(rt: HostRuntime) -> Result<(), Fail> {
    let parents = vec![in rt.alloc(); 3, 3, 3, 3]?;
    let altitudes = vec![in rt.alloc(); 0, 0, 0, 5]?;
    let makers = vec![in rt.alloc(); 0, 1]?;
    let tree = Tree::from_lists(rt.alloc(), 2, parents, altitudes, makers)?;
    let energies = vec![in rt.alloc(); 1, 1, 0, 7]?;
    assert!(rt; tree.nodes() == 4);
    let cut = least_cut(rt.alloc(), &tree, &energies)?;
    assert_eq!(rt; cut.nodes(), [0, 1].as_slice());
    assert_eq!(rt; cut.sum(), 2);
    Ok(())
}
