ghost use Rattle.std.specs.Prelude.{◌≡◌, ◌↔◌, ◌<◌, length, IfOk, IsTrue, false};
ghost use Rattle.std.specs.List.{range_with_len};
ghost use Rattle.hg_base.specs.Graph.{first_end, second_end};
ghost use Rattle.partition_tree.specs.TreeLists.{nodes};
ghost use Rattle.partition_tree.specs.Paths.{ShareRoot};
ghost use Rattle.saliency.specs.Roots.{AreRoots};
ghost use Rattle.saliency.specs.Values.{EndsShareRoots};

use hg_base::{Graph, OutOfMemory};
use partition_tree::{Tree, own_numbers, send_down};
use std::alloc::{AllocError, Global};

/// Whether the ends of each edge of a graph have one root in a tree whose leaves are the vertices, as they must where
/// saliencies are asked for. It goes once over the nodes and once over the edges, and takes a number for each node.
pub fn ends_share_roots(alloc: Global, graph: &Graph, tree: &Tree) -> Result<bool, OutOfMemory>
    requires { tree.now.leaves ≡ graph.now.n }
    ensures { IfOk result (λ shared. IsTrue shared ↔ EndsShareRoots graph.now tree.now) }
{
    share_roots(alloc, graph, tree).map_err(|_| OutOfMemory)
}

fn share_roots(alloc: Global, graph: &Graph, tree: &Tree) -> Result<bool, AllocError>
    requires { tree.now.leaves ≡ graph.now.n }
    ensures { IfOk result (λ shared. IsTrue shared ↔ EndsShareRoots graph.now tree.now) }
{
    let roots = roots(alloc, tree)?;
    Ok(edges_share_roots(graph, tree, &roots))
}

// The root of each node.
fn roots(alloc: Global, tree: &Tree) -> Result<Vec<u32>, AllocError>
    ensures { IfOk result (λ roots. AreRoots tree.now roots.items) }
{
    let mut roots = own_numbers(alloc, tree.nodes())?;
    send_roots_down(tree, &mut roots);
    Ok(roots)
}

// Gives each node its parent's root, from the roots down.
fn send_roots_down(tree: &Tree, roots: &mut [u32])
    requires { roots.old ≡ range_with_len 0 (nodes tree.now) }
    ensures { AreRoots tree.now roots.new }
{
    send_down(
        tree,
        |_: u32|
            ensures { result ≡ false }
        { false },
        roots,
    );
}

// Whether the ends of each edge have one of these roots.
fn edges_share_roots(graph: &Graph, tree: &Tree, roots: &[u32]) -> bool
    requires roots { AreRoots tree.now roots.now }
    requires leaves { tree.now.leaves ≡ graph.now.n }
    ensures { IsTrue result ↔ EndsShareRoots graph.now tree.now }
{
    for e in 0..graph.m() {
        if !ends_share_root(graph, tree, roots, e) {
            return false;
        }
    }
    true
}

// Whether the ends of edge e have one of these roots.
fn ends_share_root(graph: &Graph, tree: &Tree, roots: &[u32], e: u32) -> bool
    requires roots { AreRoots tree.now roots.now }
    requires leaves { tree.now.leaves ≡ graph.now.n }
    requires within { e < length graph.now.edges }
    ensures { IsTrue result ↔ ShareRoot tree.now (first_end graph.now e) (second_end graph.now e) }
{
    let edge = graph.edge(e);
    let leaves = tree.leaves();
    prove!(edge.u < leaves && edge.v < leaves);
    roots[edge.u as usize] == roots[edge.v as usize]
}
