ghost use Rattle.std.specs.Prelude.{◌≡◌, [], ◌∷◌, IfOk};
ghost use Rattle.partition_tree.specs.TreeLists.{nodes};
ghost use Rattle.partition_tree.specs.Report.{node_line, tree_report};

use crate::tree::Tree;
use hg_base::OutOfMemory;
use report_lines::{LineWriter, Lines, Pieces, pieces_of, text_of};
use std::alloc::{AllocError, Global};
use std::thread::Threads;

// The room for a node's line: three numbers of at most 7, 7 and 20 digits.
const NODE_LINE: usize = 37;

/// The report of a tree: `tree NODES LEAVES`, then for each node `NUMBER PARENT ALTITUDE`.
pub fn write_tree(alloc: Global, tree: &Tree) -> Result<Vec<u8>, OutOfMemory>
    ensures { IfOk result (λ text. text.items ≡ tree_report tree.now) }
{
    text_of(alloc, "tree", &sizes(tree), &NodeLines { tree })
}

/// The same report in pieces, which threads of their own make where there are many nodes.
pub fn tree_pieces(
    rt: &(impl Threads + Sync),
    alloc: Global,
    tree: &Tree,
) -> Result<Pieces, OutOfMemory>
    ensures { IfOk result (λ pieces. pieces ≡ tree_report tree.now) }
{
    pieces_of(rt, alloc, "tree", &sizes(tree), &NodeLines { tree })
}

// How many nodes and how many leaves there are.
fn sizes(tree: &Tree) -> [u64; 2]
    ensures { result ≡ nodes tree.now ∷ tree.now.leaves ∷ [] }
{
    [u64::from(tree.nodes()), u64::from(tree.leaves())]
}

// A line for each node: its number, its parent and its altitude.
#[derive(Clone, Copy)]
struct NodeLines<'a> {
    tree: &'a Tree,
}

impl Lines for NodeLines<'_> {
    ghost count = { λ lines. nodes lines.tree.now };

    ghost line = { λ lines i. node_line lines.tree.now i };

    fn len(&self) -> usize {
        self.tree.nodes() as usize
    }

    fn room(&self) -> usize {
        NODE_LINE
    }

    fn write(&self, text: &mut LineWriter, i: usize) -> Result<(), AllocError> {
        let nodes = self.tree.nodes() as usize;
        prove!(i < nodes);
        let node = i as u32;
        let parent = u64::from(self.tree.parent(node));
        text.push_line(&[i as u64, parent, self.tree.altitude(node)])
    }
}
