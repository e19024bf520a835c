ghost use Rattle.std.specs.Prelude.{◌≡◌, ◌<◌, IfOk, IfSome, MatchOption};
ghost use Rattle.hg_base.specs.Saliency.{IsLowestAbove};
ghost use Rattle.partition_tree.specs.TreeLists.{nodes};
ghost use Rattle.partition_tree.specs.Paths.{ShareRoot};

use crate::jump_pointers::JumpPointers;
use crate::tree::Tree;
use hg_base::OutOfMemory;
use std::alloc::{AllocError, Global};
use std::marker::Model;

/// The ancestors of all nodes of a tree, for who asks for many lowest common ancestors: each is found in few links.
/// Contracts see the tree.
#[derive(Drop)]
pub struct Ancestors<'a> {
    tree: &'a Tree,
    pointers: JumpPointers,
}

impl<'a> Model for Ancestors<'a> {
    ghost use Rattle.hg_base.specs.Tree.{ParentTree};
    ghost use Rattle.partition_tree.specs.JumpPointers.{AreJumpPointers};

    ghost Value = { ParentTree };

    ghost view = { λ s. s.tree.now };

    ghost invariant = { λ s. AreJumpPointers s.tree.now s.pointers.depths.items s.pointers.jumps.items };
}

impl<'a> Ancestors<'a> {
    /// The ancestors of the nodes of a tree. The error is want of memory.
    pub fn of(alloc: Global, tree: &'a Tree) -> Result<Ancestors<'a>, OutOfMemory>
        ensures { IfOk result (λ ancestors. ancestors ≡ tree.now) }
    {
        Ancestors::kept(alloc, tree).map_err(|_| OutOfMemory)
    }

    fn kept(alloc: Global, tree: &'a Tree) -> Result<Ancestors<'a>, AllocError>
        ensures { IfOk result (λ ancestors. ancestors ≡ tree.now) }
    {
        let pointers = JumpPointers::of(alloc, tree)?;
        Ok(Ancestors { tree, pointers })
    }

    /// The lowest common ancestor: the node of least number that is above both a and b, a node being above itself.
    /// None exactly where a and b have different roots. It takes no memory.
    pub fn lca(&self, a: u32, b: u32) -> Option<u32>
        requires a { a < nodes self.now }
        requires b { b < nodes self.now }
        ensures lowest { IfSome result (IsLowestAbove self.now a b) }
        ensures roots { MatchOption result (¬ ShareRoot self.now a b) (λ i. ShareRoot self.now a b) }
        ensures within { IfSome result (λ i. i < nodes self.now) }
    {
        self.pointers.lca(self.tree, a, b)
    }
}
