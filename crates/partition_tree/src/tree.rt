ghost use Rattle.std.specs.Prelude.{◌≡◌, ◌≢◌, ◌↔◌, ℕ, ◌-◌, ◌<◌, ◌≤◌, slice_get, Some, IfOk, MatchOption, IfSome, IsTrue};
ghost use Rattle.tree_laws.specs.Tree.{parent, altitude, IsLowestAbove};
ghost use Rattle.tree_laws.specs.Levels.{AltitudesRise};
ghost use Rattle.partition_tree.specs.TreeLists.{nodes, roots, lists_of, IsWellFormed};
ghost use Rattle.partition_tree.specs.Paths.{IsCommon, ShareRoot};
ghost use Rattle.partition_tree.specs.JumpPointers.{KeepsCommon};
ghost use Rattle.partition_tree.specs.Children.{is_child, child_count, IsChildAt};

use hg_base::OutOfMemory;
use std::alloc::Global;
use std::marker::Model;

/// A tree over the vertices of a graph, which may have several roots. Its leaves are the nodes 0 to leaves - 1, and a
/// root is its own parent.
/// Each node has an altitude, and each inner node has the number of the edge that made it.
/// Trees as parent lists: Perret and others, Higra, 2019.
#[derive(Drop)]
pub struct Tree {
    leaves: u32,
    parents: Vec<u32>,
    altitudes: Vec<u64>,
    makers: Vec<u32>,
}

impl Model for Tree {
    ghost use Rattle.tree_laws.specs.Tree.{ParentTree};

    ghost Value = { ParentTree };

    ghost use Rattle.partition_tree.specs.TreeFields.{tree_of_fields};
    ghost use Rattle.partition_tree.specs.TreeLists.{IsWellFormed};

    ghost view = { tree_of_fields };

    ghost invariant = { λ t. IsWellFormed (tree_of_fields t) };
}

impl Tree {
    /// The tree with exactly these lists: each node's parent and altitude, and each inner node's maker. Each parent
    /// is the node itself or an inner node of greater number, and each leaf has altitude 0.
    pub fn from_lists(
        alloc: Global,
        leaves: u32,
        parents: Vec<u32>,
        altitudes: Vec<u64>,
        makers: Vec<u32>,
    ) -> Result<Tree, OutOfMemory>
        requires { IsWellFormed (lists_of leaves parents.items altitudes.items makers.items) }
        ensures { IfOk result (λ tree. tree ≡ lists_of leaves parents.items altitudes.items makers.items) }
    {
        let _ = alloc;
        Ok(Tree::new(leaves, parents, altitudes, makers))
    }

    // The tree with these lists.
    pub(crate) fn new(leaves: u32, parents: Vec<u32>, altitudes: Vec<u64>, makers: Vec<u32>) -> Tree
        requires { IsWellFormed (lists_of leaves parents.items altitudes.items makers.items) }
        ensures { result ≡ lists_of leaves parents.items altitudes.items makers.items }
    {
        Tree {
            leaves,
            parents,
            altitudes,
            makers,
        }
    }

    /// Does nothing. It stands where only this is needed: what every tree keeps to, `IsWellFormed`.
    #[inline(always)]
    pub fn keeps_its_rules(&self)
        ensures well_formed { IsWellFormed self.now }
    {
        let _ = &self.parents;
    }

    /// How many nodes the tree has.
    pub fn nodes(&self) -> u32
        ensures value { result ≡ nodes self.now }
        ensures well_formed { IsWellFormed self.now }
        ensures some_node { 1 ≤ result }
        ensures few_nodes { result ≤ 2097151 }
    {
        self.parents.len() as u32
    }

    /// How many leaves the tree has.
    pub fn leaves(&self) -> u32
        ensures value { result ≡ self.now.leaves }
        ensures some_leaf { 1 ≤ result }
        ensures leaves { result ≤ 1048576 }
        ensures within { result ≤ nodes self.now }
    {
        self.leaves
    }

    /// How many nodes are their own parents.
    pub fn roots(&self) -> u32
        ensures { result ≡ roots self.now }
    {
        let mut roots = 0;
        for i in 0..self.nodes() {
            if self.parent(i) == i {
                roots += 1;
            }
        }
        roots
    }

    /// The parent of a node, which is the node itself where it is a root.
    pub fn parent(&self, i: u32) -> u32
        requires { i < nodes self.now }
        ensures value { result ≡ parent self.now i }
        ensures rises { i ≤ result }
        ensures within { result < nodes self.now }
        ensures inner { result ≢ i → self.now.leaves ≤ result }
    {
        self.parents[i as usize]
    }

    /// The altitude of a node.
    pub fn altitude(&self, i: u32) -> u64
        requires { i < nodes self.now }
        ensures value { result ≡ altitude self.now i }
        ensures leaf { i < self.now.leaves → result ≡ 0 }
    {
        self.altitudes[i as usize]
    }

    /// The parent of each node.
    pub fn parents(&self) -> &[u32]
        ensures { result.now ≡ self.now.parents }
    {
        &self.parents
    }

    /// The altitude of each node.
    pub fn altitudes(&self) -> &[u64]
        ensures { result.now ≡ self.now.altitudes }
    {
        &self.altitudes
    }

    /// Whether no altitude falls from child to parent, as it must be in a tree that is cut at a level or of which the
    /// zones are made.
    pub fn altitudes_rise(&self) -> bool
        ensures { IsTrue result ↔ AltitudesRise self.now }
    {
        for i in 0..self.nodes() {
            if self.altitude(self.parent(i)) < self.altitude(i) {
                return false;
            }
        }
        true
    }

    /// The number of the edge that made an inner node.
    pub fn maker(&self, i: u32) -> u32
        requires inner { self.now.leaves ≤ i }
        requires within { i < nodes self.now }
        ensures { slice_get self.now.makers (i - self.now.leaves) ≡ Some result }
    {
        self.makers[(i - self.leaves) as usize]
    }

    /// How many children a node has. It goes over all nodes: [`Children`](crate::Children) is for who asks for many.
    pub fn child_count(&self, i: u32) -> u32
        requires { i < nodes self.now }
        ensures { result ≡ child_count self.now i }
    {
        let mut count = 0;
        for j in 0..self.nodes() {
            if self.is_child(i, j) {
                count += 1;
            }
        }
        count
    }

    /// The child of node i before which k others come, in rising order of number. It goes over the nodes up to it.
    pub fn child(&self, i: u32, k: u32) -> u32
        requires within { i < nodes self.now }
        requires place { k < child_count self.now i }
        ensures { IsChildAt self.now i k result }
    {
        let mut before = 0;
        for j in 0..self.nodes() {
            if self.is_child(i, j) {
                if before == k {
                    return j;
                }
                before += 1;
            }
        }
        unreachable!()
    }

    // Whether node j is a child of node i.
    fn is_child(&self, i: u32, j: u32) -> bool
        requires { j < nodes self.now }
        ensures child { result ≡ is_child self.now i j }
        ensures less { IsTrue result → j < i }
    {
        let parent = self.parent(j);
        parent == i && parent != j
    }

    /// The lowest common ancestor: the node of least number that is above both a and b, a node being above itself.
    /// None exactly where a and b have different roots. It goes up link by link: [`Ancestors`](crate::Ancestors) is
    /// for who asks for many.
    pub fn lca(&self, a: u32, b: u32) -> Option<u32>
        requires a { a < nodes self.now }
        requires b { b < nodes self.now }
        ensures lowest { IfSome result (IsLowestAbove self.now a b) }
        ensures roots { MatchOption result (¬ ShareRoot self.now a b) (λ i. ShareRoot self.now a b) }
        ensures within { IfSome result (λ i. i < nodes self.now) }
    {
        self.met(a, b)
    }

    // The lowest node above both a and b, or None where there is none.
    fn met(&self, mut a: u32, mut b: u32) -> Option<u32>
        requires a { a < nodes self.now }
        requires b { b < nodes self.now }
        ensures lowest { MatchOption result ((j : ℕ) → ¬ IsCommon self.now a b j) (λ i. IsLowestAbove self.now a b i) }
        ensures within { IfSome result (λ i. i < nodes self.now) }
        ensures well_formed { IsWellFormed self.now }
    {
        self.keeps_its_rules();
        while a != b {
            (a, b) = self.next(a, b)?;
        }
        Some(a)
    }

    // From two different nodes, the next two to go on from: the lesser goes up. None where no node is above both.
    fn next(&self, a: u32, b: u32) -> Option<(u32, u32)>
        requires a { a < nodes self.now }
        requires b { b < nodes self.now }
        requires apart { a ≢ b }
        ensures within { IfSome result (λ next. (next.0 < nodes self.now) × (next.1 < nodes self.now)) }
        ensures next { MatchOption result ((j : ℕ) → ¬ IsCommon self.now a b j) (λ next. KeepsCommon self.now a b next.0 next.1) }
    {
        if a < b {
            Some((self.raised(a, b)?, b))
        } else {
            Some((a, self.raised(b, a)?))
        }
    }

    // The parent of a node that isn't above a greater one. None where it is a root, so that no node is above both.
    fn raised(&self, least: u32, other: u32) -> Option<u32>
        requires within { least < nodes self.now }
        requires other { other < nodes self.now }
        requires less { least < other }
        ensures within { IfSome result (λ next. next < nodes self.now) }
        ensures next { MatchOption result ((j : ℕ) → ¬ IsCommon self.now least other j) (λ next. KeepsCommon self.now least other next other) }
    {
        let _ = other;
        self.keeps_its_rules();
        let parent = self.parent(least);
        if parent == least { None } else { Some(parent) }
    }
}
