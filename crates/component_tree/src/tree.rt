ghost use Rattle.std.specs.Prelude.{◌≡◌, ◌<◌, ◌≤◌, length};
ghost use Rattle.component_tree.specs.Components.{parent_of, level_of};

use std::marker::Model;

/// A component tree. Its leaves are the nodes 0 to leaves - 1, one for each vertex of the graph; its other nodes are
/// components of vertices. A root is its own parent.
#[derive(Drop)]
pub struct ComponentTree {
    leaves: u32,
    parents: Vec<u32>,
    levels: Vec<u32>,
}

impl Model for ComponentTree {
    ghost use Rattle.component_tree.specs.Components.{ComponentLists};

    ghost Value = { ComponentLists };

    ghost use Rattle.component_tree.specs.TreeFields.{lists_of_tree, AreComponentLists};

    ghost view = { lists_of_tree };

    ghost invariant = { λ t. AreComponentLists (lists_of_tree t) };
}

impl ComponentTree {
    // The tree with these lists.
    pub(crate) fn from_lists(leaves: u32, parents: Vec<u32>, levels: Vec<u32>) -> ComponentTree
        requires one_level_each { length levels.items ≡ length parents.items }
        requires few { length parents.items ≤ 4194304 }
        ensures { result ≡ record { leaves = leaves; parents = parents.items; levels = levels.items } }
    {
        ComponentTree {
            leaves,
            parents,
            levels,
        }
    }

    /// How many nodes the tree has, leaves and components.
    pub fn nodes(&self) -> u32
        ensures value { result ≡ length self.now.parents }
        ensures few { result ≤ 4194304 }
    {
        self.parents.len() as u32
    }

    /// How many leaves the tree has: one for each vertex.
    pub fn leaves(&self) -> u32
        ensures { result ≡ self.now.leaves }
    {
        self.leaves
    }

    /// The parent of a node, which is the node itself where it is a root.
    pub fn parent(&self, i: u32) -> u32
        requires { i < length self.now.parents }
        ensures { result ≡ parent_of self.now i }
    {
        self.parents[i as usize]
    }

    /// The level of a node: the value of a leaf's vertex, and of another node the greatest value of its vertices in a
    /// min tree, the least in a max tree.
    pub fn level(&self, i: u32) -> u32
        requires { i < length self.now.parents }
        ensures { result ≡ level_of self.now i }
    {
        self.levels[i as usize]
    }
}
