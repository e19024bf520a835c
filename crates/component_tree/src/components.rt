ghost use Rattle.std.specs.Prelude.{◌≡◌, ℕ, ◌≤◌, ◌++◌, IfOk, OnOk, length, map};
ghost use Rattle.std.specs.List.{range_with_len};
ghost use Rattle.hg_base.specs.Graph.{WeightedGraph};
ghost use Rattle.edge_laws.specs.Edges.{EdgeList};
ghost use Rattle.edge_laws.specs.Rank.{ranked};
ghost use Rattle.tree_laws.specs.Tree.{altitude, graph_tree, tree_of};
ghost use Rattle.component_tree.specs.declared.nodes.Component.{Component};
ghost use Rattle.component_tree.specs.Components.{IsComponentTree};
ghost use Rattle.component_tree.specs.MinTree.{turned, value_at, component_tree_of};
ghost use Rattle.component_tree.specs.Values.{AreValues};
ghost use Rattle.component_tree.specs.Weighed.{weighed_graph, IsWeighed};
ghost use Rattle.component_tree.specs.NodeComponents.{ArePlaced, parent_of_leaf, component_parent, HasLeaves, AreFloodEdges, IsTurnedTree};

use crate::nodes::{Component, components, leasts, levels, places};
use crate::side::{Side, turned};
use crate::tree::ComponentTree;
use crate::values::Values;
use hg_base::{Graph, OutOfMemory};
use partition_tree::Tree;
use std::alloc::{AllocError, Global};

/// The component tree of a graph's vertices by their values (Perret and others, Higra, 2019). `graph` is what `weighed`
/// answers for these values and this side, and `tree` is its tree; the answer is the component tree of the graph that
/// was weighed. It has a leaf for each vertex, and a node for each component of the vertices whose values are at most t
/// (at least t for a max tree), for every t.
pub fn component_tree(
    alloc: Global,
    values: &Values,
    side: Side,
    graph: &Graph,
    tree: &Tree,
) -> Result<ComponentTree, OutOfMemory>
    requires values { length values.now ≡ graph.now.n }
    requires weighed { IsWeighed side values.now graph.now }
    requires tree { tree.now ≡ graph_tree graph.now }
    ensures function { (g : WeightedGraph) → graph.now ≡ weighed_graph side values.now g →
        IfOk result (λ tree. tree ≡ component_tree_of side values.now g) }
    ensures components { (g : WeightedGraph) → graph.now ≡ weighed_graph side values.now g →
        IfOk result (λ tree. IsComponentTree side (value_at values.now) g.n (ranked g) tree) }
{
    made(alloc, values, side, graph, tree).map_err(|_| OutOfMemory)
}

fn made(
    alloc: Global,
    values: &Values,
    side: Side,
    graph: &Graph,
    tree: &Tree,
) -> Result<ComponentTree, AllocError>
    requires values { length values.now ≡ graph.now.n }
    requires weighed { IsWeighed side values.now graph.now }
    requires tree { tree.now ≡ graph_tree graph.now }
    ensures function { (g : WeightedGraph) → graph.now ≡ weighed_graph side values.now g →
        IfOk result (λ tree. tree ≡ component_tree_of side values.now g) }
    ensures components { (g : WeightedGraph) → graph.now ≡ weighed_graph side values.now g →
        IfOk result (λ tree. IsComponentTree side (value_at values.now) g.n (ranked g) tree) }
{
    graph.keeps_its_rules();
    values.keeps_its_rules();
    tree_of_nodes(alloc, values, side, tree)
}

// The component tree over the nodes of a tree whose edges weigh the greater value of their ends, as a min tree sees them.
fn tree_of_nodes(
    alloc: Global,
    values: &Values,
    side: Side,
    tree: &Tree,
) -> Result<ComponentTree, AllocError>
    requires values { length values.now ≡ tree.now.leaves }
    requires fits { AreValues values.now }
    requires low { (i : ℕ) → altitude tree.now i ≤ 4294967295 }
    requires leaves { HasLeaves tree.now }
    ensures { (s : EdgeList) → AreFloodEdges (λ x. turned side (value_at values.now x)) tree.now.leaves s → tree.now ≡ tree_of tree.now.leaves s →
        IfOk result (IsTurnedTree side values.now tree.now.leaves s) }
{
    let levels = levels(alloc, values, side, tree)?;
    let leasts = leasts(alloc, tree)?;
    let list = components(alloc, tree, &levels, &leasts)?;
    let places = places(alloc, tree, &levels, &list)?;
    let mut parents = leaf_parents(alloc, tree, &places, &list)?;
    push_parents(tree, &places, &list, &mut parents)?;
    let mut turned_levels = leaf_levels(alloc, values, tree, &list)?;
    push_levels(side, &list, &mut turned_levels)?;
    Ok(ComponentTree::from_lists(tree.leaves(), parents, turned_levels))
}

// The parents of the leaves.
fn leaf_parents(
    alloc: Global,
    tree: &Tree,
    places: &[u32],
    list: &[Component],
) -> Result<Vec<u32>, AllocError>
    requires { ArePlaced tree.now list.now places.now }
    ensures { IfOk result (λ parents. parents.items ≡ map (parent_of_leaf tree.now places.now) (range_with_len 0 tree.now.leaves)) }
{
    let leaves = tree.leaves();
    let mut parents = Vec::with_capacity(alloc, leaves as usize + list.len())?;
    for x in 0..leaves {
        parents.push(leaves + places[x as usize])?;
    }
    Ok(parents)
}

// Appends the parents of the components.
fn push_parents(
    tree: &Tree,
    places: &[u32],
    list: &[Component],
    parents: &mut Vec<u32>,
) -> Result<(), AllocError>
    requires { ArePlaced tree.now list.now places.now }
    ensures { OnOk result (parents.new.items ≡ parents.old.items ++ map (component_parent tree.now places.now) list.now) }
{
    let leaves = tree.leaves();
    for component in list {
        let parent = tree.parent(component.node);
        parents.push(leaves + places[parent as usize])?;
    }
    Ok(())
}

// The levels of the leaves: their values.
fn leaf_levels(
    alloc: Global,
    values: &Values,
    tree: &Tree,
    list: &[Component],
) -> Result<Vec<u32>, AllocError>
    requires values { length values.now ≡ tree.now.leaves }
    requires few { length list.now ≤ 2097151 }
    ensures { IfOk result (λ levels. levels.items ≡ map (value_at values.now) (range_with_len 0 tree.now.leaves)) }
{
    let leaves = tree.leaves();
    let mut levels = Vec::with_capacity(alloc, leaves as usize + list.len())?;
    for x in 0..leaves {
        levels.push(values.value(x))?;
    }
    Ok(levels)
}

// Appends the levels of the components, turned back.
fn push_levels(side: Side, list: &[Component], levels: &mut Vec<u32>) -> Result<(), AllocError>
    ensures { OnOk result (levels.new.items ≡ levels.old.items ++ map (λ (c : Component). turned side c.level) list.now) }
{
    for component in list {
        levels.push(turned(side, component.level))?;
    }
    Ok(())
}
