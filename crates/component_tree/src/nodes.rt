ghost use Rattle.std.specs.Prelude.{◌≡◌, ℕ, ◌<◌, ◌≤◌, ◌-◌, ◌++◌, List, length, map, filter, IfOk, OnOk};
ghost use Rattle.std.specs.List.{range_with_len};
ghost use Rattle.tree_laws.specs.Tree.{altitude};
ghost use Rattle.partition_tree.specs.TreeLists.{nodes, IsWellFormed};
ghost use Rattle.component_tree.specs.NodeComponents.{levels_in, is_component, HasLeaves, AreLeasts, component_of, AreComponents, AreOwnPlaces, ArePlaces};

use crate::side::{Side, turned};
use crate::values::Values;
use partition_tree::{Tree, own_numbers, send_down};
use std::alloc::{AllocError, Global};

/// A component as a min tree sees it: its level, its least vertex, and the node of the weighed graph's tree below which
/// its vertices are. In order, they are as the nodes of the component tree are numbered.
#[derive(Clone, Copy, PartialEq, Eq, PartialOrd, Ord)]
pub(crate) struct Component {
    pub(crate) level: u32,
    pub(crate) least: u32,
    pub(crate) node: u32,
}

// The level of each node of the tree: a leaf's value, another node's altitude.
pub(crate) fn levels(
    alloc: Global,
    values: &Values,
    side: Side,
    tree: &Tree,
) -> Result<Vec<u32>, AllocError>
    requires values { length values.now ≡ tree.now.leaves }
    requires low { (i : ℕ) → altitude tree.now i ≤ 4294967295 }
    ensures levels { IfOk result (λ levels. levels.items ≡ levels_in side values.now tree.now) }
    ensures len { IfOk result (λ levels. length levels.items ≡ nodes tree.now) }
{
    let mut levels = Vec::with_capacity(alloc, tree.nodes() as usize)?;
    for x in 0..tree.leaves() {
        levels.push(turned(side, values.value(x)))?;
    }
    push_altitudes(tree, &mut levels)?;
    Ok(levels)
}

// Appends the altitudes of the inner nodes.
fn push_altitudes(tree: &Tree, levels: &mut Vec<u32>) -> Result<(), AllocError>
    requires { (i : ℕ) → altitude tree.now i ≤ 4294967295 }
    ensures { OnOk result (levels.new.items ≡ levels.old.items ++ map (altitude tree.now) (range_with_len tree.now.leaves (nodes tree.now - tree.now.leaves))) }
{
    for i in tree.leaves()..tree.nodes() {
        levels.push(tree.altitude(i) as u32)?;
    }
    Ok(())
}

// For each node of the tree the least leaf below it.
pub(crate) fn leasts(alloc: Global, tree: &Tree) -> Result<Vec<u32>, AllocError>
    requires { HasLeaves tree.now }
    ensures { IfOk result (λ leasts. AreLeasts tree.now leasts.items) }
{
    let mut leasts = own_numbers(alloc, tree.nodes())?;
    send_up(tree, &mut leasts);
    Ok(leasts)
}

// Sends the least number below each node up to its parent.
fn send_up(tree: &Tree, leasts: &mut [u32])
    requires leaves { HasLeaves tree.now }
    requires own { leasts.old ≡ range_with_len 0 (nodes tree.now) }
    ensures { AreLeasts tree.now leasts.new }
{
    for i in 0..tree.nodes() {
        let parent = tree.parent(i) as usize;
        leasts[parent] = leasts[parent].min(leasts[i as usize]);
    }
}

// Whether the vertices below node i are those of a component at its level: it is a root, or of another level than its
// parent.
fn is_component(tree: &Tree, levels: &[u32], i: u32) -> bool
    requires levels { length levels.now ≡ nodes tree.now }
    requires within { i < nodes tree.now }
    ensures { result ≡ is_component tree.now levels.now i }
{
    let parent = tree.parent(i);
    parent == i || levels[i as usize] != levels[parent as usize]
}

// The components, by node.
fn by_node(
    alloc: Global,
    tree: &Tree,
    levels: &[u32],
    leasts: &[u32],
) -> Result<Vec<Component>, AllocError>
    requires levels { length levels.now ≡ nodes tree.now }
    requires leasts { length leasts.now ≡ nodes tree.now }
    ensures well_formed { IfOk result (λ list. IsWellFormed tree.now) }
    ensures list { IfOk result (λ list. list.items ≡ map (component_of levels.now leasts.now) (filter (is_component tree.now levels.now) (range_with_len 0 (nodes tree.now)))) }
{
    let mut list = Vec::new(alloc);
    for i in 0..tree.nodes() {
        if is_component(tree, levels, i) {
            list.push(Component {
                level: levels[i as usize],
                least: leasts[i as usize],
                node: i,
            })?;
        }
    }
    Ok(list)
}

// The components in order.
pub(crate) fn components(
    alloc: Global,
    tree: &Tree,
    levels: &[u32],
    leasts: &[u32],
) -> Result<Vec<Component>, AllocError>
    requires levels { length levels.now ≡ nodes tree.now }
    requires leasts { length leasts.now ≡ nodes tree.now }
    ensures well_formed { IfOk result (λ list. IsWellFormed tree.now) }
    ensures list { IfOk result (λ list. AreComponents tree.now levels.now leasts.now list.items) }
{
    let mut list = by_node(alloc, tree, levels, leasts)?;
    list.sort_unstable();
    Ok(list)
}

// For each node of the tree the place of the component that is at or above it with its level.
pub(crate) fn places(
    alloc: Global,
    tree: &Tree,
    levels: &[u32],
    list: &[Component],
) -> Result<Vec<u32>, AllocError>
    requires levels { length levels.now ≡ nodes tree.now }
    requires list { (leasts : List ℕ) × AreComponents tree.now levels.now leasts list.now }
    ensures { IfOk result (λ places. ArePlaces tree.now levels.now list.now places.items) }
{
    let mut places = own_places(alloc, tree, list)?;
    send_places_down(tree, levels, list, &mut places);
    Ok(places)
}

// At the node of each component its place.
fn own_places(alloc: Global, tree: &Tree, list: &[Component]) -> Result<Vec<u32>, AllocError>
    requires { (levels : List ℕ) × ((leasts : List ℕ) × AreComponents tree.now levels leasts list.now) }
    ensures { IfOk result (λ places. AreOwnPlaces tree.now list.now places.items) }
{
    let mut places = vec![in alloc; 0; tree.nodes() as usize]?;
    let mut place = 0;
    for component in list {
        places[component.node as usize] = place;
        place += 1;
    }
    Ok(places)
}

// Gives each node that is no component its parent's place, from the roots down.
fn send_places_down(tree: &Tree, levels: &[u32], list: &[Component], places: &mut [u32])
    requires levels { length levels.now ≡ nodes tree.now }
    requires list { (leasts : List ℕ) × AreComponents tree.now levels.now leasts list.now }
    requires own { AreOwnPlaces tree.now list.now places.old }
    ensures { ArePlaces tree.now levels.now list.now places.new }
{
    let _ = list;
    send_down(
        tree,
        |i: u32|
            requires { (length levels.now ≡ nodes tree.now) × (i < nodes tree.now) }
            ensures { result ≡ is_component tree.entry.now levels.entry.now i }
        { is_component(tree, levels, i) },
        places,
    );
}
