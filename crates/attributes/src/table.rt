ghost use Rattle.std.specs.Prelude.{◌≡◌, ℕ, ◌*◌, ◌-◌, ◌^◌, ◌<◌, ◌≤◌, length, map, slice_get, slice_index, Some, IfOk};
ghost use Rattle.tree_laws.specs.Tree.{graph_tree};
ghost use Rattle.partition_tree.specs.TreeLists.{nodes};
ghost use Rattle.attributes.specs.Attributes.{attributes_of, altitude_over, node_numbers};
ghost use Rattle.attributes.specs.Sums.{GiveVolumes, GiveDynamics, volumes_by, dynamics_by};

use crate::sums::NodeSums;
use hg_base::{Graph, OutOfMemory};
use partition_tree::Tree;
use std::alloc::{AllocError, Global};
use std::marker::Model;
use std::thread::{Threads, join};

/// The area, the volume and the dynamics of each node of a graph's tree, by number of node (Perret and others, Higra,
/// 2019).
#[derive(Drop)]
pub struct Attributes {
    areas: Vec<u64>,
    volumes: Vec<u64>,
    dynamics: Vec<u64>,
}

impl Model for Attributes {
    ghost use Rattle.attributes.specs.Attributes.{AttributeLists};

    ghost Value = { AttributeLists };

    ghost use Rattle.attributes.specs.AttributesFields.{lists_of_fields, AreOfNodes};

    ghost view = { lists_of_fields };

    ghost invariant = { λ a. AreOfNodes (lists_of_fields a) };
}

impl Attributes {
    /// The attributes of the nodes of the graph's own tree: those of a node's vertices under the altitude of its
    /// parent, a root being its own parent.
    pub fn of(alloc: Global, graph: &Graph, tree: &Tree) -> Result<Attributes, OutOfMemory>
        requires { tree.now ≡ graph_tree graph.now }
        ensures { IfOk result (λ attributes. attributes ≡ attributes_of graph.now) }
    {
        made(alloc, graph, tree).map_err(|_| OutOfMemory)
    }

    /// The same attributes, found in as many threads as can be had.
    pub fn of_in_threads(
        rt: &(impl Threads + Sync),
        alloc: Global,
        graph: &Graph,
        tree: &Tree,
    ) -> Result<Attributes, OutOfMemory>
        requires { tree.now ≡ graph_tree graph.now }
        ensures { IfOk result (λ attributes. attributes ≡ attributes_of graph.now) }
    {
        made_in_threads(rt, alloc, graph, tree).map_err(|_| OutOfMemory)
    }

    /// How many nodes there are. It takes no memory.
    pub fn nodes(&self) -> u32
        ensures { result ≡ length self.now.areas }
    {
        self.areas.len() as u32
    }

    /// The area of a node: the sum of the areas of its vertices. It takes no memory.
    pub fn area(&self, i: u32) -> u64
        requires { i < length self.now.areas }
        ensures { slice_get self.now.areas i ≡ Some result }
    {
        self.areas[i as usize]
    }

    /// The volume of a node: the sum, over its vertices, of the area times the depth of the floor below the parent's
    /// altitude. It takes no memory.
    pub fn volume(&self, i: u32) -> u64
        requires { i < length self.now.areas }
        ensures { slice_get self.now.volumes i ≡ Some result }
    {
        self.volumes[i as usize]
    }

    /// The dynamics of a node: the depth of its lowest floor below the parent's altitude. It takes no memory.
    pub fn dynamics(&self, i: u32) -> u64
        requires { i < length self.now.areas }
        ensures { slice_get self.now.dynamics i ≡ Some result }
    {
        self.dynamics[i as usize]
    }
}

fn made(alloc: Global, graph: &Graph, tree: &Tree) -> Result<Attributes, AllocError>
    requires { tree.now ≡ graph_tree graph.now }
    ensures { IfOk result (λ attributes. attributes ≡ attributes_of graph.now) }
{
    graph.keeps_its_rules();
    let sums = NodeSums::of(alloc, graph, tree)?;
    let volumes = volumes(alloc, tree, &sums.areas, &sums.products)?;
    let dynamics = dynamics(alloc, tree, &sums.lowest)?;
    Ok(Attributes {
        areas: sums.areas,
        volumes,
        dynamics,
    })
}

fn made_in_threads(
    rt: &(impl Threads + Sync),
    alloc: Global,
    graph: &Graph,
    tree: &Tree,
) -> Result<Attributes, AllocError>
    requires { tree.now ≡ graph_tree graph.now }
    ensures { IfOk result (λ attributes. attributes ≡ attributes_of graph.now) }
{
    graph.keeps_its_rules();
    let sums = NodeSums::of_in_threads(rt, alloc, graph, tree)?;
    let (volumes, dynamics) = volumes_beside_dynamics(
        rt,
        alloc,
        tree,
        &sums.areas,
        &sums.products,
        &sums.lowest,
    )?;
    Ok(Attributes {
        areas: sums.areas,
        volumes,
        dynamics,
    })
}

// The volumes of the nodes, and beside them the dynamics.
fn volumes_beside_dynamics(
    rt: &(impl Threads + Sync),
    alloc: Global,
    tree: &Tree,
    areas: &[u64],
    products: &[u64],
    lowest: &[u64],
) -> Result<(Vec<u64>, Vec<u64>), AllocError>
    requires sums { GiveVolumes tree.now areas.now products.now × GiveDynamics tree.now lowest.now }
    ensures { IfOk result (λ found. (found.0.items ≡ volumes_by tree.now areas.now products.now) × (found.1.items ≡ dynamics_by tree.now lowest.now)) }
{
    let volumes = || -> Result<Vec<u64>, AllocError>
        requires { GiveVolumes tree.now areas.now products.now }
        ensures { IfOk result (λ volumes. volumes.items ≡ volumes_by tree.entry.now areas.entry.now products.entry.now) }
    { volumes(alloc, tree, areas, products) };
    let dynamics = || -> Result<Vec<u64>, AllocError>
        requires { GiveDynamics tree.now lowest.now }
        ensures { IfOk result (λ dynamics. dynamics.items ≡ dynamics_by tree.entry.now lowest.entry.now) }
    { dynamics(alloc, tree, lowest) };
    let (volumes, dynamics) = join(rt, volumes, dynamics);
    Ok((volumes?, dynamics?))
}

// The altitude of a node's parent, a root being its own parent.
fn altitude_over(tree: &Tree, i: u32) -> u64
    requires { i < nodes tree.now }
    ensures { result ≡ altitude_over tree.now i }
{
    tree.altitude(tree.parent(i))
}

// The altitude over each node times its area, less the sum over its vertices of area times floor.
fn volumes(
    alloc: Global,
    tree: &Tree,
    areas: &[u64],
    products: &[u64],
) -> Result<Vec<u64>, AllocError>
    requires areas { length areas.now ≡ nodes tree.now }
    requires products { length products.now ≡ nodes tree.now }
    requires fits { (i : ℕ) → i < nodes tree.now → altitude_over tree.now i * slice_index areas.now i < 2 ^ 64 }
    requires low { (i : ℕ) → i < nodes tree.now → slice_index products.now i ≤ altitude_over tree.now i * slice_index areas.now i }
    ensures { IfOk result (λ volumes. volumes.items ≡ map (λ i. altitude_over tree.now i * slice_index areas.now i - slice_index products.now i) (node_numbers tree.now)) }
{
    let mut volumes = Vec::with_capacity(alloc, areas.len())?;
    for i in 0..tree.nodes() {
        let altitude = altitude_over(tree, i);
        volumes.push(altitude * areas[i as usize] - products[i as usize])?;
    }
    Ok(volumes)
}

// The altitude over each node less its lowest floor.
fn dynamics(alloc: Global, tree: &Tree, lowest: &[u64]) -> Result<Vec<u64>, AllocError>
    requires lowest { length lowest.now ≡ nodes tree.now }
    requires low { (i : ℕ) → i < nodes tree.now → slice_index lowest.now i ≤ altitude_over tree.now i }
    ensures { IfOk result (λ dynamics. dynamics.items ≡ map (λ i. altitude_over tree.now i - slice_index lowest.now i) (node_numbers tree.now)) }
{
    let mut dynamics = Vec::with_capacity(alloc, lowest.len())?;
    for i in 0..tree.nodes() {
        let altitude = altitude_over(tree, i);
        dynamics.push(altitude - lowest[i as usize])?;
    }
    Ok(dynamics)
}
