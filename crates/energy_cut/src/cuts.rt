ghost use Rattle.std.specs.Prelude.{◌≡◌, ◌<◌, ◌≤◌, ◌^◌, All, length, IfOk};
ghost use Rattle.partition_tree.specs.TreeLists.{nodes};
ghost use Rattle.energy_cut.specs.Cuts.{IsLeastCut, cut_energy};
ghost use Rattle.energy_cut.specs.Regions.{energy_cut_of};

use crate::choosing::{chosen, tops};
use hg_base::{Labels, OutOfMemory, number_keys};
use partition_tree::Tree;
use std::alloc::{AllocError, Global};
use std::marker::Model;

/// A cut of a tree: a rising list of nodes, each in the path of some leaf, such that the path of each leaf has exactly
/// one of them. Its regions are the sets of leaves below its nodes, and its energy is the sum of theirs.
#[derive(Drop)]
pub struct EnergyCut {
    nodes: Vec<u32>,
    labels: Labels,
    sum: u128,
}

impl Model for EnergyCut {
    ghost use Rattle.energy_cut.specs.Regions.{RegionCut};

    ghost Value = { RegionCut };

    ghost use Rattle.energy_cut.specs.EnergyCutFields.{cut_of_fields};

    ghost view = { cut_of_fields };
}

impl EnergyCut {
    /// The nodes of the cut, rising. It takes no memory.
    pub fn nodes(&self) -> &[u32]
        ensures { result.now ≡ self.now.nodes }
    {
        &self.nodes
    }

    /// The label of each vertex by its region, 1, 2, .. in order of the regions' least vertices. It takes no memory.
    pub fn labels(&self) -> &Labels
        ensures { result.now ≡ self.now.labels }
    {
        &self.labels
    }

    /// The energy of the cut: the sum of the energies of its nodes. It takes no memory.
    pub fn sum(&self) -> u128
        ensures { result ≡ self.now.sum }
    {
        self.sum
    }
}

/// The least cut of a tree for these energies of its nodes, each below 2^65: no cut has less energy, and of the cuts of
/// the same energy it is the coarsest. An inner node that is above no leaf is never in it.
pub fn least_cut(alloc: Global, tree: &Tree, energies: &[u128]) -> Result<EnergyCut, OutOfMemory>
    requires one_each { length energies.now ≡ nodes tree.now }
    requires below { All (λ e. e < 2 ^ 65) energies.now }
    ensures value { IfOk result (λ cut. cut ≡ energy_cut_of tree.now energies.now) }
    ensures least { IfOk result (λ cut. IsLeastCut tree.now energies.now cut.nodes) }
    ensures nodes { IfOk result (λ cut. All (λ i. i < length energies.now) cut.nodes) }
{
    cut(alloc, tree, energies).map_err(|_| OutOfMemory)
}

fn cut(alloc: Global, tree: &Tree, energies: &[u128]) -> Result<EnergyCut, AllocError>
    requires one_each { length energies.now ≡ nodes tree.now }
    requires below { All (λ e. e < 2 ^ 65) energies.now }
    ensures value { IfOk result (λ cut. cut ≡ energy_cut_of tree.now energies.now) }
    ensures least { IfOk result (λ cut. IsLeastCut tree.now energies.now cut.nodes) }
    ensures nodes { IfOk result (λ cut. All (λ i. i < length energies.now) cut.nodes) }
{
    let tops = tops(alloc, tree, energies)?;
    let keys = &tops[..tree.leaves() as usize];
    let nodes = chosen(alloc, keys, tree.nodes())?;
    let sum = total(energies, &nodes);
    let numbering = number_keys(alloc, keys, tree.nodes())?;
    let labels = Labels::new(numbering.labels, numbering.count);
    Ok(EnergyCut { nodes, labels, sum })
}

// The sum of the energies of these nodes.
fn total(energies: &[u128], nodes: &[u32]) -> u128
    requires few { length nodes.now ≤ 2097151 }
    requires within { All (λ i. i < length energies.now) nodes.now }
    requires below { All (λ e. e < 2 ^ 65) energies.now }
    ensures value { result ≡ cut_energy energies.now nodes.now }
    ensures below { result < 2 ^ 86 }
{
    let mut sum = 0;
    for i in nodes {
        sum += energies[*i as usize];
    }
    sum
}
