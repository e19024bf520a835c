ghost use Rattle.std.specs.Prelude.{◌≡◌, ℕ, ◌<◌, length, replicate, IfOk};
ghost use Rattle.hg_base.specs.Graph.{WeightedGraph};
ghost use Rattle.extinction.specs.Values.{attribute_values, AreOf, AreOfOne};
ghost use Rattle.extinction.specs.Survivors.{extinctions_of};
ghost use Rattle.extinction.specs.NodeSurvivors.{dying_after, AreSurvivors, AreRootsFrom, AreDeathsFrom};

use crate::pairs::children;
use crate::survive::{Survivors, dies};
use crate::values::value_by;
use attributes::Attributes;
use hg_base::{Kind, OutOfMemory};
use partition_tree::Tree;
use std::alloc::{AllocError, Global};
use watershed_cut::Minima;

/// The extinction of each minimum of a graph, by label from 1: the attribute of the side that dies with it where two
/// sides of a node hold minima, or of the root in which it survives. The side with the lesser attribute dies, and on a
/// tie the one with the greater survivor. Tree, attributes and minima are of one graph. The error is want of memory.
pub fn extinctions(
    alloc: Global,
    tree: &Tree,
    attributes: &Attributes,
    minima: &Minima,
    kind: Kind,
) -> Result<Vec<u64>, OutOfMemory>
    requires { AreOfOne tree.now attributes.now minima.now }
    ensures { IfOk result (λ values. (g : WeightedGraph) → AreOf g tree.now attributes.now minima.now → values.items ≡ extinctions_of g kind) }
{
    by_survivors(alloc, tree, attributes, minima, kind).map_err(|_| OutOfMemory)
}

fn by_survivors(
    alloc: Global,
    tree: &Tree,
    attributes: &Attributes,
    minima: &Minima,
    kind: Kind,
) -> Result<Vec<u64>, AllocError>
    requires { AreOfOne tree.now attributes.now minima.now }
    ensures { IfOk result (λ values. (g : WeightedGraph) → AreOf g tree.now attributes.now minima.now → values.items ≡ extinctions_of g kind) }
{
    let survivors = Survivors::of(alloc, tree, attributes, minima, kind)?;
    let mut values = vec![in alloc; 0; minima.count() as usize]?;
    note_roots(tree, attributes, minima, kind, &survivors, &mut values);
    note_deaths(tree, attributes, minima, kind, &survivors, &mut values);
    Ok(values)
}

// Gives the survivor of each root the root's attribute. The least root comes last.
fn note_roots(
    tree: &Tree,
    attributes: &Attributes,
    minima: &Minima,
    kind: Kind,
    survivors: &Survivors,
    values: &mut [u64],
)
    requires one { AreOfOne tree.now attributes.now minima.now }
    requires survivors { AreSurvivors tree.now minima.now (attribute_values kind attributes.now) survivors.now.pairs.items survivors.now.labels.items }
    requires values { values.old ≡ replicate minima.now.count 0 }
    ensures { AreRootsFrom tree.now minima.now (attribute_values kind attributes.now) survivors.now.labels.items 0 values.new }
{
    let _ = minima;
    for i in (0..tree.nodes()).rev() {
        let label = survivors.labels[i as usize];
        if label != 0 && tree.parent(i) == i {
            values[label as usize - 1] = value_by(kind, attributes, i);
        }
    }
}

// Gives the label that dies at each node the attribute of its side. The least node comes last.
fn note_deaths(
    tree: &Tree,
    attributes: &Attributes,
    minima: &Minima,
    kind: Kind,
    survivors: &Survivors,
    values: &mut [u64],
)
    requires one { AreOfOne tree.now attributes.now minima.now }
    requires survivors { AreSurvivors tree.now minima.now (attribute_values kind attributes.now) survivors.now.pairs.items survivors.now.labels.items }
    requires values { AreRootsFrom tree.now minima.now (attribute_values kind attributes.now) survivors.now.labels.items 0 values.old }
    ensures { AreDeathsFrom tree.now minima.now (attribute_values kind attributes.now) survivors.now.labels.items 0 values.new }
{
    let _ = minima;
    for i in (tree.leaves()..tree.nodes()).rev() {
        let (a, b) = children(tree, &survivors.pairs, i);
        if let Some(child) = dying(attributes, kind, &survivors.labels, a, b) {
            let label = survivors.labels[child as usize];
            values[label as usize - 1] = value_by(kind, attributes, child);
        }
    }
}

// Of the children a and b the one that dies, where both have a survivor.
fn dying(attributes: &Attributes, kind: Kind, labels: &[u32], a: u32, b: u32) -> Option<u32>
    requires nodes { length labels.now ≡ length attributes.now.areas }
    requires first { a < length labels.now }
    requires second { b < length labels.now }
    ensures { result ≡ dying_after (attribute_values kind attributes.now) labels.now a b }
{
    if labels[a as usize] == 0 || labels[b as usize] == 0 {
        None
    } else if dies(attributes, kind, labels, a, b) {
        Some(a)
    } else {
        Some(b)
    }
}
