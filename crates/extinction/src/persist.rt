ghost use Rattle.std.specs.Prelude.{◌≡◌, ℕ, ◌<◌, ◌≤◌, length, IfOk};
ghost use Rattle.hg_base.specs.Graph.{WeightedGraph};
ghost use Rattle.extinction.specs.Values.{attribute_values, AreOf, AreOfOne};
ghost use Rattle.extinction.specs.Persistence.{persistences_of};
ghost use Rattle.extinction.specs.NodeSurvivors.{value_after};

use crate::pairs::children;
use crate::survive::Survivors;
use crate::values::value_by;
use attributes::Attributes;
use hg_base::{Kind, OutOfMemory};
use partition_tree::Tree;
use std::alloc::{AllocError, Global};
use watershed_cut::Minima;

/// The persistence of each inner node of a graph's tree, in order: the lesser attribute of its two children where both
/// hold a minimum, that is, all of its vertices, and else 0. Tree, attributes and minima are of one graph. The error is
/// want of memory.
pub fn persistence(
    alloc: Global,
    tree: &Tree,
    attributes: &Attributes,
    minima: &Minima,
    kind: Kind,
) -> Result<Vec<u64>, OutOfMemory>
    requires { AreOfOne tree.now attributes.now minima.now }
    ensures { IfOk result (λ values. (g : WeightedGraph) → AreOf g tree.now attributes.now minima.now → values.items ≡ persistences_of g kind) }
{
    by_survivors(alloc, tree, attributes, minima, kind).map_err(|_| OutOfMemory)
}

fn by_survivors(
    alloc: Global,
    tree: &Tree,
    attributes: &Attributes,
    minima: &Minima,
    kind: Kind,
) -> Result<Vec<u64>, AllocError>
    requires { AreOfOne tree.now attributes.now minima.now }
    ensures { IfOk result (λ values. (g : WeightedGraph) → AreOf g tree.now attributes.now minima.now → values.items ≡ persistences_of g kind) }
{
    let survivors = Survivors::of(alloc, tree, attributes, minima, kind)?;
    let (leaves, nodes) = (tree.leaves(), tree.nodes());
    let mut values = Vec::with_capacity(alloc, (nodes - leaves) as usize)?;
    for i in leaves..nodes {
        let (a, b) = children(tree, &survivors.pairs, i);
        values.push(value(attributes, kind, &survivors.labels, a, b))?;
    }
    Ok(values)
}

// The persistence of a node whose children are a and b.
fn value(attributes: &Attributes, kind: Kind, labels: &[u32], a: u32, b: u32) -> u64
    requires nodes { length labels.now ≡ length attributes.now.areas }
    requires first { a < length labels.now }
    requires second { b < length labels.now }
    ensures { result ≡ value_after (attribute_values kind attributes.now) labels.now a b }
{
    if labels[a as usize] == 0 || labels[b as usize] == 0 {
        return 0;
    }
    value_by(kind, attributes, a).min(value_by(kind, attributes, b))
}
