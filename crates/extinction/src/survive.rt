ghost use Rattle.std.specs.Prelude.{◌≡◌, ◌<◌, ◌≤◌, length, slice_index, IfOk};
ghost use Rattle.extinction.specs.Values.{attribute_values, AreOfOne};
ghost use Rattle.extinction.specs.Survivors.{dies};
ghost use Rattle.extinction.specs.NodeSurvivors.{label_after, AreSurvivors};

use crate::lowest::own_labels;
use crate::pairs::{child_pairs, children};
use crate::values::value_by;
use attributes::Attributes;
use hg_base::Kind;
use partition_tree::Tree;
use std::alloc::{AllocError, Global};
use watershed_cut::Minima;

/// The two children of each inner node, and the label that survives in each node, or 0 where the node holds no minimum.
#[derive(Drop)]
pub(crate) struct Survivors {
    pub(crate) pairs: Vec<(u32, u32)>,
    pub(crate) labels: Vec<u32>,
}

impl Survivors {
    // The survivors of the nodes of a graph's tree.
    pub(crate) fn of(
        alloc: Global,
        tree: &Tree,
        attributes: &Attributes,
        minima: &Minima,
        kind: Kind,
    ) -> Result<Survivors, AllocError>
        requires { AreOfOne tree.now attributes.now minima.now }
        ensures { IfOk result (λ s. AreSurvivors tree.now minima.now (attribute_values kind attributes.now) s.pairs.items s.labels.items) }
    {
        let pairs = child_pairs(alloc, tree)?;
        let mut labels = own_labels(alloc, tree, minima)?;
        for i in tree.leaves()..tree.nodes() {
            let (a, b) = children(tree, &pairs, i);
            let label = survivor(attributes, kind, &labels, a, b, i);
            labels[i as usize] = label;
        }
        Ok(Survivors { pairs, labels })
    }
}

// The survivor of node i, whose children are a and b.
fn survivor(attributes: &Attributes, kind: Kind, labels: &[u32], a: u32, b: u32, i: u32) -> u32
    requires nodes { length labels.now ≡ length attributes.now.areas }
    requires within { i < length labels.now }
    requires first { a < i }
    requires second { b < i }
    ensures { result ≡ label_after (attribute_values kind attributes.now) labels.now a b (slice_index labels.now i) }
{
    let (first, second) = (labels[a as usize], labels[b as usize]);
    if first != 0 && second != 0 {
        if dies(attributes, kind, labels, a, b) {
            second
        } else {
            first
        }
    } else if first != 0 {
        first
    } else if second != 0 {
        second
    } else {
        labels[i as usize]
    }
}

/// Whether node a dies beside node b: it has the lesser attribute, or the same and the greater survivor.
pub(crate) fn dies(attributes: &Attributes, kind: Kind, labels: &[u32], a: u32, b: u32) -> bool
    requires nodes { length labels.now ≡ length attributes.now.areas }
    requires first { a < length labels.now }
    requires second { b < length labels.now }
    ensures { result ≡ dies (attribute_values kind attributes.now) labels.now a b }
{
    let (first, second) = (value_by(kind, attributes, a), value_by(kind, attributes, b));
    first < second || first == second && labels[b as usize] < labels[a as usize]
}
