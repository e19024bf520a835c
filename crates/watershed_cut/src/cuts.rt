ghost use Rattle.std.specs.Prelude.{◌≡◌};

use hg_base::Labels;
use std::marker::Model;

/// A watershed cut of a graph (Cousty and others, Watershed Cuts, 2009): the label of each vertex, the edges of the cut
/// and those of the forest.
#[derive(Drop)]
pub struct Watershed {
    labels: Labels,
    cut: Vec<u32>,
    forest: Vec<u32>,
}

impl Model for Watershed {
    ghost use Rattle.watershed_cut.specs.Watershed.{WatershedCut};

    ghost Value = { WatershedCut };

    ghost use Rattle.watershed_cut.specs.WatershedFields.{watershed_in};

    ghost view = { watershed_in };
}

impl Watershed {
    // These labels, and these edges of cut and forest.
    pub(crate) fn new(labels: Labels, cut: Vec<u32>, forest: Vec<u32>) -> Watershed
        ensures { result ≡ record { labels = labels; cut = cut.items; forest = forest.items } }
    {
        Watershed {
            labels,
            cut,
            forest,
        }
    }

    /// The label of each vertex: that of the minimum to which the forest and the minimum edges join it. It takes no memory.
    pub fn labels(&self) -> &Labels
        ensures { result.now ≡ self.now.labels }
    {
        &self.labels
    }

    /// The numbers of the edges whose ends have different labels, rising. It takes no memory.
    pub fn cut(&self) -> &[u32]
        ensures { result.now ≡ self.now.cut }
    {
        &self.cut
    }

    /// The numbers of the forest's edges, rising. It takes no memory.
    pub fn forest(&self) -> &[u32]
        ensures { result.now ≡ self.now.forest }
    {
        &self.forest
    }
}
