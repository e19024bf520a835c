// A request: a report, the tiles and the workers by which its tree is made, and its form.
use hg_base::Kind;

/// What is written about the input.
#[derive(Clone, Copy, Debug, PartialEq, Eq)]
pub enum Report {
    /// The binary partition tree of the graph.
    Tree,
    /// The quasi-flat zones of the tree.
    Zones,
    /// The saliency of each edge.
    Saliency,
    /// The area, the volume and the dynamics of each node of the tree.
    Attributes,
    /// The minima of the graph: the label of each vertex and of each edge.
    Minima,
    /// The watershed cut of the graph: the label of each vertex, the edges of the cut and those of the forest.
    Watershed,
    /// The hierarchical watershed of the graph by an attribute, and the extinction value of each minimum.
    Hierarchical(Kind),
    /// The regions of a tree at a level: of the graph's own tree, or of its hierarchical watershed by an attribute.
    Cut(Option<Kind>, u64),
    /// Counts and sums of what the other reports write one by one.
    Summary,
    /// The min tree of a picture: the components of its pixels up to each value.
    Mintree,
    /// The max tree of a picture: the components of its pixels from each value on.
    Maxtree,
    /// The cut of the tree that has least energy, with this penalty for each region.
    Energy(u64),
}

/// The form of a report.
#[derive(Clone, Copy, Debug, PartialEq, Eq)]
pub enum Form {
    /// Lines of text.
    Text,
    /// A binary PGM picture.
    Pgm,
}

/// A square picture that is made and not read: the length of its side in pixels, and the seed of its samples.
#[derive(Clone, Copy, Debug, PartialEq, Eq)]
pub struct Made {
    pub side: u32,
    pub seed: u32,
}

/// What the words ask for.
#[derive(Clone, Copy, Debug, PartialEq, Eq)]
pub struct Request {
    pub report: Report,
    /// The greatest number of vertices in a tile of an edge list, or the side of a tile of a picture.
    pub tile: u32,
    /// How many workers merge tiles.
    pub workers: u32,
    pub form: Form,
    /// The picture to make in place of reading the source, if there is one.
    pub made: Option<Made>,
}
