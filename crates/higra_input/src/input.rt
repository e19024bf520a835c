use hg_base::Graph;
use pgm_reader::Picture;

/// What a report is written about.
#[derive(Drop)]
pub enum Input {
    /// The graph of an edge list.
    Edges(Graph),
    /// A picture.
    Picture(Picture),
}
