/// How the vertices of a graph are cut into tiles, on each of which one worker begins. The tree is the same in any tiles.
#[derive(Clone, Copy, Debug, PartialEq, Eq)]
pub enum Tiling {
    /// Blocks of so many vertices: vertex v is in tile v / size. The size is 1 or more.
    Blocks(u32),
    /// Squares of this side, 1 or more, of a picture whose pixels are the vertices, row after row. They are cut off at its
    /// right and lower edge.
    Squares { width: u32, height: u32, side: u32 },
}
