ghost use Rattle.std.specs.Prelude.{◌≡◌, ◌≤◌, ◌*◌};
ghost use Rattle.tile_plan.specs.Grids.{IsSmall, tiles_in};
ghost use Rattle.tile_plan.specs.TiledPictures.{grid_in, IsFrame};

use crate::site::Grid;
use hg_base::Graph;

// A picture of vertices, row after row, and the side of its tiles.
#[derive(Clone, Copy)]
pub(crate) struct Frame {
    pub(crate) width: u32,
    pub(crate) height: u32,
    pub(crate) side: u32,
}

impl Frame {
    // The vertices of a graph in one row, with tiles of this side.
    pub(crate) fn row(graph: &Graph, side: u32) -> Frame
        requires { 1 ≤ side }
        ensures value { result ≡ record { width = graph.now.n; height = 1; side = side } }
        ensures frame { IsFrame result }
    {
        Frame {
            width: graph.n(),
            height: 1,
            side,
        }
    }

    // The vertices of a graph as the pixels of a picture, with tiles of this side.
    pub(crate) fn picture(graph: &Graph, width: u32, height: u32, side: u32) -> Frame
        requires side { 1 ≤ side }
        requires pixels { width * height ≡ graph.now.n }
        ensures value { result ≡ record { width = width; height = height; side = side } }
        ensures frame { IsFrame result }
    {
        graph.keeps_its_rules();
        Frame {
            width,
            height,
            side,
        }
    }

    // The grid of the tiles.
    pub(crate) fn grid(self) -> Grid
        requires { IsFrame self }
        ensures { result ≡ grid_in self }
    {
        Grid {
            columns: self.width.div_ceil(self.side),
            rows: self.height.div_ceil(self.side),
        }
    }

    // How many tiles there are.
    pub(crate) fn tiles(self) -> u32
        requires { IsFrame self }
        ensures value { result ≡ tiles_in (grid_in self) }
        ensures small { result ≤ 65536 → IsSmall (grid_in self) }
    {
        let grid = self.grid();
        grid.columns * grid.rows
    }
}
