// The values of the edges around a pixel.
ghost use Rattle.std.specs.Prelude.{◌≡◌, ◌+◌, ◌-◌, ◌*◌, ◌<◌, ◌≤◌, length};
ghost use Rattle.contour_map.specs.Places.{AreEdgeValues, right_edge, below_edge};
ghost use Rattle.contour_map.specs.Contours.{right_value, below_value, corner_value, point_value};

// A value for each edge of the graph of a picture of this width and height in pixels, by edge number.
#[derive(Clone, Copy)]
pub(crate) struct EdgeValues<'a> {
    pub width: u32,
    pub height: u32,
    pub values: &'a [u64],
}

impl EdgeValues<'_> {
    // The value of the point in this column and row of the grid.
    pub(crate) fn point(&self, x: u32, y: u32) -> u64
        requires values { AreEdgeValues self.now.width self.now.height self.now.values.now }
        requires column { x < 2 * self.now.width - 1 }
        requires row { y < 2 * self.now.height - 1 }
        ensures { result ≡ point_value self.now.width self.now.height self.now.values.now x y }
    {
        match (x % 2, y % 2) {
            (0, 0) => 0,
            (0, _) => self.below(x / 2, y / 2),
            (_, 0) => self.right(x / 2, y / 2),
            (_, _) => self.corner(x / 2, y / 2),
        }
    }

    // The greatest value of the four edges around the corner to the right of a pixel and below it.
    fn corner(&self, x: u32, y: u32) -> u64
        requires values { AreEdgeValues self.now.width self.now.height self.now.values.now }
        requires column { x + 1 < self.now.width }
        requires row { y + 1 < self.now.height }
        ensures { result ≡ corner_value self.now.width self.now.height self.now.values.now x y }
    {
        let rights = self.right(x, y).max(self.right(x, y + 1));
        let belows = self.below(x, y).max(self.below(x + 1, y));
        rights.max(belows)
    }

    // The value of the edge from a pixel to the one to its right.
    fn right(&self, x: u32, y: u32) -> u64
        requires values { AreEdgeValues self.now.width self.now.height self.now.values.now }
        requires column { x + 1 < self.now.width }
        requires row { y < self.now.height }
        ensures { result ≡ right_value self.now.width self.now.height self.now.values.now x y }
    {
        self.values[self.right_number(x, y) as usize]
    }

    // The value of the edge from a pixel to the one below.
    fn below(&self, x: u32, y: u32) -> u64
        requires values { AreEdgeValues self.now.width self.now.height self.now.values.now }
        requires column { x < self.now.width }
        requires row { y + 1 < self.now.height }
        ensures { result ≡ below_value self.now.width self.now.values.now x y }
    {
        self.values[self.below_number(x, y) as usize]
    }

    // The number of the edge from a pixel to the one to its right.
    fn right_number(&self, x: u32, y: u32) -> u32
        requires values { AreEdgeValues self.now.width self.now.height self.now.values.now }
        requires column { x + 1 < self.now.width }
        requires row { y < self.now.height }
        ensures number { result ≡ right_edge self.now.width self.now.height x y }
        ensures within { result < length self.now.values.now }
    {
        let first = self.first_number(y);
        if y + 1 < self.height {
            first + 2 * x
        } else {
            first + x
        }
    }

    // The number of the edge from a pixel to the one below.
    fn below_number(&self, x: u32, y: u32) -> u32
        requires values { AreEdgeValues self.now.width self.now.height self.now.values.now }
        requires column { x < self.now.width }
        requires row { y + 1 < self.now.height }
        ensures number { result ≡ below_edge self.now.width x y }
        ensures within { result < length self.now.values.now }
    {
        let first = self.first_number(y);
        if x + 1 < self.width {
            first + (2 * x + 1)
        } else {
            first + 2 * x
        }
    }

    // The number of the first edge from a row's pixels.
    fn first_number(&self, y: u32) -> u32
        requires values { AreEdgeValues self.now.width self.now.height self.now.values.now }
        requires row { y < self.now.height }
        ensures number { result ≡ y * (2 * self.now.width - 1) }
        ensures few { result ≤ 2097152 }
        ensures narrow { self.now.width ≤ 1048576 }
    {
        y * (2 * self.width - 1)
    }
}
