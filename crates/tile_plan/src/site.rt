ghost use Rattle.std.specs.Prelude.{◌≡◌, ℕ, ◌+◌, ◌-◌, ◌*◌, ◌<◌, ◌≤◌, IsTrue, ◌↔◌};
ghost use Rattle.tile_plan.specs.Merges.{MergeTree, merges, tile_at, tiles};
ghost use Rattle.tile_plan.specs.Sites.{find, is_left, left_site, part_number, right_site};
ghost use Rattle.tile_plan.specs.Grids.{AreHalves, AreSideBySide, AreStacked, IsSited, IsSmall, IsGridTree, lot_number, row_of_part, tiles_in};
ghost use Rattle.tile_plan.specs.declared.site.Side.TheVariants as sides;

/// Which half of a merge a part is.
#[derive(Clone, Copy, Debug, PartialEq, Eq)]
pub enum Side {
    Left,
    Right,
}

// A rectangle of tiles.
#[derive(Clone, Copy)]
pub(crate) struct Grid {
    pub(crate) columns: u32,
    pub(crate) rows: u32,
}

// Where a part stands: its first tile, how many merges are numbered before those in it, its parent, which half of it
// the part is, and how many tiles the largest part with the same first tile has.
#[derive(Clone, Copy)]
pub(crate) struct Site {
    pub(crate) first_tile: u32,
    pub(crate) first_merge: u32,
    pub(crate) parent: u32,
    pub(crate) side: Side,
    pub(crate) room: u32,
}

// A part of the plan: where it stands, how many tiles it has, and the numbers of its halves.
#[derive(Clone, Copy)]
pub(crate) struct Row {
    pub(crate) site: Site,
    pub(crate) tiles: u32,
    pub(crate) left: u32,
    pub(crate) right: u32,
}

impl Grid {
    // How many tiles the grid has.
    pub(crate) fn tiles(self) -> u32
        requires { IsSmall self }
        ensures value { result ≡ tiles_in self }
        ensures some { 1 ≤ result }
        ensures few { result ≤ 65536 }
        ensures tree { (t : MergeTree) → IsGridTree self t → result ≡ tiles t }
    {
        self.columns * self.rows
    }

    // The halves: by columns where there are at least as many of them as rows, else by rows. The first is the greater.
    pub(crate) fn halves(self) -> (Grid, Grid)
        requires small { IsSmall self }
        requires more { 1 < tiles_in self }
        ensures first { IsSmall result.0 }
        ensures second { IsSmall result.1 }
        ensures sum { tiles_in result.0 + tiles_in result.1 ≡ tiles_in self }
        ensures tree { (t : MergeTree) → IsGridTree self t → AreHalves t result.0 result.1 }
        ensures by_columns { self.rows ≤ self.columns → AreSideBySide self result.0 result.1 }
        ensures by_rows { self.columns < self.rows → AreStacked self result.0 result.1 }
        ensures first_smaller { result.0.columns + result.0.rows < self.columns + self.rows }
        ensures second_smaller { result.1.columns + result.1.rows < self.columns + self.rows }
    {
        let Grid { columns, rows } = self;
        if rows <= columns {
            let first = columns.div_ceil(2);
            (
                Grid {
                    columns: first,
                    rows,
                },
                Grid {
                    columns: columns - first,
                    rows,
                },
            )
        } else {
            let first = rows.div_ceil(2);
            (
                Grid {
                    columns,
                    rows: first,
                },
                Grid {
                    columns,
                    rows: rows - first,
                },
            )
        }
    }

    // The number of the tile at a column and a row.
    pub(crate) fn tile_at(self, column: u32, row: u32) -> u32
        requires small { IsSmall self }
        requires column { column < self.columns }
        requires row { row < self.rows }
        ensures value { (t : MergeTree) → IsGridTree self t → result ≡ tile_at t column row }
        ensures below { result < tiles_in self }
    {
        if self.tiles() == 1 {
            return 0;
        }
        let (first, second) = self.halves();
        if self.rows <= self.columns {
            if column < first.columns {
                first.tile_at(column, row)
            } else {
                first.tiles() + second.tile_at(column - first.columns, row)
            }
        } else if row < first.rows {
            first.tile_at(column, row)
        } else {
            first.tiles() + second.tile_at(column, row - first.rows)
        }
    }
}

// The number of a part in a plan of `n` tiles.
fn number(n: u32, grid: Grid, site: Site) -> u32
    requires small { IsSmall grid }
    requires sited { IsSited n grid site }
    ensures { (t : MergeTree) → IsGridTree grid t → result ≡ part_number n t site }
{
    let tiles = grid.tiles();
    if tiles == 1 {
        site.first_tile
    } else {
        n + site.first_merge + tiles - 2
    }
}

// Where the left half of a merge stands.
fn left_site(site: Site, parent: u32) -> Site
    ensures same { result ≡ record { first_tile = site.first_tile; first_merge = site.first_merge; parent = parent; side = sides.Left; room = site.room } }
{
    Site {
        parent,
        side: Side::Left,
        ..site
    }
}

// Where the right half of a merge stands, by the tiles of both halves.
fn right_site(site: Site, parent: u32, first: u32, second: u32) -> Site
    requires some { 1 ≤ first }
    requires tile { site.first_tile + first ≤ 65536 }
    requires merge { site.first_merge ≤ site.first_tile }
    ensures { result ≡ record { first_tile = site.first_tile + first; first_merge = site.first_merge + (first - 1); parent = parent; side = sides.Right; room = second } }
{
    Site {
        first_tile: site.first_tile + first,
        first_merge: site.first_merge + (first - 1),
        parent,
        side: Side::Right,
        room: second,
    }
}

// Whether a part stands in the left half of a merge, by the number of tiles in that half.
fn is_left(n: u32, first: u32, site: Site, p: u32) -> bool
    requires some { 1 ≤ first }
    requires tile { site.first_tile + first ≤ 65536 }
    requires merge { site.first_merge ≤ site.first_tile }
    requires plan { n ≤ 65536 }
    ensures { (x : MergeTree) → tiles x ≡ first → result ≡ is_left n x site p }
{
    if p < n {
        p < site.first_tile + first
    } else {
        p < n + site.first_merge + (first - 1)
    }
}

// The part of number `p` at or below one.
pub(crate) fn find(n: u32, grid: Grid, site: Site, p: u32) -> Row
    requires small { IsSmall grid }
    requires sited { IsSited n grid site }
    ensures { (t : MergeTree) → IsGridTree grid t → result ≡ row_of_part n (find n t site p) }
{
    let own = number(n, grid, site);
    let tiles = grid.tiles();
    if tiles == 1 {
        return Row {
            site,
            tiles,
            left: 0,
            right: 0,
        };
    }
    let (first, second) = grid.halves();
    let left = left_site(site, own);
    let right = right_site(site, own, first.tiles(), second.tiles());
    if p == own {
        Row {
            site,
            tiles,
            left: number(n, first, left),
            right: number(n, second, right),
        }
    } else if is_left(n, first.tiles(), site, p) {
        find(n, first, left, p)
    } else {
        find(n, second, right, p)
    }
}

// The part whose lot an edge between tiles `a` and `b` is in.
pub(crate) fn lot_of(n: u32, grid: Grid, site: Site, a: u32, b: u32) -> u32
    requires small { IsSmall grid }
    requires sited { IsSited n grid site }
    ensures { (t : MergeTree) → IsGridTree grid t → result ≡ lot_number n t site a b }
{
    let own = number(n, grid, site);
    if grid.tiles() == 1 {
        return own;
    }
    let (first, second) = grid.halves();
    let border = site.first_tile + first.tiles();
    if a < border && b < border {
        lot_of(n, first, left_site(site, own), a, b)
    } else if border <= a && border <= b {
        let right = right_site(site, own, first.tiles(), second.tiles());
        lot_of(n, second, right, a, b)
    } else {
        own
    }
}
