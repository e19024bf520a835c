//! What holds of every plan, each law as the contract of a function that does nothing.
ghost use Rattle.std.specs.Prelude.{◌≡◌, ℕ, ◌/◌, ◌<◌, ◌≤◌, length};
ghost use Rattle.hg_base.specs.Graph.{WeightedGraph};
ghost use Rattle.edge_laws.specs.Edges.{ListedEdge, IsSameSet, chain, joins, renamed};
ghost use Rattle.hg_base.specs.Lists.{IsIn};
ghost use Rattle.hg_base.specs.Counting.{IsOneToOne};
ghost use Rattle.tile_plan.specs.Merges.{IsCut};
ghost use Rattle.tile_plan.specs.Plan.{TilePlan, IsPlan, blocks, edges_at, grid_of, home, lot_between_vertices, lot_edges, part, part_count, place_of, root, tile_count, vertices};
ghost use Rattle.tile_plan.specs.Laws.{Crosses, HasEdges, HasHalves, HasParentAndSide, IsSomewhere, IsTile, JoinsHalves};

/// The tree of the root cuts the grid of tiles: a rectangle of more than one tile is halved by columns where it has at
/// least as many of them as rows, else by rows, and the first half is the greater. In blocks of `size` vertices vertex
/// v is in tile v / `size`.
pub fn cutting_of_a_plan()
    ensures tree { (p : TilePlan) → IsPlan p → IsCut (grid_of p).columns (grid_of p).rows (part p (root p)).tree }
    ensures blocks { (g : WeightedGraph) (size v : ℕ) → IsPlan (blocks g size) → v < g.n → home (blocks g size) v ≡ v / size }
{}

/// Each part but the root is a half of a later merge, and each merge has two halves, whose tiles and places follow
/// each other.
pub fn parts_of_a_plan()
    ensures parents { (p : TilePlan) (i : ℕ) → IsPlan p → i < part_count p → HasParentAndSide p i }
    ensures halves { (p : TilePlan) (m : ℕ) → IsPlan p → tile_count p ≤ m → m < part_count p → HasHalves p m }
{}

/// What is at and below a merge is what is at and below its halves, then the merge itself.
pub fn merges_of_a_plan()
    ensures joins { (p : TilePlan) (m : ℕ) → IsPlan p → tile_count p ≤ m → m < part_count p → JoinsHalves p m }
    ensures crosses { (p : TilePlan) (m : ℕ) (e : ListedEdge) → IsPlan p → tile_count p ≤ m → m < part_count p → IsIn e (lot_edges p m) → Crosses p m e }
{}

/// Each part covers a range of places, the tiles it has; the room of its first tile holds it.
pub fn places_of_a_plan()
    ensures parts { (p : TilePlan) (i : ℕ) → IsPlan p → i < part_count p → IsSomewhere p i }
    ensures tiles { (p : TilePlan) (t : ℕ) → IsPlan p → t < tile_count p → IsTile p t }
    ensures once { (p : TilePlan) → IsPlan p → IsOneToOne (vertices p) (place_of p) }
    ensures below { (p : TilePlan) (v : ℕ) → IsPlan p → v < vertices p → place_of p v < vertices p }
    ensures some_tile { (p : TilePlan) → IsPlan p → 1 ≤ tile_count p }
{}

/// Each edge is in exactly one lot.
pub fn lots_of_a_plan()
    ensures each { (p : TilePlan) (e : ListedEdge) → IsPlan p → IsIn e p.edges → (i : ℕ) × ((i < part_count p) × IsIn e (lot_between_vertices p i)) }
    ensures once { (p : TilePlan) (i j : ℕ) (e f : ListedEdge) → IsPlan p → i < part_count p → j < part_count p → IsIn e (lot_edges p i) → IsIn f (lot_edges p j) → e.rank ≡ f.rank → i ≡ j }
    ensures edges { (p : TilePlan) (i : ℕ) → IsPlan p → i < part_count p → HasEdges p i }
{}

/// The edges at and below the root are all edges between the places of their ends. So they have the joining edges
/// and the chains of the graph's ranked edges, but for the names of the vertices.
pub fn edges_of_the_root()
    ensures all { (p : TilePlan) → IsPlan p → IsSameSet (edges_at p (root p)) (renamed (place_of p) p.edges) }
    ensures count { (p : TilePlan) → IsPlan p → length (edges_at p (root p)) ≡ length p.edges }
    ensures joining { (p : TilePlan) → IsPlan p → joins (edges_at p (root p)) ≡ renamed (place_of p) (joins p.edges) }
    ensures chains { (p : TilePlan) (v : ℕ) → IsPlan p → v < vertices p → chain (edges_at p (root p)) (place_of p v) ≡ renamed (place_of p) (chain p.edges v) }
{}
