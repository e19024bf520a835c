ghost use Rattle.std.specs.Prelude.{◌≤◌};
ghost use Rattle.graph_hierarchy.specs.Tilings.{AreTiles};

use crate::graphs::graph_of;
use graph_hierarchy::{GraphHierarchy, Tiling};
use hg_base::OpenGate;
use std::alloc::Global;
use std::process::Abort;
use std::thread::Threads;

// The ends and weights of the edges of a cycle of four vertices.
const CYCLE: [(u32, u32, u32); 4] = [(0, 1, 5), (2, 3, 6), (1, 2, 1), (0, 3, 2)];

// Edges 2, 3 and 0 join, in this order, whatever the tiles and the workers.
fn assert_tree(
    rt: &(impl Abort + Threads + Sync),
    alloc: Global,
    tiling: Tiling,
    workers: u32,
    tiles: u32,
)
    requires tiling { AreTiles tiling 4 }
    requires some { 1 ≤ workers }
    requires few { workers ≤ 64 }
{
    let graph = graph_of(rt, alloc, 4, &CYCLE).expect(rt, "ample memory");
    let made = GraphHierarchy::of(rt, alloc, &graph, tiling, workers, &OpenGate).expect(
        rt,
        "ample memory",
    );
    assert_eq!(rt; made.tree.parents(), [5, 4, 4, 5, 6, 6, 6].as_slice());
    assert_eq!(rt; made.tree.altitudes(), [0, 0, 0, 0, 1, 2, 5].as_slice());
    assert_eq!(rt; made.order.len(), 4);
    assert_eq!(rt; made.receipt.tiles(), tiles);
    assert_eq!(rt; made.receipt.workers(), workers);
}

#[test]
fn in_any_tiles(rt: HostRuntime) {
    assert_tree(&rt, rt.alloc(), Tiling::Blocks(1), 3, 4);
    assert_tree(&rt, rt.alloc(), Tiling::Blocks(64), 1, 1);
    let rows = Tiling::Squares {
        width: 1,
        height: 4,
        side: 2,
    };
    assert_tree(&rt, rt.alloc(), rows, 2, 2);
}
