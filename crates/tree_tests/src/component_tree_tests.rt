ghost use Rattle.std.specs.Prelude.{◌≡◌, length, map};
ghost use Rattle.hg_base.specs.Graph.{with_unit_areas};
ghost use Rattle.edge_laws.specs.Rank.{ranked};
ghost use Rattle.tree_laws.specs.Worked.{edge};
ghost use Rattle.partition_tree.specs.Ranked.{IsRankedList, edges_of};
ghost use Rattle.component_tree.specs.Weighed.{weighed_graph};

use crate::graphs::graph_of;
use component_tree::{
    ComponentTree, Side, Values, component_tree, components_pieces, weighed, write_components,
};
use partition_tree::{Ranked, Tree};
use std::alloc::Global;
use std::process::Abort;
use std::test::Fail;
use std::thread::Threads;

// The edges of a picture of 2 by 2 pixels, two ends and a weight each.
const SQUARE: [(u32, u32, u32); 4] = [(0, 1, 3), (0, 2, 3), (1, 3, 6), (2, 3, 6)];

const SQUARE_SAMPLES: [u32; 4] = [0, 3, 3, 9];

// The edges of a picture of 3 by 1 pixels.
const ROW: [(u32, u32, u32); 2] = [(0, 1, 3), (1, 2, 3)];

const ROW_SAMPLES: [u32; 3] = [2, 5, 2];

// The component tree of a graph with these edges and values, whose weighed edges are the list in order of rank.
fn components(
    rt: &impl Abort,
    alloc: Global,
    side: Side,
    samples: &[u32],
    rows: &[(u32, u32, u32)],
    list: &[Ranked],
) -> Result<ComponentTree, Fail>
    requires list { IsRankedList (length samples.now) list.now }
    requires ranked { edges_of list.now ≡ ranked (weighed_graph side samples.now (with_unit_areas (length samples.now) (map edge rows.now))) }
{
    let n = samples.len() as u32;
    let graph = graph_of(rt, alloc, n, rows)?;
    let values = Values::new(Vec::from_slice(alloc, samples)?);
    let weighed = weighed(alloc, &graph, &values, side)?;
    let tree = Tree::of_list(alloc, n, list)?;
    Ok(component_tree(alloc, &values, side, &weighed, &tree)?)
}

// The report of a component tree, and its pieces.
fn assert_report(
    rt: &(impl Abort + Threads + Sync),
    alloc: Global,
    tree: &ComponentTree,
    side: Side,
    report: &str,
) {
    let text = write_components(alloc, tree, side).expect(rt, "ample memory");
    assert_eq!(rt; text.as_slice(), report.as_bytes());
    let pieces = components_pieces(rt, alloc, tree, side).expect(rt, "ample memory");
    let joined = pieces.joined(alloc).expect(rt, "ample memory");
    assert_eq!(rt; joined.as_slice(), report.as_bytes());
}

#[test]
fn min_tree(rt: HostRuntime) -> Result<(), Fail> {
    let list = [
        Ranked {
            u: 0,
            v: 1,
            edge: 0,
            altitude: 3,
        },
        Ranked {
            u: 0,
            v: 2,
            edge: 1,
            altitude: 3,
        },
        Ranked {
            u: 1,
            v: 3,
            edge: 2,
            altitude: 9,
        },
        Ranked {
            u: 2,
            v: 3,
            edge: 3,
            altitude: 9,
        },
    ];
    let report = "mintree 7 4\n0 4 0\n1 5 3\n2 5 3\n3 6 9\n4 5 0\n5 6 3\n6 6 9\n";
    let tree = components(&rt, rt.alloc(), Side::Min, &SQUARE_SAMPLES, &SQUARE, &list)?;
    assert_report(&rt, rt.alloc(), &tree, Side::Min, report);
    assert_eq!(rt; tree.nodes(), 7);
    assert_eq!(rt; tree.leaves(), 4);
    assert_eq!(rt; tree.parent(4), 5);
    assert_eq!(rt; tree.level(5), 3);
    Ok(())
}

#[test]
fn max_tree(rt: HostRuntime) -> Result<(), Fail> {
    let list = [
        Ranked {
            u: 1,
            v: 3,
            edge: 2,
            altitude: 4_294_967_292,
        },
        Ranked {
            u: 2,
            v: 3,
            edge: 3,
            altitude: 4_294_967_292,
        },
        Ranked {
            u: 0,
            v: 1,
            edge: 0,
            altitude: 4_294_967_295,
        },
        Ranked {
            u: 0,
            v: 2,
            edge: 1,
            altitude: 4_294_967_295,
        },
    ];
    let report = "maxtree 7 4\n0 6 0\n1 5 3\n2 5 3\n3 4 9\n4 5 9\n5 6 3\n6 6 0\n";
    let tree = components(&rt, rt.alloc(), Side::Max, &SQUARE_SAMPLES, &SQUARE, &list)?;
    assert_report(&rt, rt.alloc(), &tree, Side::Max, report);
    Ok(())
}

// A zone tree would lack the nodes of one vertex.
#[test]
fn nodes_of_one_vertex(rt: HostRuntime) -> Result<(), Fail> {
    let list = [
        Ranked {
            u: 0,
            v: 1,
            edge: 0,
            altitude: 5,
        },
        Ranked {
            u: 1,
            v: 2,
            edge: 1,
            altitude: 5,
        },
    ];
    let report = "mintree 6 3\n0 3 2\n1 5 5\n2 4 2\n3 5 2\n4 5 2\n5 5 5\n";
    let tree = components(&rt, rt.alloc(), Side::Min, &ROW_SAMPLES, &ROW, &list)?;
    assert_report(&rt, rt.alloc(), &tree, Side::Min, report);
    Ok(())
}
