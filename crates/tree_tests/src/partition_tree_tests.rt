ghost use Rattle.std.specs.Prelude.{◌≡◌};
ghost use Rattle.border_climb.specs.Stands.{Stands};
ghost use Rattle.tile_plan.specs.Plan.{edges_at, root};
ghost use Rattle.partition_tree.specs.Ranked.{IsRankedList};

use crate::graphs::{APART, TRIANGLE, graph_of};
use border_climb::Part;
use edge_order::Order;
use hg_base::{Graph, OpenGate};
use merge_board::{Board, hierarchy};
use partition_tree::{Ancestors, Children, Ranked, Tree, tree_pieces, write_tree};
use std::alloc::{AllocError, Global};
use std::process::Abort;
use std::test::Fail;
use std::thread::Threads;
use tile_plan::Plan;

// Edges in order of rank.
const PATH: [Ranked; 2] = [
    Ranked {
        u: 1,
        v: 2,
        edge: 1,
        altitude: 3,
    },
    Ranked {
        u: 0,
        v: 1,
        edge: 0,
        altitude: 5,
    },
];

// Two paths of nodes that meet in the last.
const PATHS: [Ranked; 5] = [
    Ranked {
        u: 0,
        v: 1,
        edge: 0,
        altitude: 1,
    },
    Ranked {
        u: 2,
        v: 3,
        edge: 1,
        altitude: 2,
    },
    Ranked {
        u: 0,
        v: 4,
        edge: 2,
        altitude: 3,
    },
    Ranked {
        u: 2,
        v: 5,
        edge: 3,
        altitude: 4,
    },
    Ranked {
        u: 0,
        v: 2,
        edge: 4,
        altitude: 5,
    },
];

// Two nodes of the tree of the two paths a row, and their lowest common ancestor.
const LOWEST: [(u32, u32, Option<u32>); 8] = [
    (0, 0, Some(0)),
    (0, 1, Some(6)),
    (1, 4, Some(8)),
    (3, 5, Some(9)),
    (0, 2, Some(10)),
    (7, 8, Some(10)),
    (6, 0, Some(6)),
    (10, 3, Some(10)),
];

// The same of an edge beside a vertex that has none.
const LOWEST_APART: [(u32, u32, Option<u32>); 3] = [(0, 1, Some(3)), (0, 2, None), (2, 3, None)];

fn assert_report(rt: &impl Abort, alloc: Global, n: u32, list: &[Ranked], report: &str)
    requires { IsRankedList n list.now }
{
    let tree = Tree::of_list(alloc, n, list).expect(rt, "ample memory");
    let text = write_tree(alloc, &tree).expect(rt, "ample memory");
    assert_eq!(rt; text.as_slice(), report.as_bytes());
}

#[test]
fn reports(rt: HostRuntime) {
    let report = "tree 5 3\n0 4 0\n1 3 0\n2 3 0\n3 4 3\n4 4 5\n";
    assert_report(&rt, rt.alloc(), 3, &PATH, report);
    assert_report(&rt, rt.alloc(), 1, &[], "tree 1 1\n0 0 0\n");
    let report = "tree 5 3\n0 3 0\n1 3 0\n2 4 0\n3 4 1\n4 4 1\n";
    assert_report(&rt, rt.alloc(), 3, &TRIANGLE, report);
    let report = "tree 4 3\n0 3 0\n1 3 0\n2 2 0\n3 3 4\n";
    assert_report(&rt, rt.alloc(), 3, &APART, report);
    assert_report(&rt, rt.alloc(), 2, &[], "tree 2 2\n0 0 0\n1 1 0\n");
}

fn assert_node(rt: &impl Abort, tree: &Tree, node: u32, parent: u32, altitude: u64) {
    assert!(rt; node < tree.nodes());
    assert_eq!(rt; tree.parent(node), parent);
    assert_eq!(rt; tree.altitude(node), altitude);
}

fn assert_maker(rt: &impl Abort, tree: &Tree, node: u32, maker: u32) {
    assert!(rt; tree.leaves() <= node && node < tree.nodes());
    assert_eq!(rt; tree.maker(node), maker);
}

#[test]
fn readers(rt: HostRuntime) {
    let tree = Tree::of_list(rt.alloc(), 3, &APART).expect(&rt, "ample memory");
    assert_eq!(rt; tree.nodes(), 4);
    assert_eq!(rt; tree.leaves(), 3);
    assert_eq!(rt; tree.roots(), 2);
    assert_node(&rt, &tree, 0, 3, 0);
    assert_node(&rt, &tree, 1, 3, 0);
    assert_node(&rt, &tree, 2, 2, 0);
    assert_node(&rt, &tree, 3, 3, 4);
    assert_maker(&rt, &tree, 3, 0);
}

fn assert_children(rt: &impl Abort, tree: &Tree, listed: &Children, node: u32, children: &[u32])
    requires { listed.now ≡ tree.now }
{
    assert!(rt; node < tree.nodes());
    assert_eq!(rt; tree.child_count(node) as usize, children.len());
    assert_eq!(rt; listed.count(node) as usize, children.len());
    for (k, child) in children.iter().enumerate() {
        assert!(rt; (k as u32) < tree.child_count(node));
        assert_eq!(rt; tree.child(node, k as u32), *child);
        assert_eq!(rt; listed.child(node, k as u32), *child);
    }
}

#[test]
fn children(rt: HostRuntime) {
    let tree = Tree::of_list(rt.alloc(), 6, &PATHS).expect(&rt, "ample memory");
    let listed = Children::of(rt.alloc(), &tree).expect(&rt, "ample memory");
    assert_children(&rt, &tree, &listed, 0, &[]);
    assert_children(&rt, &tree, &listed, 6, &[0, 1]);
    assert_children(&rt, &tree, &listed, 8, &[4, 6]);
    assert_children(&rt, &tree, &listed, 9, &[5, 7]);
    assert_children(&rt, &tree, &listed, 10, &[8, 9]);
}

fn assert_lowest(
    rt: &impl Abort,
    tree: &Tree,
    ancestors: &Ancestors,
    a: u32,
    b: u32,
    lowest: Option<u32>,
)
    requires { ancestors.now ≡ tree.now }
{
    assert!(rt; a < tree.nodes() && b < tree.nodes());
    assert_eq!(rt; tree.lca(a, b), lowest);
    assert_eq!(rt; ancestors.lca(a, b), lowest);
}

// Two nodes and their lowest common ancestor a row, whichever of the two comes first.
fn assert_all_lowest(
    rt: &impl Abort,
    tree: &Tree,
    ancestors: &Ancestors,
    rows: &[(u32, u32, Option<u32>)],
)
    requires { ancestors.now ≡ tree.now }
{
    for &(a, b, lowest) in rows {
        assert_lowest(rt, tree, ancestors, a, b, lowest);
        assert_lowest(rt, tree, ancestors, b, a, lowest);
    }
}

#[test]
fn lowest_common_ancestors(rt: HostRuntime) {
    let tree = Tree::of_list(rt.alloc(), 6, &PATHS).expect(&rt, "ample memory");
    let ancestors = Ancestors::of(rt.alloc(), &tree).expect(&rt, "ample memory");
    assert_all_lowest(&rt, &tree, &ancestors, &LOWEST);
    let apart = Tree::of_list(rt.alloc(), 3, &APART).expect(&rt, "ample memory");
    let apart_ancestors = Ancestors::of(rt.alloc(), &apart).expect(&rt, "ample memory");
    assert_all_lowest(&rt, &apart, &apart_ancestors, &LOWEST_APART);
}

#[test]
fn lists(rt: HostRuntime) -> Result<(), Fail> {
    let parents = vec![in rt.alloc(); 2, 2, 2]?;
    let altitudes = vec![in rt.alloc(); 0, 0, 7]?;
    let makers = vec![in rt.alloc(); 5]?;
    let tree = Tree::from_lists(rt.alloc(), 2, parents, altitudes, makers)?;
    assert_written(&rt, rt.alloc(), &tree, "tree 3 2\n0 2 0\n1 2 0\n2 2 7\n");
    assert_maker(&rt, &tree, 2, 5);
    Ok(())
}

// The report of a tree, and its pieces.
fn assert_written(rt: &(impl Abort + Threads + Sync), alloc: Global, tree: &Tree, report: &str) {
    let text = write_tree(alloc, tree).expect(rt, "ample memory");
    assert_eq!(rt; text.as_slice(), report.as_bytes());
    let pieces = tree_pieces(rt, alloc, tree).expect(rt, "ample memory");
    let joined = pieces.joined(alloc).expect(rt, "ample memory");
    assert_eq!(rt; joined.as_slice(), text.as_slice());
}

// The part of a plan, which took in all edges.
fn whole_part(rt: &(impl Abort + Threads + Sync), alloc: Global, plan: &Plan) -> Part
    ensures { Stands result (edges_at plan.now (root plan.now)) }
{
    let (board, mut seats) = Board::set_up(alloc, plan, 2).expect(rt, "ample memory");
    hierarchy(rt, &board, &mut seats, plan, &OpenGate);
    let (part, _) = board.close(plan, seats);
    part
}

// The trees that are made over a plan of blocks, in one thread and in many.
fn planned_trees(
    rt: &(impl Abort + Threads + Sync),
    alloc: Global,
    graph: &Graph,
    tile: u32,
) -> (Tree, Tree) {
    let order = Order::of(rt, alloc, graph).expect(rt, "ample memory");
    assert!(rt; 1 <= tile);
    let plan = Plan::blocks(alloc, graph, &order, tile).expect(rt, "ample memory");
    let part = whole_part(rt, alloc, &plan);
    let places = part.count();
    let vertices = plan.n();
    assert!(rt; part.first() == 0);
    assert!(rt; places == vertices);
    let tree = Tree::of_part(alloc, &order, &plan, &part).expect(rt, "ample memory");
    let threaded = Tree::of_part_in_threads(rt, alloc, &order, &plan, &part).expect(
        rt,
        "ample memory",
    );
    (tree, threaded)
}

// The report of the tree that is made over a plan of blocks.
fn assert_planned(
    rt: &(impl Abort + Threads + Sync),
    alloc: Global,
    n: u32,
    rows: &[(u32, u32, u32)],
    tile: u32,
    report: &str,
) {
    let graph = graph_of(rt, alloc, n, rows).expect(rt, "ample memory");
    let (tree, threaded) = planned_trees(rt, alloc, &graph, tile);
    let text = write_tree(alloc, &tree).expect(rt, "ample memory");
    assert_eq!(rt; text.as_slice(), report.as_bytes());
    let text = write_tree(alloc, &threaded).expect(rt, "ample memory");
    assert_eq!(rt; text.as_slice(), report.as_bytes());
}

#[test]
fn over_plans(rt: HostRuntime) {
    // In the second tile the edge of weight 6 joins, until the border is merged.
    let rows = &[(0, 1, 5), (2, 3, 6), (1, 2, 1), (0, 3, 2)];
    let report = "tree 7 4\n0 5 0\n1 4 0\n2 4 0\n3 5 0\n4 6 1\n5 6 2\n6 6 5\n";
    assert_planned(&rt, rt.alloc(), 4, rows, 2, report);
    let rows = &[(0, 1, 5), (1, 2, 3)];
    let report = "tree 5 3\n0 4 0\n1 3 0\n2 3 0\n3 4 3\n4 4 5\n";
    assert_planned(&rt, rt.alloc(), 3, rows, 64, report);
    let report = "tree 4 3\n0 3 0\n1 3 0\n2 2 0\n3 3 4\n";
    assert_planned(&rt, rt.alloc(), 3, &[(0, 1, 4)], 64, report);
}

// Rows of vertices in twelve pieces, with edges to the next one and across: so many that threads are taken.
fn long_rows(alloc: Global) -> Result<Vec<(u32, u32, u32)>, AllocError> {
    let mut rows = Vec::new(alloc);
    for v in 0..12_000_u32 {
        if v % 1000 < 999 {
            rows.push((v, v + 1, v * 7919 % 1009))?;
        }
        if v % 1000 < 500 {
            rows.push((v, v + 499, v * 6101 % 997))?;
        }
    }
    Ok(rows)
}

#[test]
fn one_tree_in_many_threads(rt: HostRuntime) {
    let rows = long_rows(rt.alloc()).expect(&rt, "ample memory");
    let graph = graph_of(&rt, rt.alloc(), 12_000, &rows).expect(&rt, "ample memory");
    let (tree, threaded) = planned_trees(&rt, rt.alloc(), &graph, 6400);
    // Twelve components of 1,000 vertices have 999 inner nodes each.
    assert_eq!(rt; threaded.nodes(), 23_988);
    assert_eq!(rt; threaded.roots(), 12);
    let text = write_tree(rt.alloc(), &tree).expect(&rt, "ample memory");
    let threaded_text = write_tree(rt.alloc(), &threaded).expect(&rt, "ample memory");
    assert_eq!(rt; threaded_text.as_slice(), text.as_slice());
}
