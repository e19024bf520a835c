ghost use Rattle.std.specs.Prelude.{◌≡◌, length};
ghost use Rattle.edge_laws.specs.Rank.{ranked};
ghost use Rattle.tree_laws.specs.Tree.{graph_tree};
ghost use Rattle.attributes.specs.Attributes.{attributes_of};
ghost use Rattle.watershed_cut.specs.MinimumLabels.{minima_of};
ghost use Rattle.partition_tree.specs.Ranked.{IsRankedList, edges_of};
ghost use Rattle.tree_tests.specs.Graphs.{graph_from};

use crate::graphs::{APART, APART_ROWS, PATH, PATH_ROWS, graph_with};
use attributes::Attributes;
use edge_order::Order;
use extinction::{
    Kind, extinctions, hierarchical, hierarchical_pieces, hierarchical_saliencies, persistence,
    write_hierarchical,
};
use hg_base::Graph;
use partition_tree::{Ranked, Tree};
use saliency::{ends_share_roots, saliency};
use std::alloc::Global;
use std::process::Abort;
use std::thread::Threads;
use watershed_cut::Minima;

// Edges in order of number, two ends and a weight each, and the same in order of rank.
const LONG_PATH: [(u32, u32, u32); 5] = [(0, 1, 1), (1, 2, 4), (2, 3, 2), (3, 4, 6), (4, 5, 1)];

const RANKED_LONG_PATH: [Ranked; 5] = [
    Ranked {
        u: 0,
        v: 1,
        edge: 0,
        altitude: 1,
    },
    Ranked {
        u: 4,
        v: 5,
        edge: 4,
        altitude: 1,
    },
    Ranked {
        u: 2,
        v: 3,
        edge: 2,
        altitude: 2,
    },
    Ranked {
        u: 1,
        v: 2,
        edge: 1,
        altitude: 4,
    },
    Ranked {
        u: 3,
        v: 4,
        edge: 3,
        altitude: 6,
    },
];

// The saliencies of a graph's edges in its hierarchical watershed are these.
fn has_saliencies(rt: &impl Abort, alloc: Global, graph: &Graph, hierarchy: &Tree, values: &[u64])
    requires { hierarchy.now.leaves ≡ graph.now.n }
{
    let shared = ends_share_roots(alloc, graph, hierarchy).expect(rt, "ample memory");
    assert!(rt; shared);
    let saliencies = saliency(alloc, graph, hierarchy).expect(rt, "ample memory");
    assert_eq!(rt; saliencies.as_slice(), values);
}

// The report of a hierarchical watershed with these extinctions, whose pieces are the same bytes.
fn written(
    rt: &(impl Abort + Threads + Sync),
    alloc: Global,
    hierarchy: &Tree,
    ends: &[u64],
) -> Vec<u8> {
    let text = write_hierarchical(alloc, hierarchy, ends).expect(rt, "ample memory");
    let pieces = hierarchical_pieces(rt, alloc, hierarchy, ends).expect(rt, "ample memory");
    let joined = pieces.joined(alloc).expect(rt, "ample memory");
    assert_eq!(rt; joined.as_slice(), text.as_slice());
    text
}

// The report of the hierarchical watershed of a graph, by what was found of it and the extinctions of its minima.
fn reported(
    rt: &(impl Abort + Threads + Sync),
    alloc: Global,
    graph: &Graph,
    tree: &Tree,
    attributes: &Attributes,
    minima: &Minima,
    ends: &[u64],
    kind: Kind,
) -> Vec<u8>
    requires tree { tree.now ≡ graph_tree graph.now }
    requires attributes { attributes.now ≡ attributes_of graph.now }
    requires minima { minima.now ≡ minima_of graph.now }
{
    let hierarchy = hierarchical(alloc, graph, tree, attributes, minima, kind).expect(
        rt,
        "ample memory",
    );
    let drawn = hierarchical_saliencies(rt, alloc, graph, tree, attributes, minima, kind).expect(
        rt,
        "ample memory",
    );
    has_saliencies(rt, alloc, graph, &hierarchy, &drawn);
    written(rt, alloc, &hierarchy, ends)
}

// The persistences and the report of the hierarchical watershed of the graph with these areas and edges, of which the
// list is the same in order of rank.
fn found(
    rt: &(impl Abort + Threads + Sync),
    alloc: Global,
    areas: &[u32],
    rows: &[(u32, u32, u32)],
    list: &[Ranked],
    kind: Kind,
) -> (Vec<u64>, Vec<u8>)
    requires list { IsRankedList (length areas.now) list.now }
    requires ranked { edges_of list.now ≡ ranked (graph_from (length areas.now) areas.now rows.now) }
{
    let graph = graph_with(rt, alloc, areas, rows).expect(rt, "ample memory");
    let order = Order::of(rt, alloc, &graph).expect(rt, "ample memory");
    let tree = Tree::of_list(alloc, graph.n(), list).expect(rt, "ample memory");
    let attributes = Attributes::of(alloc, &graph, &tree).expect(rt, "ample memory");
    let minima = Minima::of(alloc, &graph, &order, &tree).expect(rt, "ample memory");
    let values = persistence(alloc, &tree, &attributes, &minima, kind).expect(rt, "ample memory");
    let ends = extinctions(alloc, &tree, &attributes, &minima, kind).expect(rt, "ample memory");
    let text = reported(rt, alloc, &graph, &tree, &attributes, &minima, &ends, kind);
    (values, text)
}

// Compares the report of a hierarchical watershed with a text.
fn assert_report(
    rt: &(impl Abort + Threads + Sync),
    alloc: Global,
    areas: &[u32],
    rows: &[(u32, u32, u32)],
    list: &[Ranked],
    kind: Kind,
    report: &str,
)
    requires list { IsRankedList (length areas.now) list.now }
    requires ranked { edges_of list.now ≡ ranked (graph_from (length areas.now) areas.now rows.now) }
{
    let (_, text) = found(rt, alloc, areas, rows, list, kind);
    assert_eq!(rt; text.as_slice(), report.as_bytes());
}

// The path's hierarchical watershed of this kind: the greater persistence, and the end of the report.
fn assert_path(
    rt: &(impl Abort + Threads + Sync),
    alloc: Global,
    kind: Kind,
    top: u64,
    rest: &str,
) {
    let tree = "tree 7 4\n0 4 0\n1 4 0\n2 5 0\n3 5 0\n4 6 0\n5 6 0\n6 6 ";
    let (values, text) = found(rt, alloc, &[1, 1, 1, 1], &PATH_ROWS, &PATH, kind);
    assert_eq!(rt; values.as_slice(), [0, 0, top].as_slice());
    assert!(rt; text.starts_with(tree.as_bytes()));
    assert!(rt; text.ends_with(rest.as_bytes()));
    assert_eq!(rt; text.len(), tree.len() + rest.len());
}

#[test]
fn a_path_by_each_kind(rt: HostRuntime) {
    let alloc = rt.alloc();
    assert_path(
        &rt,
        alloc,
        Kind::Dynamics,
        3,
        "3\nextinctions 2\n1 4\n2 3\n",
    );
    assert_path(&rt, alloc, Kind::Volume, 6, "6\nextinctions 2\n1 14\n2 6\n");
    assert_path(&rt, alloc, Kind::Area, 2, "2\nextinctions 2\n1 4\n2 2\n");
}

#[test]
fn the_greater_label_dies_on_a_tie(rt: HostRuntime) {
    let report =
        "tree 11 6\n0 6 0\n1 6 0\n2 8 0\n3 8 0\n4 7 0\n5 7 0\n6 9 0\n7 10 0\n8 9 0\n9 10 2\n10 10 5\nextinctions 3\n1 5\n2 2\n3 5\n";
    let (areas, list) = (&[1, 1, 1, 1, 1, 1], &RANKED_LONG_PATH);
    assert_report(
        &rt,
        rt.alloc(),
        areas,
        &LONG_PATH,
        list,
        Kind::Dynamics,
        report,
    );
}

#[test]
fn several_roots_one_vertex_and_areas(rt: HostRuntime) {
    let alloc = rt.alloc();
    let report = "tree 4 3\n0 3 0\n1 3 0\n2 2 0\n3 3 0\nextinctions 2\n1 0\n2 0\n";
    assert_report(
        &rt,
        alloc,
        &[1, 1, 1],
        &APART_ROWS,
        &APART,
        Kind::Dynamics,
        report,
    );
    let report = "tree 1 1\n0 0 0\nextinctions 1\n1 0\n";
    assert_report(&rt, alloc, &[1], &[], &[], Kind::Dynamics, report);
    let report =
        "tree 7 4\n0 4 0\n1 4 0\n2 5 0\n3 5 0\n4 6 0\n5 6 0\n6 6 2\nextinctions 2\n1 2\n2 13\n";
    assert_report(
        &rt,
        alloc,
        &[1, 1, 1, 10],
        &PATH_ROWS,
        &PATH,
        Kind::Area,
        report,
    );
}
