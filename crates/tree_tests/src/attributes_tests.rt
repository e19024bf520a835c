ghost use Rattle.std.specs.Prelude.{◌≡◌, length};
ghost use Rattle.edge_laws.specs.Rank.{ranked};
ghost use Rattle.partition_tree.specs.Ranked.{IsRankedList, edges_of};
ghost use Rattle.tree_laws.specs.Tree.{graph_tree};
ghost use Rattle.tree_tests.specs.Graphs.{graph_from};

use crate::graphs::{APART, APART_ROWS, PATH, PATH_ROWS, graph_with};
use attributes::{Attributes, attributes_pieces, write_attributes};
use hg_base::Graph;
use partition_tree::{Ranked, Tree};
use std::alloc::Global;
use std::process::Abort;
use std::test::Fail;
use std::thread::Threads;

// Compares the attributes of a graph with those that threads find.
fn are_found_in_threads(
    rt: &(impl Abort + Threads + Sync),
    alloc: Global,
    graph: &Graph,
    tree: &Tree,
    found: &Attributes,
)
    requires tree { tree.now ≡ graph_tree graph.now }
{
    let threaded = Attributes::of_in_threads(rt, alloc, graph, tree).expect(rt, "ample memory");
    let threaded_text = write_attributes(alloc, &threaded).expect(rt, "ample memory");
    let text = write_attributes(alloc, found).expect(rt, "ample memory");
    assert_eq!(rt; threaded_text.as_slice(), text.as_slice());
}

// The attributes of the graph with these areas and edges, of which the list is the same in order of rank. Threads find the
// same.
fn attributes(
    rt: &(impl Abort + Threads + Sync),
    alloc: Global,
    areas: &[u32],
    rows: &[(u32, u32, u32)],
    list: &[Ranked],
) -> Result<Attributes, Fail>
    requires list { IsRankedList (length areas.now) list.now }
    requires ranked { edges_of list.now ≡ ranked (graph_from (length areas.now) areas.now rows.now) }
{
    let graph = graph_with(rt, alloc, areas, rows)?;
    let tree = Tree::of_list(alloc, graph.n(), list)?;
    let found = Attributes::of(alloc, &graph, &tree)?;
    are_found_in_threads(rt, alloc, &graph, &tree, &found);
    Ok(found)
}

// The report of attributes, and its pieces.
fn assert_report(
    rt: &(impl Abort + Threads + Sync),
    alloc: Global,
    found: &Attributes,
    report: &str,
) {
    let text = write_attributes(alloc, found).expect(rt, "ample memory");
    assert_eq!(rt; text.as_slice(), report.as_bytes());
    let pieces = attributes_pieces(rt, alloc, found).expect(rt, "ample memory");
    let joined = pieces.joined(alloc).expect(rt, "ample memory");
    assert_eq!(rt; joined.as_slice(), report.as_bytes());
}

// Compares the report of the attributes of a graph with a text.
fn assert_attributes(
    rt: &(impl Abort + Threads + Sync),
    alloc: Global,
    areas: &[u32],
    rows: &[(u32, u32, u32)],
    list: &[Ranked],
    report: &str,
) -> Result<(), Fail>
    requires list { IsRankedList (length areas.now) list.now }
    requires ranked { edges_of list.now ≡ ranked (graph_from (length areas.now) areas.now rows.now) }
{
    let found = attributes(rt, alloc, areas, rows, list)?;
    assert_report(rt, alloc, &found, report);
    Ok(())
}

#[test]
fn reports(rt: HostRuntime) -> Result<(), Fail> {
    let alloc = rt.alloc();
    let report = "attributes 7\n0 1 0 0\n1 1 0 0\n2 1 0 0\n3 1 0 0\n4 2 8 4\n5 2 6 3\n6 4 14 4\n";
    assert_attributes(&rt, alloc, &[1, 1, 1, 1], &PATH_ROWS, &PATH, report)?;
    assert_attributes(&rt, alloc, &[1], &[], &[], "attributes 1\n0 1 0 0\n")?;
    let report = "attributes 4\n0 1 0 0\n1 1 0 0\n2 1 0 0\n3 2 0 0\n";
    assert_attributes(&rt, alloc, &[1, 1, 1], &APART_ROWS, &APART, report)?;
    Ok(())
}

#[test]
fn reports_of_other_areas(rt: HostRuntime) -> Result<(), Fail> {
    let alloc = rt.alloc();
    let report =
        "attributes 7\n0 1 0 0\n1 1 0 0\n2 1 0 0\n3 10 0 0\n4 2 8 4\n5 11 33 3\n6 13 41 4\n";
    assert_attributes(&rt, alloc, &[1, 1, 1, 10], &PATH_ROWS, &PATH, report)?;
    assert_attributes(&rt, alloc, &[4096], &[], &[], "attributes 1\n0 4096 0 0\n")?;
    Ok(())
}

#[test]
fn readers(rt: HostRuntime) -> Result<(), Fail> {
    let found = attributes(&rt, rt.alloc(), &[1, 1, 1, 10], &PATH_ROWS, &PATH)?;
    assert!(rt; 5 < found.nodes());
    assert_eq!(rt; found.area(5), 11);
    assert_eq!(rt; found.volume(5), 33);
    assert_eq!(rt; found.dynamics(5), 3);
    Ok(())
}
