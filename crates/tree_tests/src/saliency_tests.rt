ghost use Rattle.partition_tree.specs.Ranked.{IsRankedList};

use crate::graphs::{APART, PATH, TRIANGLE, graph_of};
use partition_tree::{Ranked, Tree};
use saliency::{
    cut, ends_share_roots, saliency, saliency_in_threads, saliency_pieces, write_saliency,
};
use std::alloc::Global;
use std::process::Abort;
use std::thread::Threads;

// The edges of a cycle of four vertices, in order of rank.
const RING: [Ranked; 4] = [
    Ranked {
        u: 0,
        v: 1,
        edge: 0,
        altitude: 1,
    },
    Ranked {
        u: 2,
        v: 3,
        edge: 2,
        altitude: 2,
    },
    Ranked {
        u: 0,
        v: 3,
        edge: 3,
        altitude: 3,
    },
    Ranked {
        u: 1,
        v: 2,
        edge: 1,
        altitude: 4,
    },
];

fn assert_saliency(
    rt: &(impl Threads + Sync + Abort),
    alloc: Global,
    n: u32,
    rows: &[(u32, u32, u32)],
    list: &[Ranked],
    report: &str,
)
    requires { IsRankedList n list.now }
{
    let graph = graph_of(rt, alloc, n, rows).expect(rt, "ample memory");
    let tree = Tree::of_list(alloc, n, list).expect(rt, "ample memory");
    assert!(rt; tree.leaves() == graph.n());
    let shared = ends_share_roots(alloc, &graph, &tree).expect(rt, "ample memory");
    assert!(rt; shared);
    let values = saliency(alloc, &graph, &tree).expect(rt, "ample memory");
    let text = write_saliency(alloc, &values).expect(rt, "ample memory");
    assert_eq!(rt; text.as_slice(), report.as_bytes());
    let threaded = saliency_in_threads(rt, alloc, &graph, &tree).expect(rt, "ample memory");
    assert_eq!(rt; threaded.as_slice(), values.as_slice());
}

fn assert_cut(rt: &impl Abort, alloc: Global, n: u32, list: &[Ranked], level: u64, labels: &[u32])
    requires { IsRankedList n list.now }
{
    let tree = Tree::of_list(alloc, n, list).expect(rt, "ample memory");
    assert!(rt; tree.altitudes_rise());
    let regions = cut(alloc, &tree, level).expect(rt, "ample memory");
    assert_eq!(rt; regions.len() as usize, labels.len());
    for x in 0..regions.len() {
        assert_eq!(rt; regions.label(x), labels[x as usize]);
    }
}

#[test]
fn saliencies(rt: HostRuntime) {
    let edges: &[(u32, u32, u32)] = &[(0, 1, 1), (1, 2, 1), (0, 2, 1)];
    let report = "saliency 3\n0 1\n1 1\n2 1\n";
    assert_saliency(&rt, rt.alloc(), 3, edges, &TRIANGLE, report);
    let edges: &[(u32, u32, u32)] = &[(0, 1, 1), (1, 2, 4), (2, 3, 2), (0, 3, 3)];
    let report = "saliency 4\n0 1\n1 3\n2 2\n3 3\n";
    assert_saliency(&rt, rt.alloc(), 4, edges, &RING, report);
    assert_saliency(
        &rt,
        rt.alloc(),
        3,
        &[(0, 1, 4)],
        &APART,
        "saliency 1\n0 4\n",
    );
    let pieces = saliency_pieces(&rt, rt.alloc(), &[1, 3]).expect(&rt, "ample memory");
    let text = pieces.joined(rt.alloc()).expect(&rt, "ample memory");
    assert_eq!(rt; text.as_slice(), b"saliency 2\n0 1\n1 3\n".as_slice());
}

#[test]
fn regions(rt: HostRuntime) {
    assert_cut(&rt, rt.alloc(), 4, &PATH, 1, &[1, 1, 2, 3]);
    assert_cut(&rt, rt.alloc(), 3, &APART, 4, &[1, 1, 2]);
}
