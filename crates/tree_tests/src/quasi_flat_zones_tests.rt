ghost use Rattle.partition_tree.specs.Ranked.{IsRankedList};

use crate::graphs::{APART, TRIANGLE};
use partition_tree::{Ranked, Tree, write_tree};
use quasi_flat_zones::zones;
use std::alloc::Global;
use std::process::Abort;

fn assert_zones(rt: &impl Abort, alloc: Global, n: u32, list: &[Ranked], report: &str)
    requires { IsRankedList n list.now }
{
    let tree = Tree::of_list(alloc, n, list).expect(rt, "ample memory");
    assert!(rt; tree.altitudes_rise());
    let zones = zones(alloc, &tree).expect(rt, "ample memory");
    let text = write_tree(alloc, &zones).expect(rt, "ample memory");
    assert_eq!(rt; text.as_slice(), report.as_bytes());
}

#[test]
fn reports(rt: HostRuntime) {
    assert_zones(&rt, rt.alloc(), 1, &[], "tree 1 1\n0 0 0\n");
    let report = "tree 4 3\n0 3 0\n1 3 0\n2 3 0\n3 3 1\n";
    assert_zones(&rt, rt.alloc(), 3, &TRIANGLE, report);
    let report = "tree 4 3\n0 3 0\n1 3 0\n2 2 0\n3 3 4\n";
    assert_zones(&rt, rt.alloc(), 3, &APART, report);
}
