ghost use Rattle.std.specs.Prelude.{◌≡◌, map};
ghost use Rattle.hg_base.specs.Graph.{with_unit_areas};
ghost use Rattle.edge_laws.specs.Rank.{ranked};
ghost use Rattle.tree_laws.specs.Worked.{edge};
ghost use Rattle.partition_tree.specs.Ranked.{IsRankedList, edges_of};

use crate::graphs::{APART, APART_ROWS, PATH, PATH_ROWS, graph_of};
use edge_order::Order;
use forest_witness::witness;
use partition_tree::{Ranked, Tree};
use std::alloc::Global;
use std::process::Abort;
use std::thread::Threads;
use watershed_cut::{Minima, watershed};

// Edges in order of number, two ends and a weight each, and the same in order of rank.
const BETWEEN_MINIMA: [(u32, u32, u32); 4] = [(0, 1, 1), (1, 2, 3), (2, 3, 3), (3, 4, 1)];

const RANKED_BETWEEN_MINIMA: [Ranked; 4] = [
    Ranked {
        u: 0,
        v: 1,
        edge: 0,
        altitude: 1,
    },
    Ranked {
        u: 3,
        v: 4,
        edge: 3,
        altitude: 1,
    },
    Ranked {
        u: 1,
        v: 2,
        edge: 1,
        altitude: 3,
    },
    Ranked {
        u: 2,
        v: 3,
        edge: 2,
        altitude: 3,
    },
];

const PLATEAU: [(u32, u32, u32); 3] = [(0, 1, 2), (1, 2, 2), (2, 3, 1)];

const RANKED_PLATEAU: [Ranked; 3] = [
    Ranked {
        u: 2,
        v: 3,
        edge: 2,
        altitude: 1,
    },
    Ranked {
        u: 0,
        v: 1,
        edge: 0,
        altitude: 2,
    },
    Ranked {
        u: 1,
        v: 2,
        edge: 1,
        altitude: 2,
    },
];

// The forest of the graph with these edges, of which the list is the same in order of rank, has this weight.
fn assert_weight(
    rt: &(impl Abort + Threads + Sync),
    alloc: Global,
    n: u32,
    rows: &[(u32, u32, u32)],
    list: &[Ranked],
    weight: u64,
)
    requires list { IsRankedList n list.now }
    requires ranked { edges_of list.now ≡ ranked (with_unit_areas n (map edge rows.now)) }
{
    let graph = graph_of(rt, alloc, n, rows).expect(rt, "ample memory");
    let order = Order::of(rt, alloc, &graph).expect(rt, "ample memory");
    let tree = Tree::of_list(alloc, n, list).expect(rt, "ample memory");
    let minima = Minima::of(alloc, &graph, &order, &tree).expect(rt, "ample memory");
    let watershed = watershed(alloc, &graph, &order, &tree, &minima).expect(rt, "ample memory");
    assert_eq!(rt; witness(&graph, &minima, &watershed), weight);
}

#[test]
fn weights(rt: HostRuntime) {
    let alloc = rt.alloc();
    assert_weight(&rt, alloc, 4, &PATH_ROWS, &PATH, 0);
    assert_weight(&rt, alloc, 5, &BETWEEN_MINIMA, &RANKED_BETWEEN_MINIMA, 3);
    assert_weight(&rt, alloc, 4, &PLATEAU, &RANKED_PLATEAU, 4);
    assert_weight(&rt, alloc, 1, &[], &[], 0);
    assert_weight(&rt, alloc, 3, &APART_ROWS, &APART, 0);
}
