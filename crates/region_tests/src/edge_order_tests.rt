use crate::graphs::graph_of;
use edge_order::Order;
use hg_base::RankedEdge;
use std::process::Abort;
use std::test::Fail;

/// Compares the readers of an order with the edges and with their numbers by rank.
fn compare(rt: &impl Abort, order: &Order, rows: &[(u32, u32, u32)], by_rank: &[u32]) {
    assert!(rt; order.len() as usize == by_rank.len());
    for rank in 0..order.len() {
        let number = by_rank[rank as usize];
        assert!(rt; number < order.len() && (number as usize) < rows.len());
        let (u, v, w) = rows[number as usize];
        assert!(rt; order.edge_at(rank) == number);
        assert!(rt; order.rank_of(number) == rank);
        assert!(rt; order.at(rank) == RankedEdge { rank, u, v, w });
    }
}

#[test]
fn orders_by_weight_then_number(rt: HostRuntime) -> Result<(), Fail> {
    let graphs: [(&[(u32, u32, u32)], &[u32]); 3] = [
        (&[(0, 1, 1), (1, 2, 1), (0, 2, 1)], &[0, 1, 2]),
        (&[(0, 1, 5), (2, 3, 6), (1, 2, 1), (0, 3, 2)], &[2, 3, 0, 1]),
        (&[], &[]),
    ];
    for (rows, by_rank) in graphs {
        let graph = graph_of(&rt, rt.alloc(), 4, rows)?;
        let order = Order::of(&rt, rt.alloc(), &graph).expect(&rt, "ample memory");
        compare(&rt, &order, rows, by_rank);
    }
    Ok(())
}
