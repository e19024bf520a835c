use crate::{Edge, Graph, GraphFault};
use std::test::Fail;

#[test]
fn graphs_of_edges(rt: HostRuntime) -> Result<(), Fail> {
    let edges = [Edge { u: 0, v: 1, w: 7 }, Edge { u: 2, v: 1, w: 0 }];
    let graph = Graph::from_edges(3, edges.to_vec(rt.alloc())?)?;
    assert_eq!(&rt; graph.n(), 3);
    assert_eq!(&rt; graph.edges(), edges.as_slice());
    Ok(())
}

#[test]
fn faults_of_graphs(rt: HostRuntime) -> Result<(), Fail> {
    let table: [(u32, &[(u32, u32)], GraphFault, &str); 5] = [
        (0, &[], GraphFault::NoVertex, "there is no vertex"),
        (
            1_048_577,
            &[(0, 0)],
            GraphFault::TooManyVertices(1_048_577),
            "1048577 vertices are more than 1048576",
        ),
        (
            3,
            &[(0, 1), (3, 3)],
            GraphFault::EndOutOfRange { edge: 1, end: 3 },
            "edge 1: its end 3 is no vertex",
        ),
        (
            3,
            &[(0, 4), (1, 1)],
            GraphFault::EndOutOfRange { edge: 0, end: 4 },
            "edge 0: its end 4 is no vertex",
        ),
        (
            3,
            &[(0, 1), (1, 2), (2, 2), (9, 9)],
            GraphFault::Loop { edge: 2, end: 2 },
            "edge 2: vertex 2 is both its ends",
        ),
    ];
    for (n, ends, fault, text) in table {
        let mut edges = Vec::new(rt.alloc());
        for &(u, v) in ends {
            edges.push(Edge { u, v, w: 5 })?;
        }
        assert_eq!(&rt; Graph::from_edges(n, edges).err(), Some(fault));
        assert_eq!(&rt; format!(in rt.alloc(); "{fault}")?.as_str(), text);
    }
    Ok(())
}
