ghost use Rattle.std.specs.Prelude.{◌≤◌, length};

use graph_reader::{Decoder, read_graph};
use hg_base::{Edge, FaultKind, Graph, InputFault, OutOfMemory, ReadError};
use std::alloc::Global;
use std::process::Abort;
use std::test::*;

const LONGEST: usize = 134_217_728;

/// What a decoder answers to an input that comes in pieces of this size.
fn in_pieces(alloc: Global, input: &[u8], size: usize) -> Result<Graph, ReadError>
    requires some { 1 ≤ size }
    requires short { length input.now ≤ 134217728 }
{
    let mut decoder = match Decoder::new(alloc) {
        Ok(decoder) => decoder,
        Err(OutOfMemory) => return Err(ReadError::OutOfMemory),
    };
    let mut at = 0;
    while at < input.len() {
        let end = at + size.min(input.len() - at);
        match decoder.feed(&input[at..end]) {
            Ok(()) => {}
            Err(OutOfMemory) => return Err(ReadError::OutOfMemory),
        }
        at = end;
    }
    decoder.finish()
}

/// What the input gives, whole or in pieces.
fn answer(alloc: Global, input: &[u8], size: usize) -> Result<Graph, ReadError>
    requires short { length input.now ≤ 134217728 }
{
    if size == 0 {
        read_graph(alloc, input)
    } else {
        in_pieces(alloc, input, size)
    }
}

/// The sizes of the pieces in which each input is read; 0 for the call that reads it whole.
const SIZES: [usize; 4] = [0, 1, 3, LONGEST];

fn assert_areas(rt: &impl Abort, graph: &Graph, areas: &[u32]) {
    assert!(rt; graph.n() as usize == areas.len());
    for v in 0..graph.n() {
        assert!(rt; graph.area(v) == areas[v as usize]);
    }
}

fn assert_edges(rt: &impl Abort, graph: &Graph, edges: &[Edge]) {
    assert!(rt; graph.m() as usize == edges.len());
    for e in 0..graph.m() {
        assert!(rt; graph.edge(e) == edges[e as usize]);
    }
}

/// Reads the input whole, in bytes, and in pieces of three: it is this graph each time.
fn expect_graph(
    rt: &impl Abort,
    alloc: Global,
    input: &[u8],
    areas: &[u32],
    edges: &[Edge],
) -> Result<(), ReadError> {
    assert!(rt; input.len() <= LONGEST);
    for size in SIZES {
        let graph = answer(alloc, input, size)?;
        assert_areas(rt, &graph, areas);
        assert_edges(rt, &graph, edges);
    }
    Ok(())
}

/// Reads the input whole, in bytes, and in pieces of three: it has this fault each time.
fn expect_fault(rt: &impl Abort, alloc: Global, input: &[u8], fault: InputFault) {
    assert!(rt; input.len() <= LONGEST);
    for size in SIZES {
        let error = answer(alloc, input, size).err();
        assert!(rt; error == Some(ReadError::Fault(fault)));
    }
}

/// Inputs, with the areas of the vertices and the edges that they give.
static GRAPHS: [(&[u8], &[u32], &[Edge]); 8] = [
    (b"graph 3 2\n0 1 5\n1 2 3\n", &[1, 1, 1], &TWO),
    (b"graph 3 2\n0 1 5\n1 2 3", &[1, 1, 1], &TWO),
    (b"graph 1 0\n", &[1], &[]),
    (b"graph 1 0", &[1], &[]),
    (
        b"graph 2 1\n0 1 4294967295\n",
        &[1, 1],
        &[Edge {
            u: 0,
            v: 1,
            w: u32::MAX,
        }],
    ),
    (
        b"# roads\ngraph 2 1\r\n0 1 7 # north\r\n",
        &[1, 1],
        &[Edge { u: 0, v: 1, w: 7 }],
    ),
    (
        b"graph2 4 3\n1 1 1 10\n0 1 1\n1 2 5\n2 3 2\n",
        &[1, 1, 1, 10],
        &[
            Edge { u: 0, v: 1, w: 1 },
            Edge { u: 1, v: 2, w: 5 },
            Edge { u: 2, v: 3, w: 2 },
        ],
    ),
    (b"graph2 1 0\n4096\n", &[4096], &[]),
];

/// The edges of a path of three vertices.
const TWO: [Edge; 2] = [Edge { u: 0, v: 1, w: 5 }, Edge { u: 1, v: 2, w: 3 }];

#[test]
fn graphs(rt: HostRuntime) -> Result<(), Fail> {
    for (input, areas, edges) in GRAPHS {
        expect_graph(&rt, rt.alloc(), input, areas, edges)?;
    }
    Ok(())
}

/// Inputs, with the kind of fault, where it is, and its value.
static FAULTS: [(&[u8], FaultKind, u64, u64); 17] = [
    (b"graph 3 2\n0 1 5\n1 2", FaultKind::Truncated, 19, 0),
    (b"graph 3 2\n0 1 5\n1 2 3 7\n", FaultKind::Trailing, 22, 0),
    (b"graph 2 1\n0 0 3\n", FaultKind::Loop, 12, 0),
    (b"graph 2 1\n0 2 3\n", FaultKind::OutOfRange, 12, 2),
    (b"graph 1048577 0\n", FaultKind::TooLarge, 6, 1_048_577),
    (b"graph 2 4194305\n", FaultKind::TooLarge, 8, 4_194_305),
    (
        b"graph 2 1\n0 1 4294967296\n",
        FaultKind::TooLarge,
        14,
        4_294_967_296,
    ),
    (b"graph 2 1\n0 1 12345678901\n", FaultKind::BadNumber, 14, 0),
    (b"grap 3 0\n", FaultKind::UnknownForm, 0, 0),
    (b"", FaultKind::UnknownForm, 0, 0),
    (b"graph 3 x\n", FaultKind::BadNumber, 8, 0),
    (b"graph 0 0\n", FaultKind::NoVertex, 6, 0),
    (b"P2 1 1 9\n", FaultKind::UnknownForm, 0, 0),
    (b"P5 2 1 9\n\x01\x02", FaultKind::UnknownForm, 0, 0),
    (b"graph2 1 0\n4097\n", FaultKind::TooLarge, 11, 4097),
    (b"graph2 1 0\n0\n", FaultKind::BadNumber, 11, 0),
    (b"graph2 1 0\n", FaultKind::Truncated, 11, 0),
];

#[test]
fn faults(rt: HostRuntime) {
    for (input, kind, at, value) in FAULTS {
        expect_fault(&rt, rt.alloc(), input, InputFault { kind, at, value });
    }
}

#[test]
fn cut_inputs(rt: HostRuntime) {
    let input = b"graph 3 2\n0 1 5\n1 2 3\n";
    for cut in 0..21 {
        let (kind, at) = if cut < 5 {
            (FaultKind::UnknownForm, 0)
        } else {
            (FaultKind::Truncated, cut as u64)
        };
        let fault = InputFault { kind, at, value: 0 };
        expect_fault(&rt, rt.alloc(), &input[..cut], fault);
    }
}

#[test]
fn most_vertices(rt: HostRuntime) -> Result<(), Fail> {
    let graph = read_graph(rt.alloc(), b"graph 1048576 0\n")?;
    assert!(rt; graph.n() == 1_048_576);
    assert!(rt; graph.m() == 0);
    Ok(())
}

#[test]
fn sized_at_the_third_token(rt: HostRuntime) -> Result<(), Fail> {
    let mut decoder = Decoder::new(rt.alloc())?;
    decoder.feed(b"graph 3 ")?;
    assert!(rt; !decoder.is_sized());
    decoder.feed(b"2")?;
    assert!(rt; !decoder.is_sized());
    decoder.feed(b"\n")?;
    assert!(rt; decoder.is_sized());
    decoder.feed(b"0 1 5\n1 2 3\n")?;
    assert!(rt; decoder.is_sized());
    assert!(rt; decoder.taken() == 22);
    let graph = decoder.finish()?;
    assert_areas(&rt, &graph, &[1, 1, 1]);
    assert_edges(&rt, &graph, &TWO);
    Ok(())
}
