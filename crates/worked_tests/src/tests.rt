//! Worked runs: reports of small inputs, each with every tiling, and summaries of pictures that are made. The plain
//! program of `trials/plain.py` gives the same texts (`trials/worked.py`, which reads the rows of this file).
use crate::running::{Ran, push_all, run_words, words_of};
use hg_base::OpenGate;
use std::alloc::Global;
use std::process::Abort;
use std::test::Fail;
use std::thread::Threads;

const TRIANGLE: &[u8] = b"graph 3 3\n0 1 1\n1 2 1\n0 2 1\n";

const PATH: &[u8] = b"graph 4 3\n0 1 1\n1 2 5\n2 3 2\n";

/// A picture of two by two pixels.
const PICTURE: &[u8] = b"P5\n2 2\n9\n\0\x03\x03\t";

/// The words and the input of a run, and what it writes.
#[derive(Drop)]
struct Row {
    words: &'static [&'static str],
    input: &'static [u8],
    want: &'static [u8],
}

/// Runs that were worked out by hand.
const WORKED: &[Row] = &[
    Row {
        words: &["tree"],
        input: b"graph 3 2\n0 1 5\n1 2 3\n",
        want: b"tree 5 3\n0 4 0\n1 3 0\n2 3 0\n3 4 3\n4 4 5\n",
    },
    Row {
        words: &["tree"],
        input: b"graph 1 0\n",
        want: b"tree 1 1\n0 0 0\n",
    },
    Row {
        words: &["zones"],
        input: b"graph 1 0\n",
        want: b"tree 1 1\n0 0 0\n",
    },
    Row {
        words: &["tree"],
        input: TRIANGLE,
        want: b"tree 5 3\n0 3 0\n1 3 0\n2 4 0\n3 4 1\n4 4 1\n",
    },
    Row {
        words: &["zones"],
        input: TRIANGLE,
        want: b"tree 4 3\n0 3 0\n1 3 0\n2 3 0\n3 3 1\n",
    },
    Row {
        words: &["saliency"],
        input: TRIANGLE,
        want: b"saliency 3\n0 1\n1 1\n2 1\n",
    },
    Row {
        words: &["saliency"],
        input: b"graph 4 4\n0 1 1\n1 2 4\n2 3 2\n0 3 3\n",
        want: b"saliency 4\n0 1\n1 3\n2 2\n3 3\n",
    },
    Row {
        words: &["tree"],
        input: b"graph 4 4\n0 1 5\n2 3 6\n1 2 1\n0 3 2\n",
        want: b"tree 7 4\n0 5 0\n1 4 0\n2 4 0\n3 5 0\n4 6 1\n5 6 2\n6 6 5\n",
    },
    Row {
        words: &["tree"],
        input: b"graph 3 1\n0 1 4\n",
        want: b"tree 4 3\n0 3 0\n1 3 0\n2 2 0\n3 3 4\n",
    },
    Row {
        words: &["cut", "--level", "4"],
        input: b"graph 3 1\n0 1 4\n",
        want: b"labels 3 2\n0 1\n1 1\n2 2\n",
    },
    Row {
        words: &["saliency"],
        input: b"graph 3 1\n0 1 4\n",
        want: b"saliency 1\n0 4\n",
    },
    Row {
        words: &["cut", "--level", "1"],
        input: PATH,
        want: b"labels 4 3\n0 1\n1 1\n2 2\n3 3\n",
    },
    Row {
        words: &["tree"],
        input: b"graph 2 0\n",
        want: b"tree 2 2\n0 0 0\n1 1 0\n",
    },
    Row {
        words: &["tree"],
        input: b"graph 2 1\n0 1 4294967295\n",
        want: b"tree 3 2\n0 2 0\n1 2 0\n2 2 4294967295\n",
    },
    Row {
        words: &["tree"],
        input: b"# roads\ngraph 2 1\r\n0 1 7 # north\r\n",
        want: b"tree 3 2\n0 2 0\n1 2 0\n2 2 7\n",
    },
    Row {
        words: &["attributes"],
        input: b"graph 1 0\n",
        want: b"attributes 1\n0 1 0 0\n",
    },
    Row {
        words: &["attributes"],
        input: PATH,
        want: b"attributes 7\n0 1 0 0\n1 1 0 0\n2 1 0 0\n3 1 0 0\n4 2 8 4\n5 2 6 3\n6 4 14 4\n",
    },
    Row {
        words: &["attributes"],
        input: b"graph 3 1\n0 1 4\n",
        want: b"attributes 4\n0 1 0 0\n1 1 0 0\n2 1 0 0\n3 2 0 0\n",
    },
    Row {
        words: &["attributes"],
        input: b"graph2 4 3\n1 1 1 10\n0 1 1\n1 2 5\n2 3 2\n",
        want: b"attributes 7\n0 1 0 0\n1 1 0 0\n2 1 0 0\n3 10 0 0\n4 2 8 4\n5 11 33 3\n6 13 41 4\n",
    },
    Row {
        words: &["attributes"],
        input: b"graph2 1 0\n4096\n",
        want: b"attributes 1\n0 4096 0 0\n",
    },
    Row {
        words: &["minima"],
        input: b"graph 1 0\n",
        want: b"minima 1 1 0\nv 0 1\n",
    },
    Row {
        words: &["minima"],
        input: PATH,
        want: b"minima 2 4 3\nv 0 1\nv 1 1\nv 2 2\nv 3 2\ne 0 1\ne 1 0\ne 2 2\n",
    },
    Row {
        words: &["minima"],
        input: b"graph 4 3\n0 1 2\n1 2 2\n2 3 1\n",
        want: b"minima 1 4 3\nv 0 0\nv 1 0\nv 2 1\nv 3 1\ne 0 0\ne 1 0\ne 2 1\n",
    },
    Row {
        words: &["minima"],
        input: b"graph 3 1\n0 1 4\n",
        want: b"minima 2 3 1\nv 0 1\nv 1 1\nv 2 2\ne 0 1\n",
    },
    Row {
        words: &["watershed"],
        input: b"graph 1 0\n",
        want: b"watershed 1 1 0 0 0\nv 0 1\n",
    },
    Row {
        words: &["watershed"],
        input: PATH,
        want: b"watershed 4 2 1 0 0\nv 0 1\nv 1 1\nv 2 2\nv 3 2\ncut 1\n",
    },
    Row {
        words: &["watershed"],
        input: b"graph 5 4\n0 1 1\n1 2 3\n2 3 3\n3 4 1\n",
        want: b"watershed 5 2 1 1 3\nv 0 1\nv 1 1\nv 2 1\nv 3 2\nv 4 2\ncut 2\nforest 1\n",
    },
    Row {
        words: &["watershed"],
        input: b"graph 4 3\n0 1 2\n1 2 2\n2 3 1\n",
        want: b"watershed 4 1 0 2 4\nv 0 1\nv 1 1\nv 2 1\nv 3 1\nforest 0\nforest 1\n",
    },
    Row {
        words: &["watershed"],
        input: b"graph 3 1\n0 1 4\n",
        want: b"watershed 3 2 0 0 0\nv 0 1\nv 1 1\nv 2 2\n",
    },
    Row {
        words: &["hierarchical"],
        input: b"graph 1 0\n",
        want: b"tree 1 1\n0 0 0\nextinctions 1\n1 0\n",
    },
    Row {
        words: &["hierarchical", "--kind", "dynamics"],
        input: PATH,
        want: b"tree 7 4\n0 4 0\n1 4 0\n2 5 0\n3 5 0\n4 6 0\n5 6 0\n6 6 3\nextinctions 2\n1 4\n2 3\n",
    },
    Row {
        words: &["hierarchical", "--kind", "volume"],
        input: PATH,
        want: b"tree 7 4\n0 4 0\n1 4 0\n2 5 0\n3 5 0\n4 6 0\n5 6 0\n6 6 6\nextinctions 2\n1 14\n2 6\n",
    },
    Row {
        words: &["hierarchical", "--kind", "area"],
        input: PATH,
        want: b"tree 7 4\n0 4 0\n1 4 0\n2 5 0\n3 5 0\n4 6 0\n5 6 0\n6 6 2\nextinctions 2\n1 4\n2 2\n",
    },
    Row {
        words: &["hierarchical"],
        input: b"graph 6 5\n0 1 1\n1 2 4\n2 3 2\n3 4 6\n4 5 1\n",
        want: b"tree 11 6\n0 6 0\n1 6 0\n2 8 0\n3 8 0\n4 7 0\n5 7 0\n6 9 0\n7 10 0\n8 9 0\n9 10 2\n10 10 5\nextinctions 3\n1 5\n2 2\n3 5\n",
    },
    Row {
        words: &["hierarchical"],
        input: b"graph 3 1\n0 1 4\n",
        want: b"tree 4 3\n0 3 0\n1 3 0\n2 2 0\n3 3 0\nextinctions 2\n1 0\n2 0\n",
    },
    Row {
        words: &["hierarchical", "--kind", "area"],
        input: b"graph2 4 3\n1 1 1 10\n0 1 1\n1 2 5\n2 3 2\n",
        want: b"tree 7 4\n0 4 0\n1 4 0\n2 5 0\n3 5 0\n4 6 0\n5 6 0\n6 6 2\nextinctions 2\n1 2\n2 13\n",
    },
    Row {
        words: &["cut", "--kind", "dynamics", "--level", "2"],
        input: PATH,
        want: b"labels 4 2\n0 1\n1 1\n2 2\n3 2\n",
    },
    Row {
        words: &["cut", "--kind", "dynamics", "--level", "3"],
        input: PATH,
        want: b"labels 4 1\n0 1\n1 1\n2 1\n3 1\n",
    },
    Row {
        words: &["energy"],
        input: PATH,
        want: b"energy 4 4 0\nnode 0 0\nnode 1 0\nnode 2 0\nnode 3 0\nv 0 1\nv 1 2\nv 2 3\nv 3 4\n",
    },
    Row {
        words: &["energy", "--level", "2"],
        input: PATH,
        want: b"energy 4 3 8\nnode 2 2\nnode 3 2\nnode 4 4\nv 0 1\nv 1 1\nv 2 2\nv 3 3\n",
    },
    Row {
        words: &["energy", "--level", "14"],
        input: PATH,
        want: b"energy 4 1 34\nnode 6 34\nv 0 1\nv 1 1\nv 2 1\nv 3 1\n",
    },
    Row {
        words: &["energy", "--level", "7"],
        input: b"graph 3 1\n0 1 4\n",
        want: b"energy 3 3 21\nnode 0 7\nnode 1 7\nnode 2 7\nv 0 1\nv 1 2\nv 2 3\n",
    },
    Row {
        words: &["tree"],
        input: PICTURE,
        want: b"tree 7 4\n0 4 0\n1 4 0\n2 5 0\n3 6 0\n4 5 3\n5 6 3\n6 6 6\n",
    },
    Row {
        words: &["mintree"],
        input: PICTURE,
        want: b"mintree 7 4\n0 4 0\n1 5 3\n2 5 3\n3 6 9\n4 5 0\n5 6 3\n6 6 9\n",
    },
    Row {
        words: &["maxtree"],
        input: PICTURE,
        want: b"maxtree 7 4\n0 6 0\n1 5 3\n2 5 3\n3 4 9\n4 5 9\n5 6 3\n6 6 0\n",
    },
    Row {
        words: &["mintree"],
        input: b"P5 3 1 9\n\x02\x05\x02",
        want: b"mintree 6 3\n0 3 2\n1 5 5\n2 4 2\n3 5 2\n4 5 2\n5 5 5\n",
    },
    // The samples of the picture are 60, 94, 129 and 180; the weights of its edges are 34, 69, 86 and 51.
    Row {
        words: &["summary", "--make", "2", "--seed", "1"],
        input: b"",
        want: b"vertices 4\nedges 4\nnodes 7\nzones 7\nroot 69\nsaliency 223\nminima 2\nforest 0\nweight 0\ncut 2\n",
    },
];

/// Sizes of tiles and numbers of workers. None of them changes a report.
const TILINGS: &[&[&str]] = &[
    &[],
    &["--tile", "1", "--workers", "1"],
    &["--tile", "1", "--workers", "2"],
    &["--tile", "1", "--workers", "64"],
    &["--tile", "2"],
];

/// Runs the program on these words, with a tiling.
fn run_tiled(
    rt: &(impl Threads + Sync),
    alloc: Global,
    texts: &[&str],
    tiling: &[&str],
    input: &[u8],
) -> Result<Ran, Fail> {
    let mut words = words_of(alloc, texts)?;
    push_all(&mut words, tiling)?;
    run_words(rt, alloc, &words, input, 2000, &OpenGate)
}

/// Runs a row with each tiling, and compares what is written with what is wanted.
fn runs_with_each_tiling(
    rt: &(impl Threads + Sync + Abort),
    alloc: Global,
    row: &Row,
) -> Result<(), Fail> {
    for tiling in TILINGS {
        let ran = run_tiled(rt, alloc, row.words, tiling, row.input)?;
        ran.is_as_wanted(rt, 0, row.want, b"");
    }
    Ok(())
}

#[test]
fn the_program_writes_the_worked_reports(rt: HostRuntime) -> Result<(), Fail> {
    for row in WORKED {
        runs_with_each_tiling(&rt, rt.alloc(), row)?;
    }
    Ok(())
}

/// The summary of a made picture of 128 by 128 pixels, with a tiling.
fn run_on_128(rt: &(impl Threads + Sync), alloc: Global, tiling: &[&str]) -> Result<Ran, Fail> {
    let words = ["summary", "--make", "128", "--seed", "1"];
    run_tiled(rt, alloc, &words, tiling, b"")
}

#[test]
fn a_summary_is_the_same_with_other_tiles(rt: HostRuntime) -> Result<(), Fail> {
    let tiled = run_on_128(&rt, rt.alloc(), &["--tile", "32", "--workers", "4"])?;
    let whole = run_on_128(&rt, rt.alloc(), &["--tile", "128", "--workers", "1"])?;
    tiled.begins_with(&rt, b"vertices 16384\nedges 32512\n");
    whole.is_as_wanted(&rt, 0, tiled.out.taken(), b"");
    Ok(())
}
