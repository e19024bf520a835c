use hg_base::{MemSink, MemSource, OutOfMemory};
use hg_batch::run_batch;
use higra_cli::Words;
use std::alloc::{AllocError, Global};
use std::process::Abort;
use std::test::Fail;
use std::thread::Threads;

const TWO: &[u8] = b"graph 2 1\n0 1 7\n\x0cgraph 2 1\n0 0 3\n";

const TWO_TEXTS: &str = "job 0 0 27\ntree 3 2\n0 2 0\n1 2 0\n2 2 7\njob 1 3 7 Loop 12 0\n";

fn words_of(alloc: Global, texts: &[&str]) -> Result<Words, OutOfMemory> {
    let mut words = Words::new(alloc);
    for text in texts {
        words.push(text)?;
    }
    Ok(words)
}

// A source of these bytes that gives seven at a time.
fn source_of(alloc: Global, bytes: &[u8]) -> Result<MemSource, AllocError> {
    Ok(MemSource::new(Vec::from_slice(alloc, bytes)?, 7, Vec::new(alloc)))
}

// A sink with room for a kilobyte.
fn sink_of(alloc: Global) -> Result<MemSink, OutOfMemory> {
    MemSink::with_room(alloc, 1024, 100, Vec::new(alloc))
}

// Runs a batch and compares the code, the texts and the fault line with what is wanted.
fn runs(
    rt: &(impl Threads + Sync + Abort),
    alloc: Global,
    words: &[&str],
    input: &[u8],
    want: (u8, &str, &str),
) -> Result<(), Fail> {
    let words = words_of(alloc, words)?;
    let mut source = source_of(alloc, input)?;
    let mut out = sink_of(alloc)?;
    let mut err = sink_of(alloc)?;
    let status = run_batch(rt, alloc, &words, &mut source, &mut out, &mut err);
    assert!(rt; status.code() == want.0);
    assert!(rt; out.taken() == want.1.as_bytes());
    assert!(rt; err.taken() == want.2.as_bytes());
    Ok(())
}

// As many cuts as make one job too many.
const CUTS: [u8; 4096] = [12; 4096];

// Words and an input, with the code, the texts and the fault line that are wanted.
static RUNS: [(&[&str], &[u8], (u8, &str, &str)); 8] = [
    (&["tree", "--workers", "1"], TWO, (0, TWO_TEXTS, "")),
    (&["tree", "--workers", "2"], TWO, (0, TWO_TEXTS, "")),
    (&["tree", "--workers", "64"], TWO, (0, TWO_TEXTS, "")),
    (&["tree"], b"", (0, "job 0 3 1 UnknownForm 0 0\n", "")),
    (
        &["tree"],
        &CUTS,
        (3, "", "higra: input 15 TooManyJobs at 0 value 4097\n"),
    ),
    (
        &["tree"],
        b"graph 1048576 0\x0cgraph 1048576 0\x0cgraph 1048576 0\x0cgraph 1048576 0\x0cgraph 1048576 0",
        (
            3,
            "",
            "higra: input 16 TooManyVertices at 0 value 5242880\n",
        ),
    ),
    (&["cut", "--form", "pgm"], TWO, (2, "", "higra: usage\n")),
    (&["tree", "--make", "2"], TWO, (2, "", "higra: usage\n")),
];

#[test]
fn lists(rt: HostRuntime) -> Result<(), Fail> {
    for (words, input, want) in RUNS {
        runs(&rt, rt.alloc(), words, input, want)?;
    }
    Ok(())
}

static SPACES: [u8; 40_000] = [b' '; 40_000];

// Lists of many spaces, so long that two workers or more read them side by side. The last piece is empty.
fn long_lists(alloc: Global) -> Result<Vec<u8>, AllocError> {
    let mut bytes = Vec::new(alloc);
    for list in [
        "graph 2 1\n0 1 7\n",
        "graph 2 1\n0 0 3\n",
        "graph 2 1\n0 1 9\n",
        "tree\n",
    ] {
        bytes.extend_from_slice(list.as_bytes())?;
        bytes.extend_from_slice(&SPACES)?;
        bytes.push(12)?;
    }
    Ok(bytes)
}

const LONG_TEXTS: &str =
    "job 0 0 27\ntree 3 2\n0 2 0\n1 2 0\n2 2 7\njob 1 3 7 Loop 12 0\njob 2 0 27\ntree 3 2\n0 2 0\n1 2 0\n2 2 9\njob 3 3 1 UnknownForm 0 0\njob 4 3 1 UnknownForm 0 0\n";

#[test]
fn read_side_by_side(rt: HostRuntime) -> Result<(), Fail> {
    let bytes = long_lists(rt.alloc())?;
    for workers in ["1", "3", "64"] {
        let words = ["tree", "--workers", workers];
        runs(&rt, rt.alloc(), &words, &bytes, (0, LONG_TEXTS, ""))?;
    }
    Ok(())
}
