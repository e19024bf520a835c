use contour_run::run_contours;
use hg_base::{MemSink, MemSource, OpenGate, OutOfMemory};
use higra_words::Words;
use std::alloc::Global;
use std::process::Abort;
use std::test::Fail;
use std::thread::Threads;

// Three columns and two rows. The minima of the graph are the first column, and the other four pixels.
const SIX: &[u8] = b"P5\n3 2\n9\n\x00\x05\x06\x01\x08\x06";

fn words_of(alloc: Global, texts: &[&str]) -> Result<Words, OutOfMemory> {
    let mut words = Words::new(alloc);
    for text in texts {
        words.push(text)?;
    }
    Ok(words)
}

// A sink that takes four bytes at a time, two hundred in all, and whose write with this number fails.
fn sink_of(alloc: Global, fails: u64) -> Result<MemSink, Fail> {
    let fails = vec![in alloc; fails]?;
    Ok(MemSink::with_room(alloc, 200, 4, fails)?)
}

// Runs the words on an input, the read and the write with these numbers fail, and compares the code, the contours and the fault line
// with what is wanted.
fn runs_failing(
    rt: &(impl Threads + Sync + Abort),
    alloc: Global,
    words: &[&str],
    input: &[u8],
    fails: (u64, u64),
    want: (u8, &[u8], &str),
) -> Result<(), Fail> {
    let words = words_of(alloc, words)?;
    let reads = vec![in alloc; fails.0]?;
    let mut source = MemSource::new(Vec::from_slice(alloc, input)?, 3, reads);
    let mut out = sink_of(alloc, fails.1)?;
    let mut err = sink_of(alloc, 0)?;
    let status = run_contours(
        rt,
        alloc,
        &words,
        &mut source,
        &mut out,
        &mut err,
        &OpenGate,
    );
    assert!(rt; status.code() == want.0);
    assert!(rt; out.taken() == want.1);
    assert!(rt; err.taken() == want.2.as_bytes());
    Ok(())
}

// The same where nothing fails.
fn runs(
    rt: &(impl Threads + Sync + Abort),
    alloc: Global,
    words: &[&str],
    input: &[u8],
    want: (u8, &[u8], &str),
) -> Result<(), Fail> {
    runs_failing(rt, alloc, words, input, (0, 0), want)
}

// What each kind draws of the six pixels.
static OF_SIX: [(&str, &[u8]); 4] = [
    (
        "--kind=altitude",
        b"P5\n5 3\n5\n\x00\x05\x00\x01\x00\x01\x05\x02\x02\x00\x00\x05\x00\x02\x00",
    ),
    (
        "--kind=area",
        b"P5\n5 3\n2\n\x00\x02\x00\x00\x00\x00\x02\x00\x00\x00\x00\x02\x00\x00\x00",
    ),
    (
        "--kind=volume",
        b"P5\n5 3\n8\n\x00\x08\x00\x00\x00\x00\x08\x00\x00\x00\x00\x08\x00\x00\x00",
    ),
    (
        "--kind=dynamics",
        b"P5\n5 3\n4\n\x00\x04\x00\x00\x00\x00\x04\x00\x00\x00\x00\x04\x00\x00\x00",
    ),
];

#[test]
fn three_by_two(rt: HostRuntime) -> Result<(), Fail> {
    for (kind, contours) in OF_SIX {
        let want = (0, contours, "");
        runs(&rt, rt.alloc(), &[kind, "--tile=1"], SIX, want)?;
        runs(&rt, rt.alloc(), &[kind, "--tile=2"], SIX, want)?;
        runs(&rt, rt.alloc(), &[kind, "--tile=64"], SIX, want)?;
    }
    Ok(())
}

// One row and one column of four pixels: the minima are the first two pixels and the last two.
const ROW: &[u8] = b"P5\n4 1\n9\n\x00\x01\x05\x07";

const COLUMN: &[u8] = b"P5\n1 4\n9\n\x00\x01\x05\x07";

// Two by two: the corner has the greatest of the four. There is one minimum, so every hierarchical watershed is flat, and so is
// that of one pixel.
const FOUR: &[u8] = b"P5\n2 2\n9\n\x00\x01\x07\x03";

const FLAT: &[u8] = b"P5\n3 3\n1\n\x00\x00\x00\x00\x00\x00\x00\x00\x00";

const ONE: &[u8] = b"P5\n1 1\n9\n\x05";

const DOT: &[u8] = b"P5\n1 1\n1\n\x00";

// Words, a picture and its contours.
static DRAWN: [(&[&str], &[u8], &[u8]); 14] = [
    (
        &["--kind", "altitude"],
        ROW,
        b"P5\n7 1\n4\n\x00\x01\x00\x04\x00\x02\x00",
    ),
    (
        &["--kind", "altitude"],
        COLUMN,
        b"P5\n1 7\n4\n\x00\x01\x00\x04\x00\x02\x00",
    ),
    (
        &["--kind", "area"],
        ROW,
        b"P5\n7 1\n2\n\x00\x00\x00\x02\x00\x00\x00",
    ),
    (
        &["--kind", "area"],
        COLUMN,
        b"P5\n1 7\n2\n\x00\x00\x00\x02\x00\x00\x00",
    ),
    (
        &["--kind", "volume"],
        ROW,
        b"P5\n7 1\n4\n\x00\x00\x00\x04\x00\x00\x00",
    ),
    (
        &["--kind", "volume"],
        COLUMN,
        b"P5\n1 7\n4\n\x00\x00\x00\x04\x00\x00\x00",
    ),
    (
        &["--kind", "dynamics"],
        ROW,
        b"P5\n7 1\n2\n\x00\x00\x00\x02\x00\x00\x00",
    ),
    (
        &["--kind", "dynamics"],
        COLUMN,
        b"P5\n1 7\n2\n\x00\x00\x00\x02\x00\x00\x00",
    ),
    (
        &["--kind=altitude"],
        FOUR,
        b"P5\n3 3\n4\n\x00\x01\x00\x04\x04\x02\x00\x04\x00",
    ),
    (&[], FOUR, FLAT),
    (&["--kind=area"], FOUR, FLAT),
    (&["--kind=volume"], FOUR, FLAT),
    (&[], ONE, DOT),
    (&["--kind=altitude"], ONE, DOT),
];

#[test]
fn drawn(rt: HostRuntime) -> Result<(), Fail> {
    for (words, picture, contours) in DRAWN {
        runs(&rt, rt.alloc(), words, picture, (0, contours, ""))?;
    }
    Ok(())
}

// Words, the input, the read and the write that fail, the code, what is written, and the fault line.
static REFUSED: [(&[&str], &[u8], (u64, u64), (u8, &[u8], &str)); 7] = [
    (
        &[],
        b"graph 2 1\n0 1 7\n",
        (0, 0),
        (3, b"", "higra: input 11 NotAPicture at 0 value 0\n"),
    ),
    (&["--level=0"], SIX, (0, 0), (2, b"", "higra: usage\n")),
    (&["cut"], SIX, (0, 0), (2, b"", "higra: usage\n")),
    // The six pixels without the last.
    (
        &[],
        b"P5\n3 2\n9\n\x00\x05\x06\x01\x08",
        (0, 0),
        (3, b"", "higra: input 4 Truncated at 14 value 0\n"),
    ),
    (
        &["--make=257", "--tile=1"],
        b"",
        (0, 0),
        (3, b"", "higra: input 12 TooManyTiles at 0 value 66049\n"),
    ),
    (&[], SIX, (2, 0), (4, b"", "higra: read failed\n")),
    (&[], SIX, (0, 2), (5, b"P5\n5", "higra: write failed\n")),
];

#[test]
fn refused(rt: HostRuntime) -> Result<(), Fail> {
    for (words, input, fails, want) in REFUSED {
        runs_failing(&rt, rt.alloc(), words, input, fails, want)?;
    }
    Ok(())
}
