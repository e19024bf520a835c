//! Worked runs: inputs that are cut, calls that fail, and pictures of many tiles and of many regions.
use crate::running::{Ran, run_passing, run_words, runs_to, words_of};
use hg_base::{MemSink, MemSource, OpenGate};
use std::alloc::{AllocError, Global};
use std::process::Abort;
use std::test::Fail;
use std::thread::Threads;

/// A path of three vertices, and the report of its tree.
const PATH: &[u8] = b"graph 3 2\n0 1 5\n1 2 3\n";

const PATH_TREE: &[u8] = b"tree 5 3\n0 4 0\n1 3 0\n2 3 0\n3 4 3\n4 4 5\n";

/// A picture of two by two pixels.
const PICTURE: &[u8] = b"P5\n2 2\n9\n\0\x03\x03\t";

/// The fault line of an input that is cut before its form is known.
const UNKNOWN_FORM: &[u8] = b"higra: input 1 UnknownForm at 0 value 0\n";

/// The fault lines of inputs that are cut to 2, 3, .. and 20 bytes, where so many tell the form.
const TRUNCATED: [&[u8]; 19] = [
    b"higra: input 4 Truncated at 2 value 0\n",
    b"higra: input 4 Truncated at 3 value 0\n",
    b"higra: input 4 Truncated at 4 value 0\n",
    b"higra: input 4 Truncated at 5 value 0\n",
    b"higra: input 4 Truncated at 6 value 0\n",
    b"higra: input 4 Truncated at 7 value 0\n",
    b"higra: input 4 Truncated at 8 value 0\n",
    b"higra: input 4 Truncated at 9 value 0\n",
    b"higra: input 4 Truncated at 10 value 0\n",
    b"higra: input 4 Truncated at 11 value 0\n",
    b"higra: input 4 Truncated at 12 value 0\n",
    b"higra: input 4 Truncated at 13 value 0\n",
    b"higra: input 4 Truncated at 14 value 0\n",
    b"higra: input 4 Truncated at 15 value 0\n",
    b"higra: input 4 Truncated at 16 value 0\n",
    b"higra: input 4 Truncated at 17 value 0\n",
    b"higra: input 4 Truncated at 18 value 0\n",
    b"higra: input 4 Truncated at 19 value 0\n",
    b"higra: input 4 Truncated at 20 value 0\n",
];

#[test]
fn edge_lists_that_are_cut(rt: HostRuntime) -> Result<(), Fail> {
    for length in 0..21 {
        let line = if length < 5 {
            UNKNOWN_FORM
        } else {
            TRUNCATED[length - 2]
        };
        runs_to(&rt, rt.alloc(), &["tree"], &PATH[..length], 3, b"", line)?;
    }
    Ok(())
}

#[test]
fn pictures_that_are_cut(rt: HostRuntime) -> Result<(), Fail> {
    for length in 0..13 {
        let line = if length < 2 {
            UNKNOWN_FORM
        } else {
            TRUNCATED[length - 2]
        };
        runs_to(&rt, rt.alloc(), &["tree"], &PICTURE[..length], 3, b"", line)?;
    }
    Ok(())
}

/// A source of the path that gives five bytes at a time; the read with this number fails.
fn failing_source(alloc: Global, read: u64) -> Result<MemSource, AllocError> {
    let bytes = Vec::from_slice(alloc, PATH)?;
    let fails = Vec::from_slice(alloc, &[read])?;
    Ok(MemSource::new(bytes, 5, fails))
}

/// A sink that takes four bytes at a time; the write with this number fails.
fn failing_sink(alloc: Global, write: u64) -> Result<MemSink, Fail> {
    let fails = Vec::from_slice(alloc, &[write])?;
    Ok(MemSink::with_room(alloc, 100, 4, fails)?)
}

/// The numbers of the calls that fail: a read, a write of the report, and a write of the fault line.
#[derive(Clone, Copy)]
struct Failing {
    read: u64,
    write: u64,
    line: u64,
}

/// Runs `tree` on the path, where these calls fail.
fn run_with_failures(
    rt: &(impl Threads + Sync),
    alloc: Global,
    failing: Failing,
) -> Result<Ran, Fail> {
    let words = words_of(alloc, &["tree"])?;
    let source = failing_source(alloc, failing.read)?;
    let out = failing_sink(alloc, failing.write)?;
    let err = failing_sink(alloc, failing.line)?;
    Ok(run_passing(rt, alloc, &words, source, out, err, &OpenGate))
}

/// Runs `tree` on the path, where these calls fail, and compares how it ends with what is wanted.
fn fails_to(
    rt: &(impl Threads + Sync + Abort),
    alloc: Global,
    failing: Failing,
    code: u8,
    out: &[u8],
    err: &[u8],
) -> Result<(), Fail> {
    let ran = run_with_failures(rt, alloc, failing)?;
    ran.is_as_wanted(rt, code, out, err);
    Ok(())
}

#[test]
fn reads_that_fail(rt: HostRuntime) -> Result<(), Fail> {
    for read in 1..7 {
        let told = Failing {
            read,
            write: 0,
            line: 0,
        };
        fails_to(&rt, rt.alloc(), told, 4, b"", b"higra: read failed\n")?;
        let untold = Failing {
            read,
            write: 0,
            line: 1,
        };
        fails_to(&rt, rt.alloc(), untold, 4, b"", b"")?;
    }
    let none = Failing {
        read: 7,
        write: 0,
        line: 0,
    };
    fails_to(&rt, rt.alloc(), none, 0, PATH_TREE, b"")
}

#[test]
fn writes_that_fail(rt: HostRuntime) -> Result<(), Fail> {
    for write in 1..11 {
        let written = &PATH_TREE[..4 * (write - 1)];
        let told = Failing {
            read: 0,
            write: write as u64,
            line: 0,
        };
        fails_to(&rt, rt.alloc(), told, 5, written, b"higra: write failed\n")?;
        let untold = Failing {
            read: 0,
            write: write as u64,
            line: 1,
        };
        fails_to(&rt, rt.alloc(), untold, 5, written, b"")?;
    }
    let none = Failing {
        read: 0,
        write: 11,
        line: 0,
    };
    fails_to(&rt, rt.alloc(), none, 0, PATH_TREE, b"")
}

/// Runs `tree` on the path into a sink with room for so many bytes, and compares how it ends with what is wanted.
fn fills_to(
    rt: &(impl Threads + Sync + Abort),
    alloc: Global,
    room: usize,
    code: u8,
    out: &[u8],
    err: &[u8],
) -> Result<(), Fail> {
    let words = words_of(alloc, &["tree"])?;
    let ran = run_words(rt, alloc, &words, PATH, room, &OpenGate)?;
    ran.is_as_wanted(rt, code, out, err);
    Ok(())
}

#[test]
fn sinks_that_are_full(rt: HostRuntime) -> Result<(), Fail> {
    for room in 0..39 {
        let written = &PATH_TREE[..room];
        fills_to(&rt, rt.alloc(), room, 5, written, b"higra: write failed\n")?;
    }
    fills_to(&rt, rt.alloc(), 39, 0, PATH_TREE, b"")
}

/// A run, the code with which it ends, and what it writes.
#[derive(Drop)]
struct Ending {
    words: &'static [&'static str],
    input: &'static [u8],
    code: u8,
    out: &'static [u8],
    err: &'static [u8],
}

/// Runs that end one way or another. In the drawn watershed three pixels are in the one minimum, and the tree at it has
/// the fourth.
const ENDINGS: &[Ending] = &[
    Ending {
        words: &["tree"],
        input: PATH,
        code: 0,
        out: PATH_TREE,
        err: b"",
    },
    Ending {
        words: &["tree", "--make", "512", "--tile", "1"],
        input: b"",
        code: 3,
        out: b"",
        err: b"higra: input 12 TooManyTiles at 0 value 262144\n",
    },
    Ending {
        words: &["cut", "--level", "1", "--form", "pgm"],
        input: PATH,
        code: 3,
        out: b"",
        err: b"higra: input 11 NotAPicture at 0 value 0\n",
    },
    Ending {
        words: &["watershed", "--form", "pgm"],
        input: PICTURE,
        code: 0,
        out: b"P5\n2 2\n1\n\x01\x01\x01\x01",
        err: b"",
    },
    Ending {
        words: &["watershed", "--form", "pgm"],
        input: PATH,
        code: 3,
        out: b"",
        err: b"higra: input 11 NotAPicture at 0 value 0\n",
    },
];

#[test]
fn runs_end_as_wanted(rt: HostRuntime) -> Result<(), Fail> {
    for ending in ENDINGS {
        let Ending {
            words,
            input,
            code,
            out,
            err,
        } = ending;
        runs_to(&rt, rt.alloc(), words, input, *code, out, err)?;
    }
    Ok(())
}

#[test]
fn a_picture_of_many_tiles(rt: HostRuntime) -> Result<(), Fail> {
    let words = words_of(rt.alloc(), &["tree", "--make", "512"])?;
    let ran = run_words(&rt, rt.alloc(), &words, b"", 10_000_000, &OpenGate)?;
    ran.begins_with(&rt, b"tree 524287 262144\n");
    Ok(())
}

/// These first bytes, and then a piece so many times.
fn repeated(alloc: Global, head: &[u8], piece: &[u8], times: u32) -> Result<Vec<u8>, AllocError> {
    let mut bytes = Vec::from_slice(alloc, head)?;
    for _ in 0..times {
        bytes.extend_from_slice(piece)?;
    }
    Ok(bytes)
}

/// This head, and then the labels from 1 to so many, of two bytes each.
fn drawn_labels(alloc: Global, head: &[u8], count: u16) -> Result<Vec<u8>, AllocError> {
    let mut bytes = Vec::from_slice(alloc, head)?;
    for label in 1..=count {
        bytes.extend_from_slice(&label.to_be_bytes())?;
    }
    Ok(bytes)
}

// A row of samples 0, 1, 0, 1 and so on, so that each pixel is a region. Their number is odd; the first stands in the head.
#[test]
fn as_many_regions_as_can_be_drawn(rt: HostRuntime) -> Result<(), Fail> {
    let stripes = repeated(rt.alloc(), b"P5 65535 1 1\n\0", b"\x01\0", 32_767)?;
    let drawn = drawn_labels(rt.alloc(), b"P5\n65535 1\n65535\n", 65_535)?;
    runs_to(
        &rt,
        rt.alloc(),
        &["cut", "--form", "pgm"],
        &stripes,
        0,
        &drawn,
        b"",
    )
}

#[test]
fn one_region_too_many(rt: HostRuntime) -> Result<(), Fail> {
    let stripes = repeated(rt.alloc(), b"P5 65536 1 1\n", b"\0\x01", 32_768)?;
    let line = b"higra: input 14 TooManyLabels at 0 value 65536\n";
    runs_to(
        &rt,
        rt.alloc(),
        &["cut", "--form", "pgm"],
        &stripes,
        3,
        b"",
        line,
    )
}

// The edge list of two vertices with the most edges that there may be.
#[test]
fn as_many_edges_as_there_may_be(rt: HostRuntime) -> Result<(), Fail> {
    let input = repeated(rt.alloc(), b"graph 2 4194304\n", b"0 1 7\n", 4_194_304)?;
    let tree = b"tree 3 2\n0 2 0\n1 2 0\n2 2 7\n";
    runs_to(&rt, rt.alloc(), &["tree"], &input, 0, tree, b"")
}

#[test]
fn one_line_too_many(rt: HostRuntime) -> Result<(), Fail> {
    let input = repeated(rt.alloc(), b"graph 2 4194304\n", b"0 1 7\n", 4_194_305)?;
    let line = b"higra: input 5 Trailing at 25165840 value 0\n";
    runs_to(&rt, rt.alloc(), &["tree"], &input, 3, b"", line)
}
