use hg_base::{
    Failed, FaultKind, InputFault, MemSink, MemSource, OpenGate, OutOfMemory, Sink, Source,
};
use higra_cli::{
    Form, Report, Request, RunFault, Status, Words, WordsFault, exit_code, input_for, report,
    request_of, run,
};
use merge_board::Receipt;
use std::alloc::{AllocError, Global};
use std::process::Abort;
use std::test::Fail;
use std::thread::Threads;

const TRIANGLE: &str = "graph 3 3\n0 1 1\n1 2 1\n0 2 1\n";

const PATH: &str = "graph 4 3\n0 1 1\n1 2 5\n2 3 2\n";

const EDGE_LIST: &str = "graph 3 2\n0 1 5\n1 2 3\n";

fn words_of(alloc: Global, texts: &[&str]) -> Result<Words, OutOfMemory> {
    let mut words = Words::new(alloc);
    for text in texts {
        words.push(text)?;
    }
    Ok(words)
}

// A source of these bytes that gives three at a time, and whose read with this number fails.
fn source_of(alloc: Global, bytes: &str, fails: u64) -> Result<MemSource, AllocError> {
    let bytes = Vec::from_slice(alloc, bytes.as_bytes())?;
    let fails = vec![in alloc; fails]?;
    Ok(MemSource::new(bytes, 3, fails))
}

// A sink that takes four bytes at a time, so many in all, and whose write with this number fails.
fn sink_of(alloc: Global, room: usize, fails: u64) -> Result<MemSink, Fail> {
    let fails = vec![in alloc; fails]?;
    Ok(MemSink::with_room(alloc, room, 4, fails)?)
}

// Runs the words and compares the code, the report and the fault line with what is wanted.
fn runs<S: Source>(
    rt: &(impl Threads + Sync + Abort),
    alloc: Global,
    words: &[&str],
    source: &mut S,
    out: &mut MemSink,
    err: &mut MemSink,
    want: (u8, &str, &str),
) -> Result<(), Fail> {
    let words = words_of(alloc, words)?;
    let code = exit_code(rt, alloc, &words, source, out, err, &OpenGate);
    assert!(rt; code == want.0);
    assert!(rt; out.taken() == want.1.as_bytes());
    assert!(rt; err.taken() == want.2.as_bytes());
    Ok(())
}

// Runs the words on an input, with an outside that is well.
fn runs_on(
    rt: &(impl Threads + Sync + Abort),
    alloc: Global,
    words: &[&str],
    input: &str,
    want: (u8, &str, &str),
) -> Result<(), Fail> {
    let mut source = source_of(alloc, input, 0)?;
    let mut out = sink_of(alloc, 100, 0)?;
    let mut err = sink_of(alloc, 100, 0)?;
    runs(rt, alloc, words, &mut source, &mut out, &mut err, want)
}

// Words, the input, and the report.
static REPORTS: [(&[&str], &str, &str); 29] = [
    (
        &["cut", "--level", "1"],
        PATH,
        "labels 4 3\n0 1\n1 1\n2 2\n3 3\n",
    ),
    (
        &["cut", "--level", "4", "--kind", "altitude"],
        "graph 3 1\n0 1 4\n",
        "labels 3 2\n0 1\n1 1\n2 2\n",
    ),
    (
        &["cut", "--level", "1", "--form", "pgm"],
        "P5\n2 2\n9\n\0\x03\x03\t",
        "P5\n2 2\n4\n\x01\x02\x03\x04",
    ),
    (&["cut", "--form=text"], "graph 1 0\n", "labels 1 1\n0 1\n"),
    (
        &["tree"],
        "graph 3 2\n0 1 5\n1 2 3\n",
        "tree 5 3\n0 4 0\n1 3 0\n2 3 0\n3 4 3\n4 4 5\n",
    ),
    (&["tree"], "graph 1 0\n", "tree 1 1\n0 0 0\n"),
    (&["zones"], "graph 1 0\n", "tree 1 1\n0 0 0\n"),
    (
        &["tree"],
        TRIANGLE,
        "tree 5 3\n0 3 0\n1 3 0\n2 4 0\n3 4 1\n4 4 1\n",
    ),
    (
        &["zones"],
        TRIANGLE,
        "tree 4 3\n0 3 0\n1 3 0\n2 3 0\n3 3 1\n",
    ),
    (&["saliency"], TRIANGLE, "saliency 3\n0 1\n1 1\n2 1\n"),
    (
        &["saliency"],
        "graph 4 4\n0 1 1\n1 2 4\n2 3 2\n0 3 3\n",
        "saliency 4\n0 1\n1 3\n2 2\n3 3\n",
    ),
    (&["saliency"], "graph 3 1\n0 1 4\n", "saliency 1\n0 4\n"),
    (
        &["tree"],
        "# roads\ngraph 2 1\r\n0 1 7 # north\r\n",
        "tree 3 2\n0 2 0\n1 2 0\n2 2 7\n",
    ),
    (
        &["tree"],
        "P5\n2 2\n9\n\0\x03\x03\t",
        "tree 7 4\n0 4 0\n1 4 0\n2 5 0\n3 6 0\n4 5 3\n5 6 3\n6 6 6\n",
    ),
    (
        &["tree"],
        "P5\n# made by an editor\n3 1\n255\n\n\x14\x19",
        "tree 5 3\n0 4 0\n1 3 0\n2 3 0\n3 4 5\n4 4 10\n",
    ),
    (
        &["tree"],
        "P5 2 1 256\n\x01\0\0\x05",
        "tree 3 2\n0 2 0\n1 2 0\n2 2 251\n",
    ),
    (
        &["hierarchical"],
        "graph 1 0\n",
        "tree 1 1\n0 0 0\nextinctions 1\n1 0\n",
    ),
    (
        &["hierarchical", "--kind", "dynamics"],
        PATH,
        "tree 7 4\n0 4 0\n1 4 0\n2 5 0\n3 5 0\n4 6 0\n5 6 0\n6 6 3\nextinctions 2\n1 4\n2 3\n",
    ),
    (
        &["hierarchical", "--kind=volume"],
        PATH,
        "tree 7 4\n0 4 0\n1 4 0\n2 5 0\n3 5 0\n4 6 0\n5 6 0\n6 6 6\nextinctions 2\n1 14\n2 6\n",
    ),
    (
        &["--kind", "area", "hierarchical"],
        PATH,
        "tree 7 4\n0 4 0\n1 4 0\n2 5 0\n3 5 0\n4 6 0\n5 6 0\n6 6 2\nextinctions 2\n1 4\n2 2\n",
    ),
    (
        &["cut", "--kind", "dynamics", "--level", "2"],
        PATH,
        "labels 4 2\n0 1\n1 1\n2 2\n3 2\n",
    ),
    (
        &["cut", "--kind", "dynamics", "--level", "3"],
        PATH,
        "labels 4 1\n0 1\n1 1\n2 1\n3 1\n",
    ),
    (
        &["cut", "--kind", "area", "--form", "pgm"],
        "P5\n2 2\n9\n\0\x03\x03\t",
        "P5\n2 2\n1\n\x01\x01\x01\x01",
    ),
    (
        &["mintree"],
        "P5\n2 2\n9\n\0\x03\x03\t",
        "mintree 7 4\n0 4 0\n1 5 3\n2 5 3\n3 6 9\n4 5 0\n5 6 3\n6 6 9\n",
    ),
    (
        &["maxtree"],
        "P5\n2 2\n9\n\0\x03\x03\t",
        "maxtree 7 4\n0 6 0\n1 5 3\n2 5 3\n3 4 9\n4 5 9\n5 6 3\n6 6 0\n",
    ),
    (
        &["energy", "--level", "2"],
        PATH,
        "energy 4 3 8\nnode 2 2\nnode 3 2\nnode 4 4\nv 0 1\nv 1 1\nv 2 2\nv 3 3\n",
    ),
    (
        &["energy", "--level", "14"],
        PATH,
        "energy 4 1 34\nnode 6 34\nv 0 1\nv 1 1\nv 2 1\nv 3 1\n",
    ),
    (
        &["energy", "--level", "100", "--form", "pgm"],
        "P5\n2 2\n9\n\0\x03\x03\t",
        "P5\n2 2\n1\n\x01\x01\x01\x01",
    ),
    // The weights are 34, 69, 86 and 51; the source isn't read.
    (
        &["saliency", "--make", "2", "--seed", "1"],
        "grap",
        "saliency 4\n0 34\n1 69\n2 69\n3 51\n",
    ),
];

#[test]
fn reports(rt: HostRuntime) -> Result<(), Fail> {
    for (words, input, report) in REPORTS {
        runs_on(&rt, rt.alloc(), words, input, (0, report, ""))?;
    }
    Ok(())
}

// An input, and the line of its fault.
static FAULTS: [(&str, &str); 19] = [
    (
        "graph 3 2\n0 1 5\n1 2",
        "higra: input 4 Truncated at 19 value 0\n",
    ),
    (
        "graph 3 2\n0 1 5\n1 2 3 7\n",
        "higra: input 5 Trailing at 22 value 0\n",
    ),
    ("graph 2 1\n0 0 3\n", "higra: input 7 Loop at 12 value 0\n"),
    (
        "graph 2 1\n0 2 3\n",
        "higra: input 6 OutOfRange at 12 value 2\n",
    ),
    (
        "graph 1048577 0\n",
        "higra: input 3 TooLarge at 6 value 1048577\n",
    ),
    (
        "graph 2 1\n0 1 4294967296\n",
        "higra: input 3 TooLarge at 14 value 4294967296\n",
    ),
    (
        "graph 2 1\n0 1 12345678901\n",
        "higra: input 2 BadNumber at 14 value 0\n",
    ),
    ("grap 3 0\n", "higra: input 1 UnknownForm at 0 value 0\n"),
    ("", "higra: input 1 UnknownForm at 0 value 0\n"),
    ("graph 3 x\n", "higra: input 2 BadNumber at 8 value 0\n"),
    ("graph 0 0\n", "higra: input 8 NoVertex at 6 value 0\n"),
    (
        "P5 2 1 256\n\x01\x01\0\x05",
        "higra: input 9 SampleAboveMax at 11 value 257\n",
    ),
    (
        "P5 2 1 255\n\x07",
        "higra: input 4 Truncated at 12 value 0\n",
    ),
    (
        "P5 2 1 255\n\x07\x08\t",
        "higra: input 5 Trailing at 13 value 0\n",
    ),
    ("P5 2 0 9\n", "higra: input 8 NoVertex at 5 value 0\n"),
    ("P5 2 2 0\n", "higra: input 2 BadNumber at 7 value 0\n"),
    ("P5", "higra: input 4 Truncated at 2 value 0\n"),
    ("P", "higra: input 1 UnknownForm at 0 value 0\n"),
    ("P2 1 1 9\n", "higra: input 1 UnknownForm at 0 value 0\n"),
];

#[test]
fn faults_of_the_input(rt: HostRuntime) -> Result<(), Fail> {
    for (input, line) in FAULTS {
        runs_on(&rt, rt.alloc(), &["tree"], input, (3, "", line))?;
    }
    Ok(())
}

// Words, an input of which their report can't be made, and the line of the first cause.
static REFUSED: [(&[&str], &str, &str); 9] = [
    (
        &["cut", "--level", "1", "--form", "pgm"],
        "graph 1 0\n",
        "higra: input 11 NotAPicture at 0 value 0\n",
    ),
    (
        &["cut", "--form", "pgm", "--tile", "1"],
        "graph 65537 0\n",
        "higra: input 11 NotAPicture at 0 value 0\n",
    ),
    (
        &["mintree"],
        "graph 3 2\n0 1 5\n1 2 3\n",
        "higra: input 11 NotAPicture at 0 value 0\n",
    ),
    (
        &["maxtree", "--tile", "1"],
        "graph 65537 0\n",
        "higra: input 11 NotAPicture at 0 value 0\n",
    ),
    (
        &["energy", "--form", "pgm"],
        "graph 4 3\n0 1 1\n1 2 5\n2 3 2\n",
        "higra: input 11 NotAPicture at 0 value 0\n",
    ),
    (
        &["mintree", "--make", "512", "--tile", "1"],
        "",
        "higra: input 12 TooManyTiles at 0 value 262144\n",
    ),
    (
        &["tree", "--tile", "1"],
        "graph 65537 0\n",
        "higra: input 12 TooManyTiles at 0 value 65537\n",
    ),
    (
        &["tree", "--make", "512", "--tile", "1"],
        "",
        "higra: input 12 TooManyTiles at 0 value 262144\n",
    ),
    (
        &["cut", "--make", "512", "--tile", "1", "--form", "pgm"],
        "",
        "higra: input 12 TooManyTiles at 0 value 262144\n",
    ),
];

#[test]
fn reports_that_are_refused(rt: HostRuntime) -> Result<(), Fail> {
    for (words, input, line) in REFUSED {
        runs_on(&rt, rt.alloc(), words, input, (3, "", line))?;
    }
    Ok(())
}

// What is made of the report that the words ask for, about an input.
fn report_on(
    rt: &(impl Threads + Sync),
    alloc: Global,
    texts: &[&str],
    input: &str,
) -> Result<Result<(Vec<u8>, Receipt), RunFault>, Fail> {
    let words = words_of(alloc, texts)?;
    let request = request_of(alloc, &words).or(Err("no request"))?;
    let mut source = source_of(alloc, input, 0)?;
    let input = input_for(alloc, request.made, &mut source).or(Err("no input"))?;
    Ok(report(rt, alloc, &request, &input, &OpenGate))
}

// Each form of a report, with the numbers of tiles, workers and edges of its receipt.
static FORMS: [(&[&str], &str, &str, (u32, u32, u64)); 2] = [
    (
        &["cut", "--level", "1", "--tile", "2", "--workers", "3"],
        "graph 4 3\n0 1 1\n1 2 5\n2 3 2\n",
        "labels 4 3\n0 1\n1 1\n2 2\n3 3\n",
        (2, 3, 3),
    ),
    (
        &["cut", "--level", "1", "--form", "pgm"],
        "P5\n2 2\n9\n\0\x03\x03\t",
        "P5\n2 2\n4\n\x01\x02\x03\x04",
        (1, 4, 4),
    ),
];

// Each form of a report, with the numbers of tiles, workers and edges of its receipt.
#[test]
fn reports_without_a_run(rt: HostRuntime) -> Result<(), Fail> {
    for (words, input, bytes, numbers) in FORMS {
        let made = report_on(&rt, rt.alloc(), words, input)?;
        let (written, receipt) = made.or(Err("no report"))?;
        assert!(rt; written.as_slice() == bytes.as_bytes());
        assert!(rt; (receipt.tiles(), receipt.workers(), receipt.edges()) == numbers);
    }
    Ok(())
}

#[test]
fn a_report_that_is_refused_without_a_run(rt: HostRuntime) -> Result<(), Fail> {
    let words = ["energy", "--form", "pgm"];
    let made = report_on(&rt, rt.alloc(), &words, "graph 4 3\n0 1 1\n1 2 5\n2 3 2\n")?;
    let fault = InputFault {
        kind: FaultKind::NotAPicture,
        at: 0,
        value: 0,
    };
    assert!(rt; made.err() == Some(RunFault::Input(fault)));
    Ok(())
}

// The numbers of tiles, workers and edges of a run that succeeded.
fn receipt_in(status: &Status) -> Option<(u32, u32, u64)> {
    match status {
        Status::Success(receipt) => Some((receipt.tiles(), receipt.workers(), receipt.edges())),
        _ => None,
    }
}

#[test]
fn as_many_tiles_as_there_may_be(rt: HostRuntime) -> Result<(), Fail> {
    let words = words_of(rt.alloc(), &["tree", "--tile", "1"])?;
    let mut source = source_of(rt.alloc(), "graph 65536 0\n", 0)?;
    let mut out = sink_of(rt.alloc(), 1_000_000, 0)?;
    let mut err = sink_of(rt.alloc(), 100, 0)?;
    let status = run(
        &rt,
        rt.alloc(),
        &words,
        &mut source,
        &mut out,
        &mut err,
        &OpenGate,
    );
    assert!(rt; status.code() == 0);
    assert!(rt; receipt_in(&status) == Some((65_536, 4, 0)));
    assert!(rt; out.taken().starts_with(b"tree 65536 65536\n0 0 0\n1 1 0\n"));
    assert!(rt; err.taken().is_empty());
    Ok(())
}

// Runs words that give no request, and sees that the source is untouched.
fn asks_for_nothing(
    rt: &(impl Threads + Sync + Abort),
    alloc: Global,
    texts: &[&str],
) -> Result<(), Fail> {
    let words = words_of(alloc, texts)?;
    assert!(rt; request_of(alloc, &words) == Err(WordsFault::Usage));
    let mut source = source_of(alloc, "graph 1 0\n", 0)?;
    let mut out = sink_of(alloc, 100, 0)?;
    let mut err = sink_of(alloc, 100, 0)?;
    let want = (2, "", "higra: usage\n");
    runs(rt, alloc, texts, &mut source, &mut out, &mut err, want)?;
    let mut first = [b'.'; 4];
    assert!(rt; source.read(&mut first) == Ok(3));
    assert!(rt; first.as_slice() == b"gra.".as_slice());
    Ok(())
}

// Words that ask for nothing.
static NO_REQUESTS: [&[&str]; 53] = [
    &[],
    &[""],
    &["forest"],
    &["help"],
    &["tree", "tree"],
    &["tree", "--tile", "0"],
    &["tree", "--tile", "1048577"],
    &["tree", "--tile", "000000000000000000008"],
    &["tree", "--tile", "18446744073709551616"],
    &["tree", "--tile", "99999999999999999999"],
    &["tree", "--tile", ""],
    &["tree", "--tile="],
    &["tree", "--tile", "+8"],
    &["tree", "--tile", "-1"],
    &["tree", "--tile", "8x"],
    &["tree", "--tile"],
    &["tree", "--tile", "8", "--tile", "8"],
    &["tree", "--tile=8", "--tile=8"],
    &["tree", "--til", "8"],
    &["tree", "-t", "8"],
    &["--tile", "8"],
    &["tree", "--workers", "0"],
    &["tree", "--workers", "65"],
    &["tree", "--level", "0"],
    &["tree", "--level", "3"],
    &["tree", "--kind", "altitude"],
    &["tree", "--form", "pgm"],
    &["tree", "--form", "Text"],
    &["tree", "--seed", "4"],
    &["tree", "--make", "0"],
    &["tree", "--make", "1025"],
    &["tree", "--make", "2", "--seed", "4294967296"],
    &["attributes", "--level", "0"],
    &["attributes", "--form", "pgm"],
    &["minima", "--kind", "altitude"],
    &["minima", "--form", "pgm"],
    &["watershed", "--level", "0"],
    &["summary", "--form", "pgm"],
    &["hierarchical", "--kind", "altitude"],
    &["hierarchical", "--level", "0"],
    &["hierarchical", "--form", "pgm"],
    &["cut", "--kind", "height"],
    &["energy", "--kind", "area"],
    &["mintree", "--form", "pgm"],
    &["maxtree", "--level", "0"],
    &["cut", "--level", "1x"],
    &["tree", "--report", "tree"],
    &["tree", "--help"],
    &["--help"],
    &["-h"],
    &["tree", "--version"],
    &["-V"],
    &["--", "tree", "--tile", "8"],
];

#[test]
fn words_that_give_no_request(rt: HostRuntime) -> Result<(), Fail> {
    for texts in NO_REQUESTS {
        asks_for_nothing(&rt, rt.alloc(), texts)?;
    }
    Ok(())
}

// Words, and the tile size and the number of workers that they ask for.
static REQUESTS: [(&[&str], u32, u32); 13] = [
    (&["tree"], 64, 4),
    (&["tree", "--tile", "1"], 1, 4),
    (&["tree", "--tile", "1048576"], 1_048_576, 4),
    (&["tree", "--tile", "08"], 8, 4),
    (&["tree", "--tile", "00000000000000000008"], 8, 4),
    (&["tree", "--tile=8"], 8, 4),
    (&["tree", "--workers", "1"], 64, 1),
    (&["tree", "--workers", "64"], 64, 64),
    (&["--workers", "2", "tree", "--tile", "8"], 8, 2),
    (&["--tile", "8", "--workers=2", "tree"], 8, 2),
    (&["tree", "--form", "text"], 64, 4),
    (&["--form=text", "--tile", "8", "tree"], 8, 4),
    (&["--tile", "8", "--", "tree"], 8, 4),
];

// Words, and the tile size and the number of workers that they ask for.
#[test]
fn words_that_give_a_request(rt: HostRuntime) -> Result<(), Fail> {
    for (texts, tile, workers) in REQUESTS {
        let words = words_of(rt.alloc(), texts)?;
        let request = Request {
            report: Report::Tree,
            tile,
            workers,
            form: Form::Text,
            made: None,
        };
        assert!(rt; request_of(rt.alloc(), &words) == Ok(request));
    }
    Ok(())
}

// Runs `tree` where the read or the write with this number fails, and with so much room for the fault line.
fn runs_in_part(
    rt: &(impl Threads + Sync + Abort),
    alloc: Global,
    input: &str,
    fails: (u64, u64, usize),
    want: (u8, &str, &str),
) -> Result<(), Fail> {
    let mut source = source_of(alloc, input, fails.0)?;
    let mut out = sink_of(alloc, 100, fails.1)?;
    let mut err = sink_of(alloc, fails.2, 0)?;
    runs(rt, alloc, &["tree"], &mut source, &mut out, &mut err, want)
}

// An input, the read and the write that fail, the room for the fault line, and what is wanted.
static OUTSIDES: [(&str, (u64, u64, usize), (u8, &str, &str)); 5] = [
    (EDGE_LIST, (1, 0, 100), (4, "", "higra: read failed\n")),
    (EDGE_LIST, (3, 0, 100), (4, "", "higra: read failed\n")),
    ("grap 3 0\n", (4, 0, 100), (4, "", "higra: read failed\n")),
    (EDGE_LIST, (0, 2, 100), (5, "tree", "higra: write failed\n")),
    ("graph 3 2\n0 1 5\n1 2", (0, 0, 5), (3, "", "higra")),
];

#[test]
fn an_outside_that_fails(rt: HostRuntime) -> Result<(), Fail> {
    for (input, fails, want) in OUTSIDES {
        runs_in_part(&rt, rt.alloc(), input, fails, want)?;
    }
    assert!(rt; Status::OutOfMemory.code() == 6);
    Ok(())
}

static BLANKS: [u8; 65_536] = [b' '; 65_536];

// Gives so many spaces, and never a piece of more than 65,536.
#[derive(Drop)]
struct Blanks {
    left: usize,
}

impl Source for Blanks {
    ghost use Rattle.std.specs.Prelude.{None};

    ghost left = { λ _. None };

    ghost faults = { λ _. 0 };

    fn read(&mut self, into: &mut [u8]) -> Result<usize, Failed> {
        let count = into.len().min(self.left).min(BLANKS.len());
        into[..count].copy_from_slice(&BLANKS[..count]);
        self.left -= count;
        Ok(count)
    }
}

#[test]
fn an_input_that_is_too_long(rt: HostRuntime) -> Result<(), Fail> {
    let mut source = Blanks { left: 134_217_740 };
    let mut out = sink_of(rt.alloc(), 100, 0)?;
    let mut err = sink_of(rt.alloc(), 100, 0)?;
    let line = "higra: input 10 TooLong at 134217728 value 134217729\n";
    let want = (3, "", line);
    runs(
        &rt,
        rt.alloc(),
        &["tree"],
        &mut source,
        &mut out,
        &mut err,
        want,
    )?;
    assert!(rt; source.left == 11);
    Ok(())
}
