ghost use Rattle.std.specs.Prelude.{◌≡◌, ◌≤◌, IsTrue, length};
ghost use Rattle.pgm_reader.specs.Pgm.{is_picture};

use hg_base::{Edge, FaultKind, InputFault, OutOfMemory, ReadError};
use pgm_reader::{Picture, PictureDecoder, graph_of, is_picture, make_picture, read_picture};
use std::alloc::Global;
use std::process::Abort;
use std::test::*;
use std::thread::Threads;

const LONGEST: usize = 134_217_728;

/// What a decoder answers to an input that comes in pieces of this size.
fn in_pieces(alloc: Global, input: &[u8], size: usize) -> Result<Picture, ReadError>
    requires some { 1 ≤ size }
    requires short { length input.now ≤ 134217728 }
{
    let mut decoder = match PictureDecoder::new(alloc) {
        Ok(decoder) => decoder,
        Err(OutOfMemory) => return Err(ReadError::OutOfMemory),
    };
    let mut at = 0;
    while at < input.len() {
        let end = at + size.min(input.len() - at);
        match decoder.feed(&input[at..end]) {
            Ok(()) => {}
            Err(OutOfMemory) => return Err(ReadError::OutOfMemory),
        }
        at = end;
    }
    decoder.finish()
}

/// What the input gives, whole or in pieces.
fn answer(alloc: Global, input: &[u8], size: usize) -> Result<Picture, ReadError>
    requires picture { IsTrue (is_picture input.now) }
    requires short { length input.now ≤ 134217728 }
{
    if size == 0 {
        read_picture(alloc, input)
    } else {
        in_pieces(alloc, input, size)
    }
}

/// The sizes of the pieces in which each input is read; 0 for the call that reads it whole.
const SIZES: [usize; 4] = [0, 1, 3, LONGEST];

fn assert_picture(rt: &impl Abort, picture: &Picture, width: u32, max: u16, samples: &[u16]) {
    assert!(rt; picture.width() == width);
    assert!(rt; picture.max() == max);
    let height = picture.height();
    assert!(rt; u64::from(width) * u64::from(height) == samples.len() as u64);
    for i in 0..samples.len() {
        assert!(rt; picture.sample(i as u32) == samples[i]);
    }
}

/// Reads the input whole, in bytes, and in pieces of three: it is this picture each time.
fn expect_picture(
    rt: &impl Abort,
    alloc: Global,
    input: &[u8],
    width: u32,
    max: u16,
    samples: &[u16],
) -> Result<(), ReadError> {
    assert!(rt; input.len() <= LONGEST);
    assert!(rt; is_picture(input));
    for size in SIZES {
        let picture = answer(alloc, input, size)?;
        assert_picture(rt, &picture, width, max, samples);
    }
    Ok(())
}

/// Reads the input whole, in bytes, and in pieces of three: it has this fault each time.
fn expect_fault(rt: &impl Abort, alloc: Global, input: &[u8], fault: InputFault) {
    assert!(rt; input.len() <= LONGEST);
    assert!(rt; is_picture(input));
    for size in SIZES {
        let error = answer(alloc, input, size).err();
        assert!(rt; error == Some(ReadError::Fault(fault)));
    }
}

/// First bytes, and whether they are those of a picture.
static FORMS: [(&[u8], bool); 9] = [
    (b"P5", true),
    (b"P5\n", true),
    (b"P5 2", true),
    (b"P5#", true),
    (b"P52", false),
    (b"P2 1 1 9\n", false),
    (b"P", false),
    (b"", false),
    (b" P5 ", false),
];

#[test]
fn forms(rt: HostRuntime) {
    for (first, picture) in FORMS {
        assert!(rt; is_picture(first) == picture);
    }
}

/// Inputs, with the width, the greatest sample and the samples of the picture that they give.
static PICTURES: [(&[u8], u32, u16, &[u16]); 4] = [
    (b"P5\n2 2\n9\n\x00\x03\x03\x09", 2, 9, &[0, 3, 3, 9]),
    (
        b"P5\n# made by an editor\n3 1\n255\n\x0a\x14\x19",
        3,
        255,
        &[10, 20, 25],
    ),
    (b"P5 2 1 256\n\x01\x00\x00\x05", 2, 256, &[256, 5]),
    // A comment ends a token, and its line end still stands as white space.
    (b"P5#a\r2#b\n1#\n9\n\x01\x09", 2, 9, &[1, 9]),
];

#[test]
fn pictures(rt: HostRuntime) -> Result<(), Fail> {
    for (input, width, max, samples) in PICTURES {
        expect_picture(&rt, rt.alloc(), input, width, max, samples)?;
    }
    Ok(())
}

/// Inputs, with the kind of fault, where it is, and its value.
static FAULTS: [(&[u8], FaultKind, u64, u64); 10] = [
    (
        b"P5 2 1 256\n\x01\x01\x00\x05",
        FaultKind::SampleAboveMax,
        11,
        257,
    ),
    (b"P5 2 1 255\n\x07", FaultKind::Truncated, 12, 0),
    (b"P5 2 1 255\n\x07\x08\x09", FaultKind::Trailing, 13, 0),
    (b"P5 2 0 9\n", FaultKind::NoVertex, 5, 0),
    (b"P5 2 2 0\n", FaultKind::BadNumber, 7, 0),
    (b"P5", FaultKind::Truncated, 2, 0),
    (b"P5 2 1 9#c\n\x01\x02", FaultKind::BadNumber, 7, 0),
    (b"P5 1 1 255#c", FaultKind::BadNumber, 7, 0),
    (b"P5 2 524289 9\n", FaultKind::TooLarge, 5, 1_048_578),
    (b"P5 2 1 9\n\x0a", FaultKind::SampleAboveMax, 9, 10),
];

#[test]
fn faults(rt: HostRuntime) {
    for (input, kind, at, value) in FAULTS {
        expect_fault(&rt, rt.alloc(), input, InputFault { kind, at, value });
    }
}

#[test]
fn cut_inputs(rt: HostRuntime) {
    let input = b"P5\n2 2\n9\n\x00\x03\x03\x09";
    for cut in 2..13 {
        let fault = InputFault {
            kind: FaultKind::Truncated,
            at: cut as u64,
            value: 0,
        };
        expect_fault(&rt, rt.alloc(), &input[..cut], fault);
    }
}

#[test]
fn sized_at_the_third_token(rt: HostRuntime) -> Result<(), Fail> {
    let mut decoder = PictureDecoder::new(rt.alloc())?;
    decoder.feed(b"P5 2 1 9")?;
    assert!(rt; !decoder.is_sized());
    decoder.feed(b"\n")?;
    assert!(rt; decoder.is_sized());
    decoder.feed(b"\x01\x02")?;
    assert!(rt; decoder.is_sized());
    assert!(rt; decoder.taken() == 11);
    assert_picture(&rt, &decoder.finish()?, 2, 9, &[1, 2]);
    Ok(())
}

fn assert_edges(
    rt: &(impl Abort + Threads + Sync),
    alloc: Global,
    picture: &Picture,
    edges: &[Edge],
) -> Result<(), OutOfMemory> {
    let graph = graph_of(rt, alloc, picture)?;
    assert!(rt; graph.m() as usize == edges.len());
    for e in 0..graph.m() {
        assert!(rt; graph.edge(e) == edges[e as usize]);
    }
    Ok(())
}

/// The edges of three pictures: a square, a row, and one that is made.
const SQUARE: [Edge; 4] = [
    Edge { u: 0, v: 1, w: 3 },
    Edge { u: 0, v: 2, w: 3 },
    Edge { u: 1, v: 3, w: 6 },
    Edge { u: 2, v: 3, w: 6 },
];

const ROW: [Edge; 1] = [Edge { u: 0, v: 1, w: 251 }];

const MADE: [Edge; 4] = [
    Edge { u: 0, v: 1, w: 34 },
    Edge { u: 0, v: 2, w: 69 },
    Edge { u: 1, v: 3, w: 86 },
    Edge { u: 2, v: 3, w: 51 },
];

#[test]
fn graphs(rt: HostRuntime) -> Result<(), Fail> {
    let alloc = rt.alloc();
    let square = in_pieces(alloc, b"P5\n2 2\n9\n\x00\x03\x03\x09", 3)?;
    assert_edges(&rt, alloc, &square, &SQUARE)?;
    let row = in_pieces(alloc, b"P5 2 1 256\n\x01\x00\x00\x05", 3)?;
    assert_edges(&rt, alloc, &row, &ROW)?;
    let made = make_picture(alloc, 2, 1)?;
    assert_picture(&rt, &made, 2, 255, &[60, 94, 129, 180]);
    Ok(assert_edges(&rt, alloc, &made, &MADE)?)
}
