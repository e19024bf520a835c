use hg_base::MemSink;
use report_lines::{LineWriter, Lines, Pieces, pieces_of, text_of, write_pieces};
use std::alloc::{AllocError, Global};
use std::io;
use std::process::Abort;
use std::test::Fail;
use std::thread::Threads;

// A line for each number: its place and the number.
#[derive(Clone, Copy)]
struct NumberedLines<'a> {
    numbers: &'a [u64],
}

impl Lines for NumberedLines<'_> {
    ghost use Rattle.std.specs.Prelude.{[], ◌∷◌, get_or, length};
    ghost use Rattle.hg_base.specs.Text.{line};

    ghost count = { λ lines. length lines.numbers.now };

    ghost line = { λ lines i. line (i ∷ get_or lines.numbers.now i 0 ∷ []) };

    fn len(&self) -> usize {
        self.numbers.len()
    }

    fn room(&self) -> usize {
        12
    }

    fn write(&self, text: &mut LineWriter, i: usize) -> Result<(), AllocError> {
        text.push_line(&[i as u64, self.numbers[i]])
    }
}

fn assert_text(rt: &(impl Abort + Threads + Sync), alloc: Global, numbers: &[u64], text: &str) {
    let lines = NumberedLines { numbers };
    let whole = text_of(alloc, "rows", &[3], &lines).expect(rt, "ample memory");
    assert_eq!(rt; whole.as_slice(), text.as_bytes());
    let pieces = pieces_of(rt, alloc, "rows", &[3], &lines).expect(rt, "ample memory");
    let joined = pieces.joined(alloc).expect(rt, "ample memory");
    assert_eq!(rt; joined.as_slice(), text.as_bytes());
}

#[test]
fn texts(rt: HostRuntime) {
    assert_text(&rt, rt.alloc(), &[], "rows 3\n");
    assert_text(&rt, rt.alloc(), &[7, 10, 99], "rows 3\n0 7\n1 10\n2 99\n");
    let numbers = &[18_446_744_073_709_551_615, 0, 10_000];
    let text = "rows 3\n0 18446744073709551615\n1 0\n2 10000\n";
    assert_text(&rt, rt.alloc(), numbers, text);
}

// A sink takes these pieces whole, and then has the text.
fn assert_taken(rt: &impl Abort, alloc: Global, pieces: &Pieces, text: &[u8]) {
    let mut sink = MemSink::with_room(alloc, 1_000_000, 1_000, Vec::new(alloc)).expect(
        rt,
        "ample memory",
    );
    write_pieces(&mut sink, pieces).expect(rt, "room for all");
    assert_eq!(rt; sink.taken(), text);
}

// Thirty thousand lines `NUMBER 18446744073709551615`: 10 of 23 bytes, 90 of 24, 900 of 25, 9,000 of 26 and 20,000 of 27.
#[test]
fn many_lines(rt: HostRuntime) {
    let numbers = Vec::from_elem(rt.alloc(), u64::MAX, 30_000).expect(&rt, "ample memory");
    let lines = NumberedLines { numbers: &numbers };
    let whole = text_of(rt.alloc(), "rows", &[30_000], &lines).expect(&rt, "ample memory");
    assert_eq!(&rt; whole.len(), 11 + 230 + 2_160 + 22_500 + 234_000 + 540_000);
    let pieces = pieces_of(&rt, rt.alloc(), "rows", &[30_000], &lines).expect(&rt, "ample memory");
    assert_taken(&rt, rt.alloc(), &pieces, &whole);
}

// Writing these pieces to the sink fails, and the sink then has their first bytes.
fn assert_cut_off(rt: &impl Abort, mut sink: MemSink, pieces: &Pieces, front: &[u8]) {
    assert!(rt; write_pieces(&mut sink, pieces).is_err());
    assert_eq!(rt; sink.taken(), front);
}

#[test]
fn a_sink_that_is_full_has_the_first_bytes(rt: HostRuntime) -> Result<(), Fail> {
    let mut pieces = Pieces::of(rt.alloc(), b"ab".to_vec(rt.alloc())?)?;
    pieces.push(b"cde".to_vec(rt.alloc())?)?;
    let sink = MemSink::with_room(rt.alloc(), 4, 3, Vec::new(rt.alloc()))?;
    assert_cut_off(&rt, sink, &pieces, b"abcd");
    Ok(())
}

// The sink takes four bytes a call, and one of its calls fails.
#[test]
fn a_small_report_is_written_as_one_piece(rt: HostRuntime) {
    let lines = NumberedLines {
        numbers: &[7, 10, 99],
    };
    let text = b"rows 3\n0 7\n1 10\n2 99\n";
    let pieces = pieces_of(&rt, rt.alloc(), "rows", &[3], &lines).expect(&rt, "ample memory");
    for call in 1..7 {
        let fails = Vec::from_elem(rt.alloc(), call, 1).expect(&rt, "ample memory");
        let sink = MemSink::with_room(rt.alloc(), 100, 4, fails).expect(&rt, "ample memory");
        assert_cut_off(&rt, sink, &pieces, &text[..4 * (call as usize - 1)]);
    }
}
