ghost use Rattle.std.specs.Prelude.{◌≡◌, ◌<◌, ◌≤◌, ◌++◌, length, IfOk};
ghost use Rattle.hg_base.specs.Text.{headed_line};
ghost use Rattle.report_lines.specs.Lines.{lines_from};

use crate::lines::Lines;
use crate::pieces::Pieces;
use crate::writer::LineWriter;
use hg_base::OutOfMemory;
use std::alloc::{AllocError, Global};
use std::thread::Threads;

/// The report of a line that begins with a word, with one to six numbers after it, and then of these lines. The error is
/// want of memory.
pub fn text_of<L: Lines>(
    alloc: Global,
    word: &str,
    numbers: &[u64],
    lines: &L,
) -> Result<Vec<u8>, OutOfMemory>
    requires some { 0 < length numbers.now }
    requires few { length numbers.now ≤ 6 }
    ensures { IfOk result (λ text. text.items ≡ headed_line word.now numbers.now ++ lines_from (L.line lines.now) 0 (L.count lines.now)) }
{
    headed_text(alloc, word, numbers, lines).map_err(|_| OutOfMemory)
}

fn headed_text<L: Lines>(
    alloc: Global,
    word: &str,
    numbers: &[u64],
    lines: &L,
) -> Result<Vec<u8>, AllocError>
    requires some { 0 < length numbers.now }
    requires few { length numbers.now ≤ 6 }
    ensures { IfOk result (λ text. text.items ≡ headed_line word.now numbers.now ++ lines_from (L.line lines.now) 0 (L.count lines.now)) }
{
    let mut text = LineWriter::new(alloc);
    text.push_headed_line(word, numbers)?;
    text.push_lines(lines)?;
    Ok(text.into_text())
}

/// The same report in pieces, which threads of their own make where there are many lines. The error is want of memory.
pub fn pieces_of<L: Lines>(
    rt: &(impl Threads + Sync),
    alloc: Global,
    word: &str,
    numbers: &[u64],
    lines: &L,
) -> Result<Pieces, OutOfMemory>
    requires some { 0 < length numbers.now }
    requires few { length numbers.now ≤ 6 }
    ensures { IfOk result (λ pieces. pieces ≡ headed_line word.now numbers.now ++ lines_from (L.line lines.now) 0 (L.count lines.now)) }
{
    headed_pieces(rt, alloc, word, numbers, lines).map_err(|_| OutOfMemory)
}

fn headed_pieces<L: Lines>(
    rt: &(impl Threads + Sync),
    alloc: Global,
    word: &str,
    numbers: &[u64],
    lines: &L,
) -> Result<Pieces, AllocError>
    requires some { 0 < length numbers.now }
    requires few { length numbers.now ≤ 6 }
    ensures { IfOk result (λ pieces. pieces ≡ headed_line word.now numbers.now ++ lines_from (L.line lines.now) 0 (L.count lines.now)) }
{
    let mut pieces = Pieces::new(alloc);
    pieces.push_headed_line(alloc, word, numbers)?;
    pieces.push_lines(rt, alloc, lines)?;
    Ok(pieces)
}
