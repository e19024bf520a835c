ghost use Rattle.std.specs.Prelude.{◌≡◌, ◌++◌, length, IfOk, OnOk};
ghost use Rattle.extinction.specs.Report.{extinction_line, extinction_lines, hierarchical_report};

use hg_base::OutOfMemory;
use partition_tree::{Tree, tree_pieces, write_tree};
use report_lines::{LineWriter, Lines, Pieces, text_of};
use std::alloc::{AllocError, Global};
use std::thread::Threads;

// The room for a label's line: two numbers of at most 7 and 20 digits.
const LABEL_LINE: usize = 29;

/// The report of a hierarchical watershed and of the extinctions of its minima, by label: that of the tree, then
/// `extinctions COUNT`, then for each label `LABEL VALUE`.
pub fn write_hierarchical(
    alloc: Global,
    tree: &Tree,
    extinctions: &[u64],
) -> Result<Vec<u8>, OutOfMemory>
    ensures { IfOk result (λ text. text.items ≡ hierarchical_report tree.now extinctions.now) }
{
    let text = write_tree(alloc, tree)?;
    let count = [extinctions.len() as u64];
    let lines = text_of(alloc, "extinctions", &count, &LabelLines { extinctions })?;
    joined(text, &lines).map_err(|_| OutOfMemory)
}

// The text with more at its end.
fn joined(mut text: Vec<u8>, more: &[u8]) -> Result<Vec<u8>, AllocError>
    ensures { IfOk result (λ whole. whole.items ≡ text.items ++ more.now) }
{
    text.extend_from_slice(more)?;
    Ok(text)
}

/// The same report in pieces, which threads of their own make where there are many lines.
pub fn hierarchical_pieces(
    rt: &(impl Threads + Sync),
    alloc: Global,
    tree: &Tree,
    extinctions: &[u64],
) -> Result<Pieces, OutOfMemory>
    ensures { IfOk result (λ pieces. pieces ≡ hierarchical_report tree.now extinctions.now) }
{
    let pieces = tree_pieces(rt, alloc, tree)?;
    with_extinctions(rt, alloc, pieces, extinctions).map_err(|_| OutOfMemory)
}

// The pieces, and behind them the line of the extinctions and one for each label.
fn with_extinctions(
    rt: &(impl Threads + Sync),
    alloc: Global,
    mut pieces: Pieces,
    extinctions: &[u64],
) -> Result<Pieces, AllocError>
    ensures { IfOk result (λ whole. whole ≡ pieces ++ extinction_lines extinctions.now) }
{
    pieces.push_headed_line(alloc, "extinctions", &[extinctions.len() as u64])?;
    pieces.push_lines(rt, alloc, &LabelLines { extinctions })?;
    Ok(pieces)
}

// A line for each label: the label and its extinction.
#[derive(Clone, Copy)]
struct LabelLines<'a> {
    extinctions: &'a [u64],
}

impl Lines for LabelLines<'_> {
    ghost count = { λ lines. length lines.extinctions.now };

    ghost line = { λ lines k. extinction_line lines.extinctions.now k };

    fn len(&self) -> usize {
        self.extinctions.len()
    }

    fn room(&self) -> usize {
        LABEL_LINE
    }

    fn write(&self, text: &mut LineWriter, k: usize) -> Result<(), AllocError> {
        let extinctions = self.extinctions;
        prove!(k < extinctions.len());
        text.push_line(&[k as u64 + 1, extinctions[k]])
    }
}
