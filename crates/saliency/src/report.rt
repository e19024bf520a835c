ghost use Rattle.std.specs.Prelude.{◌≡◌, length, IfOk};
ghost use Rattle.report_lines.specs.Lines.{value_line};
ghost use Rattle.saliency.specs.Report.{saliency_report};

use hg_base::OutOfMemory;
use report_lines::{LineWriter, Lines, Pieces, pieces_of, text_of};
use std::alloc::{AllocError, Global};
use std::thread::Threads;

// The room for an edge's line: two numbers of at most 7 and 20 digits.
const VALUE_LINE: usize = 29;

/// The report of saliencies: `saliency M`, then for each edge `NUMBER VALUE`.
pub fn write_saliency(alloc: Global, values: &[u64]) -> Result<Vec<u8>, OutOfMemory>
    ensures { IfOk result (λ text. text.items ≡ saliency_report values.now) }
{
    let count = [values.len() as u64];
    text_of(alloc, "saliency", &count, &ValueLines { values })
}

/// The same report in pieces, which threads of their own make where there are many edges.
pub fn saliency_pieces(
    rt: &(impl Threads + Sync),
    alloc: Global,
    values: &[u64],
) -> Result<Pieces, OutOfMemory>
    ensures { IfOk result (λ pieces. pieces ≡ saliency_report values.now) }
{
    let count = [values.len() as u64];
    pieces_of(rt, alloc, "saliency", &count, &ValueLines { values })
}

// A line for each edge: its number and its value.
#[derive(Clone, Copy)]
struct ValueLines<'a> {
    values: &'a [u64],
}

impl Lines for ValueLines<'_> {
    ghost count = { λ lines. length lines.values.now };

    ghost line = { λ lines i. value_line lines.values.now i };

    fn len(&self) -> usize {
        self.values.len()
    }

    fn room(&self) -> usize {
        VALUE_LINE
    }

    fn write(&self, text: &mut LineWriter, i: usize) -> Result<(), AllocError> {
        text.push_line(&[i as u64, self.values[i]])
    }
}
