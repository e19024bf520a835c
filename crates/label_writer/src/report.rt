ghost use Rattle.std.specs.Prelude.{◌≡◌, [], ◌∷◌, length, IfOk};
ghost use Rattle.report_lines.specs.Lines.{value_line};
ghost use Rattle.label_writer.specs.Report.{labels_report};

use hg_base::{Labels, OutOfMemory};
use report_lines::{LineWriter, Lines, Pieces, pieces_of, text_of};
use std::alloc::{AllocError, Global};
use std::thread::Threads;

// The room for a vertex's line: two numbers of at most 7 and 10 digits.
const LABEL_LINE: usize = 19;

/// The report of labels: `labels N REGIONS`, then for each vertex `VERTEX LABEL`. N is the number of vertices and
/// REGIONS that of labels.
pub fn write_labels(alloc: Global, labels: &Labels) -> Result<Vec<u8>, OutOfMemory>
    ensures { IfOk result (λ text. text.items ≡ labels_report labels.now) }
{
    text_of(alloc, "labels", &sizes(labels), &LabelLines { labels })
}

/// The same report in pieces, which threads of their own make where there are many vertices.
pub fn labels_pieces(
    rt: &(impl Threads + Sync),
    alloc: Global,
    labels: &Labels,
) -> Result<Pieces, OutOfMemory>
    ensures { IfOk result (λ pieces. pieces ≡ labels_report labels.now) }
{
    pieces_of(rt, alloc, "labels", &sizes(labels), &LabelLines { labels })
}

// How many vertices and how many labels there are.
fn sizes(labels: &Labels) -> [u64; 2]
    ensures { result ≡ length labels.now.labels ∷ labels.now.count ∷ [] }
{
    [u64::from(labels.len()), u64::from(labels.count())]
}

// A line for each vertex: its number and its label.
#[derive(Clone, Copy)]
struct LabelLines<'a> {
    labels: &'a Labels,
}

impl Lines for LabelLines<'_> {
    ghost count = { λ lines. length lines.labels.now.labels };

    ghost line = { λ lines i. value_line lines.labels.now.labels i };

    fn len(&self) -> usize {
        self.labels.len() as usize
    }

    fn room(&self) -> usize {
        LABEL_LINE
    }

    #[tactic(auto, using(std::proofs::lemmas::Option::get_or_from_slice_get))]
    fn write(&self, text: &mut LineWriter, i: usize) -> Result<(), AllocError> {
        let vertices = self.labels.len() as usize;
        prove!(i < vertices);
        let label = self.labels.label(i as u32);
        text.push_line(&[i as u64, u64::from(label)])
    }
}
