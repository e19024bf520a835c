ghost use Rattle.std.specs.Prelude.{◌≡◌, [], ◌∷◌, codes, get_or, length, IfOk};
ghost use Rattle.hg_base.specs.Text.{headed_line};
ghost use Rattle.report_lines.specs.Lines.{headed_value_line};
ghost use Rattle.watershed_cut.specs.Report.{minima_report, watershed_report};

use crate::cuts::Watershed;
use crate::minima::Minima;
use hg_base::OutOfMemory;
use report_lines::{HeadedLabels, LineWriter, Lines, Pieces};
use std::alloc::{AllocError, Global};
use std::thread::Threads;

// The room for a line with a label, and for one without: words of at most 1 and 6 letters, and numbers of at most 10 digits.
const LABEL_LINE: usize = 24;

const NUMBER_LINE: usize = 18;

/// The report of minima: `minima COUNT N M`, then for each vertex `v VERTEX LABEL`, then for each edge `e EDGE LABEL`.
pub fn write_minima(alloc: Global, minima: &Minima) -> Result<Vec<u8>, OutOfMemory>
    ensures { IfOk result (λ text. text.items ≡ minima_report minima.now) }
{
    minima_text(alloc, minima).map_err(|_| OutOfMemory)
}

fn minima_text(alloc: Global, minima: &Minima) -> Result<Vec<u8>, AllocError>
    ensures { IfOk result (λ text. text.items ≡ minima_report minima.now) }
{
    let mut text = LineWriter::new(alloc);
    text.push_headed_line("minima", &minima_sizes(minima))?;
    text.push_lines(&LabelLines {
        word: "v",
        labels: minima.vertex_labels(),
    })?;
    text.push_lines(&LabelLines {
        word: "e",
        labels: minima.edge_labels(),
    })?;
    Ok(text.into_text())
}

/// The same report in pieces, which threads of their own make where there are many lines.
pub fn minima_pieces(
    rt: &(impl Threads + Sync),
    alloc: Global,
    minima: &Minima,
) -> Result<Pieces, OutOfMemory>
    ensures { IfOk result (λ pieces. pieces ≡ minima_report minima.now) }
{
    pieces_of_minima(rt, alloc, minima).map_err(|_| OutOfMemory)
}

fn pieces_of_minima(
    rt: &(impl Threads + Sync),
    alloc: Global,
    minima: &Minima,
) -> Result<Pieces, AllocError>
    ensures { IfOk result (λ pieces. pieces ≡ minima_report minima.now) }
{
    let mut pieces = Pieces::new(alloc);
    pieces.push_headed_line(alloc, "minima", &minima_sizes(minima))?;
    pieces.push_lines(
        rt,
        alloc,
        &LabelLines {
            word: "v",
            labels: minima.vertex_labels(),
        },
    )?;
    pieces.push_lines(
        rt,
        alloc,
        &LabelLines {
            word: "e",
            labels: minima.edge_labels(),
        },
    )?;
    Ok(pieces)
}

// How many minima, vertices and edges there are.
fn minima_sizes(minima: &Minima) -> [u64; 3]
    ensures { result ≡ minima.now.count ∷ length minima.now.vertices ∷ length minima.now.edges ∷ [] }
{
    [
        u64::from(minima.count()),
        minima.vertex_labels().len() as u64,
        minima.edge_labels().len() as u64,
    ]
}

/// The report of a watershed cut, of minima and of the forest's weight: `watershed N COUNT CUTS FORESTS WEIGHT`, then for
/// each vertex `v VERTEX LABEL`, for each cut edge `cut EDGE`, and for each edge of the forest `forest EDGE`.
pub fn write_watershed(
    alloc: Global,
    watershed: &Watershed,
    minima: &Minima,
    weight: u64,
) -> Result<Vec<u8>, OutOfMemory>
    ensures { IfOk result (λ text. text.items ≡ watershed_report watershed.now minima.now.count weight) }
{
    watershed_text(alloc, watershed, minima, weight).map_err(|_| OutOfMemory)
}

#[tactic(auto, using(report_lines::proofs::LineForms::lines_of_list))]
fn watershed_text(
    alloc: Global,
    watershed: &Watershed,
    minima: &Minima,
    weight: u64,
) -> Result<Vec<u8>, AllocError>
    ensures { IfOk result (λ text. text.items ≡ watershed_report watershed.now minima.now.count weight) }
{
    let mut text = LineWriter::new(alloc);
    text.push_headed_line("watershed", &watershed_sizes(watershed, minima, weight))?;
    text.push_lines(&HeadedLabels {
        word: "v",
        labels: watershed.labels(),
    })?;
    text.push_lines(&NumberLines {
        word: "cut",
        numbers: watershed.cut(),
    })?;
    text.push_lines(&NumberLines {
        word: "forest",
        numbers: watershed.forest(),
    })?;
    Ok(text.into_text())
}

/// The same report in pieces, which threads of their own make where there are many lines.
pub fn watershed_pieces(
    rt: &(impl Threads + Sync),
    alloc: Global,
    watershed: &Watershed,
    minima: &Minima,
    weight: u64,
) -> Result<Pieces, OutOfMemory>
    ensures { IfOk result (λ pieces. pieces ≡ watershed_report watershed.now minima.now.count weight) }
{
    pieces_of_watershed(rt, alloc, watershed, minima, weight).map_err(|_| OutOfMemory)
}

#[tactic(auto, using(report_lines::proofs::LineForms::lines_of_list))]
fn pieces_of_watershed(
    rt: &(impl Threads + Sync),
    alloc: Global,
    watershed: &Watershed,
    minima: &Minima,
    weight: u64,
) -> Result<Pieces, AllocError>
    ensures { IfOk result (λ pieces. pieces ≡ watershed_report watershed.now minima.now.count weight) }
{
    let sizes = watershed_sizes(watershed, minima, weight);
    let mut pieces = Pieces::new(alloc);
    pieces.push_headed_line(alloc, "watershed", &sizes)?;
    pieces.push_lines(
        rt,
        alloc,
        &HeadedLabels {
            word: "v",
            labels: watershed.labels(),
        },
    )?;
    pieces.push_lines(
        rt,
        alloc,
        &NumberLines {
            word: "cut",
            numbers: watershed.cut(),
        },
    )?;
    pieces.push_lines(
        rt,
        alloc,
        &NumberLines {
            word: "forest",
            numbers: watershed.forest(),
        },
    )?;
    Ok(pieces)
}

// How many vertices, minima, cut edges and forest edges there are, and the weight of the forest.
fn watershed_sizes(watershed: &Watershed, minima: &Minima, weight: u64) -> [u64; 5]
    ensures { result ≡ length watershed.now.labels.labels ∷ minima.now.count ∷ length watershed.now.cut ∷ length watershed.now.forest ∷ weight ∷ [] }
{
    [
        u64::from(watershed.labels().len()),
        u64::from(minima.count()),
        watershed.cut().len() as u64,
        watershed.forest().len() as u64,
        weight,
    ]
}

// A line for each label: the word, its number and the label.
#[derive(Clone, Copy)]
struct LabelLines<'a> {
    word: &'a str,
    labels: &'a [u32],
}

impl Lines for LabelLines<'_> {
    ghost count = { λ lines. length lines.labels.now };

    ghost line = { λ lines i. headed_value_line lines.word.now lines.labels.now i };

    fn len(&self) -> usize {
        self.labels.len()
    }

    fn room(&self) -> usize {
        LABEL_LINE
    }

    fn write(&self, text: &mut LineWriter, i: usize) -> Result<(), AllocError> {
        text.push_headed_line(self.word, &[i as u64, u64::from(self.labels[i])])
    }
}

// A line for each number: the word and the number.
#[derive(Clone, Copy)]
struct NumberLines<'a> {
    word: &'a str,
    numbers: &'a [u32],
}

impl Lines for NumberLines<'_> {
    ghost count = { λ lines. length lines.numbers.now };

    ghost line = { λ lines i. headed_line lines.word.now (get_or lines.numbers.now i 0 ∷ []) };

    fn len(&self) -> usize {
        self.numbers.len()
    }

    fn room(&self) -> usize {
        NUMBER_LINE
    }

    fn write(&self, text: &mut LineWriter, i: usize) -> Result<(), AllocError> {
        text.push_headed_line(self.word, &[u64::from(self.numbers[i])])
    }
}
