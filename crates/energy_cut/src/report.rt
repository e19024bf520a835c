ghost use Rattle.std.specs.Prelude.{◌≡◌, ◌<◌, [], ◌∷◌, ◌++◌, All, codes, decimal, length, IfOk, OnOk};
ghost use Rattle.std.specs.List.{flat_map};
ghost use Rattle.hg_base.specs.Text.{line, headed_line};
ghost use Rattle.energy_cut.specs.Report.{energy_line, energy_report};

use crate::cuts::EnergyCut;
use hg_base::OutOfMemory;
use itoa::Buffer;
use report_lines::{HeadedLabels, LineWriter, Pieces};
use std::alloc::{AllocError, Global};
use std::thread::Threads;

/// The report of a cut and of the energies of which it was made: `energy N REGIONS SUM`, then for each node of the cut
/// `node NODE ENERGY`, then for each vertex `v VERTEX LABEL`.
pub fn write_energy(
    alloc: Global,
    cut: &EnergyCut,
    energies: &[u128],
) -> Result<Vec<u8>, OutOfMemory>
    requires { All (λ i. i < length energies.now) cut.now.nodes }
    ensures { IfOk result (λ text. text.items ≡ energy_report cut.now energies.now) }
{
    written(alloc, cut, energies).map_err(|_| OutOfMemory)
}

fn written(alloc: Global, cut: &EnergyCut, energies: &[u128]) -> Result<Vec<u8>, AllocError>
    requires { All (λ i. i < length energies.now) cut.now.nodes }
    ensures { IfOk result (λ text. text.items ≡ energy_report cut.now energies.now) }
{
    let mut text = nodes_text(alloc, cut, energies)?;
    let mut vertices = LineWriter::new(alloc);
    vertices.push_lines(&HeadedLabels {
        word: "v",
        labels: cut.labels(),
    })?;
    text.extend_from_slice(&vertices.into_text())?;
    Ok(text)
}

/// The same report in pieces, which threads of their own make where there are many vertices.
pub fn energy_pieces(
    rt: &(impl Threads + Sync),
    alloc: Global,
    cut: &EnergyCut,
    energies: &[u128],
) -> Result<Pieces, OutOfMemory>
    requires { All (λ i. i < length energies.now) cut.now.nodes }
    ensures { IfOk result (λ pieces. pieces ≡ energy_report cut.now energies.now) }
{
    in_pieces(rt, alloc, cut, energies).map_err(|_| OutOfMemory)
}

fn in_pieces(
    rt: &(impl Threads + Sync),
    alloc: Global,
    cut: &EnergyCut,
    energies: &[u128],
) -> Result<Pieces, AllocError>
    requires { All (λ i. i < length energies.now) cut.now.nodes }
    ensures { IfOk result (λ pieces. pieces ≡ energy_report cut.now energies.now) }
{
    let mut pieces = Pieces::of(alloc, nodes_text(alloc, cut, energies)?)?;
    pieces.push_lines(
        rt,
        alloc,
        &HeadedLabels {
            word: "v",
            labels: cut.labels(),
        },
    )?;
    Ok(pieces)
}

// The line of the report, and one for each node of the cut.
fn nodes_text(alloc: Global, cut: &EnergyCut, energies: &[u128]) -> Result<Vec<u8>, AllocError>
    requires { All (λ i. i < length energies.now) cut.now.nodes }
    ensures { IfOk result (λ text. text.items ≡ headed_line (codes "energy") (length cut.now.labels.labels ∷ cut.now.labels.count ∷ cut.now.sum ∷ []) ++ flat_map (energy_line energies.now) cut.now.nodes) }
{
    let labels = cut.labels();
    let sizes = [
        u128::from(labels.len()),
        u128::from(labels.count()),
        cut.sum(),
    ];
    let mut text = Vec::new(alloc);
    push_wide_line(&mut text, "energy", &sizes)?;
    push_nodes(&mut text, cut.nodes(), energies)?;
    Ok(text)
}

// Appends a line for each node with its energy.
fn push_nodes(text: &mut Vec<u8>, nodes: &[u32], energies: &[u128]) -> Result<(), AllocError>
    requires { All (λ i. i < length energies.now) nodes.now }
    ensures { OnOk result (text.new.items ≡ text.old.items ++ flat_map (energy_line energies.now) nodes.now) }
{
    for i in nodes {
        push_wide_line(text, "node", &[u128::from(*i), energies[*i as usize]])?;
    }
    Ok(())
}

// Appends a line that begins with a word, with the numbers after it.
fn push_wide_line(text: &mut Vec<u8>, word: &str, numbers: &[u128]) -> Result<(), AllocError>
    ensures { OnOk result (text.new.items ≡ text.old.items ++ headed_line word.now numbers.now) }
{
    text.extend_from_slice(word.as_bytes())?;
    text.push(b' ')?;
    push_numbers(text, numbers)
}

// Appends the numbers of a line, one space between, one line feed at the end.
fn push_numbers(text: &mut Vec<u8>, numbers: &[u128]) -> Result<(), AllocError>
    ensures { OnOk result (text.new.items ≡ text.old.items ++ line numbers.now) }
{
    for (place, number) in numbers.iter().enumerate() {
        if 0 < place {
            text.push(b' ')?;
        }
        push_number(text, *number)?;
    }
    text.push(b'\n')?;
    Ok(())
}

// Appends a number in plain decimal.
fn push_number(text: &mut Vec<u8>, number: u128) -> Result<(), AllocError>
    ensures { OnOk result (text.new.items ≡ text.old.items ++ decimal number) }
{
    let mut buffer = Buffer::new();
    text.extend_from_slice(buffer.format(number).as_bytes())
}
