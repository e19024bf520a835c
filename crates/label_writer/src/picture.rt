ghost use Rattle.std.specs.Prelude.{◌≡◌, ◌↔◌, ℕ, ◌*◌, ◌<◌, ◌≤◌, ◌++◌, length, Err, IfOk, OnOk};
ghost use Rattle.std.specs.List.{flat_map};
ghost use Rattle.hg_base.specs.Samples.{sample_bytes};
ghost use Rattle.label_writer.specs.Report.{header, labels_picture};

use hg_base::{Labels, push_line};
use std::alloc::{AllocError, Global};

// The most labels of a picture: their number is its greatest value, and a sample has at most two bytes.
const MOST_LABELS: u32 = 65_535;

// A sample has one byte where the greatest value is below this, else two.
const TWO_BYTES_FROM: u32 = 256;

// The room for the header: the form, a width and a height of at most 7 digits each, and a count of at most 5.
const HEADER: usize = 25;

/// Why labels weren't written as a picture.
#[derive(Clone, Copy, Debug, PartialEq, Eq)]
pub enum LabelFault {
    /// There are so many labels, more than 65,535.
    TooManyLabels(u32),
    /// There was no memory left for the picture.
    OutOfMemory,
}

/// The labels as a picture in the binary form P5 of Netpbm's PGM format: the samples are the labels, rows from the top,
/// pixels from the left, and the greatest value is the number of labels. Width and height are in pixels. The answer is
/// TooManyLabels, with their number, exactly where there are more than 65,535, and OutOfMemory only where there aren't.
pub fn write_pgm(
    alloc: Global,
    labels: &Labels,
    width: u32,
    height: u32,
) -> Result<Vec<u8>, LabelFault>
    requires some_width { 1 ≤ width }
    requires some_height { 1 ≤ height }
    requires pixels { width * height ≡ length labels.now.labels }
    ensures picture { IfOk result (λ bytes. bytes.items ≡ labels_picture labels.now width height) }
    ensures too_many { (result ≡ Err (LabelFault.TooManyLabels labels.now.count)) ↔ (65535 < labels.now.count) }
    ensures how_many { (n : ℕ) → result ≡ Err (LabelFault.TooManyLabels n) → n ≡ labels.now.count }
{
    if labels.count() > MOST_LABELS {
        return Err(LabelFault::TooManyLabels(labels.count()));
    }
    picture(alloc, labels, width, height).map_err(|_| LabelFault::OutOfMemory)
}

fn picture(alloc: Global, labels: &Labels, width: u32, height: u32) -> Result<Vec<u8>, AllocError>
    requires { labels.now.count ≤ 65535 }
    ensures { IfOk result (λ bytes. bytes.items ≡ labels_picture labels.now width height) }
{
    let samples = labels.len() as usize * sample_size(labels.count());
    let mut bytes = Vec::with_capacity(alloc, HEADER + samples)?;
    push_header(&mut bytes, width, height, labels.count())?;
    push_samples(&mut bytes, labels)?;
    Ok(bytes)
}

// How many bytes a sample has in a picture of this greatest value.
fn sample_size(greatest: u32) -> usize
    ensures { result ≤ 2 }
{
    if greatest < TWO_BYTES_FROM { 1 } else { 2 }
}

/// Appends the header of a picture of this width and height in pixels and of this greatest value. Where there is no memory
/// left the bytes may end in a part of it.
pub fn push_header(
    bytes: &mut Vec<u8>,
    width: u32,
    height: u32,
    greatest: u32,
) -> Result<(), AllocError>
    ensures { OnOk result (bytes.new.items ≡ bytes.old.items ++ header width height greatest) }
{
    bytes.extend_from_slice(b"P5\n")?;
    push_line(bytes, &[u64::from(width), u64::from(height)])?;
    push_line(bytes, &[u64::from(greatest)])
}

// Appends the labels as samples.
fn push_samples(bytes: &mut Vec<u8>, labels: &Labels) -> Result<(), AllocError>
    requires { labels.now.count ≤ 65535 }
    ensures { OnOk result (bytes.new.items ≡ bytes.old.items ++ flat_map (sample_bytes labels.now.count) labels.now.labels) }
{
    for v in 0..labels.len() {
        push_sample(bytes, labels.count(), labels.label(v))?;
    }
    Ok(())
}

/// Appends a sample of a picture of this greatest value. Where there is no memory left the bytes may end in its first byte.
pub fn push_sample(bytes: &mut Vec<u8>, greatest: u32, sample: u32) -> Result<(), AllocError>
    requires up_to_greatest { sample ≤ greatest }
    requires two_bytes { greatest ≤ 65535 }
    ensures { OnOk result (bytes.new.items ≡ bytes.old.items ++ sample_bytes greatest sample) }
{
    if greatest < TWO_BYTES_FROM {
        bytes.push(sample as u8)?;
    } else {
        bytes.push((sample / 256) as u8)?;
        bytes.push((sample % 256) as u8)?;
    }
    Ok(())
}
