ghost use Rattle.std.specs.Prelude.{◌≡◌, ◌*◌, ◌/◌, ◌%◌, ◌<◌, ◌≤◌, [], ◌∷◌, ◌++◌, All, IfOk, OnOk, length, map, slice_index};
ghost use Rattle.std.specs.List.{flat_map};
ghost use Rattle.hg_base.specs.Samples.{sample_bytes};
ghost use Rattle.contour_map.specs.Report.{contours_picture, samples_of};
ghost use Rattle.contour_map.specs.Scaling.{scaled, greatest_sample};

use crate::map::ContourMap;
use crate::scaling::{greatest_sample, highest, sample};
use hg_base::OutOfMemory;
use label_writer::{push_header, push_sample};
use rayon::prelude::*;
use std::alloc::{AllocError, Global};
use std::thread::Threads;

// A sample has one byte where the greatest value is below this, else two.
const TWO_BYTES_FROM: u32 = 256;

/// The map as a picture in the binary form P5 of Netpbm's PGM format: its points are the pixels. Where a value is above
/// 65,535, all are scaled by the highest to at most 65,535, and rounded up. The greatest value of the picture is the highest
/// sample, or 1 where all are 0. The error is want of memory.
pub fn write_contours(alloc: Global, map: &ContourMap) -> Result<Vec<u8>, OutOfMemory>
    ensures { IfOk result (λ bytes. bytes.items ≡ contours_picture map.now) }
{
    picture(alloc, map.columns, map.rows, &map.points).map_err(|_| OutOfMemory)
}

/// The same picture, whose samples are made in as many threads as can be had.
pub fn write_contours_in_threads(
    rt: &(impl Threads + Sync),
    alloc: Global,
    map: &ContourMap,
) -> Result<Vec<u8>, OutOfMemory>
    ensures { IfOk result (λ bytes. bytes.items ≡ contours_picture map.now) }
{
    picture_in_threads(rt, alloc, map.columns, map.rows, &map.points).map_err(|_| OutOfMemory)
}

// The picture of so many columns and rows of points.
fn picture(alloc: Global, columns: u32, rows: u32, points: &[u64]) -> Result<Vec<u8>, AllocError>
    ensures { IfOk result (λ bytes. bytes.items ≡ contours_picture (record { columns = columns; rows = rows; points = points.now })) }
{
    let high = highest(points);
    let mut bytes = Vec::new(alloc);
    push_header(&mut bytes, columns, rows, greatest_sample(high))?;
    push_samples(&mut bytes, high, points)?;
    Ok(bytes)
}

// Appends the samples of the points, of which this is the highest value.
fn push_samples(bytes: &mut Vec<u8>, high: u64, points: &[u64]) -> Result<(), AllocError>
    requires { All (λ p. p ≤ high) points.now }
    ensures { OnOk result (bytes.new.items ≡ bytes.old.items ++ flat_map (sample_bytes (greatest_sample high)) (map (scaled high) points.now)) }
{
    bytes.reserve(points.len())?;
    let greatest = greatest_sample(high);
    for point in points {
        push_sample(bytes, greatest, sample(high, *point))?;
    }
    Ok(())
}

// The same picture, whose samples are made in threads.
fn picture_in_threads(
    rt: &(impl Threads + Sync),
    alloc: Global,
    columns: u32,
    rows: u32,
    points: &[u64],
) -> Result<Vec<u8>, AllocError>
    ensures { IfOk result (λ bytes. bytes.items ≡ contours_picture (record { columns = columns; rows = rows; points = points.now })) }
{
    let high = highest(points);
    let mut bytes = Vec::new(alloc);
    push_header(&mut bytes, columns, rows, greatest_sample(high))?;
    append_samples(rt, &mut bytes, high, points)?;
    Ok(bytes)
}

// Appends the samples of the points, of which this is the highest value.
fn append_samples(
    rt: &(impl Threads + Sync),
    bytes: &mut Vec<u8>,
    high: u64,
    points: &[u64],
) -> Result<(), AllocError>
    requires { All (λ p. p ≤ high) points.now }
    ensures { OnOk result (bytes.new.items ≡ bytes.old.items ++ samples_of high points.now) }
{
    let start = bytes.len();
    bytes.resize(start + byte_count(high, points), 0)?;
    let (_, samples) = bytes.split_at_mut(start);
    fill(rt, high, points, samples);
    Ok(())
}

// Puts each byte of the samples of the points in its place.
fn fill(rt: &(impl Threads + Sync), high: u64, points: &[u64], samples: &mut [u8])
    requires high { All (λ p. p ≤ high) points.now }
    requires all { length samples.old ≡ length (samples_of high points.now) }
    ensures { samples.new ≡ samples_of high points.now }
{
    par_for_each_mut(
        rt,
        samples,
        |i: usize, place: &mut u8|
            requires { All (λ p. p ≤ high) points.now × (i < length (samples_of high points.now)) }
            ensures { place.new ≡ slice_index (samples_of high points.entry.now) i }
        {
            *place = byte_at(high, points, i);
        },
    );
}

// How many bytes the samples of the points have.
fn byte_count(high: u64, points: &[u64]) -> usize
    ensures count { result ≡ length (samples_of high points.now) }
    ensures few { result ≤ 2 * length points.now }
{
    if greatest_sample(high) < TWO_BYTES_FROM {
        points.len()
    } else {
        2 * points.len()
    }
}

// Byte i of the samples of the points, of which this is the highest value.
fn byte_at(high: u64, points: &[u64], i: usize) -> u8
    requires high { All (λ p. p ≤ high) points.now }
    requires within { i < length (samples_of high points.now) }
    ensures { result ≡ slice_index (samples_of high points.now) i }
{
    if greatest_sample(high) < TWO_BYTES_FROM {
        sample(high, points[i]) as u8
    } else {
        half_of(sample(high, points[i / 2]), i % 2)
    }
}

// The first byte of a sample of two bytes, or the second.
fn half_of(sample: u32, half: usize) -> u8
    requires sample { sample ≤ 65535 }
    requires half { half < 2 }
    ensures { result ≡ slice_index (sample / 256 ∷ sample % 256 ∷ []) half }
{
    if half == 0 {
        (sample / 256) as u8
    } else {
        (sample % 256) as u8
    }
}
