ghost use Rattle.std.specs.Prelude.{◌≡◌, ◌*◌, ◌+◌, ◌^◌, ◌/◌, ◌%◌, ◌≤◌, IfOk};
ghost use Rattle.pgm_reader.specs.Generator.{next_state, samples_after, made};

use crate::picture::Picture;
use hg_base::OutOfMemory;
use std::alloc::{AllocError, Global};

/// The next state of the linear congruential generator.
fn next_state(x: u32) -> u32
    ensures { result ≡ next_state x }
{
    x.wrapping_mul(1_664_525).wrapping_add(1_013_904_223)
}

fn samples(alloc: Global, count: u32, seed: u32) -> Result<Vec<u16>, AllocError>
    ensures { IfOk result (λ v. v.items ≡ samples_after count seed) }
{
    let mut samples = Vec::with_capacity(alloc, count as usize)?;
    let mut x = seed;
    for _ in 0..count {
        x = next_state(x);
        samples.push((x >> 24) as u16)?;
    }
    Ok(samples)
}

fn made(alloc: Global, side: u32, seed: u32) -> Result<Picture, AllocError>
    requires some { 1 ≤ side }
    requires most { side ≤ 1024 }
    ensures { IfOk result (λ p. p ≡ made side seed) }
{
    let samples = samples(alloc, side * side, seed)?;
    Ok(Picture::new(side, side, 255, samples))
}

/// The square picture of this side, from 1 to 1,024, and this seed. The greatest value is 255, and each sample is the
/// highest byte of the next state of a linear congruential generator. The error is want of memory.
pub fn make_picture(alloc: Global, side: u32, seed: u32) -> Result<Picture, OutOfMemory>
    requires some { 1 ≤ side }
    requires most { side ≤ 1024 }
    ensures { IfOk result (λ p. p ≡ made side seed) }
{
    made(alloc, side, seed).map_err(|_| OutOfMemory)
}
